ghost use Rattle.std.specs.Prelude.{◌≡◌, ◌<◌, ◌≤◌, ◌+◌, ◌*◌, ◌++◌, ◌↔◌, IfOk, IsTrue, if◌then◌else◌, length, take, drop};
ghost use Rattle.std.specs.Int.{to_be_bytes, w64};
ghost use Rattle.csn_bits.specs.Octets.{bits_of_octets};
ghost use Rattle.csn_judge.specs.Blocks.{AreOfBlock, IsFresh, bits_of};
ghost use Rattle.csn_soak.specs.declared.soaking.TheConstants.{MOST_BLOCKS};
ghost use Rattle.csn_soak.specs.Generator.{is_cut};
ghost use Rattle.csn_soak.specs.Soaking.{IsSoaked, IsString};

use crate::generator::next;
use crate::template::Template;
use csn_bits::NoMemory;
use csn_catalogue::{Entry, Sample, sample_of};
use csn_certify::Plan;
use csn_judge::{Judge, Judged, Piece, judge_next};
use std::alloc::Global;

/// The most blocks of a run.
pub const MOST_BLOCKS: u32 = 1_000_000;

/// Each so many blocks one is cut to its first bit.
const CUT_EVERY: u32 = 16;

/// What came of some blocks.
#[derive(Clone, Copy, Debug, Drop, PartialEq, Eq)]
pub struct Soaked {
    /// How many are strings of the entry.
    pub ok: u32,
    /// How many are not.
    pub refused: u32,
    /// How many bits all of them have.
    pub bits: u32,
}

impl Soaked {
    /// One more block, of so many bits.
    fn add(&mut self, ok: bool, bits: u32)
        requires few { self.old.ok + self.old.refused < MOST_BLOCKS }
        requires short { self.old.bits + bits ≤ MOST_BLOCKS * 176 }
        ensures ok { self.new.ok ≡ self.old.ok + (if ok then 1 else 0) }
        ensures refused { self.new.refused ≡ self.old.refused + (if ok then 0 else 1) }
        ensures bits { self.new.bits ≡ self.old.bits + bits }
    {
        if ok {
            self.ok += 1;
        } else {
            self.refused += 1;
        }
        self.bits += bits;
    }
}

/// Whether the bits of some pieces are a string.
fn is_string(judge: &mut Judge<'_>, pieces: &[Piece<'_>]) -> bool
    requires fresh { IsFresh judge.old }
    requires block { AreOfBlock pieces.now }
    ensures answer { IsTrue result ↔ IsString judge.old.desc (bits_of pieces.now) }
    ensures fresh { IsFresh judge.new }
    ensures desc { judge.new.desc ≡ judge.old.desc }
{
    judge_next(judge, pieces) == Judged::Ok
}

/// Whether the sample with a number in its field is a string.
fn is_string_with(judge: &mut Judge<'_>, template: &mut Template, number: u64) -> bool
    requires fresh { IsFresh judge.old }
    requires short { length template.old.sample.octets.now ≤ 22 }
    ensures answer { IsTrue result ↔ IsString judge.old.desc (take template.old.sample.at (bits_of_octets template.old.sample.octets.now)
        ++ take template.old.sample.width (bits_of_octets (to_be_bytes w64 number))
        ++ drop (template.old.sample.at + template.old.sample.width) (bits_of_octets template.old.sample.octets.now)) }
    ensures fresh { IsFresh judge.new }
    ensures desc { judge.new.desc ≡ judge.old.desc }
    ensures sample { template.new.sample ≡ template.old.sample }
{
    template.put(number);
    let octets = template.octets();
    let pieces = [Piece {
        octets,
        bits: 8 * octets.len() as u32,
    }];
    is_string(judge, &pieces)
}

/// Whether the first bit of the sample is a string.
fn is_string_cut(judge: &mut Judge<'_>, sample: &Sample) -> bool
    requires fresh { IsFresh judge.old }
    requires some { 0 < length sample.now.octets.now }
    ensures answer { IsTrue result ↔ IsString judge.old.desc (take 1 (bits_of_octets sample.now.octets.now)) }
    ensures fresh { IsFresh judge.new }
    ensures desc { judge.new.desc ≡ judge.old.desc }
{
    let pieces = [Piece {
        octets: sample.octets,
        bits: 1,
    }];
    is_string(judge, &pieces)
}

/// Whether the block with this number, counted from 0, is cut to its first bit.
fn is_cut(k: u32) -> bool
    ensures { result ≡ is_cut k }
{
    k % CUT_EVERY == CUT_EVERY - 1
}

/// How many bits the block with this number has.
fn length_of(sample: &Sample, k: u32) -> u32
    requires { length sample.now.octets.now ≤ 22 }
    ensures { result ≡ (if is_cut k then 1 else 8 * length sample.now.octets.now) }
{
    if is_cut(k) {
        1
    } else {
        8 * sample.octets.len() as u32
    }
}

/// Whether the block with this number is a string, in whose field another number stands.
fn is_block_string(
    judge: &mut Judge<'_>,
    sample: &Sample,
    template: &mut Template,
    k: u32,
    number: u64,
) -> bool
    requires fresh { IsFresh judge.old }
    requires some { 0 < length sample.now.octets.now }
    requires short { length sample.now.octets.now ≤ 22 }
    requires template { template.old.sample ≡ sample.now }
    ensures answer { IsTrue result ↔ IsString judge.old.desc (if is_cut k then take 1 (bits_of_octets sample.now.octets.now)
        else (take sample.now.at (bits_of_octets sample.now.octets.now)
        ++ take sample.now.width (bits_of_octets (to_be_bytes w64 number))
        ++ drop (sample.now.at + sample.now.width) (bits_of_octets sample.now.octets.now))) }
    ensures fresh { IsFresh judge.new }
    ensures desc { judge.new.desc ≡ judge.old.desc }
    ensures sample { template.new.sample ≡ template.old.sample }
{
    if is_cut(k) {
        is_string_cut(judge, sample)
    } else {
        is_string_with(judge, template, number)
    }
}

/// Judges so many blocks of the generator by the plan of an entry.
pub fn soak(alloc: Global, plan: &Plan, entry: Entry, blocks: u32) -> Result<Soaked, NoMemory>
    requires { blocks ≤ MOST_BLOCKS }
    ensures { IfOk result (IsSoaked plan.now entry blocks) }
{
    let sample = sample_of(entry);
    let Ok(mut template) = Template::new(alloc, sample) else {
        return Err(NoMemory);
    };
    let mut soaked = Soaked {
        ok: 0,
        refused: 0,
        bits: 0,
    };
    let mut number = 1;
    let mut judge = Judge::new(plan);
    for k in 0..blocks {
        number = next(number);
        let ok = is_block_string(&mut judge, &sample, &mut template, k, number);
        soaked.add(ok, length_of(&sample, k));
    }
    Ok(soaked)
}
