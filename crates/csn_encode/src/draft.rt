//! The bits that are written of a tree.

ghost use Rattle.std.specs.Prelude.{◌≡◌, ℕ, ◌+◌, ◌-◌, ◌*◌, ◌<◌, ◌≤◌, [], ◌∷◌, ◌++◌, Bool, true, length, take, drop};
ghost use Rattle.std.specs.Prelude.{if◌then◌else◌, OnOk, IfErr, Some, IsTrue, IsOk};
ghost use Rattle.csn_bits.specs.Octets.{most_bits, IsBits, bits_of_octets};
ghost use Rattle.csn_encode.specs.declared.draft.TheConstants.{RUN_OCTETS};
ghost use Rattle.csn_bits.specs.Numbers.{number_of};
ghost use Rattle.csn_desc.specs.Nodes.{DescV};
ghost use Rattle.csn_desc.specs.Spelled.{spelled};
ghost use Rattle.csn_desc.specs.Values.{Values, count_of};
ghost use Rattle.csn_desc.specs.Formed.{is_counted};
ghost use Rattle.csn_certify.specs.KeptNumbers.{KeepsCount};
ghost use Rattle.csn_encode.specs.declared.misfit.MisfitWhy.TheVariants.{TooManyBits};
ghost use Rattle.csn_encode.specs.Misfits.{IsPast};
ghost use Rattle.csn_encode.specs.Writing.{Added, IfMisfit};

use crate::fault::Stop;
use crate::misfit::MisfitWhy;
use crate::path::Path;
use arrayvec::ArrayVec;
use csn_bits::{Bits, MOST_ADDED, MOST_BITS, PackedBits};
use csn_certify::{MOST_NUMBERS, Number, Plan, count_of};
use csn_desc::{Count, Run};
use std::alloc::Global;

/// The octets whose bits are added at once.
const RUN_OCTETS: usize = 7;

/// What is written so far of a tree, and where in the tree the writing stands.
#[derive(Drop)]
pub(crate) struct Draft {
    pub bits: PackedBits,
    /// The way from the root to the tree that is written, or to the one that does not fit.
    pub path: Path,
    /// The numbers of the labelled fields that the node sees and that counts stand on.
    pub numbers: ArrayVec<Number, MOST_NUMBERS>,
}

impl Draft {
    /// Nothing is written. It takes no memory.
    pub fn new(alloc: Global) -> Draft
        ensures bits { result.bits ≡ [] }
        ensures path { result.path ≡ [] }
        ensures numbers { result.numbers.items ≡ [] }
    {
        Draft {
            bits: PackedBits::new(alloc),
            path: Path::new(alloc),
            numbers: ArrayVec::new(),
        }
    }

    /// Adds a bit where a block has room for it.
    fn push(&mut self, bit: u8) -> Result<(), Stop>
        requires bit { bit ≤ 1 }
        requires room { length self.old.bits < most_bits }
        ensures bits { OnOk result (self.new.bits ≡ self.old.bits ++ bit ∷ []) }
        ensures memory { IfErr result (λ stop. stop ≡ Stop.NoMemory) }
        ensures path { self.new.path ≡ self.old.path }
        ensures numbers { self.new.numbers ≡ self.old.numbers }
    {
        Ok(self.bits.push(bit)?)
    }

    /// Adds the bits of a leaf, where a block has room for them.
    pub fn add(&mut self, leaf: &Bits) -> Result<(), Stop>
        ensures added { OnOk result (Added (λ b. (b ≡ leaf.now) × IsBits b) self.old self.new) }
        ensures past { IfErr result (λ stop. IfMisfit stop (λ why. (why ≡ TooManyBits) × IsPast (length self.old.bits) (length leaf.now))) }
        ensures path { self.new.path ≡ self.old.path }
        ensures bits { IsBits leaf.now }
    {
        if leaf.len() > MOST_BITS - self.bits.len() {
            return Err(Stop::Misfit(MisfitWhy::TooManyBits));
        }
        let mut rest = leaf.octets();
        let mut left = leaf.len();
        while left > MOST_ADDED {
            let (front, back) = rest.split_at(RUN_OCTETS);
            self.add_run(front, MOST_ADDED)?;
            rest = back;
            left -= MOST_ADDED;
        }
        self.add_run(rest, left)
    }

    /// Adds the first bits of a few octets, as one number.
    fn add_run(&mut self, octets: &[u8], count: u32) -> Result<(), Stop>
        requires few { length octets.now ≤ RUN_OCTETS }
        requires within { count ≤ 8 * length octets.now }
        requires room { length self.old.bits + count ≤ most_bits }
        ensures bits { OnOk result (self.new.bits ≡ self.old.bits ++ take count (bits_of_octets octets.now)) }
        ensures memory { IfErr result (λ stop. stop ≡ Stop.NoMemory) }
        ensures path { self.new.path ≡ self.old.path }
        ensures numbers { self.new.numbers ≡ self.old.numbers }
    {
        let unused = 8 * octets.len() as u32 - count;
        Ok(self.bits.add(octets_number(octets) >> unused, count)?)
    }

    /// Adds the bits of a literal, where a block has room for them.
    pub fn spell(&mut self, run: &Run) -> Result<(), Stop>
        ensures added { OnOk result (Added (λ b. b ≡ spelled run.now (length self.old.bits)) self.old self.new) }
        ensures past { IfErr result (λ stop. IfMisfit stop (λ why. (why ≡ TooManyBits) × IsPast (length self.old.bits) (length run.now))) }
        ensures path { self.new.path ≡ self.old.path }
    {
        if run.len() > MOST_BITS - self.bits.len() {
            return Err(Stop::Misfit(MisfitWhy::TooManyBits));
        }
        for at in 0..run.len() {
            let place = self.bits.len();
            self.push(run.get(at).bit(place))?;
        }
        Ok(())
    }

    /// How many a count is.
    pub fn count_of(&self, count: &Count) -> u32
        requires { (d : DescV) × (v : Values) × KeepsCount d v self.now.numbers.items count.now }
        ensures count { (d : DescV) (v : Values) → KeepsCount d v self.now.numbers.items count.now → count_of v count.now ≡ Some result }
        ensures small { result < 16777216 }
    {
        count_of(count, self.numbers.as_slice())
    }

    /// Keeps the number of a part whose bits begin at the place `from`, where counts stand on it.
    pub fn keep(&mut self, plan: &Plan, part: u16, from: u32)
        requires part { part < length plan.now.nodes }
        requires from { from ≤ length self.old.bits }
        requires few { IsTrue (is_counted plan.now.nodes part) → length self.old.bits ≤ from + 16 }
        requires room { IsTrue (is_counted plan.now.nodes part) → length self.old.numbers.items < MOST_NUMBERS }
        ensures numbers { self.new.numbers.items
            ≡ (if is_counted plan.now.nodes part
            then self.old.numbers.items ++ record { field = part; value = number_of (drop from self.old.bits) } ∷ []
            else self.old.numbers.items) }
        ensures bits { self.new.bits ≡ self.old.bits }
        ensures path { self.new.path ≡ self.old.path }
    {
        if plan.counts(part) {
            let value = self.value_from(from);
            self.numbers.push(Number { field: part, value });
        }
    }

    /// The number that the bits from the place `from` on write, at most 16 of them.
    fn value_from(&self, from: u32) -> u32
        requires from { from ≤ length self.now.bits }
        requires few { length self.now.bits ≤ from + 16 }
        ensures { result ≡ number_of (drop from self.now.bits) }
    {
        let mut value = 0;
        for at in from..self.bits.len() {
            value = 2 * value + u32::from(self.bits.get(at));
        }
        value
    }
}

/// The number that the bits of a few octets write.
fn octets_number(octets: &[u8]) -> u64
    requires { length octets.now ≤ RUN_OCTETS }
    ensures number { result ≡ number_of (bits_of_octets octets.now) }
    ensures bits { IsBits (bits_of_octets octets.now) }
{
    let mut number = 0;
    for &octet in octets {
        number = 256 * number + u64::from(octet);
    }
    number
}
