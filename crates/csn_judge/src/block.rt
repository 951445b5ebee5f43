//! Blocks that are there as a whole.

ghost use Rattle.std.specs.Prelude.{◌≡◌, ◌<◌};
ghost use Rattle.csn_judge.specs.Blocks.{AreOfBlock, IsFresh, IsJudged, bits_of};

use crate::judge::Judge;
use crate::verdict::Judged;
use csn_bits::Bits;
use csn_certify::{Plan, Steps};
use std::marker::Brand;
use std::sync::ledger::{Blank, Ledger};

/// Some bits of a block: the first so many of some octets.
#[derive(Clone, Copy)]
pub struct Piece<'a> {
    pub octets: &'a [u8],
    pub bits: u32,
}

/// Judges the next block with a counter of steps.
fn judge_with<L: Ledger>(judge: &mut Judge<'_>, pieces: &[Piece<'_>], blank: Blank) -> Judged
    requires name { blank.name ≡ L.name }
    requires parts { blank.parts ≡ L.parts }
    requires some { 0 < blank.parts }
    requires fresh { IsFresh judge.old }
    requires block { AreOfBlock pieces.now }
    ensures judged { IsJudged judge.old.desc (bits_of pieces.now) result }
    ensures fresh { IsFresh judge.new }
    ensures desc { judge.new.desc ≡ judge.old.desc }
{
    let mut steps = Steps::<L>::new(blank);
    for piece in pieces {
        // behind a refusal a piece changes nothing
        let _verdict = judge.feed(piece.octets, piece.bits, &mut steps);
    }
    judge.next_block(&mut steps)
}

/// Judges a block whose bits stand in some pieces, as [`judge_pieces`] does, by a judge that stands for no bits. It stands
/// for none again behind the block, so many blocks can be judged by one.
pub fn judge_next(judge: &mut Judge<'_>, pieces: &[Piece<'_>]) -> Judged
    requires fresh { IsFresh judge.old }
    requires block { AreOfBlock pieces.now }
    ensures judged { IsJudged judge.old.desc (bits_of pieces.now) result }
    ensures fresh { IsFresh judge.new }
    ensures desc { judge.new.desc ≡ judge.old.desc }
{
    judge_with::<Brand>(judge, pieces, Blank::new(1))
}

/// Judges a block whose bits stand in some pieces, one behind another: whether they are a string of the description, or
/// how many can be followed. These are all bits where the block ends too early. It takes no memory.
pub fn judge_pieces(plan: &Plan, pieces: &[Piece<'_>]) -> Judged
    requires block { AreOfBlock pieces.now }
    ensures { IsJudged plan.now (bits_of pieces.now) result }
{
    let mut judge = Judge::new(plan);
    judge_next(&mut judge, pieces)
}

/// Judges the bits of a block.
pub fn judge_block(plan: &Plan, block: &Bits) -> Judged
    ensures { IsJudged plan.now block.now result }
{
    judge_pieces(
        plan,
        &[Piece {
            octets: block.octets(),
            bits: block.len(),
        }],
    )
}
