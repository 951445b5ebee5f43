ghost use Rattle.std.specs.Prelude.{◌≡◌, ℕ, ◌+◌, ◌*◌, ◌≤◌, [], length, take, Some, Err, IfOk, IfErr};
ghost use Rattle.csn_bits.specs.Octets.{bits_of_octets};
ghost use Rattle.csn_decode.specs.Built.{whole_of};
ghost use Rattle.csn_decode.specs.Decoding.{DecodesFor, credit, Decodes, Ends};

use crate::track::TreeTrack;
use crate::verdict::DecodeFault;
use csn_certify::{Plan, Steps};
use csn_desc::Tree;
use csn_judge::{Fed, Judge, Judged};
use std::alloc::Global;
use std::marker::Model;
use std::sync::ledger::Ledger;

/// Decodes a block that comes in pieces by a certified description: whether the bits so far can be followed,
/// and at the end the tree that all of them have.
#[derive(Drop)]
pub struct Decoder<'a> {
    judge: Judge<'a>,
    track: TreeTrack,
    /// The last answer.
    answer: Fed,
}

impl<'a> Model for Decoder<'a> {
    ghost use Rattle.std.specs.Coded.{codes};
    ghost use Rattle.csn_desc.specs.TreeCode.{tree_code};
    ghost use Rattle.csn_decode.specs.Decoding.{DecoderV, decoder_of, IsDecoder};

    ghost Value = { DecoderV };

    ghost coded = { Prim.hlevel (codes, tree_code) };

    ghost view = { decoder_of };

    ghost invariant = { IsDecoder };
}

impl<'a> Decoder<'a> {
    /// No bits so far. It takes no memory.
    pub fn new(alloc: Global, plan: &'a Plan) -> Decoder<'a>
        ensures decodes { DecodesFor result [] }
        ensures desc { result.desc ≡ plan.now }
        ensures seen { result.seen ≡ 0 }
        ensures answer { result.answer ≡ Fed.Going }
        ensures credit { credit result ≡ 8 * length plan.now.nodes }
    {
        // its length tells that any bits have at most one tree
        let _count = plan.len();
        Decoder {
            judge: Judge::new(plan),
            track: TreeTrack::new(alloc),
            answer: Fed::Going,
        }
    }

    /// How many bits have come, with those of the piece that was refused or took the last memory, and none
    /// after it.
    pub fn seen(&self) -> u32
        ensures { result ≡ self.now.seen }
    {
        self.judge.seen()
    }

    /// The next bits of the block: the first `bits` bits of the piece. Behind a refusal, and where memory was
    /// wanting, they change nothing, and the answer stays.
    pub fn feed<L: Ledger>(&mut self, piece: &[u8], bits: u32, steps: &mut Steps<L>) -> Fed
        requires within { bits ≤ 8 * length piece.now }
        requires few { self.old.seen + bits ≤ 524288 }
        ensures decodes { Decodes self.old self.new (take bits (bits_of_octets piece.now)) result }
        ensures answer { self.new.answer ≡ result }
        ensures desc { self.new.desc ≡ self.old.desc }
        ensures seen { self.old.answer ≡ Fed.Going → self.new.seen ≡ self.old.seen + bits }
        ensures stays { ¬ (self.old.answer ≡ Fed.Going) → self.new ≡ self.old }
        ensures steps { steps.new + credit self.new
            ≤ steps.old + credit self.old + 8 * length self.old.desc.nodes * bits }
    {
        csn_desc::laws::prefixes_are_followed();
        if !self.answer.is_going() {
            return self.answer;
        }
        let verdict = self.judge.feed_to(piece, bits, &mut self.track, steps);
        self.answer = Fed::of(verdict, self.track.is_refused());
        self.answer
    }

    /// The block has ended: the tree that its bits have.
    pub fn finish<L: Ledger>(self, steps: &mut Steps<L>) -> Result<Tree, DecodeFault>
        ensures ends { Ends self.entry result }
        ensures refused { (place : ℕ) → self.entry.answer ≡ Fed.Refused place → result ≡ Err (DecodeFault.Refused place) }
        ensures no_memory { self.entry.answer ≡ Fed.NoMemory → result ≡ Err DecodeFault.NoMemory }
        ensures steps { steps.new ≤ steps.old + credit self.entry }
    {
        csn_desc::laws::strings_are_followed();
        match self.answer {
            Fed::Going => {}
            Fed::Refused { place } => return Err(DecodeFault::Refused { place }),
            Fed::NoMemory => return Err(DecodeFault::NoMemory),
        }
        let Decoder {
            judge,
            mut track,
            ..
        } = self;
        match judge.finish_to(&mut track, steps) {
            Judged::Ok => tree_of(track),
            Judged::Refused { place } => Err(DecodeFault::Refused { place }),
        }
    }
}

// The tree that a track has made, if there was memory for it.
fn tree_of(track: TreeTrack) -> Result<Tree, DecodeFault>
    ensures ok { IfOk result (λ tree. whole_of track ≡ Some tree) }
    ensures err { IfErr result (λ fault. fault ≡ DecodeFault.NoMemory) }
{
    match track.finish() {
        Some(tree) => Ok(tree),
        None => Err(DecodeFault::NoMemory),
    }
}
