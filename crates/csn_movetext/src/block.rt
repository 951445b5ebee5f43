ghost use Rattle.std.specs.Prelude.{◌≡◌, ℕ, ◌+◌, ◌*◌, ◌≤◌, List, [], ◌++◌, length, take, Ok, Err, IfOk, IfErr, IsErrAnd, OnOk};
ghost use Rattle.csn_bits.specs.Octets.{bits_of_octets};
ghost use Rattle.csn_judge.specs.Judging.{JudgesFor, opened};
ghost use Rattle.csn_movetext.specs.Openings.{HasOpenings};
ghost use Rattle.csn_movetext.specs.Kept.{Extends};
ghost use Rattle.csn_movetext.specs.Blocks.{WritesFor, credit, Continues, Ends, AddsText};

use crate::fault::{BlockFault, Unwritten, outcome};
use crate::openings::Openings;
use crate::track::TextTrack;
use csn_certify::{Plan, Steps};
use csn_judge::{Fed, Judge};
use std::marker::Model;
use std::sync::ledger::Ledger;

/// Writes the tree that a block has by a certified description, in the form of the openings and behind some bytes, while
/// the block comes in pieces.
#[derive(Drop)]
pub struct BlockText<'a> {
    judge: Judge<'a>,
    track: TextTrack<'a>,
    /// Where the text begins.
    start: usize,
    /// The last answer.
    answer: Fed,
}

impl<'a> Model for BlockText<'a> {
    ghost use Rattle.csn_movetext.specs.Blocks.{BlockV, block_of, IsBlockText};

    ghost Value = { BlockV };

    ghost view = { block_of };

    ghost invariant = { IsBlockText };
}

impl<'a> BlockText<'a> {
    /// No bits so far, behind these bytes.
    pub fn new(plan: &'a Plan, openings: &'a Openings, out: Vec<u8>) -> BlockText<'a>
        requires { HasOpenings plan.now openings.now }
        ensures writes { WritesFor result [] }
        ensures form { result.form ≡ openings.now.form }
        ensures desc { result.desc ≡ plan.now }
        ensures before { result.before ≡ out.items }
        ensures seen { result.seen ≡ 0 }
        ensures answer { result.answer ≡ Fed.Going }
        ensures credit { credit result ≡ 8 * length plan.now.nodes }
    {
        // its length tells that any bits have at most one tree
        let _count = plan.len();
        let start = out.len();
        BlockText {
            judge: Judge::new(plan),
            track: TextTrack::new(openings, out),
            start,
            answer: Fed::Going,
        }
    }

    /// How many bits have come, with those of the piece that was refused or took the last memory, and none
    /// after it.
    pub fn seen(&self) -> u32
        ensures { result ≡ self.now.seen }
    {
        self.judge.seen()
    }

    /// The next bits of the block: the first `bits` bits of the piece. Behind a refusal, and where memory was
    /// wanting, they change nothing, and the answer stays.
    pub fn feed<L: Ledger>(&mut self, piece: &[u8], bits: u32, steps: &mut Steps<L>) -> Fed
        requires within { bits ≤ 8 * length piece.now }
        requires few { self.old.seen + bits ≤ 524288 }
        ensures writes { Continues self.old self.new (take bits (bits_of_octets piece.now)) result }
        ensures answer { self.new.answer ≡ result }
        ensures form { self.new.form ≡ self.old.form }
        ensures desc { self.new.desc ≡ self.old.desc }
        ensures before { self.new.before ≡ self.old.before }
        ensures seen { self.old.answer ≡ Fed.Going → self.new.seen ≡ self.old.seen + bits }
        ensures stays { ¬ (self.old.answer ≡ Fed.Going) → self.new ≡ self.old }
        ensures steps { steps.new + credit self.new
            ≤ steps.old + credit self.old + 8 * length self.old.desc.nodes * bits }
    {
        csn_desc::laws::prefixes_are_followed();
        if !self.answer.is_going() {
            return self.answer;
        }
        let verdict = self.judge.feed_to(piece, bits, &mut self.track, steps);
        self.answer = Fed::of(verdict, self.track.is_refused());
        self.answer
    }

    /// The block has ended: the text of its tree stands behind the bytes. After a refusal the bytes
    /// alone are handed back.
    pub fn finish<L: Ledger>(mut self, steps: &mut Steps<L>) -> Result<Vec<u8>, Unwritten>
        ensures text { IfOk result (λ out. Ends self.entry (Ok out.items)) }
        ensures why { IfErr result (λ unwritten. Ends self.entry (Err unwritten.why)) }
        ensures same { IfErr result (λ unwritten. unwritten.out.items ≡ self.entry.before) }
        ensures refused { (place : ℕ) → self.entry.answer ≡ Fed.Refused place
            → IsErrAnd result (λ unwritten. unwritten.why ≡ BlockFault.Refused place) }
        ensures no_memory { self.entry.answer ≡ Fed.NoMemory
            → IsErrAnd result (λ unwritten. unwritten.why ≡ BlockFault.NoMemory) }
        ensures steps { steps.new ≤ steps.old + credit self.entry }
    {
        match self.end(steps) {
            Ok(()) => Ok(self.track.finish()),
            Err(why) => Err(cut_back(self.track, self.start, why)),
        }
    }

    /// The block has ended, and the next begins: the text of its tree is written behind `out`. After a refusal `out` is as
    /// it was, and after want of memory some bytes may stand behind it. So one value does for many blocks, with one buffer.
    pub fn next_block<L: Ledger>(
        &mut self,
        out: &mut Vec<u8>,
        steps: &mut Steps<L>,
    ) -> Result<(), BlockFault>
        ensures text { OnOk result ((b : List ℕ) → WritesFor self.old b → AddsText self.old.form self.old.desc b out.old.items out.new.items) }
        ensures why { IfErr result (λ why. Ends self.old (Err why)) }
        ensures refused { (place : ℕ) → self.old.answer ≡ Fed.Refused place → result ≡ Err (BlockFault.Refused place) }
        ensures no_memory { self.old.answer ≡ Fed.NoMemory → result ≡ Err BlockFault.NoMemory }
        ensures same { (place : ℕ) → result ≡ Err (BlockFault.Refused place) → out.new.items ≡ out.old.items }
        ensures extends { Extends out.old.items out.new.items }
        ensures writes { WritesFor self.new [] }
        ensures answer { self.new.answer ≡ Fed.Going }
        ensures form { self.new.form ≡ self.old.form }
        ensures desc { self.new.desc ≡ self.old.desc }
        ensures before { self.new.before ≡ self.old.before }
        ensures seen { self.new.seen ≡ 0 }
        ensures steps { steps.new + credit self.new ≤ steps.old + credit self.old + 8 * length self.old.desc.nodes }
    {
        csn_desc::laws::strings_are_followed();
        let ended = match self.end(steps) {
            Ok(()) => self.add_to(out),
            Err(why) => Err(why),
        };
        self.restart();
        ended
    }

    /// The block is given up, and the next begins.
    pub fn give_up<L: Ledger>(&mut self, steps: &mut Steps<L>)
        ensures writes { WritesFor self.new [] }
        ensures answer { self.new.answer ≡ Fed.Going }
        ensures form { self.new.form ≡ self.old.form }
        ensures desc { self.new.desc ≡ self.old.desc }
        ensures before { self.new.before ≡ self.old.before }
        ensures seen { self.new.seen ≡ 0 }
        ensures steps { steps.new + credit self.new ≤ steps.old + credit self.old + 8 * length self.old.desc.nodes }
    {
        let _ended = self.end(steps);
        self.restart();
    }

    // The block has ended: whether the text of its tree stands behind the bytes. The judge stands for no bits then.
    fn end<L: Ledger>(&mut self, steps: &mut Steps<L>) -> Result<(), BlockFault>
        ensures text { OnOk result (Ends self.old (Ok self.new.track.kept.text)) }
        ensures why { IfErr result (λ why. Ends self.old (Err why)) }
        ensures refused { (place : ℕ) → self.old.answer ≡ Fed.Refused place → result ≡ Err (BlockFault.Refused place) }
        ensures no_memory { self.old.answer ≡ Fed.NoMemory → result ≡ Err BlockFault.NoMemory }
        ensures judges { JudgesFor self.new.judge [] [] }
        ensures opened { opened self.new.judge ≡ [] }
        ensures answer { self.new.answer ≡ Fed.Going }
        ensures form { self.new.form ≡ self.old.form }
        ensures desc { self.new.desc ≡ self.old.desc }
        ensures before { self.new.before ≡ self.old.before }
        ensures seen { self.new.seen ≡ 0 }
        ensures credit { credit self.new ≡ 8 * length self.old.desc.nodes }
        ensures steps { steps.new ≤ steps.old + credit self.old }
    {
        csn_desc::laws::strings_are_followed();
        csn_desc::laws::meanings_are_bits();
        csn_json::laws::texts_are_joined();
        let judged = self.judge.next_block_to(&mut self.track, steps);
        let ended = outcome(self.answer, judged, self.track.is_refused());
        self.answer = Fed::Going;
        ended
    }

    // Writes the text behind the bytes before it also behind `out`.
    fn add_to(&self, out: &mut Vec<u8>) -> Result<(), BlockFault>
        ensures added { OnOk result ((text : List ℕ) → self.now.track.kept.text ≡ self.now.before ++ text
            → out.new.items ≡ out.old.items ++ text) }
        ensures why { IfErr result (λ why. why ≡ BlockFault.NoMemory) }
        ensures extends { Extends out.old.items out.new.items }
    {
        match out.extend_from_slice(&self.track.bytes()[self.start..]) {
            Ok(()) => Ok(()),
            Err(_) => Err(BlockFault::NoMemory),
        }
    }

    // The next block begins, where the judge stands for no bits.
    fn restart(&mut self)
        requires judges { JudgesFor self.old.judge [] [] }
        requires opened { opened self.old.judge ≡ [] }
        requires answer { self.old.answer ≡ Fed.Going }
        ensures writes { WritesFor self.new [] }
        ensures answer { self.new.answer ≡ Fed.Going }
        ensures form { self.new.form ≡ self.old.form }
        ensures desc { self.new.desc ≡ self.old.desc }
        ensures before { self.new.before ≡ self.old.before }
        ensures seen { self.new.seen ≡ self.old.seen }
        ensures credit { credit self.new ≡ credit self.old }
    {
        self.track.restart(self.start);
    }
}

// The bytes that stood before a text, which is cut off.
fn cut_back(track: TextTrack, start: usize, why: BlockFault) -> Unwritten
    ensures why { result.why ≡ why }
    ensures out { result.out.items ≡ take start track.entry.kept.text }
{
    let mut out = track.finish();
    out.truncate(start);
    Unwritten { why, out }
}
