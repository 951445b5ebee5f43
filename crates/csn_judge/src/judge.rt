ghost use Rattle.std.specs.Prelude.{◌≡◌, ℕ, ◌+◌, ◌*◌, ◌≤◌, ⊤, [], length, take, None, Some};
ghost use Rattle.csn_bits.specs.Octets.{bits_of_octets};
ghost use Rattle.csn_judge.specs.Judging.{JudgesFor, opened, credit, refusal_of, Judges, Ends};
ghost use Rattle.csn_judge.specs.Paused.{GoesBy, judge_by};
ghost use Rattle.csn_judge.specs.Told.{Tells};

use crate::laws;
use crate::machine::Machine;
use crate::paused::Paused;
use crate::source::{Held, Source};
use crate::track::{NoTrack, Track};
use crate::verdict::{Judged, Verdict};
use csn_certify::{Plan, Steps};
use std::marker::Model;
use std::sync::ledger::Ledger;

/// Judges a block that comes in pieces by a certified description: whether the bits so far can be followed, and
/// whether all of them are a string.
#[derive(Drop)]
pub struct Judge<'a> {
    machine: Machine<'a>,
    /// Bits of the pieces so far that no node has taken.
    held: Held,
    /// The place of the first of them.
    place: u32,
    /// Where the innermost window ends.
    limit: u32,
    /// How many bits have come.
    seen: u32,
    refused: Option<u32>,
}

impl<'a> Model for Judge<'a> {
    ghost use Rattle.csn_judge.specs.Judging.{JudgeV, judge_of, IsJudge};

    ghost Value = { JudgeV };

    ghost view = { judge_of };

    ghost invariant = { IsJudge };
}

impl<'a> Judge<'a> {
    /// No bits so far.
    pub fn new(plan: &'a Plan) -> Judge<'a>
        ensures judges { JudgesFor result [] [] }
        ensures desc { result.desc ≡ plan.now }
        ensures seen { result.seen ≡ 0 }
        ensures refused { result.refused ≡ None }
        ensures opened { opened result ≡ [] }
        ensures credit { credit result ≡ 8 * length plan.now.nodes }
    {
        laws::known(plan);
        csn_desc::laws::empty_bits_are_followed();
        Judge {
            machine: Machine::new(plan),
            held: Held {
                number: 0,
                count: 0,
            },
            place: 0,
            limit: u32::MAX,
            seen: 0,
            refused: None,
        }
    }

    /// How many bits have come, with those of the piece that was refused, and none after it.
    pub fn seen(&self) -> u32
        ensures { result ≡ self.now.seen }
    {
        self.seen
    }

    /// The next bits of the block: the first `bits` bits of the piece. Behind a refusal they change nothing, and
    /// the answer stays.
    pub fn feed<L: Ledger>(&mut self, piece: &[u8], bits: u32, steps: &mut Steps<L>) -> Verdict
        requires within { bits ≤ 8 * length piece.now }
        requires few { self.old.seen + bits ≤ 524288 }
        ensures judges { Judges (λ around made. ⊤) self.old self.new (take bits (bits_of_octets piece.now)) result }
        ensures refused { self.new.refused ≡ refusal_of result }
        ensures desc { self.new.desc ≡ self.old.desc }
        ensures seen { self.old.refused ≡ None → self.new.seen ≡ self.old.seen + bits }
        ensures stays { (place : ℕ) → self.old.refused ≡ Some place → self.new ≡ self.old }
        ensures steps { steps.new + credit self.new ≤ steps.old + credit self.old + 8 * length self.old.desc.nodes * bits }
    {
        self.feed_to(piece, bits, &mut NoTrack, steps)
    }

    /// The same, where each move is told.
    pub fn feed_to<T: Track, L: Ledger>(
        &mut self,
        piece: &[u8],
        bits: u32,
        track: &mut T,
        steps: &mut Steps<L>,
    ) -> Verdict
        requires within { bits ≤ 8 * length piece.now }
        requires few { self.old.seen + bits ≤ 524288 }
        requires fits { T.fits track.old self.old.desc }
        ensures judges { Judges (λ around made. Tells self.old.desc T.takes (opened self.old) made around track.old track.new)
            self.old self.new (take bits (bits_of_octets piece.now)) result }
        ensures refused { self.new.refused ≡ refusal_of result }
        ensures desc { self.new.desc ≡ self.old.desc }
        ensures seen { self.old.refused ≡ None → self.new.seen ≡ self.old.seen + bits }
        ensures stays { (place : ℕ) → self.old.refused ≡ Some place → (self.new ≡ self.old) × (track.new ≡ track.old) }
        ensures steps { steps.new + credit self.new ≤ steps.old + credit self.old + 8 * length self.old.desc.nodes * bits }
    {
        csn_desc::laws::prefixes_are_followed();
        if let Some(place) = self.refused {
            return Verdict::Refused { place };
        }
        if bits == 0 {
            return Verdict::Going;
        }
        let mut source = Source::new(self.held, piece, bits, self.place, self.limit);
        self.seen += bits;
        let verdict = self.machine.go(&mut source, track, steps);
        match verdict {
            Verdict::Going => {
                self.held = source.held();
                self.place = source.place();
                self.limit = source.limit();
            }
            Verdict::Refused { place } => self.refused = Some(place),
        }
        verdict
    }

    /// The block has ended.
    pub fn finish<L: Ledger>(self, steps: &mut Steps<L>) -> Judged
        ensures ends { Ends (λ around made. ⊤) self.entry result }
        ensures steps { steps.new ≤ steps.old + credit self.entry }
    {
        self.finish_to(&mut NoTrack, steps)
    }

    /// The same, where each move is told.
    pub fn finish_to<T: Track, L: Ledger>(mut self, track: &mut T, steps: &mut Steps<L>) -> Judged
        requires fits { T.fits track.old self.desc }
        ensures ends { Ends (λ around made. Tells self.entry.desc T.takes (opened self.entry) made around track.old track.new) self.entry result }
        ensures stays { (place : ℕ) → self.entry.refused ≡ Some place → track.new ≡ track.old }
        ensures steps { steps.new ≤ steps.old + credit self.entry }
    {
        self.end(track, steps)
    }

    /// The block has ended, and another begins: the judge stands for no bits again. It is for many blocks by one plan,
    /// each of which takes less time so than with a judge of its own.
    pub fn next_block<L: Ledger>(&mut self, steps: &mut Steps<L>) -> Judged
        ensures ends { Ends (λ around made. ⊤) self.old result }
        ensures judges { JudgesFor self.new [] [] }
        ensures desc { self.new.desc ≡ self.old.desc }
        ensures seen { self.new.seen ≡ 0 }
        ensures refused { self.new.refused ≡ None }
        ensures opened { opened self.new ≡ [] }
        ensures credit { credit self.new ≡ 8 * length self.old.desc.nodes }
        ensures steps { steps.new ≤ steps.old + credit self.old }
    {
        self.next_block_to(&mut NoTrack, steps)
    }

    /// The same, where each move is told.
    pub fn next_block_to<T: Track, L: Ledger>(
        &mut self,
        track: &mut T,
        steps: &mut Steps<L>,
    ) -> Judged
        requires fits { T.fits track.old self.old.desc }
        ensures ends { Ends (λ around made. Tells self.old.desc T.takes (opened self.old) made around track.old track.new) self.old result }
        ensures stays { (place : ℕ) → self.old.refused ≡ Some place → track.new ≡ track.old }
        ensures judges { JudgesFor self.new [] [] }
        ensures desc { self.new.desc ≡ self.old.desc }
        ensures seen { self.new.seen ≡ 0 }
        ensures refused { self.new.refused ≡ None }
        ensures opened { opened self.new ≡ [] }
        ensures credit { credit self.new ≡ 8 * length self.old.desc.nodes }
        ensures steps { steps.new ≤ steps.old + credit self.old }
    {
        let judged = self.end(track, steps);
        self.restart();
        judged
    }

    /// Puts the judge aside between two pieces.
    pub fn pause(self) -> Paused
        ensures judge { judge_by self.entry.desc result ≡ self.entry }
        ensures goes { GoesBy self.entry.desc result }
    {
        let Judge {
            machine,
            held,
            place,
            limit,
            seen,
            refused,
        } = self;
        let Machine {
            plan: _,
            frames,
            values,
            pace,
        } = machine;
        Paused {
            frames,
            values,
            pace,
            held,
            place,
            limit,
            seen,
            refused,
        }
    }

    /// The judge that was put aside, by the plan that it had.
    pub fn resume(plan: &'a Plan, paused: Paused) -> Judge<'a>
        requires { GoesBy plan.now paused }
        ensures { result ≡ judge_by plan.now paused }
    {
        let Paused {
            frames,
            values,
            pace,
            held,
            place,
            limit,
            seen,
            refused,
        } = paused;
        Judge {
            machine: Machine {
                plan,
                frames,
                values,
                pace,
            },
            held,
            place,
            limit,
            seen,
            refused,
        }
    }

    // The block has ended. The judge refuses whatever comes behind it.
    fn end<T: Track, L: Ledger>(&mut self, track: &mut T, steps: &mut Steps<L>) -> Judged
        requires fits { T.fits track.old self.old.desc }
        ensures ends { Ends (λ around made. Tells self.old.desc T.takes (opened self.old) made around track.old track.new) self.old result }
        ensures stays { (place : ℕ) → self.old.refused ≡ Some place → track.new ≡ track.old }
        ensures desc { self.new.desc ≡ self.old.desc }
        ensures steps { steps.new ≤ steps.old + credit self.old }
    {
        csn_desc::laws::strings_are_followed();
        csn_desc::laws::trees_have_moves();
        if let Some(place) = self.refused {
            return Judged::Refused { place };
        }
        let place = self.seen;
        self.refused = Some(place);
        if self.held.count > 0 {
            return Judged::Refused { place };
        }
        let mut source = Source::end(place, self.limit);
        match self.machine.go(&mut source, track, steps) {
            Verdict::Going if self.machine.frames.is_empty() => Judged::Ok,
            _ => Judged::Refused { place },
        }
    }

    // No bits so far, as in a new judge.
    fn restart(&mut self)
        ensures judges { JudgesFor self.new [] [] }
        ensures desc { self.new.desc ≡ self.old.desc }
        ensures seen { self.new.seen ≡ 0 }
        ensures refused { self.new.refused ≡ None }
        ensures opened { opened self.new ≡ [] }
        ensures credit { credit self.new ≡ 8 * length self.old.desc.nodes }
    {
        laws::known(self.machine.plan);
        csn_desc::laws::empty_bits_are_followed();
        self.machine.restart();
        self.held = Held {
            number: 0,
            count: 0,
        };
        self.place = 0;
        self.limit = u32::MAX;
        self.seen = 0;
        self.refused = None;
    }
}
