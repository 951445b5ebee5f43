//! Turns, one after another.

ghost use Rattle.std.specs.Prelude.{◌≡◌, ◌+◌, ◌*◌, ◌<◌, IsTrue, false, List, [], ◌∷◌, length, reverse};
ghost use Rattle.csn_judge.specs.declared.frame.Frame.{Frame as FrameV};
ghost use Rattle.csn_judge.specs.declared.frame.Frame.TheVariants as frame;
ghost use Rattle.csn_judge.specs.declared.turn.Turn.TheVariants as turn;
ghost use Rattle.csn_judge.specs.Coming.{IsSame};
ghost use Rattle.csn_judge.specs.Credit.{credit_in, credit_of, NextPays, PaysAll, TurnPays};
ghost use Rattle.csn_judge.specs.Turns.{state_at, state_of, state_then, state_with, turn_in, turn_of, StandsSomewhere, Turns};

use crate::frame::Frame;
use crate::machine::Machine;
use crate::source::Source;
use crate::track::Track;
use crate::turn::{Next, Turn};
use crate::verdict::Verdict;
use csn_certify::Steps;
use std::sync::ledger::Ledger;

impl Machine<'_> {
    /// Goes on until a further bit is needed, or one cannot be followed.
    pub fn go<T: Track, L: Ledger>(
        &mut self,
        source: &mut Source<'_>,
        track: &mut T,
        steps: &mut Steps<L>,
    ) -> Verdict
        requires stands { StandsSomewhere self.old.plan.now (state_of self.old source.old) }
        requires fits { T.fits track.old self.old.plan.now }
        ensures turns { Turns self.old.plan.now T.takes (state_of self.old source.old) (state_of self.new source.new)
            track.old track.new (turn_of result) }
        ensures pays { PaysAll
            (credit_of (length self.old.plan.now.nodes) (reverse self.old.frames.items) self.old.pace (length source.old.bits))
            (credit_of (length self.old.plan.now.nodes) (reverse self.new.frames.items) self.new.pace (length source.new.bits))
            steps.old steps.new result }
        ensures plan { self.new.plan ≡ self.old.plan }
    {
        source.none_behind_end();
        loop {
            match self.step(source, track, steps) {
                Turn::Moved => {}
                Turn::Waits => return Verdict::Going,
                Turn::Refused { place } => return Verdict::Refused { place },
            }
        }
    }

    /// The innermost frame has its turn, and what begins by it is read or entered.
    #[inline(always)]
    fn step<T: Track, L: Ledger>(
        &mut self,
        source: &mut Source<'_>,
        track: &mut T,
        steps: &mut Steps<L>,
    ) -> Turn
        requires stands { StandsSomewhere self.old.plan.now (state_of self.old source.old) }
        requires fits { T.fits track.old self.old.plan.now }
        ensures turns { Turns self.old.plan.now T.takes (state_of self.old source.old) (state_of self.new source.new)
            track.old track.new result }
        ensures pays { TurnPays self.old.plan.now (state_of self.old source.old) (state_of self.new source.new)
            steps.old steps.new result }
        ensures plan { self.new.plan ≡ self.old.plan }
    {
        source.none_behind_end();
        match self.turn(source, track, steps) {
            Next::Begin { node } => self.enter_along(node, source, track, steps),
            Next::Turn(turn) => turn,
        }
    }

    /// A node that begins is read or entered, and so is the part of it that begins then, until none does.
    #[inline(always)]
    fn enter_along<T: Track, L: Ledger>(
        &mut self,
        first: u16,
        source: &mut Source<'_>,
        track: &mut T,
        steps: &mut Steps<L>,
    ) -> Turn
        requires stands { StandsSomewhere self.old.plan.now (state_with (frame.Begin first) self.old source.old) }
        requires fits { T.fits track.old self.old.plan.now }
        ensures turns { Turns self.old.plan.now T.takes (state_with (frame.Begin first) self.old source.old) (state_of self.new source.new)
            track.old track.new result }
        ensures pays { TurnPays self.old.plan.now (state_with (frame.Begin first) self.old source.old) (state_of self.new source.new)
            steps.old steps.new result }
        ensures plan { self.new.plan ≡ self.old.plan }
    {
        source.none_behind_end();
        let mut begins = first;
        loop {
            match self.read_or_enter(begins, source, track, steps) {
                Next::Begin { node } => begins = node,
                Next::Turn(turn) => return turn,
            }
        }
    }

    /// A node that begins is read at once, or else it is entered.
    #[inline(always)]
    fn read_or_enter<T: Track, L: Ledger>(
        &mut self,
        i: u16,
        source: &mut Source<'_>,
        track: &mut T,
        steps: &mut Steps<L>,
    ) -> Next
        requires stands { StandsSomewhere self.old.plan.now (state_with (frame.Begin i) self.old source.old) }
        requires fits { T.fits track.old self.old.plan.now }
        ensures turns { Turns self.old.plan.now T.takes (state_with (frame.Begin i) self.old source.old)
            (state_then result self.new source.new) track.old track.new (turn_in result) }
        ensures pays { TurnPays self.old.plan.now (state_with (frame.Begin i) self.old source.old) (state_then result self.new source.new)
            steps.old steps.new (turn_in result) }
        ensures plan { self.new.plan ≡ self.old.plan }
    {
        if self.read_whole(i, source, track) {
            return Next::Turn(Turn::Moved);
        }
        self.enter(i, source, track, steps)
    }

    /// All bits of a node that begins are read at once, where they can be taken and are a string of it, and the track is
    /// told them so. Else nothing is. The frames stay as they are: the node was on any others.
    #[inline(always)]
    pub fn read_whole<T: Track>(&mut self, i: u16, source: &mut Source<'_>, track: &mut T) -> bool
        requires node { i < length self.old.plan.now.nodes }
        requires fits { T.fits track.old self.old.plan.now }
        ensures turns { IsTrue result → (behind : List FrameV) → StandsSomewhere self.old.plan.now (state_at (frame.Begin i ∷ behind) self.old source.old)
            → Turns self.old.plan.now T.takes (state_at (frame.Begin i ∷ behind) self.old source.old) (state_at behind self.new source.new)
            track.old track.new turn.Moved }
        ensures pays { IsTrue result → (behind : List FrameV) → credit_in self.old.plan.now (state_at behind self.new source.new)
            < credit_in self.old.plan.now (state_at (frame.Begin i ∷ behind) self.old source.old) }
        ensures frames { self.new.frames ≡ self.old.frames }
        ensures same { result ≡ false → IsSame source.old source.new }
        ensures machine { result ≡ false → self.new ≡ self.old }
        ensures untold { result ≡ false → track.new ≡ track.old }
        ensures plan { self.new.plan ≡ self.old.plan }
    {
        source.none_behind_end();
        if !track.takes_whole() {
            return false;
        }
        let Some(layout) = self.plan.layout(i) else {
            return false;
        };
        let width = layout.width;
        if source.ready(width) < width {
            return false;
        }
        let number = source.peek(width);
        if !layout.admits(number) || !track.whole(self.plan, i, layout, number) {
            return false;
        }
        source.take(width);
        self.pace.bits(width > 0);
        true
    }

    /// The turn of the innermost frame. A node that stands ready to begin does so next.
    #[inline(always)]
    fn turn<T: Track, L: Ledger>(
        &mut self,
        source: &mut Source<'_>,
        track: &mut T,
        steps: &mut Steps<L>,
    ) -> Next
        requires stands { StandsSomewhere self.old.plan.now (state_of self.old source.old) }
        requires fits { T.fits track.old self.old.plan.now }
        ensures turns { Turns self.old.plan.now T.takes (state_of self.old source.old) (state_then result self.new source.new)
            track.old track.new (turn_in result) }
        ensures pays { NextPays (credit_in self.old.plan.now (state_of self.old source.old))
            (credit_in self.old.plan.now (state_then result self.new source.new)) steps.old steps.new result }
        ensures plan { self.new.plan ≡ self.old.plan }
    {
        let Some(frame) = self.frames.pop() else {
            return Next::Turn(Turn::stopped(source));
        };
        match frame {
            Frame::Begin { node } => Next::Begin { node },
            Frame::Leaf { node, leaf } => {
                Next::Turn(self.read_on(node, leaf, source, track, steps))
            }
            Frame::Counted(counted) => Next::Turn(self.count(counted, source, track, steps)),
            Frame::Seq { node, at, values } => self.seq(node, at, values, source, track, steps),
            Frame::Trunc { node, at, values } => {
                self.trunc(node, at, values, source, track, steps)
            }
            Frame::Open { node } => self.choose_on(node, source, track, steps),
            Frame::Choice { node } => Next::Turn(self.pass(node, source, track, steps)),
            Frame::Times { node, part, left } => self.times(node, part, left, source, track, steps),
            Frame::Many { node, part } => self.many(node, part, source, track, steps),
            Frame::Window {
                node,
                start,
                bits,
                outer,
            } => Next::Turn(self.window(node, start, bits, outer, source, track, steps)),
            Frame::Named { node } => Next::Turn(self.pass(node, source, track, steps)),
        }
    }
}
