//! Nodes with parts go on behind a part, and are left.

ghost use Rattle.std.specs.Prelude.{◌≡◌, ◌+◌, ◌<◌, ◌≤◌, length, slice_get, Some};
ghost use Rattle.csn_desc.specs.declared.moves.Move.TheVariants.{Leave};
ghost use Rattle.csn_desc.specs.declared.node.Node.{Node as NodeV};
ghost use Rattle.csn_judge.specs.declared.frame.Frame.TheVariants as frame;
ghost use Rattle.csn_judge.specs.declared.turn.Turn.TheVariants as turn;
ghost use Rattle.csn_judge.specs.declared.frame.Frame.{Frame as FrameV};
ghost use Rattle.csn_judge.specs.Credit.{TurnPays};
ghost use Rattle.csn_judge.specs.Known.{Known};
ghost use Rattle.csn_judge.specs.Turns.{IsPassed, state_of, state_then, state_with, turn_in, StandsSomewhere, Turns};

use crate::frame::Frame;
use crate::machine::{Machine, part_at};
use crate::source::Source;
use crate::track::Track;
use crate::turn::{Next, Turn};
use csn_certify::Steps;
use csn_desc::{Move, Node};
use std::sync::ledger::Ledger;

impl Machine<'_> {
    /// A node is left.
    #[inline(always)]
    pub fn leave<T: Track, L: Ledger>(&self, i: u16, track: &mut T, steps: &mut Steps<L>)
        requires { i < length self.now.plan.now.nodes }
        ensures told { (node : NodeV) × (slice_get self.now.plan.now.nodes i ≡ Some node) × T.takes track.old Leave node track.new }
        ensures step { steps.new ≡ steps.old + 1 }
    {
        let node = self.plan.node(i, steps);
        track.step(Move::Leave, node);
    }

    /// A choice or a labelled part is left, behind the part of it.
    #[inline(always)]
    pub fn pass<T: Track, L: Ledger>(
        &self,
        i: u16,
        source: &Source<'_>,
        track: &mut T,
        steps: &mut Steps<L>,
    ) -> Turn
        requires known { Known self.now.plan.now }
        requires node { i < length self.now.plan.now.nodes }
        ensures turns { (top : FrameV) → IsPassed top i → Turns self.now.plan.now T.takes (state_with top self.now source.now)
            (state_of self.now source.now) track.old track.new result }
        ensures pays { (top : FrameV) → IsPassed top i → TurnPays self.now.plan.now (state_with top self.now source.now) (state_of self.now source.now)
            steps.old steps.new result }
    {
        self.leave(i, track, steps);
        Turn::Moved
    }

    /// The next parts of a sequence are read at once, up to one that begins; or it is left behind its last, and what it
    /// has shown of values with it.
    #[inline(always)]
    pub fn seq<T: Track, L: Ledger>(
        &mut self,
        i: u16,
        mut at: u32,
        values: u32,
        source: &mut Source<'_>,
        track: &mut T,
        steps: &mut Steps<L>,
    ) -> Next
        requires stands { StandsSomewhere self.old.plan.now (state_with (frame.Seq i at values) self.old source.old) }
        requires fits { T.fits track.old self.old.plan.now }
        ensures turns { Turns self.old.plan.now T.takes (state_with (frame.Seq i at values) self.old source.old)
            (state_then result self.new source.new) track.old track.new (turn_in result) }
        ensures pays { TurnPays self.old.plan.now (state_with (frame.Seq i at values) self.old source.old) (state_then result self.new source.new)
            steps.old steps.new (turn_in result) }
        ensures plan { self.new.plan ≡ self.old.plan }
    {
        let node = self.plan.node(i, steps);
        let Node::Seq(parts) = node else {
            unreachable!();
        };
        while at < parts.len() as u32 {
            let part = part_at(parts, at);
            at += 1;
            self.pace.begin(part);
            if !self.read_whole(part, source, track) {
                self.frames.push(Frame::Seq {
                    node: i,
                    at,
                    values,
                });
                return Next::Begin { node: part };
            }
        }
        self.values.truncate(values as usize);
        track.step(Move::Leave, node);
        Next::Turn(Turn::Moved)
    }

    /// The part of a repetition begins again, or it is left.
    #[inline(always)]
    pub fn times<T: Track, L: Ledger>(
        &mut self,
        i: u16,
        part: u16,
        left: u32,
        source: &Source<'_>,
        track: &mut T,
        steps: &mut Steps<L>,
    ) -> Next
        requires { StandsSomewhere self.old.plan.now (state_with (frame.Times i part left) self.old source.now) }
        ensures turns { Turns self.old.plan.now T.takes (state_with (frame.Times i part left) self.old source.now)
            (state_then result self.new source.now) track.old track.new (turn_in result) }
        ensures pays { TurnPays self.old.plan.now (state_with (frame.Times i part left) self.old source.now) (state_then result self.new source.now)
            steps.old steps.new (turn_in result) }
        ensures waits { turn_in result ≡ turn.Waits → steps.new ≤ steps.old + 1 }
        ensures plan { self.new.plan ≡ self.old.plan }
    {
        if left == 0 {
            self.leave(i, track, steps);
            return Next::Turn(Turn::Moved);
        }
        let behind = Frame::Times {
            node: i,
            part,
            left: left - 1,
        };
        self.begin(part, behind);
        Next::Begin { node: part }
    }

    /// A window is left, where its part has ended where it does.
    #[inline(always)]
    pub fn window<T: Track, L: Ledger>(
        &mut self,
        i: u16,
        start: u32,
        bits: u32,
        outer: u32,
        source: &mut Source<'_>,
        track: &mut T,
        steps: &mut Steps<L>,
    ) -> Turn
        requires { StandsSomewhere self.old.plan.now (state_with (frame.Window i start bits outer) self.old source.old) }
        ensures turns { Turns self.old.plan.now T.takes (state_with (frame.Window i start bits outer) self.old source.old)
            (state_of self.new source.new) track.old track.new result }
        ensures pays { TurnPays self.old.plan.now (state_with (frame.Window i start bits outer) self.old source.old) (state_of self.new source.new)
            steps.old steps.new result }
        ensures plan { self.new.plan ≡ self.old.plan }
    {
        let end = start as u64 + bits as u64;
        if source.place() as u64 != end {
            self.frames.push(Frame::Window {
                node: i,
                start,
                bits,
                outer,
            });
            return Turn::stopped(source);
        }
        source.set_limit(outer);
        self.leave(i, track, steps);
        Turn::Moved
    }
}
