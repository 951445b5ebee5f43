//! Bits are taken by leaves.

ghost use Rattle.std.specs.Prelude.{◌≡◌, ◌+◌, slice_get, Some};
ghost use Rattle.csn_judge.specs.declared.frame.Frame.TheVariants as frame;
ghost use Rattle.csn_judge.specs.Credit.{TurnPays};
ghost use Rattle.csn_judge.specs.Turns.{state_behind, state_of, state_upon, state_with, turn_of_part, StandsSomewhere, Turns};

use crate::frame::{Counted, Frame};
use crate::leaf::{Leaf, Read, take};
use crate::machine::{Machine, put};
use crate::source::Source;
use crate::track::Track;
use crate::turn::{PartTurn, Turn};
use csn_certify::{Number, Steps};
use csn_desc::{Move, Node};
use std::sync::ledger::Ledger;

impl Machine<'_> {
    /// A leaf that was waiting takes bits.
    #[inline(always)]
    pub fn read_on<T: Track, L: Ledger>(
        &mut self,
        i: u16,
        leaf: Leaf,
        source: &mut Source<'_>,
        track: &mut T,
        steps: &mut Steps<L>,
    ) -> Turn
        requires { StandsSomewhere self.old.plan.now (state_with (frame.Leaf i leaf) self.old source.old) }
        ensures turns { Turns self.old.plan.now T.takes (state_with (frame.Leaf i leaf) self.old source.old)
            (state_of self.new source.new) track.old track.new result }
        ensures plan { self.new.plan ≡ self.old.plan }
        ensures pays { TurnPays self.old.plan.now (state_with (frame.Leaf i leaf) self.old source.old) (state_of self.new source.new)
            steps.old steps.new result }
    {
        let node = self.plan.node(i, steps);
        self.read(i, leaf, node, source, track)
    }

    /// A leaf takes bits, and is left where it has ended. Where it has not, the frame behind it is put on the others, and
    /// what is left of it on that. One step is paid for with it.
    #[inline(always)]
    pub fn read_part<T: Track>(
        &mut self,
        i: u16,
        leaf: Leaf,
        node: &Node,
        behind: Option<Frame>,
        source: &mut Source<'_>,
        track: &mut T,
    ) -> PartTurn
        requires stands { StandsSomewhere self.old.plan.now (state_upon (frame.Leaf i leaf) behind self.old source.old) }
        requires node { slice_get self.old.plan.now.nodes i ≡ Some node.now }
        ensures turns { Turns self.old.plan.now T.takes (state_upon (frame.Leaf i leaf) behind self.old source.old)
            (state_behind result behind self.new source.new) track.old track.new (turn_of_part result) }
        ensures plan { self.new.plan ≡ self.old.plan }
        ensures pays { TurnPays self.old.plan.now (state_upon (frame.Leaf i leaf) behind self.old source.old)
            (state_behind result behind self.new source.new) 0 1 (turn_of_part result) }
    {
        let before = source.place();
        let read = leaf.read(node, self.plan.reading(), source, track);
        let took = source.place() > before;
        self.pace.bits(took);
        match read {
            Read::All => {
                track.step(Move::Leave, node);
                PartTurn::Ended
            }
            Read::Some(leaf) => {
                put(&mut self.frames, behind);
                self.frames.push(Frame::Leaf { node: i, leaf });
                if took {
                    PartTurn::Turn(Turn::Moved)
                } else {
                    PartTurn::Turn(Turn::stopped(source))
                }
            }
            Read::Refused { place } => PartTurn::Turn(Turn::Refused { place }),
        }
    }

    /// A leaf takes bits, and is left where it has ended. One step is paid for with it.
    #[inline(always)]
    pub fn read<T: Track>(
        &mut self,
        i: u16,
        leaf: Leaf,
        node: &Node,
        source: &mut Source<'_>,
        track: &mut T,
    ) -> Turn
        requires stands { StandsSomewhere self.old.plan.now (state_with (frame.Leaf i leaf) self.old source.old) }
        requires node { slice_get self.old.plan.now.nodes i ≡ Some node.now }
        ensures turns { Turns self.old.plan.now T.takes (state_with (frame.Leaf i leaf) self.old source.old)
            (state_of self.new source.new) track.old track.new result }
        ensures plan { self.new.plan ≡ self.old.plan }
        ensures pays { TurnPays self.old.plan.now (state_with (frame.Leaf i leaf) self.old source.old) (state_of self.new source.new)
            0 1 result }
    {
        match self.read_part(i, leaf, node, None, source, track) {
            PartTurn::Ended => Turn::Moved,
            PartTurn::Turn(turn) => turn,
        }
    }

    /// A labelled field that counts stand on was waiting and takes bits.
    pub fn count<T: Track, L: Ledger>(
        &mut self,
        counted: Counted,
        source: &mut Source<'_>,
        track: &mut T,
        steps: &mut Steps<L>,
    ) -> Turn
        requires { StandsSomewhere self.old.plan.now (state_with (frame.Counted counted) self.old source.old) }
        ensures turns { Turns self.old.plan.now T.takes (state_with (frame.Counted counted) self.old source.old)
            (state_of self.new source.new) track.old track.new result }
        ensures plan { self.new.plan ≡ self.old.plan }
        ensures pays { TurnPays self.old.plan.now (state_with (frame.Counted counted) self.old source.old) (state_of self.new source.new)
            steps.old steps.new result }
    {
        let field = self.plan.node(counted.part, steps);
        self.read_counted(counted, field, source, track, steps)
    }

    /// A labelled field that counts stand on takes bits. Where it has ended, it and its label are left, and its
    /// number is kept. One step more is paid for than are taken.
    pub fn read_counted<T: Track, L: Ledger>(
        &mut self,
        counted: Counted,
        field: &Node,
        source: &mut Source<'_>,
        track: &mut T,
        steps: &mut Steps<L>,
    ) -> Turn
        requires stands { StandsSomewhere self.old.plan.now (state_with (frame.Counted counted) self.old source.old) }
        requires field { slice_get self.old.plan.now.nodes counted.part ≡ Some field.now }
        ensures turns { Turns self.old.plan.now T.takes (state_with (frame.Counted counted) self.old source.old)
            (state_of self.new source.new) track.old track.new result }
        ensures plan { self.new.plan ≡ self.old.plan }
        ensures pays { TurnPays self.old.plan.now (state_with (frame.Counted counted) self.old source.old) (state_of self.new source.new)
            steps.old (steps.new + 1) result }
    {
        let ready = source.ready(counted.left);
        if ready == 0 {
            self.frames.push(Frame::Counted(counted));
            return Turn::stopped(source);
        }
        let bits = take(ready, field, source, track);
        self.pace.bits(true);
        let number = counted.number << ready | bits as u32;
        if ready < counted.left {
            self.frames.push(Frame::Counted(Counted {
                node: counted.node,
                part: counted.part,
                left: counted.left - ready,
                number,
            }));
            return Turn::Moved;
        }
        track.step(Move::Leave, field);
        self.values.push(Number {
            field: counted.node,
            value: number,
        });
        self.leave(counted.node, track, steps);
        Turn::Moved
    }
}
