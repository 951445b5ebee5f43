//! Nodes are entered.

ghost use Rattle.std.specs.Prelude.{◌≡◌, ℕ, ◌+◌, ◌*◌, ◌<◌, List, ◌∷◌, false, length, min, reverse, slice_get, Some};
ghost use Rattle.csn_desc.specs.declared.node.Node.TheVariants.{Named};
ghost use Rattle.csn_judge.specs.declared.frame.Frame.TheVariants as frame;
ghost use Rattle.csn_desc.specs.Formed.{is_counted};
ghost use Rattle.csn_desc.specs.Values.{Values, count_of};
ghost use Rattle.csn_judge.specs.Credit.{TurnPays};
ghost use Rattle.csn_certify.specs.KeptNumbers.{KeepsCount, numbers_of};
ghost use Rattle.csn_judge.specs.Turns.{begun_by, state_then, state_with, turn_in, Entered, StandsSomewhere, Turns};

use crate::frame::{Counted, Frame};
use crate::leaf::Leaf;
use crate::machine::Machine;
use crate::source::Source;
use crate::track::Track;
use crate::turn::{Next, PartTurn, Turn};
use csn_certify::{Steps, count_of};
use csn_desc::{Count, Move, Node};
use std::sync::ledger::Ledger;

impl Machine<'_> {
    /// A node is entered, and goes on as far as it can in one turn.
    #[inline(always)]
    pub fn enter<T: Track, L: Ledger>(
        &mut self,
        i: u16,
        source: &mut Source<'_>,
        track: &mut T,
        steps: &mut Steps<L>,
    ) -> Next
        requires { StandsSomewhere self.old.plan.now (state_with (frame.Begin i) self.old source.old) }
        ensures turns { Turns self.old.plan.now T.takes (state_with (frame.Begin i) self.old source.old)
            (state_then result self.new source.new) track.old track.new (turn_in result) }
        ensures pays { TurnPays self.old.plan.now (state_with (frame.Begin i) self.old source.old) (state_then result self.new source.new)
            steps.old steps.new (turn_in result) }
        ensures plan { self.new.plan ≡ self.old.plan }
    {
        source.none_behind_end();
        let node = self.plan.node(i, steps);
        track.step(Move::Enter(i), node);
        let values = self.values.len() as u32;
        match node {
            Node::Lits(_) => Next::Turn(self.read(i, Leaf::Lits { at: 0 }, node, source, track)),
            Node::Spare(_) => Next::Turn(self.read(i, Leaf::Spare, node, source, track)),
            Node::Pad => Next::Turn(self.read(i, Leaf::Pad { begun: false }, node, source, track)),
            Node::Null => {
                track.step(Move::Leave, node);
                Next::Turn(Turn::Moved)
            }
            Node::Field { unit, count } => {
                let left = *unit as u32 * self.number_of(count);
                Next::Turn(self.read(i, Leaf::Field { left }, node, source, track))
            }
            Node::Rest => Next::Turn(self.read(i, Leaf::Rest, node, source, track)),
            Node::Seq(parts) => {
                let behind = Frame::Seq {
                    node: i,
                    at: 1,
                    values,
                };
                let part = parts.get(0);
                self.begin(part, behind);
                Next::Begin { node: part }
            }
            Node::Choice(_) => self.choose(i, node, source, track, steps),
            Node::Times { count, part } => {
                let left = self.number_of(count);
                self.times(i, *part, left, source, track, steps)
            }
            Node::Many(part) => self.many(i, *part, source, track, steps),
            Node::Trunc(_) => self.trunc(i, 0, values, source, track, steps),
            Node::Window { unit, count, part } => {
                let bits = *unit as u32 * self.number_of(count);
                self.enter_window(i, bits, *part, source);
                Next::Begin { node: *part }
            }
            Node::Named { part, .. } => self.enter_named(i, *part, node, source, track, steps),
        }
    }

    /// A window of so many bits was entered: its part begins.
    #[inline(always)]
    fn enter_window(&mut self, i: u16, bits: u32, part: u16, source: &mut Source<'_>)
        requires few { part < 65535 }
        requires room { length self.old.frames.items < 63 }
        ensures frames { reverse self.new.frames.items
            ≡ frame.Window i source.old.place bits source.old.limit ∷ reverse self.old.frames.items }
        ensures values { self.new.values ≡ self.old.values }
        ensures pace { self.new.pace ≡ begun_by part self.old.pace }
        ensures plan { self.new.plan ≡ self.old.plan }
        ensures bits { source.new.bits ≡ source.old.bits }
        ensures place { source.new.place ≡ source.old.place }
        ensures limit { source.new.limit ≡ min source.old.limit (source.old.place + bits) }
        ensures ended { source.new.ended ≡ source.old.ended }
    {
        let start = source.place();
        let outer = source.limit();
        let end = start as u64 + bits as u64;
        source.set_limit(end.min(outer as u64) as u32);
        let behind = Frame::Window {
            node: i,
            start,
            bits,
            outer,
        };
        self.begin(part, behind);
    }

    /// A label was entered. Where counts stand on it, its part is a field of constant width, which is entered with
    /// it.
    #[inline(always)]
    fn enter_named<T: Track, L: Ledger>(
        &mut self,
        i: u16,
        part: u16,
        node: &Node,
        source: &mut Source<'_>,
        track: &mut T,
        steps: &mut Steps<L>,
    ) -> Next
        requires part { (label : List ℕ) × (slice_get self.old.plan.now.nodes i ≡ Some (Named label part)) }
        requires node { slice_get self.old.plan.now.nodes i ≡ Some node.now }
        requires stands { StandsSomewhere self.old.plan.now (state_with (frame.Begin i) self.old source.old) }
        ensures turns { Entered self.old.plan.now T.takes i (state_with (frame.Begin i) self.old source.old)
            (state_then result self.new source.new) track.old track.new (turn_in result) }
        ensures pays { TurnPays self.old.plan.now (state_with (frame.Begin i) self.old source.old) (state_then result self.new source.new)
            steps.old (steps.new + 1) (turn_in result) }
        ensures plan { self.new.plan ≡ self.old.plan }
    {
        let field = self.plan.node(part, steps);
        if !self.plan.counts(i) {
            return self.enter_plain(i, part, node, field, source, track);
        }
        let Node::Field { unit, count } = field else {
            unreachable!();
        };
        let Count::Fixed(width) = count else {
            unreachable!();
        };
        source.none_behind_end();
        self.pace.begin(part);
        track.step(Move::Enter(part), field);
        let counted = Counted {
            node: i,
            part,
            left: *unit as u32 * *width,
            number: 0,
        };
        Next::Turn(self.read_counted(counted, field, source, track, steps))
    }

    /// A label that no counts stand on was entered: its part begins. A field is read at once.
    #[inline(always)]
    fn enter_plain<T: Track>(
        &mut self,
        i: u16,
        part: u16,
        node: &Node,
        field: &Node,
        source: &mut Source<'_>,
        track: &mut T,
    ) -> Next
        requires part { (label : List ℕ) × (slice_get self.old.plan.now.nodes i ≡ Some (Named label part)) }
        requires node { slice_get self.old.plan.now.nodes i ≡ Some node.now }
        requires field { slice_get self.old.plan.now.nodes part ≡ Some field.now }
        requires plain { is_counted self.old.plan.now.nodes i ≡ false }
        requires stands { StandsSomewhere self.old.plan.now (state_with (frame.Begin i) self.old source.old) }
        ensures turns { Entered self.old.plan.now T.takes i (state_with (frame.Begin i) self.old source.old)
            (state_then result self.new source.new) track.old track.new (turn_in result) }
        ensures pays { TurnPays self.old.plan.now (state_with (frame.Begin i) self.old source.old) (state_then result self.new source.new)
            0 2 (turn_in result) }
        ensures plan { self.new.plan ≡ self.old.plan }
    {
        let Node::Field { unit, count } = field else {
            self.begin(part, Frame::Named { node: i });
            return Next::Begin { node: part };
        };
        source.none_behind_end();
        let left = *unit as u32 * self.number_of(count);
        let behind = Some(Frame::Named { node: i });
        self.pace.begin(part);
        track.step(Move::Enter(part), field);
        match self.read_part(part, Leaf::Field { left }, field, behind, source, track) {
            PartTurn::Ended => {
                track.step(Move::Leave, node);
                Next::Turn(Turn::Moved)
            }
            PartTurn::Turn(turn) => Next::Turn(turn),
        }
    }

    /// How many a count is.
    #[inline(always)]
    fn number_of(&self, count: &Count) -> u32
        requires { (v : Values) × KeepsCount self.now.plan.now v self.now.values.items count.now }
        ensures count { (v : Values) → self.now.values.items ≡ numbers_of self.now.plan.now v → count_of v count.now ≡ Some result }
        ensures small { result < 16777216 }
    {
        count_of(count, self.values.as_slice())
    }
}
