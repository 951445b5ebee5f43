//! Choices, free repetitions and truncations look at the bits ahead.

ghost use Rattle.std.specs.Prelude.{◌≡◌, ◌+◌, ◌-◌, ◌%◌, ◌<◌, ◌≤◌, ◌⊎◌, IsTrue, true, false, [], length, min, take, slice_get, Some};
ghost use Rattle.csn_certify.specs.declared.pick.Pick.TheVariants.{Refuse};
ghost use Rattle.csn_judge.specs.Coming.{IsGood};
ghost use Rattle.csn_judge.specs.Picked.{IsNotRefused};
ghost use Rattle.csn_certify.specs.Picks.{IsAsked, Picks};
ghost use Rattle.csn_judge.specs.declared.frame.Frame.TheVariants as frame;
ghost use Rattle.csn_judge.specs.declared.turn.Turn.TheVariants as turn;
ghost use Rattle.csn_judge.specs.Credit.{credit_in, Pays, TurnPays};
ghost use Rattle.csn_judge.specs.Turns.{state_begun, state_of, state_then, state_with, tells_nothing, turn_in, StandsSomewhere, Turns};

use crate::frame::Frame;
use crate::leaf::Leaf;
use crate::machine::{Machine, part_at};
use crate::source::Source;
use crate::track::Track;
use crate::turn::{Next, PartTurn, Turn};
use csn_certify::{Pick, Steps};
use csn_desc::{Move, Node};
use csn_look::MOST_WORD;
use std::sync::ledger::Ledger;

impl Machine<'_> {
    /// A choice that was waiting takes an alternative.
    pub fn choose_on<T: Track, L: Ledger>(
        &mut self,
        i: u16,
        source: &mut Source<'_>,
        track: &mut T,
        steps: &mut Steps<L>,
    ) -> Next
        requires { StandsSomewhere self.old.plan.now (state_with (frame.Open i) self.old source.old) }
        ensures turns { Turns self.old.plan.now T.takes (state_with (frame.Open i) self.old source.old)
            (state_then result self.new source.new) track.old track.new (turn_in result) }
        ensures pays { TurnPays self.old.plan.now (state_with (frame.Open i) self.old source.old) (state_then result self.new source.new)
            steps.old steps.new (turn_in result) }
        ensures plan { self.new.plan ≡ self.old.plan }
    {
        let node = self.plan.node(i, steps);
        self.choose(i, node, source, track, steps)
    }

    /// A choice takes an alternative by the bits that are ready. Without a bit it waits, unless none can come.
    #[inline(always)]
    pub fn choose<T: Track, L: Ledger>(
        &mut self,
        i: u16,
        node: &Node,
        source: &mut Source<'_>,
        track: &mut T,
        steps: &mut Steps<L>,
    ) -> Next
        requires node { slice_get self.old.plan.now.nodes i ≡ Some node.now }
        requires stands { StandsSomewhere self.old.plan.now (state_with (frame.Open i) self.old source.old) }
        ensures turns { Turns self.old.plan.now T.takes (state_with (frame.Open i) self.old source.old)
            (state_then result self.new source.new) track.old track.new (turn_in result) }
        ensures pays { TurnPays self.old.plan.now (state_with (frame.Open i) self.old source.old) (state_then result self.new source.new)
            steps.old (steps.new + 1) (turn_in result) }
        ensures plan { self.new.plan ≡ self.old.plan }
    {
        source.none_behind_end();
        let Node::Choice(parts) = node else {
            unreachable!();
        };
        let ready = source.ready(MOST_WORD as u32);
        if ready == 0 && !source.is_closed() {
            self.frames.push(Frame::Open { node: i });
            return Next::Turn(Turn::Waits);
        }
        match self.pick(i, ready, source, steps) {
            Pick::Take(j) => self.take_alternative(i, parts.get(j), node, source, track, steps),
            Pick::Wait => {
                self.frames.push(Frame::Open { node: i });
                if source.has_more(ready) {
                    Next::Turn(Turn::Refused {
                        place: source.place() + ready,
                    })
                } else {
                    Next::Turn(Turn::Waits)
                }
            }
            Pick::Refuse => Next::Turn(self.refuse(i, ready, source, steps)),
            Pick::Leave => unreachable!(),
        }
    }

    /// An alternative of a choice begins. A literal is read at once.
    #[inline(always)]
    fn take_alternative<T: Track, L: Ledger>(
        &mut self,
        i: u16,
        part: u16,
        node: &Node,
        source: &mut Source<'_>,
        track: &mut T,
        steps: &mut Steps<L>,
    ) -> Next
        requires node { slice_get self.old.plan.now.nodes i ≡ Some node.now }
        requires stands { StandsSomewhere self.old.plan.now (state_begun part (frame.Choice i) self.old source.old) }
        ensures turns { Turns self.old.plan.now T.takes (state_begun part (frame.Choice i) self.old source.old)
            (state_then result self.new source.new) track.old track.new (turn_in result) }
        ensures pays { Pays (credit_in self.old.plan.now (state_begun part (frame.Choice i) self.old source.old) + 1)
            (credit_in self.old.plan.now (state_then result self.new source.new)) steps.old steps.new (turn_in result) }
        ensures plan { self.new.plan ≡ self.old.plan }
    {
        let alternative = self.plan.node(part, steps);
        let behind = Frame::Choice { node: i };
        let Node::Lits(_) = alternative else {
            self.begin(part, behind);
            return Next::Begin { node: part };
        };
        source.none_behind_end();
        self.pace.begin(part);
        track.step(Move::Enter(part), alternative);
        let literal = Leaf::Lits { at: 0 };
        match self.read_part(part, literal, alternative, Some(behind), source, track) {
            PartTurn::Ended => {
                track.step(Move::Leave, node);
                Next::Turn(Turn::Moved)
            }
            PartTurn::Turn(turn) => Next::Turn(turn),
        }
    }

    /// What look-ahead answers for so many of the next bits, or at the end where they are none.
    #[inline(always)]
    fn pick<L: Ledger>(&self, i: u16, count: u32, source: &Source<'_>, steps: &mut Steps<L>) -> Pick
        requires node { i < length self.now.plan.now.nodes }
        requires few { count ≤ 12 }
        requires held { count ≤ source.now.held }
        requires asked { IsAsked self.now.plan.now i (source.now.place % 8) }
        ensures some { 0 < count → Picks self.now.plan.now 12 i (source.now.place % 8) (take count source.now.bits) false result }
        ensures none { count ≡ 0 → Picks self.now.plan.now 12 i (source.now.place % 8) [] true result }
        ensures step { steps.new ≡ steps.old + 1 }
    {
        let octet = (source.place() % 8) as u8;
        let word = source.word(count);
        self.plan.pick(i, octet, &word, count == 0, steps)
    }

    /// A choice whose look-ahead refuses so many of the next bits. Where these are none, the bit that comes is
    /// refused, or the end. Else the place is behind the most of them that are not refused.
    fn refuse<L: Ledger>(
        &mut self,
        i: u16,
        ready: u32,
        source: &Source<'_>,
        steps: &mut Steps<L>,
    ) -> Turn
        requires stands { StandsSomewhere self.old.plan.now (state_with (frame.Open i) self.old source.now) }
        requires ready { ready ≡ min 12 (min (length source.now.bits) (source.now.limit - source.now.place)) }
        requires held { ready ≤ source.now.held }
        requires good { IsGood source.now }
        requires closed { ready ≡ 0 → (source.now.ended ≡ true) ⊎ (source.now.place ≡ source.now.limit) }
        requires some { 0 < ready → Picks self.old.plan.now 12 i (source.now.place % 8) (take ready source.now.bits) false Refuse }
        requires none { ready ≡ 0 → Picks self.old.plan.now 12 i (source.now.place % 8) [] true Refuse }
        ensures turns { Turns self.old.plan.now tells_nothing (state_with (frame.Open i) self.old source.now)
            (state_of self.new source.now) tt tt result }
        ensures pays { TurnPays self.old.plan.now (state_with (frame.Open i) self.old source.now) (state_of self.new source.now)
            steps.old (steps.new + 2) result }
        ensures plan { self.new.plan ≡ self.old.plan }
    {
        if ready == 0 {
            self.frames.push(Frame::Open { node: i });
            return Turn::stopped(source);
        }
        let count = self.followed(i, ready, source, steps);
        Turn::Refused {
            place: source.place() + count,
        }
    }

    /// How many of so many next bits, which look-ahead refuses, it does not refuse.
    fn followed<L: Ledger>(
        &self,
        i: u16,
        ready: u32,
        source: &Source<'_>,
        steps: &mut Steps<L>,
    ) -> u32
        requires node { i < length self.now.plan.now.nodes }
        requires some { 0 < ready }
        requires few { ready ≤ 12 }
        requires held { ready ≤ source.now.held }
        requires asked { IsAsked self.now.plan.now i (source.now.place % 8) }
        requires refused { Picks self.now.plan.now 12 i (source.now.place % 8) (take ready source.now.bits) false Refuse }
        ensures less { result < ready }
        ensures refused { Picks self.now.plan.now 12 i (source.now.place % 8) (take (result + 1) source.now.bits) false Refuse }
        ensures followed { (result ≡ 0) ⊎ IsNotRefused self.now.plan.now i (source.now.place % 8) (take result source.now.bits) }
        ensures steps { steps.new ≤ steps.old + (ready - 1) }
    {
        let mut count = ready - 1;
        while self.refuses(i, count, source, steps) {
            count -= 1;
        }
        count
    }

    /// Whether look-ahead refuses so many of the next bits, which are not none.
    fn refuses<L: Ledger>(
        &self,
        i: u16,
        count: u32,
        source: &Source<'_>,
        steps: &mut Steps<L>,
    ) -> bool
        requires node { i < length self.now.plan.now.nodes }
        requires few { count ≤ 12 }
        requires held { count ≤ source.now.held }
        requires asked { IsAsked self.now.plan.now i (source.now.place % 8) }
        ensures refused { IsTrue result → (0 < count) × Picks self.now.plan.now 12 i (source.now.place % 8) (take count source.now.bits) false Refuse }
        ensures followed { result ≡ false → (count ≡ 0) ⊎ IsNotRefused self.now.plan.now i (source.now.place % 8) (take count source.now.bits) }
        ensures steps { steps.new ≤ steps.old + min count 1 }
    {
        if count == 0 {
            return false;
        }
        match self.pick(i, count, source, steps) {
            Pick::Refuse => true,
            Pick::Take(_) | Pick::Wait | Pick::Leave => false,
        }
    }

    /// A free repetition begins its part again or is left, by the bit that is ready. Without one it waits, unless
    /// none can come.
    #[inline(always)]
    pub fn many<T: Track, L: Ledger>(
        &mut self,
        i: u16,
        part: u16,
        source: &mut Source<'_>,
        track: &mut T,
        steps: &mut Steps<L>,
    ) -> Next
        requires { StandsSomewhere self.old.plan.now (state_with (frame.Many i part) self.old source.old) }
        ensures turns { Turns self.old.plan.now T.takes (state_with (frame.Many i part) self.old source.old)
            (state_then result self.new source.new) track.old track.new (turn_in result) }
        ensures pays { TurnPays self.old.plan.now (state_with (frame.Many i part) self.old source.old) (state_then result self.new source.new)
            steps.old steps.new (turn_in result) }
        ensures waits { turn_in result ≡ turn.Waits → steps.new ≤ steps.old + 1 }
        ensures plan { self.new.plan ≡ self.old.plan }
    {
        let ready = source.ready(1);
        if ready == 0 && !source.is_closed() {
            self.frames.push(Frame::Many { node: i, part });
            return Next::Turn(Turn::Waits);
        }
        if let Pick::Take(_) = self.pick(i, ready, source, steps) {
            self.begin(part, Frame::Many { node: i, part });
            return Next::Begin { node: part };
        }
        self.leave(i, track, steps);
        Next::Turn(Turn::Moved)
    }

    /// The next part of a truncation begins where a bit is ready. It is left behind its last part, and where no
    /// bit can come, and what it has shown of values with it.
    #[inline(always)]
    pub fn trunc<T: Track, L: Ledger>(
        &mut self,
        i: u16,
        at: u32,
        values: u32,
        source: &mut Source<'_>,
        track: &mut T,
        steps: &mut Steps<L>,
    ) -> Next
        requires { StandsSomewhere self.old.plan.now (state_with (frame.Trunc i at values) self.old source.old) }
        ensures turns { Turns self.old.plan.now T.takes (state_with (frame.Trunc i at values) self.old source.old)
            (state_then result self.new source.new) track.old track.new (turn_in result) }
        ensures pays { TurnPays self.old.plan.now (state_with (frame.Trunc i at values) self.old source.old) (state_then result self.new source.new)
            steps.old steps.new (turn_in result) }
        ensures waits { turn_in result ≡ turn.Waits → steps.new ≤ steps.old + 1 }
        ensures plan { self.new.plan ≡ self.old.plan }
    {
        let node = self.plan.node(i, steps);
        let Node::Trunc(parts) = node else {
            unreachable!();
        };
        let ready = source.ready(1);
        if ready == 0 && at < parts.len() as u32 && !source.is_closed() {
            self.frames.push(Frame::Trunc {
                node: i,
                at,
                values,
            });
            return Next::Turn(Turn::Waits);
        }
        if ready == 0 || at == parts.len() as u32 {
            self.values.truncate(values as usize);
            track.step(Move::Leave, node);
            return Next::Turn(Turn::Moved);
        }
        let behind = Frame::Trunc {
            node: i,
            at: at + 1,
            values,
        };
        let part = part_at(parts, at);
        self.begin(part, behind);
        Next::Begin { node: part }
    }
}
