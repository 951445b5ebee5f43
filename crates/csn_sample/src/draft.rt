//! The nodes of a description, gone through by chance.

ghost use Rattle.std.specs.Prelude.{◌≡◌, ◌+◌, ◌<◌, ◌≤◌, [], length, OnOk};

use crate::chart::Chart;
use crate::drawn::{Drawn, Stop};
use crate::room::Room;
use crate::span::Span;
use crate::wish::Wish;
use arrayvec::ArrayVec;
use csn_certify::{MOST_NUMBERS, Number, Steps};
use csn_desc::{Count, MOST_DEPTH, Node, Parts};
use std::alloc::Global;
use std::sync::ledger::Ledger;

/// How often what is in a window is drawn until it has its length.
const WINDOW_TRIES: u8 = 8;

/// A draw of a block.
#[derive(Drop)]
pub(crate) struct Draft {
    pub drawn: Drawn,
    /// The numbers of the labelled fields that the node sees and that counts stand on.
    numbers: ArrayVec<Number, MOST_NUMBERS>,
    /// How many nodes may still begin.
    left: u64,
    /// How many nodes began in all draws.
    pub begun: u64,
}

impl Draft {
    /// Nothing is drawn. It takes no memory.
    pub fn new(alloc: Global) -> Draft
        ensures bits { result.drawn.bits.items ≡ [] }
        ensures begun { result.begun ≡ 0 }
    {
        Draft {
            drawn: Drawn::new(alloc),
            numbers: ArrayVec::new(),
            left: 0,
            begun: 0,
        }
    }

    /// Draws a block, in which no more nodes begin than that. The generator goes on from the last one.
    pub fn draw_block<L: Ledger>(
        &mut self,
        chart: &Chart<'_>,
        wish: Wish,
        most_begun: u64,
        steps: &mut Steps<L>,
    ) -> Result<(), Stop>
        ensures { steps.new ≤ steps.old + most_begun }
    {
        let most = wish.length.most().min(chart.aim.most);
        self.drawn.begin(wish.values, most);
        self.numbers.clear();
        self.left = most_begun;
        let room = Room::of(wish.length).within(most);
        let drawn = self.draw(chart, 0, MOST_DEPTH as u8, room, steps);
        let begun = most_begun.saturating_sub(self.left);
        self.begun = self.begun.saturating_add(begun);
        drawn
    }

    /// Draws a string of node `i`, inside which so many others may be.
    #[cycle(draw)]
    fn draw<L: Ledger>(
        &mut self,
        chart: &Chart<'_>,
        i: u16,
        deep: u8,
        room: Room,
        steps: &mut Steps<L>,
    ) -> Result<(), Stop>
        ensures { steps.new + self.new.left ≤ steps.old + self.old.left }
    {
        if deep == 0 || self.left == 0 || i >= chart.plan.len() {
            return Err(Stop::Unlucky);
        }
        self.left -= 1;
        let deep = deep - 1;
        match chart.plan.node(i, steps) {
            Node::Lits(run) => self.drawn.literal(run),
            Node::Spare(symbol) => self.drawn.spare(*symbol, chart.plan.reading()),
            Node::Pad => self.drawn.padding(chart.plan.reading(), room),
            Node::Null => Ok(()),
            Node::Field { unit, count } => self.field(*unit, *count),
            Node::Rest => self.drawn.rest(room),
            Node::Seq(parts) => self.parts(chart, parts, parts.len(), deep, room, steps),
            Node::Choice(parts) => self.choice(chart, parts, deep, room, steps),
            Node::Times { count, part } => self.times(chart, *count, *part, deep, room, steps),
            Node::Many(part) => self.many(chart, *part, deep, room, steps),
            Node::Trunc(parts) => {
                let count = self.drawn.components(chart, parts, room);
                self.parts(chart, parts, count, deep, room, steps)
            }
            Node::Window { unit, count, part } => {
                self.window(chart, *unit, *count, *part, deep, steps)
            }
            Node::Named { part, .. } => self.named(chart, i, *part, deep, room, steps),
        }
    }

    /// Draws the first so many parts, one after another.
    #[cycle(draw)]
    fn parts<L: Ledger>(
        &mut self,
        chart: &Chart<'_>,
        parts: &Parts,
        count: u16,
        deep: u8,
        room: Room,
        steps: &mut Steps<L>,
    ) -> Result<(), Stop>
        requires { count ≤ length parts.now }
        ensures { steps.new + self.new.left ≤ steps.old + self.old.left }
    {
        let seen = self.numbers.len();
        let start = self.drawn.len();
        let mut behind = chart.total(parts, count);
        for at in 0..count {
            let part = parts.get(at);
            behind = behind.without(chart.span(part));
            let used = self.drawn.len().saturating_sub(start);
            self.draw(chart, part, deep, room.left(used, behind), steps)?;
        }
        self.numbers.truncate(seen);
        Ok(())
    }

    /// Draws an alternative of a choice.
    #[cycle(draw)]
    fn choice<L: Ledger>(
        &mut self,
        chart: &Chart<'_>,
        parts: &Parts,
        deep: u8,
        room: Room,
        steps: &mut Steps<L>,
    ) -> Result<(), Stop>
        ensures { steps.new + self.new.left ≤ steps.old + self.old.left }
    {
        match self.drawn.alternative(chart, parts, room) {
            Some(part) => self.draw(chart, part, deep, room, steps),
            None => Err(Stop::Unlucky),
        }
    }

    /// Draws a part as many times as counted.
    #[cycle(draw)]
    fn times<L: Ledger>(
        &mut self,
        chart: &Chart<'_>,
        count: Count,
        part: u16,
        deep: u8,
        room: Room,
        steps: &mut Steps<L>,
    ) -> Result<(), Stop>
        ensures { steps.new + self.new.left ≤ steps.old + self.old.left }
    {
        let start = self.drawn.len();
        let turns = self.count_of(count)?;
        let turn = chart.span(part);
        for at in 0..turns {
            let behind = turn.times(Span::exactly(turns - at - 1));
            let used = self.drawn.len().saturating_sub(start);
            self.draw(chart, part, deep, room.left(used, behind), steps)?;
        }
        Ok(())
    }

    /// Draws a part any number of times.
    #[cycle(draw)]
    fn many<L: Ledger>(
        &mut self,
        chart: &Chart<'_>,
        part: u16,
        deep: u8,
        room: Room,
        steps: &mut Steps<L>,
    ) -> Result<(), Stop>
        ensures { steps.new + self.new.left ≤ steps.old + self.old.left }
    {
        let start = self.drawn.len();
        for _ in 0..room.most {
            let used = self.drawn.len().saturating_sub(start);
            if !self
                .drawn
                .goes_on(used, room, chart.span(part), chart.odds(part))
            {
                break;
            }
            let turn = Room {
                least: 0,
                most: room.left(used, Span::NONE).most,
            };
            self.draw(chart, part, deep, turn, steps)?;
        }
        Ok(())
    }

    /// Draws a part until it has as many bits as counted.
    #[cycle(draw)]
    fn window<L: Ledger>(
        &mut self,
        chart: &Chart<'_>,
        unit: u8,
        count: Count,
        part: u16,
        deep: u8,
        steps: &mut Steps<L>,
    ) -> Result<(), Stop>
        ensures { steps.new + self.new.left ≤ steps.old + self.old.left }
    {
        let seen = self.numbers.len();
        let start = self.drawn.len();
        let bits = self.count_of(count)?.saturating_mul(u64::from(unit));
        let room = Room {
            least: bits,
            most: bits,
        };
        for _ in 0..WINDOW_TRIES {
            let drawn = self.draw(chart, part, deep, room, steps);
            if let Err(Stop::NoMemory(why)) = drawn {
                return Err(Stop::NoMemory(why));
            }
            if drawn.is_ok() && self.drawn.len() == start.saturating_add(bits) {
                return Ok(());
            }
            self.drawn.cut(start);
            self.numbers.truncate(seen);
        }
        Err(Stop::Unlucky)
    }

    /// Draws a labelled part. Its number is kept where counts stand on it.
    #[cycle(draw)]
    fn named<L: Ledger>(
        &mut self,
        chart: &Chart<'_>,
        i: u16,
        part: u16,
        deep: u8,
        room: Room,
        steps: &mut Steps<L>,
    ) -> Result<(), Stop>
        requires { i < length chart.now.plan.now.nodes }
        ensures { steps.new + self.new.left ≤ steps.old + self.old.left }
    {
        if !chart.plan.counts(i) {
            return self.draw(chart, part, deep, room, steps);
        }
        let value = self.drawn.number(chart.span(part).least, chart.number(i))?;
        self.keep(Number { field: i, value })
    }

    /// Keeps the number of a field.
    fn keep(&mut self, number: Number) -> Result<(), Stop>
        ensures { self.new.left ≡ self.old.left }
    {
        if self.numbers.is_full() {
            return Err(Stop::Unlucky);
        }
        self.numbers.push(number);
        Ok(())
    }

    /// Draws a field of as many units as counted.
    fn field(&mut self, unit: u8, count: Count) -> Result<(), Stop>
        ensures { self.new.left ≡ self.old.left }
    {
        let units = self.count_of(count)?;
        self.drawn.field(units.saturating_mul(u64::from(unit)))
    }

    /// How many a count is.
    fn count_of(&self, count: Count) -> Result<u64, Stop> {
        match count {
            Count::Fixed(n) => Ok(u64::from(n)),
            Count::Counted { m, field, c } => {
                let number = self.value_of(field)?;
                Ok(
                    u64::from(m)
                        .saturating_mul(u64::from(number))
                        .saturating_add(u64::from(c)),
                )
            }
        }
    }

    /// The number of a field, the last one that it has.
    fn value_of(&self, field: u16) -> Result<u32, Stop> {
        for number in self.numbers.as_slice().iter().rev() {
            if number.field == field {
                return Ok(number.value);
            }
        }
        Err(Stop::Unlucky)
    }
}
