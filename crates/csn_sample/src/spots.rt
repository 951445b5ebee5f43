//! Where the leaves of a block stand, and the last turns of its repetitions by number.

use arrayvec::ArrayVec;
use csn_bits::{Bits, NoMemory};
use csn_certify::{Plan, Steps};
use csn_desc::{MOST_DEPTH, Move, Node};
use csn_judge::{Judge, Track};
use std::alloc::Global;
use std::sync::ledger::Ledger;

/// What stands at a spot.
#[derive(Clone, Copy, Debug, PartialEq, Eq)]
pub(crate) enum Kind {
    Literal,
    Spare,
    Field,
    /// The last turn of a repetition by number.
    LastTurn,
}

/// Where something of a block stands: from one place up to another.
#[derive(Clone, Copy, Debug, PartialEq, Eq)]
pub(crate) struct Spot {
    pub node: u16,
    pub kind: Kind,
    pub from: u32,
    pub to: u32,
}

/// A node that has begun and not ended.
#[derive(Clone, Copy, Default)]
struct Open {
    node: u16,
    /// Where it began.
    from: u32,
    /// Where the part of it began that began last.
    part: u32,
}

/// The spots of the moves so far, while there is memory.
#[derive(Drop)]
struct SpotTrack {
    place: u32,
    open: ArrayVec<Open, MOST_DEPTH>,
    found: Vec<Spot>,
    refused: bool,
}

/// The spots of a block that is a string; of one that is none, those before its place.
pub(crate) fn spots<L: Ledger>(
    alloc: Global,
    plan: &Plan,
    block: &Bits,
    steps: &mut Steps<L>,
) -> Result<Vec<Spot>, NoMemory> {
    let mut spots = SpotTrack {
        place: 0,
        open: ArrayVec::new(),
        found: Vec::new(alloc),
        refused: false,
    };
    let mut judge = Judge::new(plan);
    let _going = judge.feed_to(block.octets(), block.len(), &mut spots, steps);
    let _ended = judge.finish_to(&mut spots, steps);
    if spots.refused {
        return Err(NoMemory);
    }
    Ok(spots.found)
}

impl SpotTrack {
    /// A node begins.
    fn enter(&mut self, node: u16) {
        if let Some(around) = self.open.last_mut() {
            around.part = self.place;
        }
        if !self.open.is_full() {
            self.open.push(Open {
                node,
                from: self.place,
                part: self.place,
            });
        }
    }

    /// The innermost node ends.
    fn leave(&mut self, node: &Node) {
        let Some(open) = self.open.pop() else {
            return;
        };
        let (kind, from) = match node {
            Node::Lits(_) => (Kind::Literal, open.from),
            Node::Spare(_) | Node::Pad => (Kind::Spare, open.from),
            Node::Field { .. } | Node::Rest => (Kind::Field, open.from),
            Node::Times { .. } => (Kind::LastTurn, open.part),
            _ => return,
        };
        let spot = Spot {
            node: open.node,
            kind,
            from,
            to: self.place,
        };
        self.refused = self.refused || self.found.push(spot).is_err();
    }
}

impl Track for SpotTrack {
    ghost use Rattle.std.specs.Prelude.{⊤};

    ghost takes = { λ _ _ _ _. ⊤ };

    ghost fits = { λ _ _. ⊤ };

    ghost keeps = { λ _ _ _ _ _ _ _. tt };

    fn step(&mut self, step: Move, node: &Node) {
        match step {
            Move::Enter(number) => self.enter(number),
            Move::Bit(_) => self.place = self.place.saturating_add(1),
            Move::Leave => self.leave(node),
        }
    }
}
