//! Block lines, each answered by its leaves.

ghost use Rattle.std.specs.Prelude.{◌≡◌};

use crate::along::Along;
use crate::field_plan::FieldPlan;
use crate::nodes::node_at;
use crate::teller::{Answered, LineTeller};
use crate::text::push_count;
use crate::wanted::push_wanted;
use crate::writer::LeafWriter;
use csn_bits::{Bits, BitsFault};
use csn_certify::Plan;
use csn_desc::Node;
use csn_fields::{Ended, Refusal, Role, StringReader};
use csn_judge::Judged;
use std::alloc::{AllocError, Global};
use std::marker::Model;
use std::mem;

/// Answers block lines by a plan, each as a writer of leaves writes it. A contract sees the description.
#[derive(Drop)]
pub struct BlockTeller<'a, W> {
    plan: &'a FieldPlan<'a>,
    reader: StringReader<'a, Along<'a, W>>,
    /// Those of the block.
    octets: Vec<u8>,
    wanted: Vec<u8>,
}

impl<'a, W> Model for BlockTeller<'a, W> {
    ghost use Rattle.csn_desc.specs.Nodes.{DescV};
    ghost use Rattle.csn_fields.specs.Reading.{IsReady};

    ghost Value = { DescV };

    ghost view = { λ t. t.reader.judge.desc };

    ghost invariant = { λ t. IsReady t.reader.judge t.reader.track.fields.places t.reader.track.alternatives.now };
}

/// Writes the answer to a line that is no block line.
fn push_fault(out: &mut Vec<u8>, fault: BitsFault) -> Result<(), AllocError> {
    match fault {
        BitsFault::BadDigit { column } => {
            out.extend_from_slice(b"bad 1 ")?;
            push_count(out, column)
        }
        BitsFault::BadLength => out.extend_from_slice(b"bad 2"),
        BitsFault::BadFill => out.extend_from_slice(b"bad 3"),
        BitsFault::TooManyBits => out.extend_from_slice(b"bad 4"),
        BitsFault::NoMemory => Err(AllocError),
    }
}

/// Whether the node with this number has parts.
fn has_parts(plan: &Plan, number: u16) -> bool {
    match node_at(plan, number) {
        Some(Node::Seq(_)) => true,
        Some(Node::Choice(_)) => true,
        Some(Node::Times { .. }) => true,
        Some(Node::Many(_)) => true,
        Some(Node::Trunc(_)) => true,
        Some(Node::Window { .. }) => true,
        Some(Node::Named { .. }) => true,
        _ => false,
    }
}

/// What the node in which a block was refused is of the node round it, where the way to it does not show that yet.
fn last_role(plan: &Plan, refusal: Refusal) -> Role {
    match refusal.within {
        Some(open) if !has_parts(plan, open.node) => open.role,
        _ => Role::Part,
    }
}

impl<'a, W: LeafWriter + Drop> BlockTeller<'a, W> {
    /// Answers by this plan. It takes no memory.
    pub fn new(alloc: Global, plan: &'a FieldPlan<'a>) -> BlockTeller<'a, W>
        ensures { result ≡ plan.now }
    {
        BlockTeller {
            plan,
            reader: plan.reader(Along::new(alloc, plan.plan())),
            octets: Vec::new(alloc),
            wanted: Vec::new(alloc),
        }
    }

    /// Tells the writer the leaves of a block, and how it ends.
    fn read(&mut self, alloc: Global, line: &[u8], block: Bits) -> Result<Answered, AllocError> {
        let bits = block.len();
        self.octets.clear();
        self.octets.extend_from_slice(block.octets())?;
        self.reader.track.fields.events.take(block);
        match self.reader.tell(&self.octets, bits) {
            Judged::Ok => {
                self.reader.track.fields.events.end()?;
                Ok(Answered::Given)
            }
            Judged::Refused { .. } => self.read_again(alloc, line),
        }
    }

    /// Tells the writer the leaves of a block that is no string, from its beginning on, and where it is refused.
    fn read_again(&mut self, alloc: Global, line: &[u8]) -> Result<Answered, AllocError> {
        let none = Along::new(alloc, self.plan.plan());
        let mut along = mem::replace(&mut self.reader.track.fields.events, none);
        along.begin(line)?;
        let Ok(block) = along.block().copy(alloc) else {
            return Err(AllocError);
        };
        let (along, ended) = self.plan.tell(&block, along);
        self.reader.track.fields.events = along;
        if let Ended::Refused(refusal) = ended {
            self.stop(refusal)?;
        }
        Ok(Answered::Refused)
    }

    /// Tells the writer where a block was refused.
    fn stop(&mut self, refusal: Refusal) -> Result<(), AllocError> {
        self.wanted.clear();
        push_wanted(&mut self.wanted, self.plan.plan(), refusal)?;
        let role = last_role(self.plan.plan(), refusal);
        self.reader
            .track
            .fields
            .events
            .stop(role, refusal.place, &self.wanted)
    }

    /// Tells the writer that a line is no block.
    fn refuse(&mut self, alloc: Global, fault: BitsFault) -> Result<Answered, AllocError> {
        let mut answer = Vec::new(alloc);
        push_fault(&mut answer, fault)?;
        self.reader.track.fields.events.refuse(&answer)?;
        Ok(Answered::Refused)
    }
}

impl<'a, W: LeafWriter + Drop> LineTeller for BlockTeller<'a, W> {
    fn tell(
        &mut self,
        alloc: Global,
        line: &[u8],
        out: &mut Vec<u8>,
    ) -> Result<Answered, AllocError> {
        self.reader.track.fields.events.begin(line)?;
        let answered = match Bits::from_hex_line(alloc, line) {
            Ok(block) => self.read(alloc, line, block)?,
            Err(fault) => self.refuse(alloc, fault)?,
        };
        out.extend_from_slice(self.reader.track.fields.events.text())?;
        Ok(answered)
    }
}
