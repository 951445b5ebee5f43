//! The events of a block, told to a writer of its leaves.

ghost use Rattle.std.specs.Prelude.{◌≡◌, false};
ghost use Rattle.csn_explaining.specs.Ways.{root_way};

use crate::nodes::label_at;
use crate::path::PathText;
use crate::writer::{LeafWriter, Standing, Stopped};
use csn_bits::Bits;
use csn_certify::Plan;
use csn_fields::{Event, Events, Leaf, Role};
use std::alloc::{AllocError, Global};

/// Follows the way to each leaf of a block, and hands it to a writer, while there is memory.
#[derive(Drop)]
pub struct Along<'a, W> {
    plan: &'a Plan,
    block: Bits,
    path: PathText,
    writer: W,
    /// Whether memory was refused.
    is_short: bool,
}

impl<'a, W: LeafWriter> Along<'a, W> {
    /// No block so far. It takes no memory.
    pub fn new(alloc: Global, plan: &'a Plan) -> Along<'a, W>
        ensures plan { result.plan ≡ plan.entry }
        ensures path { result.path ≡ root_way }
        ensures memory { result.is_short ≡ false }
    {
        Along {
            plan,
            block: Bits::new(alloc),
            path: PathText::new(alloc),
            writer: W::new(alloc),
            is_short: false,
        }
    }

    /// Begins the answer to a line.
    pub fn begin(&mut self, line: &[u8]) -> Result<(), AllocError>
        ensures path { self.new.path ≡ root_way }
        ensures block { self.new.block ≡ self.old.block }
    {
        self.path.restart();
        self.is_short = false;
        self.writer.begin(line)
    }

    /// The block whose leaves are told next.
    pub fn take(&mut self, block: Bits)
        ensures block { self.new.block ≡ block }
        ensures path { self.new.path ≡ self.old.path }
    {
        self.block = block;
    }

    /// The block.
    pub fn block(&self) -> &Bits
        ensures { result.now ≡ self.now.block }
    {
        &self.block
    }

    /// Ends a block that is whole.
    pub fn end(&mut self) -> Result<(), AllocError> {
        if self.is_short {
            return Err(AllocError);
        }
        self.writer.end()
    }

    /// Ends a block that was refused at a place, where that was wanted, in a node that is this of the one round it.
    pub fn stop(&mut self, role: Role, place: u32, wanted: &[u8]) -> Result<(), AllocError> {
        if self.is_short {
            return Err(AllocError);
        }
        self.path.enter(role, None)?;
        self.writer.stop(Stopped {
            block: &self.block,
            place,
            path: self.path.text(),
            wanted,
        })
    }

    /// Ends a line that is no block, for which `answer` says why.
    pub fn refuse(&mut self, answer: &[u8]) -> Result<(), AllocError> {
        self.writer.refuse(answer)
    }

    /// What was written since the line began.
    pub fn text(&self) -> &[u8] {
        self.writer.text()
    }

    /// Goes to a leaf, and out of it.
    #[inline(always)]
    fn tell(&mut self, leaf: Leaf) -> Result<(), AllocError> {
        // a part adds nothing to the way
        if leaf.role == Role::Part {
            return self.write(leaf);
        }
        self.path.enter(leaf.role, None)?;
        self.write(leaf)?;
        self.path.leave();
        Ok(())
    }

    /// Hands a leaf to the writer, to which the way leads.
    fn write(&mut self, leaf: Leaf) -> Result<(), AllocError> {
        self.writer.leaf(Standing {
            leaf,
            block: &self.block,
            path: self.path.text(),
            chosen: self.path.chosen(),
        })?;
        self.path.pass_leaf();
        Ok(())
    }

    /// Follows an event.
    #[inline(always)]
    fn follow(&mut self, event: Event) -> Result<(), AllocError> {
        match event {
            Event::Begin { node, role, .. } => self.path.enter(role, label_at(self.plan, node)),
            Event::Leaf(leaf) => self.tell(leaf),
            Event::End { .. } => {
                self.path.leave();
                Ok(())
            }
        }
    }
}

impl<'a, W: LeafWriter> Events for Along<'a, W> {
    ghost use Rattle.std.specs.Prelude.{⊤};

    ghost tells = { λ _ _ _. ⊤ };

    // an event that stands in memory is read in other pieces than it is written in, for which the processor waits
    #[inline(always)]
    fn event(&mut self, event: Event) {
        if !self.is_short {
            self.is_short = self.follow(event).is_err();
        }
    }
}
