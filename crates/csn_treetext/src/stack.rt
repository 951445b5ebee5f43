ghost use Rattle.std.specs.Prelude.{◌≡◌, ◌∷◌, [], true, false, length, OnOk, MatchOption};
ghost use Rattle.csn_treetext.specs.reader.Machine.{HasRoom, is_in_row, state, with_tree};
ghost use Rattle.csn_treetext.specs.reader.Mode.{Behind};

use csn_bits::NoMemory;
use csn_desc::{Label, Rows, Tree};
use std::alloc::Global;
use std::marker::Model;

/// The most trees that can stand round another one: a tree has 64 levels at most.
pub const MOST_ROUND: usize = 63;

/// A tree that has begun and has not ended.
#[derive(Drop)]
pub enum Frame {
    /// A row, with the trees of it that have ended.
    Row(Rows),
    /// An alternative, before its tree.
    Alt(u16),
    /// A labelled part, before its tree.
    Named(Label),
}

/// The trees that have begun and not ended. A contract sees the list of them, the innermost one first.
#[derive(Drop)]
pub struct Stack {
    frames: Vec<Frame>,
}

impl Model for Stack {
    ghost use Rattle.std.specs.Prelude.{List, reverse};
    ghost use Rattle.csn_treetext.specs.declared.stack.Frame.{Frame};
    ghost use Rattle.csn_treetext.specs.reader.FrameCode.{frames_code};

    ghost Value = { List Frame };

    ghost coded = { frames_code };

    ghost view = { λ s. reverse s.frames.items };
}

impl Stack {
    pub fn new(alloc: Global) -> Stack
        ensures { result ≡ [] }
    {
        Stack {
            frames: Vec::new(alloc),
        }
    }

    pub fn len(&self) -> usize
        ensures { result ≡ length self.now }
    {
        self.frames.len()
    }

    /// Whether the innermost tree that has begun is a row.
    pub fn is_in_row(&self) -> bool
        ensures { result ≡ is_in_row self.now }
    {
        match self.frames.last() {
            Some(Frame::Row(_)) => true,
            _ => false,
        }
    }

    pub fn push(&mut self, frame: Frame) -> Result<(), NoMemory>
        ensures { OnOk result (self.new ≡ frame ∷ self.old) }
    {
        Ok(self.frames.push(frame)?)
    }

    pub fn pop(&mut self) -> Option<Frame>
        ensures { MatchOption result ((self.old ≡ []) × (self.new ≡ [])) (λ frame. self.old ≡ frame ∷ self.new) }
    {
        self.frames.pop()
    }

    /// The trees of the innermost tree that has begun, which is taken away, where it is a row.
    pub fn pop_row(&mut self) -> Option<Rows>
        ensures { MatchOption result (is_in_row self.old ≡ false) (λ rows. self.old ≡ Frame.Row rows ∷ self.new) }
    {
        match self.pop() {
            Some(Frame::Row(rows)) => Some(rows),
            Some(Frame::Alt(_) | Frame::Named(_)) | None => None,
        }
    }

    /// Adds a tree at the end of the innermost tree that has begun, which is a row.
    pub fn push_tree(&mut self, tree: Tree) -> Result<(), NoMemory>
        requires row { is_in_row self.old ≡ true }
        requires room { HasRoom self.old }
        ensures { OnOk result (with_tree self.old tree ≡ state Behind self.new) }
    {
        let last = self.frames.len() - 1;
        match &mut self.frames[last] {
            Frame::Row(rows) => match rows.push(tree) {
                Ok(()) => Ok(()),
                Err(_) => Err(NoMemory),
            },
            Frame::Alt(_) | Frame::Named(_) => unreachable!(),
        }
    }
}
