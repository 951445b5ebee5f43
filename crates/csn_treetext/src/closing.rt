//! What a whole tree ends.

ghost use Rattle.std.specs.Prelude.{◌≡◌, ◌≤◌, ◌∷◌, [], List, false, length, IfOk, OnOk};
ghost use Rattle.csn_treetext.specs.declared.stack.Frame.{Frame};
ghost use Rattle.csn_treetext.specs.reader.Machine.{HasRoom, HasRoomBelow, is_in_row, with_tree};
ghost use Rattle.csn_treetext.specs.reader.Reading.{Stands, Takes, ended_with};

use crate::next::{Next, Taken};
use crate::source::Source;
use crate::stack::{Frame, Stack};
use csn_bits::NoMemory;
use csn_desc::{Shape, Tree};
use std::alloc::Global;

// The tree that an alternative or a labelled part is, with the tree inside it.
fn around(alloc: Global, frame: Frame, tree: Tree) -> Result<Tree, NoMemory>
    requires { is_in_row (frame ∷ []) ≡ false }
    ensures { IfOk result (λ whole. (stack : List Frame) → with_tree (frame ∷ stack) tree ≡ with_tree stack whole) }
{
    let shape = match frame {
        Frame::Alt(number) => Shape::Alt(number, Box::new(alloc, tree)?),
        Frame::Named(label) => Shape::Named(label, Box::new(alloc, tree)?),
        Frame::Row(_) => unreachable!(),
    };
    Ok(Tree { shape })
}

// After a whole tree: it ends the alternatives and labelled parts that it is the tree of. The outermost
// tree that it ends, where that stands in no row.
fn with_tree(alloc: Global, stack: &mut Stack, tree: Tree) -> Result<Option<Tree>, NoMemory>
    requires { HasRoom stack.old }
    ensures state { IfOk result (λ whole. with_tree stack.old tree ≡ ended_with whole stack.new) }
    ensures room { OnOk result (HasRoomBelow stack.new) }
{
    let mut tree = tree;
    while !stack.is_in_row() {
        match stack.pop() {
            Some(frame) => tree = around(alloc, frame, tree)?,
            None => return Ok(Some(tree)),
        }
    }
    stack.push_tree(tree)?;
    Ok(None)
}

/// Behind a whole tree, at a place.
pub fn close(source: Source, stack: &mut Stack, tree: Tree, end: usize) -> Result<Taken, NoMemory>
    requires within { end ≤ length source.text.now }
    requires room { HasRoom stack.old }
    requires stands { Stands source.version source.text.now end (with_tree stack.old tree) }
    ensures { IfOk result (Takes source.entry.version source.entry.text.now end stack.new) }
{
    match with_tree(source.alloc, stack, tree)? {
        Some(whole) => Ok(Taken::Whole(whole, end)),
        None => Ok(Taken::Up(Next::Behind, end)),
    }
}
