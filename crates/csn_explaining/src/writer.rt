//! What the leaves of a block are written by.

ghost use Rattle.std.specs.Prelude.{◌≡◌, ◌++◌, OnOk};
ghost use Rattle.csn_explaining.specs.LeafLine.{kind_text};
ghost use Rattle.csn_explaining.specs.Ways.{leaf_way};

use csn_bits::Bits;
use csn_fields::{Leaf, LeafKind};
use std::alloc::{AllocError, Global};

/// A leaf of a block, and where it stands.
#[derive(Clone, Copy)]
pub struct Standing<'a> {
    pub leaf: Leaf,
    /// The block that it is a part of.
    pub block: &'a Bits,
    /// The way to it, as [`PathText`](crate::PathText) writes it.
    pub path: &'a [u8],
    /// The alternatives that begin with it, each with `#` in front.
    pub chosen: &'a [u8],
}

/// Where a block was refused.
#[derive(Clone, Copy)]
pub struct Stopped<'a> {
    pub block: &'a Bits,
    /// How many bits of it can be followed.
    pub place: u32,
    /// The way to the node in which it was refused.
    pub path: &'a [u8],
    /// What was wanted there, in words.
    pub wanted: &'a [u8],
}

/// What is told the leaves of blocks, one after another, and writes them.
pub trait LeafWriter {
    /// One that has written nothing. It takes no memory.
    fn new(alloc: Global) -> Self;

    /// Begins a block.
    fn begin(&mut self, line: &[u8]) -> Result<(), AllocError>;

    /// Writes the next leaf of the block.
    fn leaf(&mut self, standing: Standing<'_>) -> Result<(), AllocError>;

    /// Ends a block that is whole.
    fn end(&mut self) -> Result<(), AllocError>;

    /// Ends a block that was refused.
    fn stop(&mut self, stopped: Stopped<'_>) -> Result<(), AllocError>;

    /// Ends a line that is no block, for which `answer` says why.
    fn refuse(&mut self, answer: &[u8]) -> Result<(), AllocError>;

    /// What was written since the block began.
    fn text(&self) -> &[u8];
}

/// The word for a kind of leaf.
pub fn kind_word(kind: LeafKind) -> &'static [u8]
    ensures { result.now ≡ kind_text kind }
{
    match kind {
        LeafKind::Literal => b"literal",
        LeafKind::Spare => b"spare",
        LeafKind::Field => b"field",
        LeafKind::Rest => b"rest",
        LeafKind::Padding => b"padding",
    }
}

/// Writes the way to a leaf, and behind it its kind, where it is no field.
pub fn push_way(out: &mut Vec<u8>, standing: Standing<'_>) -> Result<(), AllocError>
    ensures { OnOk result (out.new.items ≡ out.old.items ++ leaf_way standing.entry.leaf.kind standing.entry.path.now) }
{
    out.extend_from_slice(standing.path)?;
    if standing.leaf.kind == LeafKind::Field {
        return Ok(());
    }
    if standing.path.len() > 0 {
        out.push(b' ')?;
    }
    out.push(b'(')?;
    out.extend_from_slice(kind_word(standing.leaf.kind))?;
    Ok(out.push(b')')?)
}
