//! The fields of a block as lines for other programs: a line a leaf, and one that closes the block.

ghost use Rattle.std.specs.Prelude.{◌≡◌, [], ◌∷◌, ◌++◌, OnOk};
ghost use Rattle.csn_explaining.specs.LeafLine.{kind_text, leaf_line, value_text};

use crate::text::{push_bits, push_count, push_number, push_verdict};
use crate::writer::{LeafWriter, Standing, Stopped};
use csn_bits::Bits;
use csn_fields::{Leaf, LeafKind};
use std::alloc::{AllocError, Global};

/// Writes a line for each leaf: its place, its number of bits, its kind, its value and the way to it, with tabs between.
#[derive(Drop)]
pub struct FieldLines {
    text: Vec<u8>,
}

/// Writes the word for a kind of leaf, between tabs.
#[inline(always)]
fn push_kind(out: &mut Vec<u8>, kind: LeafKind) -> Result<(), AllocError>
    ensures { OnOk result (out.new.items ≡ out.old.items ++ 9 ∷ (kind_text kind ++ 9 ∷ [])) }
{
    match kind {
        LeafKind::Literal => out.extend_from_slice(b"\tliteral\t"),
        LeafKind::Spare => out.extend_from_slice(b"\tspare\t"),
        LeafKind::Field => out.extend_from_slice(b"\tfield\t"),
        LeafKind::Rest => out.extend_from_slice(b"\trest\t"),
        LeafKind::Padding => out.extend_from_slice(b"\tpadding\t"),
    }
}

/// Writes the value of a leaf: a number where it has at most 64 bits, else the bits.
fn push_value(out: &mut Vec<u8>, leaf: Leaf, block: &Bits) -> Result<(), AllocError>
    ensures { OnOk result (out.new.items ≡ out.old.items ++ value_text leaf block.now) }
{
    match leaf.number {
        Some(number) => push_number(out, number),
        None => push_bits(out, block, leaf.place, leaf.bits),
    }
}

/// Writes the line of a leaf.
fn push_leaf(out: &mut Vec<u8>, standing: Standing<'_>) -> Result<(), AllocError>
    ensures { OnOk result (out.new.items ≡ out.old.items
        ++ leaf_line standing.entry.leaf standing.entry.path.now standing.entry.block.now) }
{
    let leaf = standing.leaf;
    push_count(out, leaf.place)?;
    out.push(b'\t')?;
    push_count(out, leaf.bits)?;
    push_kind(out, leaf.kind)?;
    push_value(out, leaf, standing.block)?;
    out.push(b'\t')?;
    out.extend_from_slice(standing.path)?;
    Ok(out.push(b'\n')?)
}

impl LeafWriter for FieldLines {
    fn new(alloc: Global) -> FieldLines {
        FieldLines {
            text: Vec::new(alloc),
        }
    }

    fn begin(&mut self, _line: &[u8]) -> Result<(), AllocError> {
        self.text.clear();
        Ok(())
    }

    fn leaf(&mut self, standing: Standing<'_>) -> Result<(), AllocError> {
        push_leaf(&mut self.text, standing)
    }

    fn end(&mut self) -> Result<(), AllocError> {
        self.text.extend_from_slice(b"ok\n")
    }

    fn stop(&mut self, stopped: Stopped<'_>) -> Result<(), AllocError> {
        push_verdict(&mut self.text, stopped.place, stopped.block.len())?;
        self.text.push(b'\t')?;
        self.text.extend_from_slice(stopped.path)?;
        self.text.push(b'\t')?;
        self.text.extend_from_slice(stopped.wanted)?;
        Ok(self.text.push(b'\n')?)
    }

    fn refuse(&mut self, answer: &[u8]) -> Result<(), AllocError> {
        self.text.extend_from_slice(answer)?;
        Ok(self.text.push(b'\n')?)
    }

    fn text(&self) -> &[u8] {
        &self.text
    }
}
