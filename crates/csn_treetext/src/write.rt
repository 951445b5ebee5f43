ghost use Rattle.std.specs.Prelude.{◌≡◌, ◌<◌, ◌≤◌, ◌++◌, ◌∷◌, [], length, IfOk, OnOk};
ghost use Rattle.std.specs.Fmt.{decimal};
ghost use Rattle.csn_treetext.specs.declared.bounds.TheConstants.{MOST_SHORT};
ghost use Rattle.csn_bits.specs.declared.bits.TheConstants.{MOST_BITS};
ghost use Rattle.csn_bits.specs.Octets.{IsBits};
ghost use Rattle.csn_treetext.specs.declared.version.Version.TheVariants.{Second};
ghost use Rattle.csn_treetext.specs.Text.{leaf_text, short_text, text_of};
ghost use Rattle.csn_desc.specs.TreeParts.{HasTreeParts, AllHaveTreeParts};
ghost use Rattle.csn_desc.specs.TreeV.{row, trees_of};
ghost use Rattle.csn_desc.specs.Label.{IsLabel};
ghost use Rattle.csn_bits.specs.Line.{written};
ghost use Rattle.csn_treetext.specs.Fits.{Fits};
ghost use Rattle.csn_treetext.specs.Place.{TreeText};

use crate::bounds::MOST_SHORT;
use csn_bits::{Bits, NoMemory};
use csn_desc::{Label, Rows, Shape, Tree};
use itoa::Buffer;
use std::alloc::Global;

/// The text of a tree, in the second version.
pub fn write_tree(alloc: Global, tree: &Tree) -> Result<Vec<u8>, NoMemory>
    requires { Fits tree.now }
    ensures { IfOk result (λ text. TreeText tree.now text.items) }
{
    let mut out = Vec::new(alloc);
    push_tree(&mut out, tree)?;
    Ok(out)
}

#[cycle(write)]
fn push_tree(out: &mut Vec<u8>, tree: &Tree) -> Result<(), NoMemory>
    ensures text { OnOk result (out.new.items ≡ out.old.items ++ text_of Second tree.now) }
    ensures parts { OnOk result (HasTreeParts tree.now) }
{
    match &tree.shape {
        Shape::Empty => Ok(out.push(b'.')?),
        Shape::Bits(bits) => push_leaf(out, bits),
        Shape::Row(rows) => push_row(out, rows),
        Shape::Alt(number, tree) => {
            push_mark(out, *number)?;
            push_tree(out, tree)
        }
        Shape::Named(label, tree) => {
            push_label(out, label)?;
            push_tree(out, tree)
        }
    }
}

// Adds the text of a row.
#[cycle(write)]
fn push_row(out: &mut Vec<u8>, rows: &Rows) -> Result<(), NoMemory>
    ensures text { OnOk result (out.new.items ≡ out.old.items ++ text_of Second (row (trees_of rows.now))) }
    ensures parts { OnOk result (AllHaveTreeParts (trees_of rows.now)) }
{
    out.push(b'[')?;
    for at in 0..rows.len() {
        push_gap(out, at)?;
        push_tree(out, rows.get(at))?;
    }
    Ok(out.push(b']')?)
}

// Adds what stands before a tree of a row, the trees of which are counted from 0.
fn push_gap(out: &mut Vec<u8>, at: u32) -> Result<(), NoMemory>
    ensures first { at ≡ 0 → OnOk result (out.new.items ≡ out.old.items) }
    ensures later { 0 < at → OnOk result (out.new.items ≡ out.old.items ++ 32 ∷ []) }
{
    if at > 0 {
        out.push(b' ')?;
    }
    Ok(())
}

// Adds what stands before the tree of an alternative.
fn push_mark(out: &mut Vec<u8>, number: u16) -> Result<(), NoMemory>
    ensures { OnOk result (out.new.items ≡ out.old.items ++ 35 ∷ (decimal number ++ 58 ∷ [])) }
{
    out.push(b'#')?;
    push_number(out, u64::from(number))?;
    Ok(out.push(b':')?)
}

// Adds what stands before the tree of a labelled part.
fn push_label(out: &mut Vec<u8>, label: &Label) -> Result<(), NoMemory>
    ensures text { OnOk result (out.new.items ≡ out.old.items ++ 60 ∷ (label.now ++ 62 ∷ 61 ∷ [])) }
    ensures label { OnOk result (IsLabel label.now) }
{
    out.push(b'<')?;
    out.extend_from_slice(label.bytes())?;
    Ok(out.extend_from_slice(b">=")?)
}

fn push_leaf(out: &mut Vec<u8>, bits: &Bits) -> Result<(), NoMemory>
    ensures text { OnOk result (out.new.items ≡ out.old.items ++ leaf_text Second bits.now) }
    ensures zeros_and_ones { IsBits bits.now }
    ensures few { length bits.now ≤ MOST_BITS }
{
    match bits.len() {
        0 => Ok(out.push(b'b')?),
        1..=MOST_SHORT => push_short(out, bits),
        _ => push_line(out, bits),
    }
}

// Adds how many bits there are, and the number that they write.
fn push_short(out: &mut Vec<u8>, bits: &Bits) -> Result<(), NoMemory>
    requires { length bits.now ≤ MOST_SHORT }
    ensures { OnOk result (out.new.items ≡ out.old.items ++ short_text bits.now) }
{
    push_number(out, u64::from(bits.len()))?;
    out.push(b'\'')?;
    push_number(out, bits.number())
}

// Adds the block line of bits, behind its sign.
fn push_line(out: &mut Vec<u8>, bits: &Bits) -> Result<(), NoMemory>
    ensures { OnOk result (out.new.items ≡ out.old.items ++ 120 ∷ written bits.now) }
{
    out.push(b'x')?;
    let line = bits.to_hex_line(*out.allocator())?;
    Ok(out.extend_from_slice(&line)?)
}

// Adds a number in decimal.
fn push_number(out: &mut Vec<u8>, number: u64) -> Result<(), NoMemory>
    ensures { OnOk result (out.new.items ≡ out.old.items ++ decimal number) }
{
    let mut buffer = Buffer::new();
    out.extend_from_slice(buffer.format(number).as_bytes())?;
    Ok(())
}
