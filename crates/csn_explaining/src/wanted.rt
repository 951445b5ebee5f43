//! What a node wants, in words.

ghost use Rattle.std.specs.Prelude.{◌≡◌, ◌++◌, codes, map, slice_get, OnOk};
ghost use Rattle.csn_explaining.specs.Texts.{counted_text};
ghost use Rattle.csn_explaining.specs.Wanted.{field_text, left_text, node_text, open_text, some_node_text, symbol_letter, wanted_text};

use crate::nodes::node_at;
use crate::text::push_count;
use csn_certify::Plan;
use csn_desc::{Count, Node, Run, Symbol};
use csn_fields::{OpenNode, Refusal};
use std::alloc::AllocError;

/// The letter for a symbol of a literal.
fn symbol_letter(symbol: Symbol) -> u8
    ensures { result ≡ symbol_letter symbol }
{
    match symbol {
        Symbol::Zero => b'0',
        Symbol::One => b'1',
        Symbol::Low => b'L',
        Symbol::High => b'H',
    }
}

/// Writes a literal word.
fn push_literal(out: &mut Vec<u8>, run: &Run) -> Result<(), AllocError>
    ensures { OnOk result (out.new.items ≡ out.old.items ++ (codes "literal " ++ map symbol_letter run.now)) }
{
    out.extend_from_slice(b"literal ")?;
    for at in 0..run.len() {
        out.push(symbol_letter(*run.get(at)))?;
    }
    Ok(())
}

/// Writes a number and a noun, which has an `s` behind it unless the number is 1.
pub fn push_counted(out: &mut Vec<u8>, count: u32, noun: &[u8]) -> Result<(), AllocError>
    ensures { OnOk result (out.new.items ≡ out.old.items ++ counted_text count noun.now) }
{
    push_count(out, count)?;
    out.push(b' ')?;
    out.extend_from_slice(noun)?;
    if count != 1 {
        out.push(b's')?;
    }
    Ok(())
}

/// Writes a field of so many units.
fn push_field(out: &mut Vec<u8>, unit: u8, count: Count) -> Result<(), AllocError>
    ensures { OnOk result (out.new.items ≡ out.old.items ++ field_text unit count) }
{
    match count {
        Count::Fixed(n) => {
            out.extend_from_slice(b"field of ")?;
            push_counted(out, u32::from(unit).saturating_mul(n), b"bit")
        }
        Count::Counted { .. } => out.extend_from_slice(b"field of a counted width"),
    }
}

/// Writes words.
fn push_words(out: &mut Vec<u8>, words: &[u8]) -> Result<(), AllocError>
    ensures { OnOk result (out.new.items ≡ out.old.items ++ words.now) }
{
    out.extend_from_slice(words)
}

/// Writes words, and behind them how many of something there are.
pub fn push_sized(
    out: &mut Vec<u8>,
    words: &[u8],
    count: u32,
    noun: &[u8],
) -> Result<(), AllocError>
    ensures { OnOk result (out.new.items ≡ out.old.items ++ (words.now ++ counted_text count noun.now)) }
{
    out.extend_from_slice(words)?;
    push_counted(out, count, noun)
}

/// Writes what a node is.
pub fn push_node(out: &mut Vec<u8>, node: &Node) -> Result<(), AllocError>
    ensures { OnOk result (out.new.items ≡ out.old.items ++ node_text node.now) }
{
    match node {
        Node::Lits(run) => push_literal(out, run),
        Node::Spare(_) => push_words(out, b"spare bit"),
        Node::Pad => push_words(out, b"spare padding"),
        Node::Null => push_words(out, b"no bits"),
        Node::Field { unit, count } => push_field(out, *unit, *count),
        Node::Rest => push_words(out, b"any bits"),
        Node::Seq(parts) => push_sized(out, b"sequence of ", u32::from(parts.len()), b"part"),
        Node::Choice(parts) => push_sized(out, b"one of ", u32::from(parts.len()), b"alternative"),
        Node::Times { .. } => push_words(out, b"counted repetition"),
        Node::Many(_) => push_words(out, b"repetition"),
        Node::Trunc(parts) => push_sized(out, b"truncation of ", u32::from(parts.len()), b"part"),
        Node::Window { .. } => push_words(out, b"window"),
        Node::Named { label, .. } => {
            out.push(b'<')?;
            out.extend_from_slice(label.bytes())?;
            Ok(out.push(b'>')?)
        }
    }
}

/// Writes what the node with this number is, where there is one.
pub fn push_node_at(out: &mut Vec<u8>, plan: &Plan, number: u16) -> Result<(), AllocError>
    ensures { OnOk result (out.new.items ≡ out.old.items ++ some_node_text (slice_get plan.now.nodes number)) }
{
    match node_at(plan, number) {
        Some(node) => push_node(out, node),
        None => Ok(()),
    }
}

/// Writes how many bits are left, where that is known.
fn push_left(out: &mut Vec<u8>, left: Option<u32>) -> Result<(), AllocError>
    ensures { OnOk result (out.new.items ≡ out.old.items ++ left_text left) }
{
    let Some(left) = left else {
        return Ok(());
    };
    out.extend_from_slice(b", ")?;
    push_counted(out, left, b"bit")?;
    out.extend_from_slice(b" left")
}

/// Writes what is wanted at a place in a node that is open there: the node, and how many of its bits are left.
fn push_open(out: &mut Vec<u8>, plan: &Plan, begun: OpenNode, place: u32) -> Result<(), AllocError>
    ensures { OnOk result (out.new.items ≡ out.old.items ++ open_text begun.place place (slice_get plan.now.nodes begun.node)) }
{
    let Some(node) = node_at(plan, begun.node) else {
        return Ok(());
    };
    push_node(out, node)?;
    push_left(out, begun.left(place, node))
}

/// Writes what was wanted where a block was refused: the innermost node that had begun, and how many of its bits had come,
/// where that is known; or that nothing was, where the root had ended.
pub fn push_wanted(out: &mut Vec<u8>, plan: &Plan, refusal: Refusal) -> Result<(), AllocError>
    ensures { OnOk result (out.new.items ≡ out.old.items ++ wanted_text plan.now.nodes refusal) }
{
    match refusal.within {
        Some(open) => push_open(out, plan, open, refusal.place),
        None if refusal.place == 0 => push_node_at(out, plan, 0),
        None => out.extend_from_slice(b"end of the block"),
    }
}
