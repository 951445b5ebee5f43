//! The ways that trees can go at a node.

ghost use Rattle.std.specs.Prelude.{◌≡◌, ◌<◌, ◌↔◌, ℕ, List, Some};
ghost use Rattle.csn_desc.specs.TreeV.{TreeV, alt, bits};
ghost use Rattle.csn_sample.specs.Ways.{AreAll, HasTrees, HasTurns, Goes, GoesOne, ways};

use crate::shapes::{alternative_of, bits_of, rows_of};
use csn_bits::Bits;
use csn_desc::{Count, Node, Tree};

/// How many ways trees can go at a node. They have numbers: of a choice its alternatives, of a truncation how many
/// components there are, of a free repetition, or one whose number a field tells, whether there is no turn, one, or more,
/// and of a field whether all its bits are 0, or 1.
pub fn ways(node: &Node) -> u16
    ensures { result ≡ ways node.now }
{
    match node {
        Node::Choice(parts) => parts.len(),
        Node::Trunc(parts) => parts.len() + 1,
        Node::Many(_) => 3,
        Node::Times { count, .. } => match count {
            Count::Fixed(_) => 0,
            Count::Counted { .. } => 3,
        },
        Node::Field { .. } => 2,
        _ => 0,
    }
}

/// The way that a tree goes at a node, if it goes one.
pub(crate) fn way_gone(node: &Node, tree: &Tree) -> Option<u16>
    ensures { (way : ℕ) → (result ≡ Some way) ↔ GoesOne node.now tree.now way }
{
    below(number_gone(node, tree), ways(node))
}

/// The number of the way that a tree goes, whether a node has one with this number or not.
fn number_gone(node: &Node, tree: &Tree) -> Option<u32>
    ensures { (way : ℕ) → (result ≡ Some way) ↔ Goes node.now tree.now way }
{
    match node {
        Node::Choice(_) => alternative_gone(tree),
        Node::Trunc(_) => trees_gone(tree),
        Node::Many(_) => turns_gone(tree),
        Node::Times { .. } => turns_gone(tree),
        Node::Field { .. } => bit_gone(tree),
        Node::Lits(_) => None,
        Node::Spare(_) => None,
        Node::Pad => None,
        Node::Null => None,
        Node::Rest => None,
        Node::Seq(_) => None,
        Node::Window { .. } => None,
        Node::Named { .. } => None,
    }
}

/// A way, if it is one of the first so many.
fn below(way: Option<u32>, count: u16) -> Option<u16>
    ensures { (w : ℕ) → (result ≡ Some w) ↔ ((way ≡ Some w) × (w < count)) }
{
    match way {
        Some(way) if way < u32::from(count) => Some(way as u16),
        Some(_) => None,
        None => None,
    }
}

/// The alternative that a tree has.
fn alternative_gone(tree: &Tree) -> Option<u32>
    ensures { (way : ℕ) → (result ≡ Some way) ↔ ((inside : TreeV) × (tree.now ≡ alt way inside)) }
{
    match alternative_of(tree) {
        Some((at, _)) => Some(u32::from(at)),
        None => None,
    }
}

/// How many trees are in a row.
fn trees_gone(tree: &Tree) -> Option<u32>
    ensures { (way : ℕ) → (result ≡ Some way) ↔ HasTrees tree.now way }
{
    match rows_of(tree) {
        Some(rows) => Some(rows.len()),
        None => None,
    }
}

/// How many turns there are, where 2 is any number from 2 on.
fn turns_gone(tree: &Tree) -> Option<u32>
    ensures { (way : ℕ) → (result ≡ Some way) ↔ HasTurns tree.now way }
{
    match rows_of(tree) {
        Some(rows) => Some(rows.len().min(2)),
        None => None,
    }
}

/// The bit that all bits of a field are, if there is one.
fn bit_gone(tree: &Tree) -> Option<u32>
    ensures { (way : ℕ) → (result ≡ Some way) ↔ ((b : List ℕ) × (tree.now ≡ bits b) × AreAll way b) }
{
    match bits_of(tree) {
        Some(bits) => same_bit(bits),
        None => None,
    }
}

/// The bit that all of some bits are, if there is one.
fn same_bit(bits: &Bits) -> Option<u32>
    ensures { (bit : ℕ) → (result ≡ Some bit) ↔ AreAll bit bits.now }
{
    if bits.len() == 0 {
        return None;
    }
    let first = bits.get(0);
    for at in 0..bits.len() {
        if bits.get(at) != first {
            return None;
        }
    }
    Some(u32::from(first))
}
