//! Trees by their kinds.

ghost use Rattle.std.specs.Prelude.{◌≡◌, ◌≢◌, ℕ, List, MatchOption};
ghost use Rattle.csn_desc.specs.TreeV.{TreeV, bits, row, alt, named, trees_of};

use csn_bits::Bits;
use csn_desc::{Rows, Shape, Tree};

/// The bits that a tree is, if it is bits.
pub(crate) fn bits_of(tree: &Tree) -> Option<&Bits>
    ensures { MatchOption result ((b : List ℕ) → tree.now ≢ bits b) (λ b. tree.now ≡ bits b.now) }
{
    match &tree.shape {
        Shape::Bits(bits) => Some(bits),
        Shape::Empty => None,
        Shape::Row(_) => None,
        Shape::Alt(_, _) => None,
        Shape::Named(_, _) => None,
    }
}

/// The trees in a row.
pub(crate) fn rows_of(tree: &Tree) -> Option<&Rows>
    ensures { MatchOption result ((rows : List TreeV) → tree.now ≢ row (trees_of rows)) (λ rows. tree.now ≡ row (trees_of rows.now)) }
{
    match &tree.shape {
        Shape::Row(rows) => Some(rows),
        Shape::Empty => None,
        Shape::Bits(_) => None,
        Shape::Alt(_, _) => None,
        Shape::Named(_, _) => None,
    }
}

/// The number of an alternative, and its tree.
pub(crate) fn alternative_of(tree: &Tree) -> Option<(u16, &Tree)>
    ensures { MatchOption result ((k : ℕ) (inside : TreeV) → tree.now ≢ alt k inside) (λ it. tree.now ≡ alt it.0 it.1.now) }
{
    match &tree.shape {
        Shape::Alt(at, inside) => Some((*at, inside)),
        Shape::Empty => None,
        Shape::Bits(_) => None,
        Shape::Row(_) => None,
        Shape::Named(_, _) => None,
    }
}

/// The tree that has a label.
pub(crate) fn labelled(tree: &Tree) -> Option<&Tree>
    ensures { MatchOption result ((label : List ℕ) (inside : TreeV) → tree.now ≢ named label inside)
        (λ inside. (label : List ℕ) × (tree.now ≡ named label inside.now)) }
{
    match &tree.shape {
        Shape::Named(_, inside) => Some(inside),
        Shape::Empty => None,
        Shape::Bits(_) => None,
        Shape::Row(_) => None,
        Shape::Alt(_, _) => None,
    }
}
