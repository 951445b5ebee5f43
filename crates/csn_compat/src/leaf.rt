//! Nodes that have no parts.

ghost use Rattle.std.specs.Prelude.{◌≡◌, ◌↔◌, IsTrue};
ghost use Rattle.csn_compat.specs.Takes.{LeafTakes};

use crate::pairs::{Pairs, bits_of, counts_agree};
use csn_desc::{Count, Node, Run};

/// Whether the new node takes the old one, which has no parts.
pub(crate) fn leaf_is_taken(pairs: &Pairs, old: &Node, new: &Node) -> bool
    ensures { IsTrue result ↔ LeafTakes pairs.now.items old.now new.now }
{
    match (old, new) {
        (Node::Null, Node::Null) => true,
        (Node::Null, Node::Many(_)) => true,
        (Node::Null, Node::Trunc(_)) => true,
        (Node::Lits(run), Node::Lits(other)) => have_same_symbols(run, other),
        (
            Node::Lits(run),
            Node::Field {
                unit,
                count: Count::Fixed(n),
            },
        ) => { bits_of(*unit, *n) == u64::from(run.len()) }
        (Node::Spare(symbol), Node::Spare(other)) => symbol == other,
        (
            Node::Spare(_),
            Node::Field {
                unit,
                count: Count::Fixed(n),
            },
        ) => bits_of(*unit, *n) == 1,
        (Node::Pad, Node::Pad) => true,
        (
            Node::Field { unit, count },
            Node::Field {
                unit: other,
                count: taker,
            },
        ) => { counts_agree(pairs, *unit, count, *other, taker) }
        _ => false,
    }
}

/// Whether two literals have the same symbols.
fn have_same_symbols(run: &Run, other: &Run) -> bool
    ensures { IsTrue result ↔ (run.now ≡ other.now) }
{
    if run.len() != other.len() {
        return false;
    }
    for at in 0..run.len() {
        if *run.get(at) != *other.get(at) {
            return false;
        }
    }
    true
}
