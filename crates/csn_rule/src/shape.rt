//! The nodes of a description, as a program in another language has them.

ghost use Rattle.std.specs.Prelude.{◌≡◌};
ghost use Rattle.csn_rule.specs.Shapes.{bits_or_any, number_of_node, shape_of};

use csn_desc::Node;
use csn_fields::width_of;

/// What [`NodeShape::bits`] is where a node has not the same number of bits in all blocks, or is no leaf.
pub const ANY_BITS: u32 = u32::MAX;

/// What a node is.
#[repr(C)]
#[derive(Clone, Copy)]
pub struct NodeShape {
    /// The number of its kind: of leaves as in a [`FlatEvent`](crate::FlatEvent), of other nodes from 7 on.
    pub kind: u32,
    /// How many bits it has, where it is a leaf that has as many in all blocks.
    pub bits: u32,
}

impl NodeShape {
    /// What a node is.
    pub(crate) fn of(node: &Node) -> NodeShape
        ensures { result ≡ shape_of node.now }
    {
        NodeShape {
            kind: number_of(node),
            bits: bits_or_any(width_of(node)),
        }
    }
}

/// The number of the kind of a node.
fn number_of(node: &Node) -> u32
    ensures { result ≡ number_of_node node.now }
{
    match node {
        Node::Lits(_) => 1,
        Node::Spare(_) => 2,
        Node::Field { .. } => 3,
        Node::Rest => 4,
        Node::Pad => 5,
        Node::Null => 7,
        Node::Seq(_) => 8,
        Node::Choice(_) => 9,
        Node::Times { .. } => 10,
        Node::Many(_) => 11,
        Node::Trunc(_) => 12,
        Node::Window { .. } => 13,
        Node::Named { .. } => 14,
    }
}

/// A number of bits, or that they are not always as many.
fn bits_or_any(bits: Option<u32>) -> u32
    ensures { result ≡ bits_or_any bits }
{
    match bits {
        Some(bits) => bits,
        None => ANY_BITS,
    }
}
