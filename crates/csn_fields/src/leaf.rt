ghost use Rattle.std.specs.Prelude.{◌≡◌};
ghost use Rattle.csn_fields.specs.Leaves.{kind_of, width_of, counted_width};

use csn_desc::{Count, Node};

/// The kinds of leaf: nodes without parts that take bits.
#[derive(Clone, Copy, Debug, PartialEq, Eq, Hash)]
pub enum LeafKind {
    Literal,
    /// One spare bit.
    Spare,
    Field,
    /// Any bits to the end.
    Rest,
    /// Spare padding to the end.
    Padding,
}

/// What a node is of the node round it.
#[derive(Clone, Copy, Debug, PartialEq, Eq, Hash)]
pub enum Role {
    /// No node is round it.
    Root,
    /// A part of a sequence or a truncation, or the only part of a window or a label.
    Part,
    /// The alternative of a choice with this number, from 0.
    Alternative(u16),
    /// The turn of a repetition with this number, from 0. Behind 4,294,967,295 turns the number stays.
    Turn(u32),
}

/// A leaf of a block.
#[derive(Clone, Copy, Debug, PartialEq, Eq, Hash)]
pub struct Leaf {
    /// The number of its node.
    pub node: u16,
    pub kind: LeafKind,
    pub role: Role,
    /// Its first bit, counted from 0 at the beginning of the block.
    pub place: u32,
    /// How many bits it has.
    pub bits: u32,
    /// The number that they write, the first bit most significant, where they are at most 64.
    pub number: Option<u64>,
}

/// The kind of a node that is a leaf.
pub(crate) fn kind_of(node: &Node) -> Option<LeafKind>
    ensures { result ≡ kind_of node.now }
{
    match node {
        Node::Lits(_) => Some(LeafKind::Literal),
        Node::Spare(_) => Some(LeafKind::Spare),
        Node::Field { .. } => Some(LeafKind::Field),
        Node::Rest => Some(LeafKind::Rest),
        Node::Pad => Some(LeafKind::Padding),
        _ => None,
    }
}

/// How many bits a leaf has, where that is the same in all blocks.
pub fn width_of(node: &Node) -> Option<u32>
    ensures { result ≡ width_of node.now }
{
    match node {
        Node::Lits(run) => Some(run.len()),
        Node::Spare(_) => Some(1),
        Node::Field { unit, count } => field_width(*unit, *count),
        _ => None,
    }
}

/// How many bits a field has, where that is the same in all blocks.
fn field_width(unit: u8, count: Count) -> Option<u32>
    ensures { result ≡ counted_width unit count }
{
    let Count::Fixed(n) = count else {
        return None;
    };
    let width = u64::from(unit) * u64::from(n);
    if width <= u64::from(u32::MAX) {
        Some(width as u32)
    } else {
        None
    }
}
