//! The events of a block, as a program in another language has them.

ghost use Rattle.std.specs.Prelude.{◌≡◌};
ghost use Rattle.csn_rule.specs.FlatEvents.{flat_of, flat_leaf, number_in_role, number_of_kind, number_of_role, value_of};

use csn_fields::{Event, Leaf, LeafKind, Role};

/// An event of a block, in numbers alone.
#[repr(C)]
#[derive(Clone, Copy)]
pub struct FlatEvent {
    /// The number of its node.
    pub node: u32,
    /// Whether a node with parts begins, 0, or ends, 6; else the kind of the leaf that has ended, 1 to 5.
    pub kind: u32,
    /// What the node is of the one round it, which is not told where it ends: the root, 0, a part, 1, an alternative, 2, or
    /// a turn, 3.
    pub role: u32,
    /// The number of the alternative or of the turn, from 0.
    pub number: u32,
    /// The first bit of a leaf, or the next one where a node begins or ends; counted from 0 at the beginning of the block.
    pub place: u32,
    /// How many bits a leaf has.
    pub bits: u32,
    /// The number that they write, the first bit most significant; 0 where they are more than 64.
    pub value: u64,
}

impl FlatEvent {
    /// An event in numbers.
    #[inline(always)]
    pub(crate) fn of(event: Event) -> FlatEvent
        ensures { result ≡ flat_of event }
    {
        match event {
            Event::Begin { node, role, place } => FlatEvent {
                node: u32::from(node),
                kind: 0,
                role: number_of_role(role),
                number: number_in(role),
                place,
                bits: 0,
                value: 0,
            },
            Event::Leaf(leaf) => FlatEvent::of_leaf(leaf),
            Event::End { node, place } => FlatEvent {
                node: u32::from(node),
                kind: 6,
                role: 0,
                number: 0,
                place,
                bits: 0,
                value: 0,
            },
        }
    }

    /// A leaf has ended.
    #[inline(always)]
    fn of_leaf(leaf: Leaf) -> FlatEvent
        ensures { result ≡ flat_leaf leaf }
    {
        FlatEvent {
            node: u32::from(leaf.node),
            kind: number_of_kind(leaf.kind),
            role: number_of_role(leaf.role),
            number: number_in(leaf.role),
            place: leaf.place,
            bits: leaf.bits,
            value: value_of(leaf.number),
        }
    }
}

/// The number of a kind of leaf.
#[inline(always)]
fn number_of_kind(kind: LeafKind) -> u32
    ensures { result ≡ number_of_kind kind }
{
    match kind {
        LeafKind::Literal => 1,
        LeafKind::Spare => 2,
        LeafKind::Field => 3,
        LeafKind::Rest => 4,
        LeafKind::Padding => 5,
    }
}

/// The number of a kind of role.
#[inline(always)]
fn number_of_role(role: Role) -> u32
    ensures { result ≡ number_of_role role }
{
    match role {
        Role::Root => 0,
        Role::Part => 1,
        Role::Alternative(_) => 2,
        Role::Turn(_) => 3,
    }
}

/// The number of an alternative or of a turn, or 0.
#[inline(always)]
fn number_in(role: Role) -> u32
    ensures { result ≡ number_in_role role }
{
    match role {
        Role::Root | Role::Part => 0,
        Role::Alternative(number) => u32::from(number),
        Role::Turn(number) => number,
    }
}

/// The number that a leaf's bits write, or 0.
#[inline(always)]
fn value_of(number: Option<u64>) -> u64
    ensures { result ≡ value_of number }
{
    match number {
        Some(value) => value,
        None => 0,
    }
}
