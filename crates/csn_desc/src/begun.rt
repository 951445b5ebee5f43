//! What is asked and written of single nodes while a description is built.

ghost use Rattle.std.specs.Prelude.{◌≡◌, ◌<◌, ◌≤◌, ◌↔◌, ◌==◌, IsTrue, IsSomeAnd, ℕ, option_to_list, [], ◌∷◌, ◌++◌};
ghost use Rattle.std.specs.Prelude.{if◌then◌else◌, length, set, slice_get, option_copied, OnOk, OnErr};
ghost use Rattle.std.specs.Prelude.{reverse};
ghost use Rattle.std.specs.List.{list_any};
ghost use Rattle.csn_desc.specs.Nodes.{head_of, parts_of};
ghost use Rattle.csn_desc.specs.Values.{is_labelled};
ghost use Rattle.csn_desc.specs.Formed.{HasParts, IsUnit, width_of, labelled_part, value_width};
ghost use Rattle.csn_desc.specs.Building.{node_of, with_part, part_begun, has_shown, is_shown};

use crate::desc::MOST_NODES;
use crate::node::{Count, Head, MOST_VALUE_BITS, Node};
use crate::parts::Parts;
use csn_bits::NoMemory;
use std::alloc::Global;

/// The node with this head as it is entered, where `next` is the number of the node behind it.
pub(crate) fn begun_node(alloc: Global, head: Head, next: u16) -> Node
    ensures { result ≡ node_of head next }
{
    match head {
        Head::Lits(run) => Node::Lits(run),
        Head::Spare(symbol) => Node::Spare(symbol),
        Head::Pad => Node::Pad,
        Head::Null => Node::Null,
        Head::Field { unit, count } => Node::Field { unit, count },
        Head::Rest => Node::Rest,
        Head::Seq => Node::Seq(Parts::new(alloc)),
        Head::Choice => Node::Choice(Parts::new(alloc)),
        Head::Times(count) => Node::Times { count, part: next },
        Head::Many => Node::Many(next),
        Head::Trunc => Node::Trunc(Parts::new(alloc)),
        Head::Window { unit, count } => Node::Window {
            unit,
            count,
            part: next,
        },
        Head::Named(label) => Node::Named { label, part: next },
    }
}

/// The node has a part more, where it may have many.
fn add_part(node: &mut Node, part: u16) -> Result<(), NoMemory>
    requires { length (parts_of node.old) < MOST_NODES }
    ensures ok { OnOk result (node.new ≡ with_part part node.old) }
    ensures err { OnErr result (node.new ≡ node.old) }
{
    match node {
        Node::Seq(parts) => parts.push(part),
        Node::Choice(parts) => parts.push(part),
        Node::Trunc(parts) => parts.push(part),
        _ => Ok(()),
    }
}

/// The node with the number `above`, where there is one, has a part more, where it may have many.
fn add_part_above(nodes: &mut Vec<Node>, above: Option<u16>, part: u16) -> Result<(), NoMemory>
    requires { (i : ℕ) → above ≡ Some i → (n : Node) × (slice_get nodes.old.items i ≡ Some n) × (length (parts_of n) < MOST_NODES) }
    ensures none { above ≡ None → nodes.new.items ≡ nodes.old.items }
    ensures some { (i : ℕ) (n : Node) → above ≡ Some i → slice_get nodes.old.items i ≡ Some n → OnOk result
        (nodes.new.items ≡ set nodes.old.items i (with_part part n)) }
    ensures err { OnErr result (nodes.new.items ≡ nodes.old.items) }
{
    match above {
        None => Ok(()),
        Some(above) => add_part(&mut nodes[above as usize], part),
    }
}

/// Adds a node at the end, as a part of the one with the number `above`.
pub(crate) fn push_part(
    nodes: &mut Vec<Node>,
    above: Option<u16>,
    node: Node,
) -> Result<(), NoMemory>
    requires above { (i : ℕ) → above ≡ Some i → (n : Node) × (slice_get nodes.old.items i ≡ Some n) × (length (parts_of n) < MOST_NODES) }
    requires few { length nodes.old.items < MOST_NODES }
    ensures ok { OnOk result (nodes.new.items ≡ part_begun nodes.old.items (option_to_list above) ++ node ∷ []) }
    ensures err { OnErr result (nodes.new.items ≡ nodes.old.items) }
{
    let number = nodes.len() as u16;
    if nodes.push(node).is_err() {
        return Err(NoMemory);
    }
    if add_part_above(nodes, above, number).is_err() {
        nodes.pop();
        return Err(NoMemory);
    }
    Ok(())
}

/// Whether the node takes a part more, where `begun` says whether one was entered.
pub(crate) fn takes_another(node: &Node, begun: bool) -> bool
    ensures { IsTrue result ↔ ((parts : ℕ) × (length (if begun then parts_of node.now else []) < parts) × HasParts (head_of node.now) parts) }
{
    match node {
        Node::Seq(_) => true,
        Node::Choice(_) => true,
        Node::Trunc(_) => true,
        Node::Times { .. } => !begun,
        Node::Many(_) => !begun,
        Node::Window { .. } => !begun,
        Node::Named { .. } => !begun,
        _ => false,
    }
}

/// Whether the node has its number of parts, where `begun` says whether one was entered.
pub(crate) fn has_its_parts(node: &Node, begun: bool) -> bool
    ensures { IsTrue result ↔ HasParts (head_of node.now) (length (if begun then parts_of node.now else [])) }
{
    match node {
        Node::Seq(parts) => begun && parts.len() >= 2,
        Node::Choice(parts) => begun && parts.len() >= 2,
        Node::Trunc(parts) => begun && parts.len() >= 1,
        Node::Times { .. } => begun,
        Node::Many(_) => begun,
        Node::Window { .. } => begun,
        Node::Named { .. } => begun,
        _ => true,
    }
}

/// Whether fields and windows are counted in this unit of bits.
pub(crate) fn is_unit(unit: u8) -> bool
    ensures { IsTrue result ↔ IsUnit unit }
{
    unit == 1 || unit == 8
}

/// The node with a number, where there is one.
pub(crate) fn node_at(nodes: &[Node], i: u16) -> Option<&Node>
    ensures { option_copied result ≡ slice_get nodes.now i }
{
    nodes.get(i as usize)
}

/// Whether the node is a labelled part.
pub(crate) fn is_labelled(node: Option<&Node>) -> bool
    ensures { result ≡ is_labelled (option_copied node.entry) }
{
    let Some(node) = node else {
        return false;
    };
    matches!(node, Node::Named { .. })
}

/// What a label stands before.
fn labelled_part(node: Option<&Node>) -> Option<u16>
    ensures { result ≡ labelled_part (option_copied node.entry) }
{
    match node? {
        Node::Named { part, .. } => Some(*part),
        _ => None,
    }
}

/// How many bits a field of constant width has.
fn width_of(node: Option<&Node>) -> Option<u64>
    ensures { result ≡ width_of (option_copied node.entry) }
{
    match node? {
        Node::Field { unit, count } => match count {
            Count::Fixed(n) => Some(u64::from(*unit) * u64::from(*n)),
            Count::Counted { .. } => None,
        },
        _ => None,
    }
}

/// Whether the node is a labelled field that a count may stand on.
pub(crate) fn is_narrow(nodes: &[Node], field: u16) -> bool
    ensures { IsTrue result ↔ IsSomeAnd (value_width nodes.now field) (λ width. (1 ≤ width) × (width ≤ MOST_VALUE_BITS)) }
{
    let Some(part) = labelled_part(node_at(nodes, field)) else {
        return false;
    };
    match width_of(node_at(nodes, part)) {
        Some(width) => 1 <= width && width <= MOST_VALUE_BITS,
        None => false,
    }
}

/// Whether the node, where there is one, is a sequence or truncation that has this part.
fn has_shown(field: u16, node: Option<&Node>) -> bool
    ensures { result ≡ has_shown field (option_copied node.entry) }
{
    let Some(node) = node else {
        return false;
    };
    match node {
        Node::Seq(parts) => parts.has(field),
        Node::Trunc(parts) => parts.has(field),
        _ => false,
    }
}

/// Whether the next node sees this one, where `around` has the nodes that were not left, the outermost
/// first.
pub(crate) fn is_shown(nodes: &[Node], around: &[u16], field: u16) -> bool
    ensures { result ≡ is_shown nodes.now (reverse around.now) field }
{
    if !is_labelled(node_at(nodes, field)) {
        return false;
    }
    if around.contains(&field) {
        return false;
    }
    some_shows(nodes, around, field)
}

/// Whether one of these nodes is a sequence or truncation that has this part.
fn some_shows(nodes: &[Node], around: &[u16], field: u16) -> bool
    ensures { result ≡ list_any (λ i. has_shown field (slice_get nodes.now i)) around.now }
{
    for i in around {
        if has_shown(field, node_at(nodes, *i)) {
            return true;
        }
    }
    false
}
