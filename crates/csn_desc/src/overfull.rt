//! Which fields are counted on, and whether too many are at one place.

ghost use Rattle.std.specs.Prelude.{◌≡◌, ◌<◌, ◌≤◌, ◌↔◌, IsTrue, length, slice_get, Some, IfOk, IfNone, IfSome};
ghost use Rattle.std.specs.Prelude.{ℕ, ◌+◌, if◌then◌else◌, ◌==◌, Bool, false, ◌&&◌, get_or, nat_lt};
ghost use Rattle.csn_desc.specs.Formed.{counted_marks, counts_on, node_counts_on, shows_earlier};
ghost use Rattle.csn_desc.specs.Nodes.{parts_of};
ghost use Rattle.csn_desc.specs.Values.{is_named};
ghost use Rattle.csn_desc.specs.Marks.{stands_on, marked};
ghost use Rattle.csn_desc.specs.Crowds.{Counts, NoneCrowded, FirstCrowded};

use crate::begun::{is_labelled, node_at};
use crate::node::{Count, Node};
use std::alloc::{AllocError, Global};

/// The most counted fields that a counted field sees, and one more.
const MOST_VALS: u8 = 64;

/// For each node, whether some count stands on it.
pub(crate) fn counted_marks(alloc: Global, nodes: &[Node]) -> Result<Vec<bool>, AllocError>
    ensures { IfOk result (λ marks. marks.items ≡ counted_marks nodes.now) }
{
    let mut marks = vec![in alloc; false; nodes.len()]?;
    for node in nodes {
        mark(&mut marks, counted_field(node));
    }
    Ok(marks)
}

/// Marks the field, where it is one of them.
#[tactic(auto, using(crate::proofs::MarkFacts::past_same))]
fn mark(marks: &mut Vec<bool>, field: Option<u16>)
    ensures { marks.new.items ≡ marked field marks.old.items }
{
    if let Some(field) = field {
        if (field as usize) < marks.len() {
            marks[field as usize] = true;
        }
    }
}

/// The field that the count of the node stands on.
fn counted_field(node: &Node) -> Option<u16>
    ensures { (field : ℕ) → node_counts_on field node.now ≡ stands_on field result }
{
    match node {
        Node::Field { count, .. } => field_of(count),
        Node::Times { count, .. } => field_of(count),
        Node::Window { count, .. } => field_of(count),
        _ => None,
    }
}

/// The field that the count stands on.
fn field_of(count: &Count) -> Option<u16>
    ensures { (field : ℕ) → counts_on field count.now ≡ stands_on field result }
{
    match count {
        Count::Fixed(_) => None,
        Count::Counted { field, .. } => Some(*field),
    }
}

/// The first counted field, of node `i` and those inside it, that sees 64 such fields. Node i is inside
/// `deep` others, and sees `before` counted fields, or 64 where there are more.
pub(crate) fn first_overfull(
    nodes: &[Node],
    counted: &[bool],
    i: u16,
    before: u8,
    deep: u8,
) -> Option<u16>
    requires marks { counted.now ≡ counted_marks nodes.now }
    requires sees { Counts nodes.now i before deep }
    ensures none { IfNone result (NoneCrowded nodes.now i before deep) }
    ensures some { IfSome result (λ j. FirstCrowded nodes.now i before deep j) }
{
    if is_crowded(counted, i, before) {
        return Some(i);
    }
    let node = one_node(nodes, i);
    let shows = shows_earlier(node);
    let mut seen = before;
    for at in 0..part_count(node) {
        let part = part_at(node, at);
        if let Some(field) = first_overfull(nodes, counted, part, seen, deep + 1) {
            return Some(field);
        }
        seen = amount_behind(nodes, counted, part, shows, seen);
    }
    None
}

/// The node with a number.
fn one_node(nodes: &[Node], i: u16) -> &Node
    requires { i < length nodes.now }
    ensures { slice_get nodes.now i ≡ Some result.now }
{
    &nodes[i as usize]
}

/// Whether the later parts of the node see the earlier ones.
fn shows_earlier(node: &Node) -> bool
    ensures { result ≡ shows_earlier node.now }
{
    matches!(node, Node::Seq(_) | Node::Trunc(_))
}

/// How many parts the node has.
fn part_count(node: &Node) -> u16
    ensures { result ≡ length (parts_of node.now) }
{
    match node {
        Node::Seq(parts) => parts.len(),
        Node::Choice(parts) => parts.len(),
        Node::Trunc(parts) => parts.len(),
        Node::Times { .. } => 1,
        Node::Many(_) => 1,
        Node::Window { .. } => 1,
        Node::Named { .. } => 1,
        _ => 0,
    }
}

/// The part of the node at the place `at`, counted from 0.
fn part_at(node: &Node, at: u16) -> u16
    requires { at < length (parts_of node.now) }
    ensures { slice_get (parts_of node.now) at ≡ Some result }
{
    match node {
        Node::Seq(parts) => parts.get(at),
        Node::Choice(parts) => parts.get(at),
        Node::Trunc(parts) => parts.get(at),
        Node::Times { part, .. } => *part,
        Node::Many(part) => *part,
        Node::Window { part, .. } => *part,
        Node::Named { part, .. } => *part,
        _ => 0,
    }
}

/// How many counted fields stand before what is behind the part, or 64 where there are more.
fn amount_behind(nodes: &[Node], counted: &[bool], part: u16, shows: bool, seen: u8) -> u8
    requires { part < length counted.now }
    ensures { result ≡ (if shows && (is_named nodes.now part && (get_or counted.now part false && nat_lt seen MOST_VALS)) then seen + 1 else seen) }
{
    if shows && adds_one(nodes, counted, part, seen) {
        seen + 1
    } else {
        seen
    }
}

/// Whether the part is a counted field, and one more than 64 is not told.
fn adds_one(nodes: &[Node], counted: &[bool], part: u16, before: u8) -> bool
    requires { part < length counted.now }
    ensures { result ≡ (is_named nodes.now part && (get_or counted.now part false && nat_lt before MOST_VALS)) }
{
    is_labelled(node_at(nodes, part)) && counted[part as usize] && before < MOST_VALS
}

/// Whether the node is a counted field that sees 64 counted fields.
fn is_crowded(counted: &[bool], i: u16, before: u8) -> bool
    requires { i < length counted.now }
    ensures { IsTrue result ↔ ((MOST_VALS ≤ before) × IsTrue (get_or counted.now i false)) }
{
    before >= MOST_VALS && counted[i as usize]
}
