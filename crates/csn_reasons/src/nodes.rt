//! The nodes of a description, and what stands round one.

ghost use Rattle.std.specs.Prelude.{◌≡◌, ◌<◌, ◌≤◌, ◌⊎◌, ℕ, List, [], ◌∷◌, Some, IfOk, length, get_or, slice_get};
ghost use Rattle.std.specs.Option.{option_copied};
ghost use Rattle.csn_desc.specs.declared.node.Node.{Node};
ghost use Rattle.csn_desc.specs.Nodes.{parts_of};
ghost use Rattle.csn_desc.specs.declared.desc.TheConstants.{MOST_NODES};
ghost use Rattle.csn_reasons.specs.Paths.{AreParents, LeadsUp, place_among};

use csn_bits::NoMemory;
use csn_desc::{Desc, MOST_NODES, Node, Parts};
use std::alloc::Global;

/// A part of a node, by its place among them.
fn listed(parts: &Parts, at: u16) -> Option<u16>
    ensures part { result ≡ slice_get parts.now at }
    ensures few { length parts.now ≤ MOST_NODES }
{
    if at < parts.len() {
        Some(parts.get(at))
    } else {
        None
    }
}

/// A part of a node by its place among its parts, counted from 0.
pub(crate) fn part_of(node: &Node, at: u16) -> Option<u16>
    ensures part { result ≡ slice_get (parts_of node.now) at }
    ensures few { length (parts_of node.now) ≤ MOST_NODES }
{
    match node {
        Node::Seq(parts) => listed(parts, at),
        Node::Choice(parts) => listed(parts, at),
        Node::Trunc(parts) => listed(parts, at),
        Node::Times { part, .. } => only(*part, at),
        Node::Many(part) => only(*part, at),
        Node::Window { part, .. } => only(*part, at),
        Node::Named { part, .. } => only(*part, at),
        _ => None,
    }
}

/// The one part of a node.
fn only(part: u16, at: u16) -> Option<u16>
    ensures { result ≡ slice_get (part ∷ []) at }
{
    if at == 0 { Some(part) } else { None }
}

/// Which of some parts a node is, counted from 0.
pub(crate) fn place_in(parts: &Parts, part: u16) -> u16
    ensures { result ≡ place_among part parts.now }
{
    for at in 0..parts.len() {
        if parts.get(at) == part {
            return at;
        }
    }
    0
}

/// The node with a number, where there is one.
pub(crate) fn node_at(desc: &Desc, number: u16) -> Option<&Node>
    ensures { option_copied result ≡ slice_get desc.now.nodes number }
{
    if number < desc.len() {
        Some(desc.node(number))
    } else {
        None
    }
}

/// For each node the node that it is a part of, and for the root itself.
pub(crate) fn parents_of(alloc: Global, desc: &Desc) -> Result<Vec<u16>, NoMemory>
    ensures { IfOk result (λ parents. AreParents desc.now.nodes parents.items) }
{
    let mut parents = vec![in alloc; 0u16; desc.len() as usize]?;
    for number in 0..desc.len() {
        note_parts(desc.node(number), number, parents.as_mut_slice());
    }
    Ok(parents)
}

/// Notes the parts of a node as such.
fn note_parts(node: &Node, number: u16, parents: &mut [u16])
    ensures same { length parents.new ≡ length parents.old }
    ensures noted { (j i : ℕ) → slice_get (parts_of node.now) j ≡ Some i → i < length parents.old → get_or parents.new i 0 ≡ number }
    ensures others { (i : ℕ) → (get_or parents.new i 0 ≡ get_or parents.old i 0)
        ⊎ ((get_or parents.new i 0 ≡ number) × (j : ℕ) × (slice_get (parts_of node.now) j ≡ Some i)) }
{
    for at in 0..MOST_NODES {
        let Some(part) = part_of(node, at) else {
            return;
        };
        if (part as usize) < parents.len() {
            parents[part as usize] = number;
        }
    }
}

/// The nodes from one up to the root, with both.
pub(crate) fn way_up(alloc: Global, parents: &[u16], node: u16) -> Result<Vec<u16>, NoMemory>
    ensures { IfOk result (λ up. (nodes : List Node) → AreParents nodes parents.now → node < length nodes → LeadsUp nodes node up.items) }
{
    let mut up = Vec::new(alloc);
    let mut here = node;
    for _ in 0..parents.len() {
        up.push(here)?;
        if here == 0 {
            return Ok(up);
        }
        here = above(parents, here);
    }
    Ok(up)
}

/// The node that one is a part of, where these are such nodes.
fn above(parents: &[u16], node: u16) -> u16
    ensures { result ≡ get_or parents.now node 0 }
{
    match parents.get(node as usize) {
        Some(parent) => *parent,
        None => 0,
    }
}
