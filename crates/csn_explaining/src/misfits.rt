//! Where a tree does not fit, in words.

ghost use Rattle.std.specs.Prelude.{◌≡◌, ◌++◌, ℕ, codes, slice_get, OnOk};
ghost use Rattle.csn_desc.specs.TreeV.{TreeV};
ghost use Rattle.csn_explaining.specs.Misfits.{counts_text, kinds_text, why_text};
ghost use Rattle.csn_explaining.specs.Texts.{counted_text, named_way};
ghost use Rattle.csn_explaining.specs.Wanted.{tree_text};

use crate::nodes::{label_at, node_at};
use crate::path::PathText;
use crate::text::push_count;
use crate::wanted::{push_counted, push_node_at, push_sized};
use csn_bits::MOST_BITS;
use csn_certify::Plan;
use csn_desc::{Node, Shape, Tree};
use csn_encode::{Misfit, MisfitWhy, Path};
use csn_fields::Role;
use std::alloc::AllocError;

/// A tree, and the node of which it is one.
#[derive(Clone, Copy)]
struct At<'a> {
    node: u16,
    tree: &'a Tree,
}

/// The part of a row with this number.
fn row_part(tree: &Tree, number: u32) -> Option<&Tree> {
    match &tree.shape {
        Shape::Row(rows) if number < rows.len() => Some(rows.get(number)),
        _ => None,
    }
}

/// The tree below a label or an alternative.
fn inner_tree(tree: &Tree) -> Option<&Tree> {
    match &tree.shape {
        Shape::Alt(_, inner) => Some(inner),
        Shape::Named(_, inner) => Some(inner),
        _ => None,
    }
}

/// The number of an alternative.
fn chosen(tree: &Tree) -> Option<u16> {
    match &tree.shape {
        Shape::Alt(number, _) => Some(*number),
        _ => None,
    }
}

/// One step down from a tree to the part with this number, and what the part is there; or nothing, where it has no such
/// part.
fn step_down<'a>(plan: &Plan, at: At<'a>, number: u32) -> Option<(At<'a>, Role)> {
    match node_at(plan, at.node)? {
        Node::Named { part, .. } => {
            let tree = inner_tree(at.tree)?;
            Some((At { node: *part, tree }, Role::Part))
        }
        Node::Choice(parts) => {
            let alternative = chosen(at.tree)?;
            let tree = inner_tree(at.tree)?;
            if alternative >= parts.len() {
                return None;
            }
            let node = parts.get(alternative);
            Some((At { node, tree }, Role::Alternative(alternative)))
        }
        Node::Seq(parts) | Node::Trunc(parts) => {
            let tree = row_part(at.tree, number)?;
            if number >= u32::from(parts.len()) {
                return None;
            }
            let node = parts.get(number as u16);
            Some((At { node, tree }, Role::Part))
        }
        Node::Times { part, .. } | Node::Many(part) => {
            let tree = row_part(at.tree, number)?;
            Some((At { node: *part, tree }, Role::Turn(number)))
        }
        _ => None,
    }
}

/// Goes through windows, which have the tree of their part.
fn behind_windows<'a>(plan: &Plan, mut at: At<'a>) -> At<'a> {
    for _ in 0..plan.len() {
        match node_at(plan, at.node) {
            Some(Node::Window { part, .. }) => at.node = *part,
            _ => break,
        }
    }
    at
}

/// Goes the way to a misfit.
fn go_to<'a>(
    path: &mut PathText,
    plan: &Plan,
    tree: &'a Tree,
    way: &Path,
) -> Result<At<'a>, AllocError> {
    let mut at = At { node: 0, tree };
    let mut role = Role::Root;
    path.restart();
    for step in 0..way.len() {
        at = behind_windows(plan, at);
        path.enter(role, label_at(plan, at.node))?;
        if let Some((below, next)) = step_down(plan, at, way.get(step)) {
            at = below;
            role = next;
        }
    }
    path.enter(role, None)?;
    Ok(at)
}

/// Writes what a tree is.
#[tactic(auto, using(crate::proofs::Texts::row_count))]
fn push_tree(out: &mut Vec<u8>, tree: &Tree) -> Result<(), AllocError>
    ensures { OnOk result (out.new.items ≡ out.old.items ++ tree_text tree.now) }
{
    match &tree.shape {
        Shape::Empty => out.extend_from_slice(b"nothing"),
        Shape::Bits(bits) => push_counted(out, bits.len(), b"bit"),
        Shape::Row(rows) => push_sized(out, b"row of ", rows.len(), b"tree"),
        Shape::Alt(number, _) => {
            out.extend_from_slice(b"alternative ")?;
            push_count(out, u32::from(*number))
        }
        Shape::Named(label, _) => {
            out.push(b'<')?;
            out.extend_from_slice(label.bytes())?;
            Ok(out.push(b'>')?)
        }
    }
}

/// Writes how many of something were wanted, and how many were found.
fn push_counts(out: &mut Vec<u8>, wanted: u32, found: u32, noun: &[u8]) -> Result<(), AllocError>
    ensures { OnOk result (out.new.items ≡ out.old.items ++ counts_text wanted found noun.now) }
{
    push_counted(out, wanted, noun)?;
    out.extend_from_slice(b" wanted, ")?;
    push_counted(out, found, noun)?;
    out.extend_from_slice(b" found")
}

/// Writes which node was wanted, and which tree was found.
fn push_kinds(out: &mut Vec<u8>, plan: &Plan, at: At<'_>) -> Result<(), AllocError>
    ensures { OnOk result (out.new.items ≡ out.old.items ++ kinds_text (slice_get plan.now.nodes at.entry.node) at.entry.tree.now) }
{
    push_node_at(out, plan, at.node)?;
    out.extend_from_slice(b" wanted, ")?;
    push_tree(out, at.tree)?;
    out.extend_from_slice(b" found")
}

/// Writes how many bits were wanted in a window, and how many were found.
fn push_window_counts(out: &mut Vec<u8>, wanted: u32, found: u32) -> Result<(), AllocError>
    ensures { OnOk result (out.new.items ≡ out.old.items ++ (counts_text wanted found (codes "bit") ++ codes " in the window")) }
{
    push_counts(out, wanted, found, b"bit")?;
    out.extend_from_slice(b" in the window")
}

/// Writes that there are more bits than a block has.
fn push_most(out: &mut Vec<u8>) -> Result<(), AllocError>
    ensures { OnOk result (out.new.items ≡ out.old.items
        ++ (codes "at most " ++ (counted_text 524288 (codes "bit") ++ codes " wanted, more found"))) }
{
    out.extend_from_slice(b"at most ")?;
    push_counted(out, MOST_BITS, b"bit")?;
    out.extend_from_slice(b" wanted, more found")
}

/// Writes what was wanted, and what was found.
fn push_why(out: &mut Vec<u8>, plan: &Plan, at: At<'_>, why: MisfitWhy) -> Result<(), AllocError>
    ensures { OnOk result (out.new.items ≡ out.old.items ++ why_text (slice_get plan.now.nodes at.entry.node) at.entry.tree.now why) }
{
    match why {
        MisfitWhy::WrongKind => push_kinds(out, plan, at),
        MisfitWhy::WrongLabel => push_kinds(out, plan, at),
        MisfitWhy::NoSuchAlternative => push_kinds(out, plan, at),
        MisfitWhy::WrongCount { wanted, found } => push_counts(out, wanted, found, b"tree"),
        MisfitWhy::WrongWidth { wanted, found } => push_counts(out, wanted, found, b"bit"),
        MisfitWhy::WindowLength { wanted, found } => push_window_counts(out, wanted, found),
        MisfitWhy::WrongSpare => {
            out.extend_from_slice(b"the spare bits of a sender wanted, others found")
        }
        MisfitWhy::TooManyBits => push_most(out),
    }
}

/// Writes the way to where a tree does not fit.
fn push_name(out: &mut Vec<u8>, path: &PathText) -> Result<(), AllocError>
    ensures { OnOk result (out.new.items ≡ out.old.items ++ named_way path.now.text) }
{
    if path.text().len() > 0 {
        out.extend_from_slice(path.text())
    } else {
        Ok(out.push(b'.')?)
    }
}

/// Writes where a tree does not fit, and why: the labels on the way there, what was wanted and what was found. For the
/// root the way is `.`.
pub fn push_misfit(
    out: &mut Vec<u8>,
    path: &mut PathText,
    plan: &Plan,
    tree: &Tree,
    misfit: &Misfit,
) -> Result<(), AllocError>
    ensures { OnOk result ((node : ℕ) × (below : TreeV) × (out.new.items ≡ out.old.items
        ++ (codes "no " ++ (named_way path.new.text ++ (codes ": " ++ why_text (slice_get plan.now.nodes node) below misfit.now.why))))) }
{
    let at = behind_windows(plan, go_to(path, plan, tree, &misfit.path)?);
    out.extend_from_slice(b"no ")?;
    push_name(out, path)?;
    out.extend_from_slice(b": ")?;
    Ok(push_why(out, plan, at, misfit.why)?)
}
