//! The outlines of the nodes of a plan.

ghost use Rattle.std.specs.Prelude.{◌≡◌, ℕ, ◌<◌, ◌≤◌, [], length, slice_get, Some, None, IsTrue, IfOk, IfSome};
ghost use Rattle.csn_desc.specs.Nodes.{parts_of};
ghost use Rattle.csn_fields.specs.declared.places.Inside.TheVariants as next;
ghost use Rattle.csn_fields.specs.Leaves.{kind_of};
ghost use Rattle.csn_fields.specs.Places.{inside_of};
ghost use Rattle.csn_fields.specs.Outlines.{AreOutlines, HasPart, HasWidth, IsOutline, TellsNode, WithinNode, WithinParts, outline_at};

use crate::leaf::kind_of;
use crate::outline::{Form, Mark, Outline};
use csn_bits::NoMemory;
use csn_certify::{Plan, Steps};
use csn_desc::{Node, Parts};
use std::alloc::Global;
use std::sync::ledger::Ledger;

/// The most marks of one outline.
const MOST_MARKS: usize = 48;

/// The most marks of all outlines of a plan together.
const MOST_TOGETHER: usize = 65_536;

/// The nodes of a plan, and the outlines of those that have one.
#[derive(Clone, Copy)]
struct Made<'a> {
    plan: &'a Plan,
    outlines: &'a [Option<Outline>],
}

/// The outlines of the nodes of a plan, where they have one.
pub(crate) fn outlines<L: Ledger>(
    alloc: Global,
    plan: &Plan,
    steps: &mut Steps<L>,
) -> Result<Vec<Option<Outline>>, NoMemory>
    ensures { IfOk result (λ outlines. AreOutlines plan.now outlines.items) }
{
    let mut outlines = no_outlines(alloc, plan.len())?;
    let mut left = MOST_TOGETHER;
    let mut i = plan.len();
    while i > 0 {
        i -= 1;
        let made = outline_of(alloc, plan, i, outlines.as_slice(), steps)?;
        outlines[usize::from(i)] = with_room(made, &mut left);
    }
    Ok(outlines)
}

/// No outline for each of so many nodes.
fn no_outlines(alloc: Global, count: u16) -> Result<Vec<Option<Outline>>, NoMemory>
    ensures len { IfOk result (λ outlines. length outlines.items ≡ count) }
    ensures none { IfOk result (λ outlines. (i : ℕ) → outline_at outlines.items i ≡ None) }
{
    let mut outlines = Vec::new(alloc);
    for _ in 0..count {
        outlines.push(None)?;
    }
    Ok(outlines)
}

/// An outline again, where so much room is left for it.
fn with_room(made: Option<Outline>, left: &mut usize) -> Option<Outline>
    ensures { IfSome result (λ outline. made ≡ Some outline) }
{
    let outline = made?;
    let count = outline.len();
    if count > MOST_MARKS || count > *left {
        return None;
    }
    *left -= count;
    Some(outline)
}

/// The outline of node `i`, by those of its parts.
fn outline_of<L: Ledger>(
    alloc: Global,
    plan: &Plan,
    i: u16,
    outlines: &[Option<Outline>],
    steps: &mut Steps<L>,
) -> Result<Option<Outline>, NoMemory>
    requires node { i < length plan.now.nodes }
    requires many { length outlines.now ≡ length plan.now.nodes }
    requires outlines { AreOutlines plan.now outlines.now }
    ensures { IfOk result (λ made. IfSome made (IsOutline plan.now i)) }
{
    // its length tells that it is well formed
    let _count = plan.len();
    let Some(layout) = plan.layout(i) else {
        return Ok(None);
    };
    let mut outline = Outline::new(alloc);
    let node = plan.node(i, steps);
    let made = Made { plan, outlines };
    if push_node(&mut outline, made, i, node, layout.width)? {
        Ok(Some(outline))
    } else {
        Ok(None)
    }
}

/// Adds the marks of node `i`, which has so many bits. Answers whether they could be added.
fn push_node(
    outline: &mut Outline,
    made: Made,
    i: u16,
    node: &Node,
    width: u32,
) -> Result<bool, NoMemory>
    requires empty { outline.old ≡ [] }
    requires few { width ≤ 56 }
    requires parts { (j part : ℕ) → slice_get (parts_of node.now) j ≡ Some part → part < length made.plan.now.nodes }
    requires many { length made.outlines.now ≡ length made.plan.now.nodes }
    ensures { IfOk result (λ done. IsTrue done → TellsNode made.entry.plan.now i node.now width made.entry.outlines.now outline.new) }
{
    match kind_of(node) {
        Some(kind) => {
            outline.push(Mark::new(i, Form::Leaf(kind), width, 0))?;
            Ok(true)
        }
        None => push_around(outline, made, i, node, width),
    }
}

/// Adds the marks of node `i`, which is no leaf and has so many bits. Answers whether they could be added.
fn push_around(
    outline: &mut Outline,
    made: Made,
    i: u16,
    node: &Node,
    width: u32,
) -> Result<bool, NoMemory>
    requires empty { outline.old ≡ [] }
    requires few { width ≤ 56 }
    requires kind { kind_of node.now ≡ None }
    requires parts { (j part : ℕ) → slice_get (parts_of node.now) j ≡ Some part → part < length made.plan.now.nodes }
    requires many { length made.outlines.now ≡ length made.plan.now.nodes }
    ensures { IfOk result (λ done. IsTrue done → TellsNode made.entry.plan.now i node.now width made.entry.outlines.now outline.new) }
{
    outline.push(Mark::new(i, Form::End, 0, 0))?;
    if !push_inside(outline, made, node)? {
        return Ok(false);
    }
    outline.push(Mark::new(i, Form::Begin, 0, width))?;
    Ok(true)
}

/// Adds what is told between the beginning and the end of a node that is no leaf. Answers whether it could be added.
fn push_inside(outline: &mut Outline, made: Made, node: &Node) -> Result<bool, NoMemory>
    requires parts { (j part : ℕ) → slice_get (parts_of node.now) j ≡ Some part → part < length made.plan.now.nodes }
    requires many { length made.outlines.now ≡ length made.plan.now.nodes }
    ensures within { IfOk result (λ done. IsTrue done → WithinNode made.entry.plan.now node.now made.entry.outlines.now outline.old outline.new) }
    ensures parts { IfOk result (λ done. IsTrue done → inside_of node.now ≡ next.Part) }
{
    match node {
        Node::Null => Ok(true),
        Node::Named { part, .. } => push_part(outline, *part, 0, made.outlines),
        Node::Seq(parts) => push_parts(outline, made, parts),
        _ => Ok(false),
    }
}

/// Adds the marks of the parts of a sequence, those of the last part first.
fn push_parts(outline: &mut Outline, made: Made, parts: &Parts) -> Result<bool, NoMemory>
    requires parts { (j part : ℕ) → slice_get parts.now j ≡ Some part → part < length made.plan.now.nodes }
    requires many { length made.outlines.now ≡ length made.plan.now.nodes }
    ensures { IfOk result (λ done. IsTrue done → (width : ℕ) × WithinParts made.entry.plan.now parts.now width made.entry.outlines.now outline.old outline.new) }
{
    let mut behind = 0;
    let mut at = parts.len();
    while at > 0 {
        at -= 1;
        let part = parts.get(at);
        let Some(width) = width_in_front(made.plan, part, behind) else {
            return Ok(false);
        };
        if outline.len() > MOST_MARKS || !push_part(outline, part, behind, made.outlines)? {
            return Ok(false);
        }
        behind = width;
    }
    Ok(true)
}

/// How many bits there are with those of a part, where so many stand behind it.
fn width_in_front(plan: &Plan, part: u16, behind: u32) -> Option<u32>
    requires part { part < length plan.now.nodes }
    requires few { behind ≤ 56 }
    ensures wide { IfSome result (HasWidth plan.now part behind) }
    ensures few { IfSome result (λ width. width ≤ 56) }
{
    let layout = plan.layout(part)?;
    let width = layout.width + behind;
    if width > 56 { None } else { Some(width) }
}

/// Adds the marks of a part behind which so many bits stand, by its outline.
fn push_part(
    outline: &mut Outline,
    part: u16,
    behind: u32,
    outlines: &[Option<Outline>],
) -> Result<bool, NoMemory>
    requires few { behind ≤ 56 }
    requires part { part < length outlines.now }
    ensures { IfOk result (λ done. IsTrue done → HasPart outlines.now part behind outline.old outline.new) }
{
    match &outlines[usize::from(part)] {
        Some(made) => outline.push_part(made, behind),
        None => Ok(false),
    }
}
