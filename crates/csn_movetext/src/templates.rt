//! The templates of the nodes of a plan.

ghost use Rattle.std.specs.Prelude.{◌≡◌, ℕ, ◌<◌, ◌≤◌, length, slice_get, Some, None, IsTrue, IfOk, IfSome};
ghost use Rattle.csn_desc.specs.Nodes.{parts_of};
ghost use Rattle.csn_json.specs.Forms.{gap_after};
ghost use Rattle.csn_movetext.specs.Openings.{AreOpened, AreTemplates, IsTemplate};
ghost use Rattle.csn_movetext.specs.Templates.{is_later, template_at};
ghost use Rattle.csn_movetext.specs.Making.{EndsAt, HasPart, WritesLeaf, WritesNode, WritesParts};

use crate::openings::Openings;
use crate::template::Template;
use crate::writing::leaf_width;
use csn_bits::NoMemory;
use csn_certify::{Plan, Steps};
use csn_desc::{Node, Parts};
use csn_json::TreeForm;
use std::alloc::Global;
use std::sync::ledger::Ledger;

/// The most that all templates of a plan have together.
const MOST_TOGETHER: usize = 262_144;

/// The nodes of a plan, and the templates of those that have one.
#[derive(Clone, Copy)]
struct Made<'a> {
    plan: &'a Plan,
    templates: &'a [Option<Template>],
}

/// The templates of the nodes of a plan, where they have one, as texts.
pub(crate) fn templates<L: Ledger>(
    alloc: Global,
    plan: &Plan,
    openings: &Openings,
    steps: &mut Steps<L>,
) -> Result<Vec<Option<Template>>, NoMemory>
    requires form { openings.now.form ≡ TreeForm.Text }
    requires opened { AreOpened plan.now openings.now }
    ensures { IfOk result (λ templates. AreTemplates plan.now openings.now templates.items) }
{
    let mut templates = no_templates(alloc, plan.len())?;
    let mut left = MOST_TOGETHER;
    let mut i = plan.len();
    while i > 0 {
        i -= 1;
        let made = template_of(alloc, plan, openings, i, templates.as_slice(), steps)?;
        templates[usize::from(i)] = with_room(made, &mut left);
    }
    Ok(templates)
}

/// No template for each of so many nodes.
fn no_templates(alloc: Global, count: u16) -> Result<Vec<Option<Template>>, NoMemory>
    ensures len { IfOk result (λ templates. length templates.items ≡ count) }
    ensures none { IfOk result (λ templates. (i : ℕ) → template_at templates.items i ≡ None) }
{
    let mut templates = Vec::new(alloc);
    for _ in 0..count {
        templates.push(None)?;
    }
    Ok(templates)
}

/// A template again, where so much room is left for it.
fn with_room(made: Option<Template>, left: &mut usize) -> Option<Template>
    ensures { IfSome result (λ template. made ≡ Some template) }
{
    let template = made?;
    let size = template.size();
    if size > *left {
        return None;
    }
    *left -= size;
    Some(template)
}

/// The template of node `i`, by those of its parts.
fn template_of<L: Ledger>(
    alloc: Global,
    plan: &Plan,
    openings: &Openings,
    i: u16,
    templates: &[Option<Template>],
    steps: &mut Steps<L>,
) -> Result<Option<Template>, NoMemory>
    requires node { i < length plan.now.nodes }
    requires form { openings.now.form ≡ TreeForm.Text }
    requires opened { AreOpened plan.now openings.now }
    requires many { length templates.now ≡ length plan.now.nodes }
    requires templates { AreTemplates plan.now openings.now templates.now }
    ensures { IfOk result (λ made. IfSome made (IsTemplate plan.now openings.now i)) }
{
    // its length tells that it is well formed
    let _count = plan.len();
    let Some(layout) = plan.layout(i) else {
        return Ok(None);
    };
    let opening = openings.get(i);
    if opening.label.is_some() {
        return Ok(None);
    }
    let mut template = Template::new(alloc);
    template.push_text(opening.text)?;
    let node = plan.node(i, steps);
    let made = Made { plan, templates };
    if push_node(&mut template, made, node, layout.width)? {
        Ok(Some(template))
    } else {
        Ok(None)
    }
}

/// Adds what a node of so many bits writes behind its opening. Answers whether it could be.
fn push_node(template: &mut Template, made: Made, node: &Node, width: u32) -> Result<bool, NoMemory>
    requires few { width ≤ 56 }
    requires parts { (j part : ℕ) → slice_get (parts_of node.now) j ≡ Some part → part < length made.plan.now.nodes }
    requires many { length made.templates.now ≡ length made.plan.now.nodes }
    ensures { IfOk result (λ done. IsTrue done → WritesNode made.entry.plan.now node.now width made.entry.templates.now template.old template.new) }
{
    match node {
        Node::Lits(_) | Node::Null => Ok(true),
        Node::Field { .. } => push_leaf(template, node, width),
        Node::Named { part, .. } => push_part(template, *part, 0, made.templates),
        Node::Seq(parts) => push_parts(template, made, parts, width),
        _ => Ok(false),
    }
}

/// Adds the bits of a field, where its opening has their number.
fn push_leaf(template: &mut Template, node: &Node, width: u32) -> Result<bool, NoMemory>
    requires few { width ≤ 56 }
    ensures { IfOk result (λ done. IsTrue done → WritesLeaf node.now width template.old template.new) }
{
    match leaf_width(node) {
        None => Ok(false),
        Some(_) => {
            template.push_field(width, 0)?;
            Ok(true)
        }
    }
}

/// Adds what the parts of a sequence of so many bits write, and what closes it.
fn push_parts(
    template: &mut Template,
    made: Made,
    parts: &Parts,
    width: u32,
) -> Result<bool, NoMemory>
    requires few { width ≤ 56 }
    requires parts { (j part : ℕ) → slice_get parts.now j ≡ Some part → part < length made.plan.now.nodes }
    requires many { length made.templates.now ≡ length made.plan.now.nodes }
    ensures { IfOk result (λ done. IsTrue done → WritesParts made.entry.plan.now parts.now width made.entry.templates.now template.old template.new) }
{
    let mut behind = width;
    for k in 0..parts.len() {
        let part = parts.get(k);
        match bits_behind(made.plan, part, behind) {
            Some(left) => behind = left,
            None => return Ok(false),
        }
        template.push_text(gap_before(k))?;
        if !push_part(template, part, behind, made.templates)? {
            return Ok(false);
        }
    }
    template.push_text(b"]")?;
    Ok(true)
}

/// How many of so many bits stand behind those of a part.
fn bits_behind(plan: &Plan, part: u16, bits: u32) -> Option<u32>
    requires { part < length plan.now.nodes }
    ensures ends { IfSome result (EndsAt plan.now part bits) }
    ensures few { IfSome result (λ behind. behind ≤ bits) }
{
    let layout = plan.layout(part)?;
    if layout.width <= bits {
        Some(bits - layout.width)
    } else {
        None
    }
}

/// What stands before a part with this number among the parts of a sequence.
fn gap_before(k: u16) -> &'static [u8]
    ensures { result.now ≡ gap_after TreeForm.Text (is_later k) }
{
    if k > 0 { b" " } else { b"" }
}

/// Adds what a part writes behind which so many bits stand, by its template.
fn push_part(
    template: &mut Template,
    part: u16,
    behind: u32,
    templates: &[Option<Template>],
) -> Result<bool, NoMemory>
    requires few { behind ≤ 56 }
    requires part { part < length templates.now }
    ensures { IfOk result (λ done. IsTrue done → HasPart templates.now part behind template.old template.new) }
{
    match &templates[usize::from(part)] {
        Some(made) => template.push_part(made, behind),
        None => Ok(false),
    }
}
