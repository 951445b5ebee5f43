ghost use Rattle.std.specs.Prelude.{◌≡◌, ℕ, ◌<◌, ◌++◌, ◌∷◌, [], List, length, slice_get, Some, OnOk, IfOk, option_copied};
ghost use Rattle.csn_desc.specs.Label.{IsLabel};
ghost use Rattle.csn_json.specs.Forms.{label_text, leaf_opening, nothing_text};
ghost use Rattle.csn_movetext.specs.Kept.{Extends};
ghost use Rattle.csn_movetext.specs.Openings.{AreOpened, AreTemplates, HasLabel, HasOpenings, label_part, node_opening, number_text};
ghost use Rattle.csn_movetext.specs.Openings.{opening_in, opening_of, with_text};
ghost use Rattle.csn_movetext.specs.Pool.{IsNumber, IsWithin, label_at, text_at};
ghost use Rattle.csn_movetext.specs.Templates.{template_at};

use crate::alternatives::alternatives;
use crate::digits::push_number;
use crate::room::push_text;
use crate::template::Template;
use crate::templates::templates;
use crate::writing::leaf_width;
use csn_bits::NoMemory;
use csn_certify::{Plan, Steps};
use csn_desc::{Label, Node};
use csn_json::TreeForm;
use std::alloc::Global;
use std::marker::{Brand, Model};
use std::sync::ledger::{Blank, Ledger};

/// A label of so many bytes is kept as the node has it, and its text is made where it is written.
const LONG: usize = 256;

/// What each node of a plan writes of its tree in a form where it begins, and the templates of those that are written at
/// once. A contract sees the form, and the lists of these texts and of the templates.
#[derive(Drop)]
pub struct Openings {
    form: TreeForm,
    pool: Vec<u8>,
    /// The long labels.
    labels: Vec<Label>,
    places: Vec<Place>,
    /// For each node its template, if it has one; none at all in JSON.
    templates: Vec<Option<Template>>,
}

/// Where a text stands in the pool, and the number of the long label behind it, if there is one.
#[derive(Clone, Copy)]
struct Place {
    start: u32,
    end: u32,
    label: Option<u32>,
}

/// What a node writes where it begins: a text, and behind it a label, if there is one.
#[derive(Clone, Copy)]
pub(crate) struct Opening<'a> {
    pub text: &'a [u8],
    pub label: Option<&'a Label>,
}

impl Model for Openings {
    ghost use Rattle.csn_movetext.specs.Openings.{OpeningsV};
    ghost use Rattle.csn_movetext.specs.Pool.{openings_of, ArePlaces};

    ghost Value = { OpeningsV };

    ghost view = { openings_of };

    ghost invariant = { ArePlaces };
}

impl Openings {
    /// The openings of the nodes of a plan in a form, which are made once with it.
    pub fn new(alloc: Global, plan: &Plan, form: TreeForm) -> Result<Openings, NoMemory>
        ensures openings { IfOk result (HasOpenings plan.now) }
        ensures form { IfOk result (λ openings. openings.form ≡ form) }
    {
        openings_of_plan::<Brand>(alloc, plan, form, Blank::new(1))
    }

    /// The form.
    pub(crate) fn form(&self) -> TreeForm
        ensures { result ≡ self.now.form }
    {
        self.form
    }

    /// What node `i` writes; nothing where there is no such node.
    #[inline(always)]
    pub(crate) fn get(&self, i: u16) -> Opening<'_>
        ensures { result.text.now ++ label_part self.now.form (option_copied result.label) ≡ opening_in self.now i }
    {
        if usize::from(i) < self.places.len() {
            let place = self.places[usize::from(i)];
            opening_at(self.pool.as_slice(), self.labels.as_slice(), place)
        } else {
            Opening {
                text: b"",
                label: None,
            }
        }
    }

    /// The template of node `i`, where it has one.
    #[inline(always)]
    pub(crate) fn template(&self, i: u16) -> Option<&Template>
        ensures { option_copied result ≡ template_at self.now.templates i }
    {
        if usize::from(i) < self.templates.len() {
            self.templates[usize::from(i)].as_ref()
        } else {
            None
        }
    }

    /// The same with other templates.
    fn with_templates(self, templates: Vec<Option<Template>>) -> Openings
        ensures { result ≡ record { form = self.form; texts = self.texts; templates = templates.items } }
    {
        Openings { templates, ..self }
    }

    /// That of a node behind the others, with its number where it is an alternative. It is made in `opening`.
    fn add(
        &mut self,
        opening: &mut Vec<u8>,
        number: Option<u16>,
        node: &Node,
    ) -> Result<(), NoMemory>
        ensures added { OnOk result (self.new ≡ with_text self.old (opening_of self.old.form number node.now)) }
        ensures label { OnOk result (HasLabel node.now) }
    {
        opening.clear();
        push_mark(opening, self.form, number)?;
        match node {
            Node::Named { label, .. } if label.bytes().len() >= LONG => {
                self.push(opening.as_slice(), Some(label))
            }
            _ => {
                push_node(opening, self.form, node)?;
                self.push(opening.as_slice(), None)
            }
        }
    }

    /// One more behind the others: a text, and behind it that of a label, if there is one.
    fn push(&mut self, text: &[u8], label: Option<&Label>) -> Result<(), NoMemory>
        ensures { OnOk result (self.new ≡ with_text self.old (text.now ++ label_part self.old.form (option_copied label.entry))) }
    {
        let number = keep(&mut self.labels, label)?;
        let start = self.pool.len();
        self.pool.extend_from_slice(text)?;
        let end = self.pool.len();
        if end > u32::MAX as usize {
            return Err(NoMemory);
        }
        let place = Place {
            start: start as u32,
            end: end as u32,
            label: number,
        };
        Ok(self.places.push(place)?)
    }
}

/// What stands at a place.
#[inline(always)]
fn opening_at<'a>(pool: &'a [u8], labels: &'a [Label], place: Place) -> Opening<'a>
    requires { IsWithin pool.now labels.now place }
    ensures { (form : TreeForm) → result.text.now ++ label_part form (option_copied result.label) ≡ text_at form pool.now labels.now place }
{
    let text = &pool[place.start as usize..place.end as usize];
    let label = label_at(labels, place.label);
    Opening { text, label }
}

/// The label with a number, if there is one.
#[inline(always)]
fn label_at(labels: &[Label], number: Option<u32>) -> Option<&Label>
    requires { IsNumber labels.now number }
    ensures { option_copied result ≡ label_at labels.now number }
{
    match number {
        None => None,
        Some(number) => Some(&labels[number as usize]),
    }
}

/// Keeps a label behind the others, if there is one: its number.
fn keep(labels: &mut Vec<Label>, label: Option<&Label>) -> Result<Option<u32>, NoMemory>
    ensures number { IfOk result (λ number. label_at labels.new.items number ≡ option_copied label.entry) }
    ensures within { IfOk result (λ number. IsNumber labels.new.items number) }
    ensures more { (more : List (List ℕ)) × (labels.new.items ≡ labels.old.items ++ more) }
{
    let Some(label) = label else {
        return Ok(None);
    };
    let number = labels.len();
    if number > u32::MAX as usize {
        return Err(NoMemory);
    }
    let copy = label.copy(*labels.allocator())?;
    labels.push(copy)?;
    Ok(Some(number as u32))
}

/// The openings of a plan, with a counter of steps.
fn openings_of_plan<L: Ledger>(
    alloc: Global,
    plan: &Plan,
    form: TreeForm,
    blank: Blank,
) -> Result<Openings, NoMemory>
    requires name { blank.name ≡ L.name }
    requires parts { blank.parts ≡ L.parts }
    requires some { 0 < blank.parts }
    ensures openings { IfOk result (HasOpenings plan.now) }
    ensures form { IfOk result (λ openings. openings.form ≡ form) }
{
    let mut steps = Steps::<L>::new(blank);
    let openings = bare_openings(alloc, plan, form, &mut steps)?;
    match form {
        TreeForm::Text => {
            let templates = templates(alloc, plan, &openings, &mut steps)?;
            Ok(openings.with_templates(templates))
        }
        TreeForm::Json => Ok(openings),
    }
}

/// The openings of a plan, with no templates.
fn bare_openings<L: Ledger>(
    alloc: Global,
    plan: &Plan,
    form: TreeForm,
    steps: &mut Steps<L>,
) -> Result<Openings, NoMemory>
    ensures opened { IfOk result (AreOpened plan.now) }
    ensures form { IfOk result (λ openings. openings.form ≡ form) }
    ensures templates { IfOk result (λ openings. openings.templates ≡ []) }
{
    let numbers = alternatives(alloc, plan, steps)?;
    let mut openings = Openings {
        form,
        pool: Vec::new(alloc),
        labels: Vec::new(alloc),
        places: Vec::new(alloc),
        templates: Vec::new(alloc),
    };
    let mut opening = Vec::new(alloc);
    for i in 0..plan.len() {
        let node = plan.node(i, steps);
        openings.add(&mut opening, numbers[usize::from(i)], node)?;
    }
    Ok(openings)
}

/// Adds the number of a node that is an alternative.
fn push_mark(out: &mut Vec<u8>, form: TreeForm, number: Option<u16>) -> Result<(), NoMemory>
    ensures { OnOk result (out.new.items ≡ out.old.items ++ number_text form number) }
{
    let Some(number) = number else {
        return Ok(());
    };
    match form {
        TreeForm::Text => {
            out.push(b'#')?;
            push_number(out, u64::from(number))?;
            out.push(b':')?;
        }
        TreeForm::Json => {
            out.extend_from_slice(b"{\"alt\":")?;
            push_number(out, u64::from(number))?;
            out.extend_from_slice(b",\"tree\":")?;
        }
    }
    Ok(())
}

/// Adds what a node writes where it begins.
fn push_node(out: &mut Vec<u8>, form: TreeForm, node: &Node) -> Result<(), NoMemory>
    ensures text { OnOk result (out.new.items ≡ out.old.items ++ node_opening form node.now) }
    ensures label { OnOk result (HasLabel node.now) }
{
    match node {
        Node::Lits(_) | Node::Null => push_nothing(out, form)?,
        Node::Seq(_) | Node::Times { .. } | Node::Many(_) | Node::Trunc(_) => out.push(b'[')?,
        Node::Named { label, .. } => push_label(out, form, label)?,
        Node::Spare(_) | Node::Field { .. } => push_leaf(out, form, leaf_width(node))?,
        Node::Pad | Node::Rest => push_leaf(out, form, None)?,
        Node::Choice(_) | Node::Window { .. } => {}
    }
    Ok(())
}

/// Adds all of a literal, or of no bits.
fn push_nothing(out: &mut Vec<u8>, form: TreeForm) -> Result<(), NoMemory>
    ensures { OnOk result (out.new.items ≡ out.old.items ++ nothing_text form) }
{
    match form {
        TreeForm::Text => out.push(b'.')?,
        TreeForm::Json => out.extend_from_slice(b"null")?,
    }
    Ok(())
}

/// Adds a label.
pub(crate) fn push_label(out: &mut Vec<u8>, form: TreeForm, label: &Label) -> Result<(), NoMemory>
    ensures text { OnOk result (out.new.items ≡ out.old.items ++ label_text form label.now) }
    ensures label { OnOk result (IsLabel label.now) }
    ensures extends { Extends out.old.items out.new.items }
{
    let (before, behind) = label_signs(form);
    push_text(out, before)?;
    push_text(out, label.bytes())?;
    push_text(out, behind)
}

/// What stands before a label, and behind it.
fn label_signs(form: TreeForm) -> (&'static [u8], &'static [u8])
    ensures { (label : List ℕ) → label_text form label ≡ result.0.now ++ (label ++ result.1.now) }
{
    match form {
        TreeForm::Text => (b"<", b">="),
        TreeForm::Json => (b"{\"label\":\"", b"\",\"tree\":"),
    }
}

/// Adds what stands before the bits of a leaf, with its width where it is known.
fn push_leaf(out: &mut Vec<u8>, form: TreeForm, width: Option<u64>) -> Result<(), NoMemory>
    ensures { OnOk result (out.new.items ≡ out.old.items ++ leaf_opening form width) }
{
    match form {
        TreeForm::Text => {
            if let Some(width) = width {
                push_number(out, width)?;
                out.push(b'\'')?;
            }
        }
        TreeForm::Json => out.push(b'"')?,
    }
    Ok(())
}
