//! A plan by which blocks are shown as trees, in either form.

ghost use Rattle.std.specs.Prelude.{◌≡◌, ◌<◌, ℕ, List, [], Some, slice_get, IfOk, IfErr, OnOk, OnErr};
ghost use Rattle.csn_desc.specs.declared.node.Node.TheVariants.{Named};
ghost use Rattle.csn_desc.specs.Label.{IsLabel};
ghost use Rattle.csn_movetext.specs.Blocks.{AddsText, IsFaultOf};
ghost use Rattle.csn_movetext.specs.Lines.{ReadsLine};
ghost use Rattle.csn_movetext.specs.Openings.{HasOpenings};
ghost use Rattle.csn_plan.specs.TextPlans.{AreInForms};

use csn_bits::{Bits, NoMemory};
use csn_certify::{Plan, Steps};
use csn_movetext::{BlockFault, LineText, Openings, TreeForm, write_block};
use std::alloc::Global;
use std::marker::{Brand, Model};
use std::sync::ledger::{Blank, Ledger};

/// The plan of a rule, with what each of its nodes writes of a tree in each form where it begins.
#[derive(Drop)]
struct PlanForms {
    plan: Plan,
    text: Openings,
    json: Openings,
}

/// The plan of a rule, by which blocks are shown in either form: one pointer, since it is handed on. A contract sees the
/// description.
#[derive(Drop)]
pub struct TextPlan {
    forms: Box<PlanForms>,
}

impl Model for TextPlan {
    ghost use Rattle.csn_desc.specs.Nodes.{DescV};
    ghost use Rattle.csn_plan.specs.TextPlans.{AreInForms};

    ghost Value = { DescV };

    ghost view = { λ p. p.forms.value.plan };

    ghost invariant = { λ p. AreInForms p.forms.value.plan p.forms.value.text p.forms.value.json };
}

/// What the nodes of a plan write in each form, as text and as JSON.
fn openings_of(alloc: Global, plan: &Plan) -> Result<(Openings, Openings), NoMemory>
    ensures { IfOk result (λ made. AreInForms plan.now made.0 made.1) }
{
    let text = Openings::new(alloc, plan, TreeForm::Text)?;
    Ok((text, Openings::new(alloc, plan, TreeForm::Json)?))
}

/// The plan with the openings of its nodes.
fn forms_of(alloc: Global, plan: Plan) -> Result<PlanForms, NoMemory>
    ensures plan { IfOk result (λ forms. forms.plan ≡ plan) }
    ensures openings { IfOk result (λ forms. AreInForms plan forms.text forms.json) }
{
    match openings_of(alloc, &plan) {
        Ok((text, json)) => Ok(PlanForms { plan, text, json }),
        Err(NoMemory) => {
            drop(plan);
            Err(NoMemory)
        }
    }
}

impl TextPlan {
    /// Makes the openings of the nodes of a plan in both forms.
    pub fn new(alloc: Global, plan: Plan) -> Result<TextPlan, NoMemory>
        ensures { IfOk result (λ made. made ≡ plan) }
    {
        let forms = forms_of(alloc, plan)?;
        Ok(TextPlan {
            forms: Box::new(alloc, forms)?,
        })
    }

    /// The plan alone, whose labels are labels.
    pub fn plan(&self) -> &Plan
        ensures plan { result.now ≡ self.now }
        ensures labels { (i part : ℕ) (label : List ℕ) → slice_get self.now.nodes i ≡ Some (Named label part) → IsLabel label }
    {
        &self.forms.plan
    }

    /// The plan alone, and no longer the openings.
    pub fn into_plan(self) -> Plan
        ensures { result ≡ self }
    {
        let PlanForms {
            plan,
            text: _,
            json: _,
        } = Box::into_inner(self.forms);
        plan
    }

    /// What the nodes write in a form.
    fn openings(&self, form: TreeForm) -> &Openings
        ensures openings { HasOpenings self.now result.now }
        ensures form { result.now.form ≡ form }
    {
        match form {
            TreeForm::Text => &self.forms.text,
            TreeForm::Json => &self.forms.json,
        }
    }

    /// Nothing of a line, of which the block is to be written as a tree in a form.
    pub fn line_text(&self, alloc: Global, form: TreeForm) -> LineText<'_>
        ensures reads { ReadsLine result [] }
        ensures form { result.form ≡ form }
        ensures desc { result.desc ≡ self.now }
    {
        LineText::new(alloc, self.plan(), self.openings(form))
    }

    /// Adds the tree that a block has, in a form. Where there is none, nothing is added.
    pub fn write(&self, form: TreeForm, bits: &Bits, out: &mut Vec<u8>) -> Result<(), BlockFault>
        ensures text { OnOk result (AddsText form self.now bits.now out.old.items out.new.items) }
        ensures why { IfErr result (IsFaultOf self.now bits.now) }
        ensures same { OnErr result (out.new.items ≡ out.old.items) }
    {
        self.write_counted::<Brand>(form, bits, out, Blank::new(1))
    }

    // The same with a counter of steps.
    fn write_counted<L: Ledger>(
        &self,
        form: TreeForm,
        bits: &Bits,
        out: &mut Vec<u8>,
        blank: Blank,
    ) -> Result<(), BlockFault>
        requires name { blank.name ≡ L.name }
        requires parts { blank.parts ≡ L.parts }
        requires some { 0 < blank.parts }
        ensures text { OnOk result (AddsText form self.now bits.now out.old.items out.new.items) }
        ensures why { IfErr result (IsFaultOf self.now bits.now) }
        ensures same { OnErr result (out.new.items ≡ out.old.items) }
    {
        let mut steps = Steps::<L>::new(blank);
        write_block(
            self.plan(),
            self.openings(form),
            bits.octets(),
            bits.len(),
            out,
            &mut steps,
        )
    }
}
