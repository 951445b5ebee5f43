//! A compiled rule, and its calls.

ghost use Rattle.std.specs.Prelude.{◌≡◌, ◌<◌, ◌≤◌, ◌*◌, List, ℕ, length, IfOk, IfErr, IfSome, IfNone, IsOk, OnOk, OnErr};
ghost use Rattle.csn_certify.specs.Plans.{HasOneTree};
ghost use Rattle.csn_grammar.specs.RulesV.{RulesV};
ghost use Rattle.csn_judge.specs.Blocks.{IsJudged};
ghost use Rattle.csn_movetext.specs.Blocks.{AddsText, IsFaultOf, IsTextOfBlock};
ghost use Rattle.csn_movetext.specs.Openings.{HasOpenings};
ghost use Rattle.csn_plan.specs.Compiled.{IsCompiled};
ghost use Rattle.csn_rule.specs.Blocks.{IsMade, Measures, Shows, Writes, block_in};
ghost use Rattle.csn_rule.specs.FlatEvents.{ListsBlock, TellsBlock};
ghost use Rattle.csn_rule.specs.Buffers.{copied};
ghost use Rattle.csn_rule.specs.Labels.{HasLabel};
ghost use Rattle.csn_rule.specs.Refusals.{IsNoBlock, IsNoRule};
ghost use Rattle.csn_rule.specs.Shapes.{HasShape};

use crate::buffer::copy_into;
use crate::event::FlatEvent;
use crate::fault::{NoBlock, NoRule};
use crate::list::EventList;
use crate::shape::NodeShape;
use crate::writing::block_of;
use csn_bits::NoMemory;
use csn_certify::{Plan, Steps};
use csn_desc::{Node, Reading};
use csn_fields::{Alternatives, Ended, tell_octets, tell_string};
use csn_json::TreeForm;
use csn_judge::{Judged, Piece, judge_pieces};
use csn_movetext::{BlockFault, Openings, write_block};
use csn_plan::{MOST_DESCRIPTION, plan_text};
use std::alloc::Global;
use std::marker::{Brand, Model};
use std::mem;
use std::sync::ledger::{Blank, Ledger};

/// A rule of a text in one reading, compiled: its plan, what its nodes write in each form, and the numbers of its
/// alternatives. A contract sees the
/// description.
#[derive(Drop)]
pub struct Rule {
    plan: Plan,
    text: Openings,
    json: Openings,
    alternatives: Alternatives,
    /// The text of the block that was shown last. The next one is written into its memory.
    shown: Vec<u8>,
    /// The events of the block that was told last. Those of the next one are written into their memory.
    told: Vec<FlatEvent>,
}

/// What the events of a block come to.
#[derive(Drop)]
pub struct Told {
    /// How many there are.
    pub count: usize,
    pub ended: Ended,
}

impl Model for Rule {
    ghost use Rattle.csn_desc.specs.Nodes.{DescV};
    ghost use Rattle.csn_rule.specs.Blocks.{IsMade};

    ghost Value = { DescV };

    ghost view = { λ r. r.plan };

    ghost invariant = { λ r. IsMade r.plan r.text r.json r.alternatives };
}

impl Rule {
    /// Compiles the named rule of a text in a reading.
    pub fn compile(
        alloc: Global,
        text: &[u8],
        name: &[u8],
        reading: Reading,
    ) -> Result<Rule, NoRule>
        ensures rule { IfOk result (λ rule. (rules : RulesV) × IsCompiled text.now name.now reading rules rule) }
        ensures one_tree { IfOk result HasOneTree }
        ensures none { IfErr result (IsNoRule text.now name.now reading) }
    {
        if text.len() > MOST_DESCRIPTION as usize {
            return Err(NoRule::TooLong);
        }
        match plan_text(alloc, text, name, reading) {
            Ok(plan) => rule_of(alloc, plan),
            Err(reason) => Err(NoRule::of(reason)),
        }
    }

    /// The plan.
    pub(crate) fn plan(&self) -> &Plan
        ensures { result.now ≡ self.now }
    {
        &self.plan
    }

    /// How many nodes the description has.
    pub fn len(&self) -> u16
        ensures { result ≡ length self.now.nodes }
    {
        self.plan.len()
    }

    /// The label of a node, counted from 0; none where it has none, and where there is no such node.
    pub fn label(&self, node: u16) -> Option<&[u8]>
        ensures label { IfSome result (λ label. HasLabel self.now node label.now) }
        ensures none { IfNone result ((label : List ℕ) → HasLabel self.now node label → ⊥) }
    {
        if node < self.len() {
            self.label_counted::<Brand>(node, Blank::new(1))
        } else {
            None
        }
    }

    /// The same of a node that there is, with a counter of steps.
    fn label_counted<L: Ledger>(&self, node: u16, blank: Blank) -> Option<&[u8]>
        requires there { node < length self.now.nodes }
        requires name { blank.name ≡ L.name }
        requires parts { blank.parts ≡ L.parts }
        requires some { 0 < blank.parts }
        ensures label { IfSome result (λ label. HasLabel self.now node label.now) }
        ensures none { IfNone result ((label : List ℕ) → HasLabel self.now node label → ⊥) }
    {
        let mut steps = Steps::<L>::new(blank);
        match self.plan.node(node, &mut steps) {
            Node::Named { label, part: _ } => Some(label.bytes()),
            _ => None,
        }
    }

    /// What a node is, counted from 0; none where there is no such node.
    pub fn shape(&self, node: u16) -> Option<NodeShape>
        ensures shape { IfSome result (HasShape self.now node) }
        ensures none { IfNone result (length self.now.nodes ≤ node) }
    {
        if node < self.len() {
            Some(self.shape_counted::<Brand>(node, Blank::new(1)))
        } else {
            None
        }
    }

    /// The same of a node that there is, with a counter of steps.
    fn shape_counted<L: Ledger>(&self, node: u16, blank: Blank) -> NodeShape
        requires there { node < length self.now.nodes }
        requires name { blank.name ≡ L.name }
        requires parts { blank.parts ≡ L.parts }
        requires some { 0 < blank.parts }
        ensures { HasShape self.now node result }
    {
        let mut steps = Steps::<L>::new(blank);
        NodeShape::of(self.plan.node(node, &mut steps))
    }

    /// Judges a block, which is the first `bits` bits of the octets, the most significant bit of an octet first. It takes no
    /// memory.
    pub fn judge(&self, octets: &[u8], bits: u32) -> Judged
        requires within { bits ≤ 8 * length octets.now }
        requires few { bits ≤ 524288 }
        ensures { IsJudged self.now (block_in octets.now bits) result }
    {
        judge_pieces(&self.plan, &[Piece { octets, bits }])
    }

    /// Tells the events of a block in the order of its bits, in the caller's array as far as there is room, and how many there
    /// are. At a refusal they are those with which each block begins that goes on from its place. From the second block on it
    /// mostly takes no memory.
    pub fn tell(
        &mut self,
        octets: &[u8],
        bits: u32,
        out: &mut [FlatEvent],
    ) -> Result<Told, NoMemory>
        requires within { bits ≤ 8 * length octets.now }
        requires few { bits ≤ 524288 }
        ensures same { self.new ≡ self.old }
        ensures tells { IfOk result (λ told. TellsBlock self.old (block_in octets.now bits) told.ended told.count out.old out.new) }
        ensures kept { OnErr result (out.new ≡ out.old) }
    {
        let none = Vec::new(*self.told.allocator());
        let memory = mem::replace(&mut self.told, none);
        let (list, ended) = self.events_of(octets, bits, memory);
        let count = list.copy_into(out);
        self.told = list.into_memory();
        match count {
            Some(count) => Ok(Told { count, ended }),
            None => Err(NoMemory),
        }
    }

    /// The events of a block, in the memory of others. A block that is refused is gone through again, up to its place.
    fn events_of(&self, octets: &[u8], bits: u32, memory: Vec<FlatEvent>) -> (EventList, Ended)
        requires within { bits ≤ 8 * length octets.now }
        requires few { bits ≤ 524288 }
        ensures { ListsBlock self.now (block_in octets.now bits) result.1 result.0 }
    {
        let none = EventList::new(memory);
        let (list, judged) = tell_string(&self.plan, &self.alternatives, octets, bits, none);
        match judged {
            Judged::Ok => (list, Ended::Whole),
            Judged::Refused { .. } => {
                let none = EventList::new(list.into_memory());
                tell_octets(&self.plan, &self.alternatives, octets, bits, none)
            }
        }
    }

    /// Shows the tree of a block in a form, in the caller's buffer as far as there is room, and tells how many bytes it has.
    /// From the second block on it mostly takes no memory.
    pub fn show(
        &mut self,
        form: TreeForm,
        octets: &[u8],
        bits: u32,
        out: &mut [u8],
    ) -> Result<usize, BlockFault>
        requires within { bits ≤ 8 * length octets.now }
        requires few { bits ≤ 524288 }
        ensures same { self.new ≡ self.old }
        ensures shows { IfOk result (λ count. Shows form self.old (block_in octets.now bits) count out.old out.new) }
        ensures why { IfErr result (IsFaultOf self.old (block_in octets.now bits)) }
        ensures kept { OnErr result (out.new ≡ out.old) }
    {
        let none = Vec::new(*self.shown.allocator());
        let mut text = mem::replace(&mut self.shown, none);
        text.clear();
        let written = self.write_counted::<Brand>(form, octets, bits, &mut text, Blank::new(1));
        let count = copy_written(written, text.as_slice(), out);
        self.shown = text;
        count
    }

    /// Adds the tree of a block in a form, with a counter of steps.
    fn write_counted<L: Ledger>(
        &self,
        form: TreeForm,
        octets: &[u8],
        bits: u32,
        text: &mut Vec<u8>,
        blank: Blank,
    ) -> Result<(), BlockFault>
        requires within { bits ≤ 8 * length octets.now }
        requires few { bits ≤ 524288 }
        requires name { blank.name ≡ L.name }
        requires parts { blank.parts ≡ L.parts }
        requires some { 0 < blank.parts }
        ensures text { OnOk result (AddsText form self.now (block_in octets.now bits) text.old.items text.new.items) }
        ensures why { IfErr result (IsFaultOf self.now (block_in octets.now bits)) }
    {
        let mut steps = Steps::<L>::new(blank);
        write_block(
            &self.plan,
            self.openings(form),
            octets,
            bits,
            text,
            &mut steps,
        )
    }

    /// What the nodes write in a form.
    fn openings(&self, form: TreeForm) -> &Openings
        ensures openings { HasOpenings self.now result.now }
        ensures form { result.now.form ≡ form }
    {
        match form {
            TreeForm::Text => &self.text,
            TreeForm::Json => &self.json,
        }
    }

    /// Writes the block that has the tree of some bytes, which are its text or JSON. Its octets stand in the caller's buffer as
    /// far as there is room, and it is told how many bits it has.
    pub fn write(
        &self,
        alloc: Global,
        form: TreeForm,
        bytes: &[u8],
        out: &mut [u8],
    ) -> Result<u32, NoBlock>
        requires fits { length bytes.now ≤ 16777216 }
        ensures block { IfOk result (λ count. Writes form self.now bytes.now count out.old out.new) }
        ensures none { IfErr result (IsNoBlock form self.now bytes.now) }
        ensures kept { OnErr result (out.new ≡ out.old) }
    {
        let block = block_of(alloc, &self.plan, form, bytes)?;
        copy_into(block.octets(), out);
        Ok(block.len())
    }

    /// How many bits the block has that has the tree of some bytes, which are its text or JSON; or why there is none.
    pub fn measure(&self, alloc: Global, form: TreeForm, bytes: &[u8]) -> Result<u32, NoBlock>
        requires fits { length bytes.now ≤ 16777216 }
        ensures block { IfOk result (λ count. Measures form self.now bytes.now count) }
        ensures none { IfErr result (IsNoBlock form self.now bytes.now) }
    {
        Ok(block_of(alloc, &self.plan, form, bytes)?.len())
    }
}

/// A plan with what is made of it.
fn rule_of(alloc: Global, plan: Plan) -> Result<Rule, NoRule>
    ensures rule { IfOk result (λ rule. rule ≡ plan) }
    ensures one_tree { IfOk result HasOneTree }
    ensures none { IfErr result (λ why. why ≡ NoRule.NoMemory) }
{
    // its length tells that it is certified
    let _count = plan.len();
    match made_of(alloc, &plan) {
        Ok((text, json, alternatives)) => Ok(Rule {
            plan,
            text,
            json,
            alternatives,
            shown: Vec::new(alloc),
            told: Vec::new(alloc),
        }),
        Err(NoMemory) => {
            drop(plan);
            Err(NoRule::NoMemory)
        }
    }
}

/// What the nodes of a plan write in each form, as text and as JSON, and the numbers of its alternatives.
fn made_of(alloc: Global, plan: &Plan) -> Result<(Openings, Openings, Alternatives), NoMemory>
    ensures { IfOk result (λ made. IsMade plan.now made.0 made.1 made.2) }
{
    let text = Openings::new(alloc, plan, TreeForm::Text)?;
    let json = Openings::new(alloc, plan, TreeForm::Json)?;
    Ok((text, json, Alternatives::new(alloc, plan)?))
}

/// Copies a text that was written, and counts it.
fn copy_written(
    written: Result<(), BlockFault>,
    text: &[u8],
    out: &mut [u8],
) -> Result<usize, BlockFault>
    ensures count { IfOk result (λ count. count ≡ length text.now) }
    ensures there { OnOk result (out.new ≡ copied text.now out.old) }
    ensures ok { OnOk result (IsOk written) }
    ensures why { IfErr result (λ why. written ≡ Err why) }
    ensures kept { OnErr result (out.new ≡ out.old) }
{
    written?;
    copy_into(text, out);
    Ok(text.len())
}
