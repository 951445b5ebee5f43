//! A plan by which the fields of blocks are told.

ghost use Rattle.std.specs.Prelude.{◌≡◌, [], IfOk};
ghost use Rattle.csn_fields.specs.Reading.{EndsTold, IsReady};

use csn_bits::{Bits, NoMemory};
use csn_certify::Plan;
use csn_fields::{Alternatives, Ended, Events, StringReader, tell_block};
use std::alloc::Global;
use std::marker::Model;

/// A plan with the numbers of its alternatives. A contract sees the description.
#[derive(Drop)]
pub struct FieldPlan<'a> {
    plan: &'a Plan,
    alternatives: Alternatives,
}

impl<'a> Model for FieldPlan<'a> {
    ghost use Rattle.csn_desc.specs.Nodes.{DescV};
    ghost use Rattle.csn_fields.specs.Alternatives.{HasAlternatives};

    ghost Value = { DescV };

    ghost view = { λ p. p.plan.now };

    ghost invariant = { λ p. HasAlternatives p.plan.now p.alternatives };
}

impl<'a> FieldPlan<'a> {
    /// That of a plan.
    pub fn new(alloc: Global, plan: &'a Plan) -> Result<FieldPlan<'a>, NoMemory>
        ensures { IfOk result (λ made. made ≡ plan.now) }
    {
        let alternatives = Alternatives::new(alloc, plan)?;
        Ok(FieldPlan { plan, alternatives })
    }

    /// The plan alone.
    pub fn plan(&self) -> &Plan
        ensures { result.now ≡ self.now }
    {
        self.plan
    }

    /// A reader of blocks that are strings, which tells their events.
    pub fn reader<E: Events>(&self, events: E) -> StringReader<'_, E>
        ensures ready { IsReady result.judge result.track.fields.places result.track.alternatives.now }
        ensures desc { result.judge.desc ≡ self.now }
        ensures events { result.track.fields.events ≡ events }
    {
        StringReader::new(self.plan, &self.alternatives, events)
    }

    /// Tells the events of a block, and hands back what was told. For a string it takes about twice as long.
    pub fn tell<E: Events>(&self, block: &Bits, events: E) -> (E, Ended)
        ensures { EndsTold E.tells self.now block.now [] events result.0 result.1 }
    {
        tell_block(self.plan, &self.alternatives, block, events)
    }
}
