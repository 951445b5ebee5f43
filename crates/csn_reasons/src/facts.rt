//! What is told of the nodes of a rule, for who tells more of them.

ghost use Rattle.std.specs.Prelude.{◌≡◌, ◌<◌, ◌≤◌, ℕ, List, IfOk, length};
ghost use Rattle.csn_desc.specs.declared.reading.Reading.{Reading};
ghost use Rattle.csn_plan.specs.Compiled.{IsReason};
ghost use Rattle.csn_plan.specs.declared.compiling.TheConstants.{MOST_DESCRIPTION};
ghost use Rattle.csn_reasons.specs.Facts.{AreFacts, HasFacts, IsFacts};
ghost use Rattle.csn_reasons.specs.Paths.{AreParents};

use crate::asked::Asked;
use crate::described::{Described, describe};
use crate::kind::NodeKind;
use crate::nodes::{parents_of, way_up};
use crate::path::push_path;
use crate::spot::{Spot, spot_of};
use csn_bits::NoMemory;
use csn_grammar::GrammarFault;
use csn_plan::NoPlan;
use csn_resolve::ResolveFault;
use std::alloc::Global;

/// What is told of a node: where the part is that gives it, its kind, and the path of labels
/// to it.
#[derive(Drop)]
pub struct NodeFacts {
    pub spot: Spot,
    pub kind: NodeKind,
    pub path: Vec<u8>,
}

/// What is told of each node of a rule, in their order, whether it is certified or not. Where the rule has no nodes,
/// nothing.
pub fn facts_of(alloc: Global, asked: Asked<'_>) -> Result<Vec<NodeFacts>, NoMemory>
    requires fits { length asked.text.now ≤ MOST_DESCRIPTION }
    ensures facts { IfOk result (λ facts. HasFacts asked.entry.text.now asked.entry.name.now asked.entry.reading facts.items) }
{
    match describe(alloc, asked) {
        Ok(found) => all_facts(alloc, asked, &found),
        Err(reason) => no_facts(alloc, &reason),
    }
}

/// Nothing, where a rule has no nodes for this reason.
fn no_facts(alloc: Global, reason: &NoPlan) -> Result<Vec<NodeFacts>, NoMemory>
    ensures { (text name : List ℕ) (reading : Reading) → IsReason text name reading reason.now
        → IfOk result (λ facts. HasFacts text name reading facts.items) }
{
    match reason {
        NoPlan::Rules(GrammarFault::Syntax { .. }) => Ok(Vec::new(alloc)),
        NoPlan::Description(fault) => no_nodes(alloc, fault),
        // want of memory; a conflict is no reason to have no nodes
        _ => Err(NoMemory),
    }
}

/// Nothing, where rules are refused.
fn no_nodes(alloc: Global, fault: &ResolveFault) -> Result<Vec<NodeFacts>, NoMemory>
    ensures { (text name : List ℕ) (reading : Reading) → IsReason text name reading (NoPlan.Description fault.now)
        → IfOk result (λ facts. HasFacts text name reading facts.items) }
{
    match fault {
        ResolveFault::Refused { .. } => Ok(Vec::new(alloc)),
        ResolveFault::NoMemory => Err(NoMemory),
    }
}

/// What is told of the nodes of a description.
fn all_facts(alloc: Global, asked: Asked<'_>, found: &Described) -> Result<Vec<NodeFacts>, NoMemory>
    requires fits { length asked.text.now ≤ MOST_DESCRIPTION }
    requires all { length found.now.origins.items ≡ length found.now.desc.nodes }
    ensures { IfOk result (λ facts. (length facts.items ≡ length found.now.desc.nodes)
        × AreFacts asked.entry.text.now found.now.desc.nodes found.now.origins.items facts.items) }
{
    let parents = parents_of(alloc, &found.desc)?;
    let mut facts = Vec::new(alloc);
    for number in 0..found.desc.len() {
        facts.push(fact_of(alloc, asked, found, &parents, number)?)?;
    }
    Ok(facts)
}

/// What is told of one node.
pub(crate) fn fact_of(
    alloc: Global,
    asked: Asked<'_>,
    found: &Described,
    parents: &[u16],
    number: u16,
) -> Result<NodeFacts, NoMemory>
    requires fits { length asked.text.now ≤ MOST_DESCRIPTION }
    requires all { length found.now.origins.items ≡ length found.now.desc.nodes }
    requires parents { AreParents found.now.desc.nodes parents.now }
    requires there { number < length found.now.desc.nodes }
    ensures { IfOk result (IsFacts asked.entry.text.now found.now.desc.nodes found.now.origins.items number) }
{
    let up = way_up(alloc, parents, number)?;
    let mut path = Vec::new(alloc);
    push_path(&found.desc, &up, &mut path)?;
    Ok(NodeFacts {
        spot: spot_of(asked.text, found.origins[number as usize].place),
        kind: NodeKind::of(found.desc.node(number)),
        path,
    })
}
