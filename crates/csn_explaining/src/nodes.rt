//! The nodes of a plan, by their numbers.

ghost use Rattle.std.specs.Prelude.{◌≡◌, ◌<◌, slice_get, option_copied};
ghost use Rattle.csn_explaining.specs.Wanted.{label_of};

use csn_certify::{Plan, Steps};
use csn_desc::Node;
use std::marker::Brand;
use std::sync::ledger::{Blank, Ledger};

/// The node with this number, with a counter of steps.
fn node_with<L: Ledger>(plan: &Plan, i: u16, blank: Blank) -> Option<&Node>
    requires name { blank.name ≡ L.name }
    requires parts { blank.parts ≡ L.parts }
    requires some { 0 < blank.parts }
    ensures { option_copied result ≡ slice_get plan.now.nodes i }
{
    if i >= plan.len() {
        return None;
    }
    let mut steps = Steps::<L>::new(blank);
    Some(plan.node(i, &mut steps))
}

/// The node with this number, where there is one.
pub fn node_at(plan: &Plan, i: u16) -> Option<&Node>
    ensures { option_copied result ≡ slice_get plan.now.nodes i }
{
    node_with::<Brand>(plan, i, Blank::new(1))
}

/// The label of the node with this number, where it is a labelled part.
pub fn label_at(plan: &Plan, i: u16) -> Option<&[u8]>
    ensures { option_copied result ≡ label_of (slice_get plan.now.nodes i) }
{
    match node_at(plan, i)? {
        Node::Named { label, .. } => Some(label.bytes()),
        _ => None,
    }
}
