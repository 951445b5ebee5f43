//! Blocks that are there as a whole.

ghost use Rattle.std.specs.Prelude.{◌≡◌, ◌<◌, ◌≤◌, ◌*◌, [], List, length, take};
ghost use Rattle.csn_bits.specs.Octets.{bits_of_octets};
ghost use Rattle.csn_fields.specs.declared.event.Event.{Event as EventV};
ghost use Rattle.csn_fields.specs.Alternatives.{HasAlternatives};
ghost use Rattle.csn_fields.specs.Lists.{AreLeaves};
ghost use Rattle.csn_fields.specs.Reading.{EndsTold, EndsWith};

use crate::alternatives::Alternatives;
use crate::event::Events;
use crate::leaf::Leaf;
use crate::list::LeafList;
use crate::reader::FieldReader;
use crate::refusal::Ended;
use csn_bits::Bits;
use csn_certify::{Plan, Steps};
use std::alloc::Global;
use std::marker::Brand;
use std::sync::ledger::{Blank, Ledger};

/// The leaves of a block.
#[derive(Drop)]
pub struct Fields {
    /// They stand in the order of their bits. At a refusal they are those that had ended before it.
    pub leaves: Vec<Leaf>,
    pub ended: Ended,
    /// Memory was wanting for the leaves behind these.
    pub short: bool,
}

/// Tells the events of a block, and hands back what was told. It takes no memory.
pub fn tell_block<E: Events>(
    plan: &Plan,
    alternatives: &Alternatives,
    block: &Bits,
    events: E,
) -> (E, Ended)
    requires { HasAlternatives plan.now alternatives.now }
    ensures { EndsTold E.tells plan.now block.now [] events result.0 result.1 }
{
    tell_octets(plan, alternatives, block.octets(), block.len(), events)
}

/// The same of a block that is the first `bits` bits of some octets.
pub fn tell_octets<E: Events>(
    plan: &Plan,
    alternatives: &Alternatives,
    octets: &[u8],
    bits: u32,
    events: E,
) -> (E, Ended)
    requires numbers { HasAlternatives plan.now alternatives.now }
    requires within { bits ≤ 8 * length octets.now }
    requires few { bits ≤ 524288 }
    ensures { EndsTold E.tells plan.now (take bits (bits_of_octets octets.now)) [] events result.0 result.1 }
{
    tell_with::<E, Brand>(plan, alternatives, octets, bits, events, Blank::new(1))
}

/// The leaves of a block, in a list.
pub fn fields_of(alloc: Global, plan: &Plan, alternatives: &Alternatives, block: &Bits) -> Fields
    requires { HasAlternatives plan.now alternatives.now }
    ensures { (events : List EventV) × EndsWith plan.now block.now events result.ended × AreLeaves events result.leaves.items result.short }
{
    let (list, ended) = tell_block(plan, alternatives, block, LeafList::new(alloc));
    let short = list.is_short();
    Fields {
        leaves: list.into_leaves(),
        ended,
        short,
    }
}

/// Tells the events of a block, with a counter of steps.
fn tell_with<E: Events, L: Ledger>(
    plan: &Plan,
    alternatives: &Alternatives,
    octets: &[u8],
    bits: u32,
    events: E,
    blank: Blank,
) -> (E, Ended)
    requires name { blank.name ≡ L.name }
    requires parts { blank.parts ≡ L.parts }
    requires some { 0 < blank.parts }
    requires numbers { HasAlternatives plan.now alternatives.now }
    requires within { bits ≤ 8 * length octets.now }
    requires few { bits ≤ 524288 }
    ensures { EndsTold E.tells plan.now (take bits (bits_of_octets octets.now)) [] events result.0 result.1 }
{
    let mut steps = Steps::<L>::new(blank);
    let mut reader = FieldReader::new(plan, alternatives, events);
    let _verdict = reader.feed(octets, bits, &mut steps);
    reader.finish(&mut steps)
}
