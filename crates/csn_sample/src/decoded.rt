//! Blocks that are there as a whole, decoded.

ghost use Rattle.std.specs.Prelude.{◌+◌, ◌*◌, ◌≤◌, length, IfOk, IfSome};
ghost use Rattle.csn_sample.specs.Samples.{HasTree};

use csn_bits::{Bits, NoMemory};
use csn_certify::{Plan, Steps};
use csn_decode::{DecodeFault, Decoder, Fed};
use csn_desc::Tree;
use std::alloc::Global;
use std::sync::ledger::Ledger;

/// The tree of a block, if it is a string of the description.
pub(crate) fn decoded<L: Ledger>(
    alloc: Global,
    plan: &Plan,
    block: &Bits,
    steps: &mut Steps<L>,
) -> Result<Option<Tree>, NoMemory>
    ensures tree { IfOk result (λ found. IfSome found (HasTree plan.now block.now)) }
    ensures steps { steps.new ≤ steps.old + 8 * length plan.now.nodes * (length block.now + 1) }
{
    let mut decoder = Decoder::new(alloc, plan);
    match decoder.feed(block.octets(), block.len(), steps) {
        Fed::Going => {}
        Fed::Refused { .. } => return Ok(None),
        Fed::NoMemory => return Err(NoMemory),
    }
    match decoder.finish(steps) {
        Ok(tree) => Ok(Some(tree)),
        Err(DecodeFault::Refused { .. }) => Ok(None),
        Err(DecodeFault::NoMemory) => Err(NoMemory),
    }
}
