ghost use Rattle.std.specs.Prelude.{◌≡◌, ◌+◌, ◌*◌, ◌≤◌, length, take, OnOk, OnErr, IfErr};
ghost use Rattle.csn_bits.specs.Octets.{bits_of_octets};
ghost use Rattle.csn_movetext.specs.Openings.{HasOpenings};
ghost use Rattle.csn_movetext.specs.Blocks.{AddsText, IsFaultOf};

use crate::block::BlockText;
use crate::fault::{BlockFault, Unwritten};
use crate::openings::Openings;
use csn_certify::{Plan, Steps};
use csn_judge::Fed;
use std::mem;
use std::sync::ledger::Ledger;

/// Adds the tree that a block has by a plan, in the form of the openings. Where there is none, nothing is added.
pub fn write_block<L: Ledger>(
    plan: &Plan,
    openings: &Openings,
    octets: &[u8],
    bits: u32,
    out: &mut Vec<u8>,
    steps: &mut Steps<L>,
) -> Result<(), BlockFault>
    requires openings { HasOpenings plan.now openings.now }
    requires within { bits ≤ 8 * length octets.now }
    requires few { bits ≤ 524288 }
    ensures text { OnOk result (AddsText openings.now.form plan.now (take bits (bits_of_octets octets.now)) out.old.items out.new.items) }
    ensures why { IfErr result (IsFaultOf plan.now (take bits (bits_of_octets octets.now))) }
    ensures same { OnErr result (out.new.items ≡ out.old.items) }
    ensures steps { steps.new ≤ steps.old + 8 * length plan.now.nodes + 8 * length plan.now.nodes * bits }
{
    let none = Vec::new(*out.allocator());
    let mut text = BlockText::new(plan, openings, mem::replace(out, none));
    let fed = text.feed(octets, bits, steps);
    match text.finish(steps) {
        Ok(written) => {
            *out = written;
            Ok(())
        }
        Err(Unwritten { why, out: before }) => {
            *out = before;
            Err(why)
        }
    }
}
