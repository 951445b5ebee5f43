ghost use Rattle.std.specs.Prelude.{◌≡◌, IfOk, IfErr, IfSome};
ghost use Rattle.csn_desc.specs.TreeV.{TreeV};
ghost use Rattle.csn_treetext.specs.declared.version.Version.TheVariants.{Second};
ghost use Rattle.csn_treetext.specs.Text.{text_of};
ghost use Rattle.csn_json.specs.JsonText.{json_text};
ghost use Rattle.csn_json.specs.Forms.{text_in};
ghost use Rattle.csn_encode.specs.declared.misfit.MisfitWhy.{MisfitWhy};
ghost use Rattle.csn_encode.specs.Encoding.{IsBlockOf, IsFaultOf};

use crate::along::Ground;
use crate::draft::Draft;
use crate::fault::{EncodeFault, Stop};
use crate::misfit::Misfit;
use csn_bits::{Bits, PackedBits};
use csn_certify::{Plan, Steps};
use csn_desc::Tree;
use csn_json::TreeForm;
use std::alloc::Global;
use std::sync::ledger::Ledger;

/// The bits that have a tree, as a whole block.
pub fn encode<L: Ledger>(
    alloc: Global,
    plan: &Plan,
    tree: &Tree,
    steps: &mut Steps<L>,
) -> Result<Bits, EncodeFault>
    ensures bits { IfOk result (λ bits. IsBlockOf plan.now tree.now bits) }
    ensures misfit { IfErr result (λ fault. IsFaultOf plan.now tree.now fault) }
{
    // its length tells that it is certified
    let _count = plan.len();
    let mut draft = Draft::new(alloc);
    match draft.write(plan, 0, 0, tree, steps) {
        Ok(()) => taken(alloc, &mut draft.bits).ok_or(EncodeFault::NoMemory),
        Err(stop) => Err(fault_of(draft, stop)),
    }
}

/// The bits that are written, where there is memory for them.
#[inline(always)]
fn taken(alloc: Global, written: &mut PackedBits) -> Option<Bits>
    ensures { IfSome result (λ bits. bits ≡ written.old) }
{
    written.take(alloc).ok()
}

/// The fault that stopped a draft.
fn fault_of(draft: Draft, stop: Stop) -> EncodeFault
    ensures misfit { (why : MisfitWhy) → stop ≡ Stop.Misfit why → result ≡ EncodeFault.Misfit (record { path = draft.path; why = why }) }
    ensures memory { stop ≡ Stop.NoMemory → result ≡ EncodeFault.NoMemory }
{
    match stop {
        Stop::Misfit(why) => EncodeFault::Misfit(Misfit {
            path: draft.path,
            why,
        }),
        Stop::NoMemory => EncodeFault::NoMemory,
    }
}

/// The bits that have the tree of a text in a form, as a whole block, without the tree itself. Where there are none, and
/// for want of memory, it tells nothing.
fn encode_along<L: Ledger>(
    alloc: Global,
    plan: &Plan,
    form: TreeForm,
    text: &[u8],
    steps: &mut Steps<L>,
) -> Option<Bits>
    ensures { IfSome result (λ bits. (t : TreeV) × (text.now ≡ text_in form t) × IsBlockOf plan.now t bits) }
{
    // its length tells that it is certified
    let _count = plan.len();
    let mut draft = Draft::new(alloc);
    let rest = draft.write_text(Ground { alloc, form, plan }, 0, 0, text, steps)?;
    if rest.len() != 0 {
        return None;
    }
    taken(alloc, &mut draft.bits)
}

/// The bits that have the tree of a text, as a whole block, without the tree itself. Where there are none, and
/// for want of memory, it tells nothing.
pub fn encode_text<L: Ledger>(
    alloc: Global,
    plan: &Plan,
    text: &[u8],
    steps: &mut Steps<L>,
) -> Option<Bits>
    ensures { IfSome result (λ bits. (t : TreeV) × (text.now ≡ text_of Second t) × IsBlockOf plan.now t bits) }
{
    encode_along(alloc, plan, TreeForm::Text, text, steps)
}

/// The same of JSON as `json` writes it, with no space, and the members of each object in the order of their keys. Of JSON
/// that is written otherwise it tells nothing.
pub fn encode_json<L: Ledger>(
    alloc: Global,
    plan: &Plan,
    text: &[u8],
    steps: &mut Steps<L>,
) -> Option<Bits>
    ensures { IfSome result (λ bits. (t : TreeV) × (text.now ≡ json_text t) × IsBlockOf plan.now t bits) }
{
    encode_along(alloc, plan, TreeForm::Json, text, steps)
}
