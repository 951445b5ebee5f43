//! From the text of a tree, or its JSON, to its block.

ghost use Rattle.std.specs.Prelude.{◌≡◌, ◌<◌, ◌≤◌, length, IfOk, IfErr, IfSome};
ghost use Rattle.csn_desc.specs.TreeV.{TreeV};
ghost use Rattle.csn_desc.specs.Nodes.{DescV};
ghost use Rattle.csn_encode.specs.Encoding.{IsBlockOf};
ghost use Rattle.csn_encode.specs.Encoding.{IsFaultOf as IsTreeFault};
ghost use Rattle.csn_encode.specs.declared.fault.EncodeFault.{EncodeFault};
ghost use Rattle.csn_json.specs.declared.form.TreeForm.TheVariants.{Text, Json};
ghost use Rattle.csn_treetext.specs.declared.version.Version.TheVariants.{Second};
ghost use Rattle.csn_treetext.specs.Text.{text_of};
ghost use Rattle.csn_rule.specs.Labels.{LabelsAreLabels};
ghost use Rattle.csn_rule.specs.Refusals.{IsNoBlock, IsRead};

use crate::fault::NoBlock;
use csn_bits::Bits;
use csn_certify::{Plan, Steps};
use csn_desc::Tree;
use csn_encode::{EncodeFault, encode, encode_text};
use csn_json::{JsonFault, TreeForm, read_json};
use csn_treetext::{TextFault, read_tree};
use std::alloc::Global;
use std::marker::Brand;
use std::sync::ledger::{Blank, Ledger};

/// The block that has the tree of some bytes in a form, or why there is none. What the quick way along a text leaves open,
/// the tree tells.
pub(crate) fn block_of(
    alloc: Global,
    plan: &Plan,
    form: TreeForm,
    bytes: &[u8],
) -> Result<Bits, NoBlock>
    requires fits { length bytes.now ≤ 16777216 }
    requires labels { LabelsAreLabels plan.now }
    ensures block { IfOk result (λ bits. (t : TreeV) × IsRead form t bytes.now × IsBlockOf plan.now t bits) }
    ensures none { IfErr result (IsNoBlock form plan.now bytes.now) }
{
    match block_quickly(alloc, plan, form, bytes) {
        Some(bits) => Ok(bits),
        None => block_by_tree(alloc, plan, form, bytes),
    }
}

/// The block that has the tree of some bytes, where the form is written without its tree.
fn block_quickly(alloc: Global, plan: &Plan, form: TreeForm, bytes: &[u8]) -> Option<Bits>
    requires labels { LabelsAreLabels plan.now }
    ensures { IfSome result (λ bits. (t : TreeV) × IsRead form t bytes.now × IsBlockOf plan.now t bits) }
{
    csn_movetext::laws::trees_have_texts();
    // its length tells that it is well formed
    let _count = plan.len();
    match form {
        TreeForm::Text => block_along::<Brand>(alloc, plan, bytes, Blank::new(1)),
        TreeForm::Json => None,
    }
}

/// The block that has the tree of a text, written along the text; with a counter of steps.
fn block_along<L: Ledger>(alloc: Global, plan: &Plan, text: &[u8], blank: Blank) -> Option<Bits>
    requires name { blank.name ≡ L.name }
    requires parts { blank.parts ≡ L.parts }
    requires some { 0 < blank.parts }
    ensures { IfSome result (λ bits. (t : TreeV) × (text.now ≡ text_of Second t) × IsBlockOf plan.now t bits) }
{
    let mut steps = Steps::<L>::new(blank);
    encode_text(alloc, plan, text, &mut steps)
}

/// The block that has the tree of some bytes, which is made of them, or why there is none.
fn block_by_tree(alloc: Global, plan: &Plan, form: TreeForm, bytes: &[u8]) -> Result<Bits, NoBlock>
    requires fits { length bytes.now ≤ 16777216 }
    ensures block { IfOk result (λ bits. (t : TreeV) × IsRead form t bytes.now × IsBlockOf plan.now t bits) }
    ensures none { IfErr result (IsNoBlock form plan.now bytes.now) }
{
    let tree = tree_in(alloc, form, bytes)?;
    match block_of_tree::<Brand>(alloc, plan, &tree, Blank::new(1)) {
        Ok(bits) => Ok(bits),
        Err(EncodeFault::Misfit(misfit)) => Err(NoBlock::Misfit(misfit)),
        Err(EncodeFault::NoMemory) => Err(NoBlock::NoMemory),
    }
}

/// The tree that bytes are in a form, or why they are none.
fn tree_in(alloc: Global, form: TreeForm, bytes: &[u8]) -> Result<Tree, NoBlock>
    requires fits { length bytes.now ≤ 16777216 }
    ensures tree { IfOk result (λ tree. IsRead form tree bytes.now) }
    ensures none { IfErr result (λ why. (d : DescV) → IsNoBlock form d bytes.now why) }
{
    match form {
        TreeForm::Text => tree_of_text(alloc, bytes),
        TreeForm::Json => tree_of_json(alloc, bytes),
    }
}

/// The tree of a text.
fn tree_of_text(alloc: Global, text: &[u8]) -> Result<Tree, NoBlock>
    requires fits { length text.now ≤ 16777216 }
    ensures tree { IfOk result (λ tree. IsRead Text tree text.now) }
    ensures none { IfErr result (λ why. (d : DescV) → IsNoBlock Text d text.now why) }
{
    match read_tree(alloc, text) {
        Ok(tree) => Ok(tree),
        Err(TextFault::Place { place }) => Err(NoBlock::NotText { place }),
        Err(TextFault::NoMemory) => Err(NoBlock::NoMemory),
    }
}

/// The tree that JSON shows.
fn tree_of_json(alloc: Global, json: &[u8]) -> Result<Tree, NoBlock>
    requires fits { length json.now ≤ 16777216 }
    ensures tree { IfOk result (λ tree. IsRead Json tree json.now) }
    ensures none { IfErr result (λ why. (d : DescV) → IsNoBlock Json d json.now why) }
{
    match read_json(alloc, json) {
        Ok(tree) => Ok(tree),
        Err(JsonFault::NotJson) => Err(NoBlock::NotJson),
        Err(JsonFault::NotTree) => Err(NoBlock::NotTree),
        Err(JsonFault::NoMemory) => Err(NoBlock::NoMemory),
    }
}

/// The block that has a tree, with a counter of steps.
fn block_of_tree<L: Ledger>(
    alloc: Global,
    plan: &Plan,
    tree: &Tree,
    blank: Blank,
) -> Result<Bits, EncodeFault>
    requires name { blank.name ≡ L.name }
    requires parts { blank.parts ≡ L.parts }
    requires some { 0 < blank.parts }
    ensures block { IfOk result (IsBlockOf plan.now tree.now) }
    ensures misfit { IfErr result (IsTreeFault plan.now tree.now) }
{
    let mut steps = Steps::<L>::new(blank);
    encode(alloc, plan, tree, &mut steps)
}
