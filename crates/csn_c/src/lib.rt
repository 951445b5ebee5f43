//! The library for C, and through it for Python and Rust. `bindings/c/csn.h` says what each function does, in what units, and
//! what the caller owes.
#![tactic(auto)]

ghost use Rattle.std.specs.Prelude.{◌≡◌, ◌≢◌, ◌<◌, ◌≤◌, None, List, ℕ, IfOk, IfErr, IfSome, IfNone, MatchOption, length};
ghost use Rattle.csn_rule.specs.Blocks.{block_in};
ghost use Rattle.csn_rule.specs.Labels.{HasLabel};
ghost use Rattle.csn_rule.specs.Refusals.{IsNoRule};
ghost use Rattle.csn_rule.specs.Shapes.{HasShape};
ghost use Rattle.csn_c.specs.Answers.{Holds, IsRule, JudgesTo, LabelsTo, MissesTo, ShapesTo, ShowsTo};
ghost use Rattle.csn_c.specs.Answers.{TellsPath, TellsTo, TellsWhy, WritesTo};
ghost use Rattle.csn_c.specs.Numbers.{IsBlock, form_in, reading_in};
ghost use Rattle.csn_c.specs.declared.status.TheConstants.{BAD_ARGUMENT, NO_BLOCK, NO_LABEL, NO_NODE, NO_RULE, OK, REFUSED, TOO_LONG};

mod numbers;
mod status;
mod stream;

use crate::numbers::{form_of, is_block, reading_of};
use crate::status::{
    BAD_ARGUMENT, NO_LABEL, NO_NODE, NO_RULE, OK, TOO_LONG, Why, status_of_judged,
    status_of_no_rule, status_of_shown, status_of_told, status_of_written,
};
use csn_rule::{
    FlatEvent, Handle, MOST_LINE, NoBlock, NoRule, NodeShape, Reading, Rule, copy_into, copy_path,
};
use std::alloc::Global;
use std::boxed::Box;

/// The version of the calls: it rises where a program that was made for an earlier one might not work.
const VERSION: u32 = 1;

/// The version of the library.
#[unsafe(no_mangle)]
pub extern "C" fn csn_version() -> u32
    ensures { result ≡ 1 }
{
    VERSION
}

/// The named rule of a text in a box.
fn compile(alloc: Global, text: &[u8], name: &[u8], reading: Reading) -> Result<Box<Rule>, NoRule>
    ensures rule { IfOk result (λ boxed. IsRule text.now name.now reading boxed.value) }
    ensures none { IfErr result (IsNoRule text.now name.now reading) }
{
    let rule = Rule::compile(alloc, text, name, reading)?;
    match Box::new(alloc, rule) {
        Ok(boxed) => Ok(boxed),
        Err(_) => Err(NoRule::NoMemory),
    }
}

/// Compiles the named rule of a text into a handle, and frees what the handle held. Behind a refusal it holds what it held.
#[unsafe(no_mangle)]
pub extern "C" fn csn_compile(
    alloc: Global,
    text: &[u8],
    name: &[u8],
    reading: u32,
    rule: &mut Handle,
    why: &mut Why,
) -> u32
    ensures ok { result ≡ OK → MatchOption (reading_in reading) ⊥ (λ r. Holds text.now name.now r rule.new.held) }
    ensures refused { result ≢ OK → MatchOption (reading_in reading) (result ≡ BAD_ARGUMENT)
        (λ r. TellsWhy text.now name.now r result why.old why.new) }
    ensures kept { result ≢ OK → rule.new.held ≡ rule.old.held }
{
    let Some(reading) = reading_of(reading) else {
        return BAD_ARGUMENT;
    };
    match compile(alloc, text, name, reading) {
        Ok(boxed) => {
            rule.put(alloc, boxed);
            OK
        }
        Err(no_rule) => status_of_no_rule(no_rule, why),
    }
}

/// Frees what a handle holds, and leaves it empty.
#[unsafe(no_mangle)]
pub extern "C" fn csn_free(alloc: Global, rule: &mut Handle)
    ensures { rule.new.held ≡ None }
{
    match rule.take(alloc) {
        None => {}
        Some(held) => drop(held),
    }
}

/// Judges a block, which is the first `bits` bits of the octets.
#[unsafe(no_mangle)]
pub extern "C" fn csn_judge(
    alloc: Global,
    rule: &mut Handle,
    octets: &[u8],
    bits: u32,
    number: &mut usize,
) -> u32
    ensures held { rule.new.held ≡ rule.old.held }
    ensures bad { ¬ IsBlock octets.now bits → result ≡ BAD_ARGUMENT }
    ensures judges { IsBlock octets.now bits → MatchOption rule.old.held (result ≡ NO_RULE)
        (λ d. JudgesTo d (block_in octets.now bits) result number.old number.new) }
{
    if !is_block(octets, bits) {
        return BAD_ARGUMENT;
    }
    let Some(held) = rule.take(alloc) else {
        return NO_RULE;
    };
    let judged = held.judge(octets, bits);
    rule.put(alloc, held);
    status_of_judged(judged, number)
}

/// Tells the events of a block.
#[unsafe(no_mangle)]
pub extern "C" fn csn_tell(
    alloc: Global,
    rule: &mut Handle,
    octets: &[u8],
    bits: u32,
    out: &mut [FlatEvent],
    count: &mut usize,
    number: &mut usize,
) -> u32
    ensures held { rule.new.held ≡ rule.old.held }
    ensures kept { result ≢ OK → result ≢ REFUSED → out.new ≡ out.old }
    ensures bad { ¬ IsBlock octets.now bits → result ≡ BAD_ARGUMENT }
    ensures tells { IsBlock octets.now bits → MatchOption rule.old.held (result ≡ NO_RULE)
        (λ d. TellsTo d (block_in octets.now bits) out.old out.new result count.old count.new number.old number.new) }
{
    if !is_block(octets, bits) {
        return BAD_ARGUMENT;
    }
    let Some(mut held) = rule.take(alloc) else {
        return NO_RULE;
    };
    let told = held.tell(octets, bits, out);
    rule.put(alloc, held);
    status_of_told(told, count, number)
}

/// Shows the tree of a block as text, form 0, or as JSON, form 1.
#[unsafe(no_mangle)]
pub extern "C" fn csn_show(
    alloc: Global,
    rule: &mut Handle,
    octets: &[u8],
    bits: u32,
    form: u32,
    out: &mut [u8],
    number: &mut usize,
) -> u32
    ensures held { rule.new.held ≡ rule.old.held }
    ensures kept { result ≢ OK → out.new ≡ out.old }
    ensures bad { ¬ IsBlock octets.now bits → result ≡ BAD_ARGUMENT }
    ensures shows { IsBlock octets.now bits → MatchOption (form_in form) (result ≡ BAD_ARGUMENT)
        (λ f. MatchOption rule.old.held (result ≡ NO_RULE)
        (λ d. ShowsTo f d (block_in octets.now bits) out.old out.new result number.old number.new)) }
{
    let Some(form) = form_of(form) else {
        return BAD_ARGUMENT;
    };
    if !is_block(octets, bits) {
        return BAD_ARGUMENT;
    }
    let Some(mut held) = rule.take(alloc) else {
        return NO_RULE;
    };
    let shown = held.show(form, octets, bits, out);
    rule.put(alloc, held);
    status_of_shown(shown, number)
}

/// Writes the block of a tree, which the bytes are as text, form 0, or show as JSON, form 1.
#[unsafe(no_mangle)]
pub extern "C" fn csn_write(
    alloc: Global,
    rule: &mut Handle,
    bytes: &[u8],
    form: u32,
    out: &mut [u8],
    number: &mut usize,
) -> u32
    ensures held { rule.new.held ≡ rule.old.held }
    ensures kept { result ≢ OK → out.new ≡ out.old }
    ensures long { 16777216 < length bytes.now → MatchOption (form_in form) (result ≡ BAD_ARGUMENT) (λ f. result ≡ TOO_LONG) }
    ensures writes { length bytes.now ≤ 16777216 → MatchOption (form_in form) (result ≡ BAD_ARGUMENT)
        (λ f. MatchOption rule.old.held (result ≡ NO_RULE)
        (λ d. WritesTo f d bytes.now out.old out.new result number.old number.new)) }
{
    let Some(form) = form_of(form) else {
        return BAD_ARGUMENT;
    };
    if bytes.len() > MOST_LINE as usize {
        return TOO_LONG;
    }
    let Some(held) = rule.take(alloc) else {
        return NO_RULE;
    };
    let written = held.write(alloc, form, bytes, out);
    rule.put(alloc, held);
    status_of_written(written, number)
}

/// Tells where a tree first misses the rule, of which [`csn_write`] finds no block.
#[unsafe(no_mangle)]
pub extern "C" fn csn_misfit(
    alloc: Global,
    rule: &mut Handle,
    bytes: &[u8],
    form: u32,
    out: &mut [u32],
    count: &mut usize,
    number: &mut usize,
) -> u32
    ensures held { rule.new.held ≡ rule.old.held }
    ensures kept { result ≢ NO_BLOCK → out.new ≡ out.old }
    ensures long { 16777216 < length bytes.now → MatchOption (form_in form) (result ≡ BAD_ARGUMENT) (λ f. result ≡ TOO_LONG) }
    ensures misses { length bytes.now ≤ 16777216 → MatchOption (form_in form) (result ≡ BAD_ARGUMENT)
        (λ f. MatchOption rule.old.held (result ≡ NO_RULE)
        (λ d. MissesTo f d bytes.now out.old out.new result count.old count.new number.old number.new)) }
{
    let Some(form) = form_of(form) else {
        return BAD_ARGUMENT;
    };
    if bytes.len() > MOST_LINE as usize {
        return TOO_LONG;
    }
    let Some(held) = rule.take(alloc) else {
        return NO_RULE;
    };
    let measured = held.measure(alloc, form, bytes);
    rule.put(alloc, held);
    tell_path(&measured, out, count);
    status_of_written(measured, number)
}

/// Copies the path of a misfit, and counts its steps; where there is none, nothing.
fn tell_path(measured: &Result<u32, NoBlock>, out: &mut [u32], count: &mut usize)
    ensures { TellsPath measured.now out.old out.new count.old count.new }
{
    if let Err(NoBlock::Misfit(misfit)) = measured {
        copy_path(&misfit.path, out);
        *count = misfit.path.len() as usize;
    }
}

/// How many nodes the rule has; none where the handle is empty.
#[unsafe(no_mangle)]
pub extern "C" fn csn_nodes(alloc: Global, rule: &mut Handle) -> u32
    ensures held { rule.new.held ≡ rule.old.held }
    ensures count { MatchOption rule.old.held (result ≡ 0) (λ d. result ≡ length d.nodes) }
{
    let Some(held) = rule.take(alloc) else {
        return 0;
    };
    let count = u32::from(held.len());
    rule.put(alloc, held);
    count
}

/// What a node is, counted from 0.
#[unsafe(no_mangle)]
pub extern "C" fn csn_node(
    alloc: Global,
    rule: &mut Handle,
    node: u32,
    shape: &mut NodeShape,
) -> u32
    ensures held { rule.new.held ≡ rule.old.held }
    ensures kept { result ≢ OK → shape.new ≡ shape.old }
    ensures shapes { MatchOption rule.old.held (result ≡ NO_RULE) (λ d. ShapesTo d node result shape.new) }
{
    let Some(held) = rule.take(alloc) else {
        return NO_RULE;
    };
    let status = tell_shape(&held, node, shape);
    rule.put(alloc, held);
    status
}

/// Tells what a node is.
fn tell_shape(rule: &Rule, node: u32, shape: &mut NodeShape) -> u32
    ensures kept { result ≢ OK → shape.new ≡ shape.old }
    ensures shapes { ShapesTo rule.now node result shape.new }
{
    let Some(found) = shape_of(rule, node) else {
        return NO_NODE;
    };
    *shape = found;
    OK
}

/// What a node is; none where there is no such node.
fn shape_of(rule: &Rule, node: u32) -> Option<NodeShape>
    ensures shape { IfSome result (HasShape rule.now node) }
    ensures none { IfNone result (length rule.now.nodes ≤ node) }
{
    if node < u32::from(rule.len()) {
        rule.shape(node as u16)
    } else {
        None
    }
}

/// The label of a node, counted from 0.
#[unsafe(no_mangle)]
pub extern "C" fn csn_label(
    alloc: Global,
    rule: &mut Handle,
    node: u32,
    out: &mut [u8],
    number: &mut usize,
) -> u32
    ensures held { rule.new.held ≡ rule.old.held }
    ensures kept { result ≢ OK → out.new ≡ out.old }
    ensures labels { MatchOption rule.old.held (result ≡ NO_RULE) (λ d. LabelsTo d node out.old out.new result number.new) }
{
    let Some(held) = rule.take(alloc) else {
        return NO_RULE;
    };
    let status = copy_label(&held, node, out, number);
    rule.put(alloc, held);
    status
}

/// Copies the label of a node, and counts it.
fn copy_label(rule: &Rule, node: u32, out: &mut [u8], number: &mut usize) -> u32
    ensures kept { result ≢ OK → out.new ≡ out.old }
    ensures labels { LabelsTo rule.now node out.old out.new result number.new }
{
    let Some(label) = label_of(rule, node) else {
        return NO_LABEL;
    };
    copy_into(label, out);
    *number = label.len();
    OK
}

/// The label of a node; none where it has none, and where there is no such node.
fn label_of(rule: &Rule, node: u32) -> Option<&[u8]>
    ensures label { IfSome result (λ label. HasLabel rule.now node label.now) }
    ensures none { IfNone result ((label : List ℕ) → HasLabel rule.now node label → ⊥) }
{
    if node < u32::from(rule.len()) {
        rule.label(node as u16)
    } else {
        None
    }
}
