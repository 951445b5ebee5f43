//! Blocks that are nearly strings, a line each.

ghost use Rattle.std.specs.Prelude.{◌≡◌, ◌∷◌, ◌++◌, ◌<◌, ◌==◌, All, IfOk, IfSome, OnOk, codes, if◌then◌else◌, length};
ghost use Rattle.csn_bits.specs.Line.{written};
ghost use Rattle.csn_desc.specs.Nodes.{DescV};
ghost use Rattle.csn_sample.specs.declared.sampler.Sampled.{Sampled};
ghost use Rattle.csn_sample.specs.Nearly.{IsNear};
ghost use Rattle.csn_sample.specs.Samples.{HasTree};
ghost use Rattle.csn_vectors.specs.Lines.{IsLine, NearLines, refusal};

use crate::column::{push_about, push_block};
use crate::covers::{SEED, covered_with};
use csn_bits::{Bits, NoMemory};
use csn_certify::{Plan, Steps};
use csn_plan::push_number;
use csn_reasons::NodeFacts;
use csn_sample::{
    Change, Example, Length, Near, Sampled, Sampler, Tries, Values, Wish, ample, nearly,
};
use std::alloc::Global;
use std::marker::Brand;
use std::sync::ledger::{Blank, Ledger};

/// Writes blocks that are refused, one for each small change at each node, a line each with its answer and with where the
/// change was made. They are made of a string, and of those that cover the plan. The facts are those of its nodes, in their
/// order.
pub fn push_nearly(
    alloc: Global,
    plan: &Plan,
    facts: &[NodeFacts],
    out: &mut Vec<u8>,
) -> Result<(), NoMemory>
    ensures { OnOk result (NearLines plan.now out.old.items out.new.items) }
{
    let mut tries = Tries::new(alloc, plan.len())?;
    push_some_changes(alloc, plan, facts, &mut tries, out)?;
    let covered = covered_with::<Brand>(alloc, plan, Blank::new(1))?;
    push_all_changes(alloc, plan, &covered.blocks, facts, &mut tries, out)?;
    Ok(())
}

/// Writes the lines of blocks that small changes make of a string, if one is found.
fn push_some_changes(
    alloc: Global,
    plan: &Plan,
    facts: &[NodeFacts],
    tries: &mut Tries,
    out: &mut Vec<u8>,
) -> Result<(), NoMemory>
    ensures { OnOk result (NearLines plan.now out.old.items out.new.items) }
{
    let found = string_with::<Brand>(alloc, plan, Blank::new(1))?;
    match &found {
        Some(string) => push_changes(alloc, plan, string, facts, tries, out),
        None => Ok(()),
    }
}

/// A string of a plan, with a counter of steps.
fn string_with<L: Ledger>(
    alloc: Global,
    plan: &Plan,
    blank: Blank,
) -> Result<Option<Sampled>, NoMemory>
    requires name { blank.name ≡ L.name }
    requires parts { blank.parts ≡ L.parts }
    requires some { 0 < blank.parts }
    ensures { IfOk result (λ found. IfSome found (λ string. HasTree plan.now string.block string.tree)) }
{
    let mut steps = Steps::<L>::new(blank);
    let most = ample(alloc, plan, &mut steps)?;
    let mut sampler = Sampler::new(alloc, plan, &mut steps)?;
    let wish = Wish {
        length: Length::AtMost(most),
        values: Values::Uniform,
    };
    sampler.sample(wish, SEED, &mut steps)
}

/// Writes the lines of blocks that small changes make of those that cover a plan.
fn push_all_changes(
    alloc: Global,
    plan: &Plan,
    examples: &[Example],
    facts: &[NodeFacts],
    tries: &mut Tries,
    out: &mut Vec<u8>,
) -> Result<(), NoMemory>
    requires { All (λ told. HasTree plan.now told.sampled.block told.sampled.tree) examples.now }
    ensures { OnOk result (NearLines plan.now out.old.items out.new.items) }
{
    for example in examples {
        push_changes(alloc, plan, &example.sampled, facts, tries, out)?;
    }
    Ok(())
}

/// Writes the lines of blocks that small changes make of a string.
fn push_changes(
    alloc: Global,
    plan: &Plan,
    string: &Sampled,
    facts: &[NodeFacts],
    tries: &mut Tries,
    out: &mut Vec<u8>,
) -> Result<(), NoMemory>
    requires { HasTree plan.now string.now.block string.now.tree }
    ensures { OnOk result (NearLines plan.now out.old.items out.new.items) }
{
    let nears = nearly_with::<Brand>(alloc, plan, &string.block, tries, Blank::new(1))?;
    push_nears(alloc, &nears, facts, out)
}

/// What small changes make of a block, with a counter of steps.
fn nearly_with<L: Ledger>(
    alloc: Global,
    plan: &Plan,
    block: &Bits,
    tries: &mut Tries,
    blank: Blank,
) -> Result<Vec<Near>, NoMemory>
    requires name { blank.name ≡ L.name }
    requires parts { blank.parts ≡ L.parts }
    requires some { 0 < blank.parts }
    ensures { IfOk result (λ told. All (IsNear plan.now block.now) told.items) }
{
    let mut steps = Steps::<L>::new(blank);
    nearly(alloc, plan, block, tries, &mut steps)
}

/// Writes the lines of blocks.
fn push_nears(
    alloc: Global,
    nears: &[Near],
    facts: &[NodeFacts],
    out: &mut Vec<u8>,
) -> Result<(), NoMemory>
    ensures lines { (d : DescV) (string : Sampled) → HasTree d string.block string.tree → All (IsNear d string.block) nears.now
        → OnOk result (NearLines d out.old.items out.new.items) }
{
    for near in nears {
        push_near(alloc, near, facts, out)?;
    }
    Ok(())
}

/// Writes the line of a block.
fn push_near(
    alloc: Global,
    near: &Near,
    facts: &[NodeFacts],
    out: &mut Vec<u8>,
) -> Result<(), NoMemory>
    ensures { OnOk result (IsLine (written near.now.block ++ 9 ∷ refusal near.now) out.old.items out.new.items) }
{
    push_block(alloc, &near.block, out)?;
    out.extend_from_slice(b"\tno ")?;
    push_number(out, near.place)?;
    out.extend_from_slice(ending(near))?;
    push_about(facts, near.node, what(near.change), out)?;
    out.push(b'\n')?;
    Ok(())
}

/// How the answer to a block ends.
fn ending(near: &Near) -> &'static [u8]
    ensures { result.now ≡ (if near.now.place == length near.now.block then codes " ended" else codes " bit") }
{
    if near.place == near.block.len() {
        b" ended"
    } else {
        b" bit"
    }
}

/// What a change is, in words.
fn what(change: Change) -> &'static [u8] {
    match change {
        Change::Turned { .. } => b"bit turned",
        Change::Cut { .. } => b"cut before it",
        Change::Behind { .. } => b"one bit more",
        Change::Twice { .. } => b"last turn twice",
    }
}
