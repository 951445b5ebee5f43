//! Blocks that cover a description, a line each.

ghost use Rattle.std.specs.Prelude.{◌≡◌, ◌<◌, ◌++◌, List, ℕ, IfOk, OnOk, codes};
ghost use Rattle.csn_bits.specs.Line.{written};
ghost use Rattle.csn_vectors.specs.Lines.{Covers, ExampleLines, IsLine, TellsCover, UnmetLines};

use crate::column::{push_about, push_block};
use csn_bits::{MOST_BITS, NoMemory};
use csn_certify::{Plan, Steps};
use csn_plan::push_number;
use csn_reasons::{NodeFacts, NodeKind};
use csn_sample::{Covered, Example, Way, ample, cover};
use std::alloc::Global;
use std::marker::Brand;
use std::sync::ledger::{Blank, Ledger};

/// How many times as many bits as mostly is enough blocks have, where no shorter ones go a way.
const LONGER: u32 = 8;

/// The seed of the blocks.
pub(crate) const SEED: u64 = 1;

/// The blocks that cover a plan, and what they do not go, with a counter of steps.
pub(crate) fn covered_with<L: Ledger>(
    alloc: Global,
    plan: &Plan,
    blank: Blank,
) -> Result<Covered, NoMemory>
    requires name { blank.name ≡ L.name }
    requires parts { blank.parts ≡ L.parts }
    requires some { 0 < blank.parts }
    ensures { IfOk result (Covers plan.now) }
{
    let mut steps = Steps::<L>::new(blank);
    let few = ample(alloc, plan, &mut steps)?;
    let most = MOST_BITS.min(LONGER * few.min(MOST_BITS));
    cover(alloc, plan, few, most, SEED, &mut steps)
}

/// Writes few blocks that together go the ways that the strings of a plan can go, a line each with the way that it is for,
/// and then the ways that none of them goes. The facts are those of its nodes, in their order.
pub fn push_cover(
    alloc: Global,
    plan: &Plan,
    facts: &[NodeFacts],
    out: &mut Vec<u8>,
) -> Result<(), NoMemory>
    ensures { OnOk result (TellsCover plan.now out.old.items out.new.items) }
{
    let covered = covered_with::<Brand>(alloc, plan, Blank::new(1))?;
    push_examples(alloc, &covered.blocks, facts, out)?;
    push_unmet(alloc, &covered.unmet, facts, out)?;
    Ok(())
}

/// Writes the lines of the blocks.
fn push_examples(
    alloc: Global,
    blocks: &[Example],
    facts: &[NodeFacts],
    out: &mut Vec<u8>,
) -> Result<(), NoMemory>
    ensures { OnOk result (ExampleLines out.old.items blocks.now out.new.items) }
{
    for example in blocks {
        push_example(alloc, example, facts, out)?;
    }
    Ok(())
}

/// Writes the line of a block.
fn push_example(
    alloc: Global,
    example: &Example,
    facts: &[NodeFacts],
    out: &mut Vec<u8>,
) -> Result<(), NoMemory>
    ensures { OnOk result (IsLine (written example.now.sampled.block) out.old.items out.new.items) }
{
    push_block(alloc, &example.sampled.block, out)?;
    push_way(alloc, example.way, facts, out)?;
    out.push(b'\n')?;
    Ok(())
}

/// Writes the lines of the ways that no block goes.
fn push_unmet(
    alloc: Global,
    unmet: &[Way],
    facts: &[NodeFacts],
    out: &mut Vec<u8>,
) -> Result<(), NoMemory>
    ensures { OnOk result (UnmetLines out.old.items unmet.now out.new.items) }
{
    for way in unmet {
        push_unmet_way(alloc, *way, facts, out)?;
    }
    Ok(())
}

/// Writes the line of a way that no block goes.
fn push_unmet_way(
    alloc: Global,
    way: Way,
    facts: &[NodeFacts],
    out: &mut Vec<u8>,
) -> Result<(), NoMemory>
    ensures { OnOk result (IsLine (codes "unmet") out.old.items out.new.items) }
{
    out.extend_from_slice(b"unmet")?;
    push_way(alloc, way, facts, out)?;
    out.push(b'\n')?;
    Ok(())
}

/// Writes a way, and where its node is.
fn push_way(alloc: Global, way: Way, facts: &[NodeFacts], out: &mut Vec<u8>) -> Result<(), NoMemory>
    ensures { OnOk result ((more : List ℕ) × (out.new.items ≡ out.old.items ++ more)) }
{
    let mut what = Vec::new(alloc);
    if let Some(fact) = facts.get(usize::from(way.node)) {
        push_what(fact.kind, way.number, &mut what)?;
    }
    push_about(facts, way.node, &what, out)
}

/// Writes what a way is at a node of a kind.
fn push_what(kind: NodeKind, number: u16, out: &mut Vec<u8>) -> Result<(), NoMemory> {
    match kind {
        NodeKind::Choice => {
            out.push(b'#')?;
            push_number(out, u32::from(number))?;
        }
        NodeKind::Truncation => {
            push_number(out, u32::from(number))?;
            out.extend_from_slice(b" parts")?;
        }
        NodeKind::Field => {
            out.extend_from_slice(b"all ")?;
            push_number(out, u32::from(number))?;
        }
        _ => out.extend_from_slice(turns(number))?,
    }
    Ok(())
}

/// How many turns a way of a repetition is.
fn turns(number: u16) -> &'static [u8] {
    match number {
        0 => b"no turn",
        1 => b"1 turn",
        _ => b"2 turns or more",
    }
}
