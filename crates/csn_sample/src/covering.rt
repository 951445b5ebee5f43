//! Few blocks that go as many ways as were found.

ghost use Rattle.std.specs.Prelude.{◌≡◌, ◌+◌, ◌*◌, ◌≤◌, ℕ, All, IfOk, IfSome, OnOk, length};
ghost use Rattle.csn_sample.specs.declared.wish.Length.TheVariants.{AtMost};
ghost use Rattle.csn_sample.specs.Samples.{IsSample, draws, cover_work, work};
ghost use Rattle.csn_sample.specs.Covering.{AllUnmet, AreMet, AreTold, HasMarks, IsExample, IsMarked, IsUnmetWith};

use crate::aim::Aim;
use crate::marks::WayMarks;
use crate::sampler::{Sampled, Sampler};
use crate::target::Target;
use crate::way_numbers::ways;
use crate::wish::{Length, Values, Wish};
use csn_bits::NoMemory;
use csn_certify::{Plan, Steps};
use std::alloc::Global;
use std::marker::Brand;
use std::sync::ledger::{Blank, Ledger};

/// How many bits all draws have together, at most.
const MOST_DRAWN: u32 = 200_000_000;

/// As how many bits a block counts that has fewer.
const FEWEST_COUNTED: u32 = 200;

/// How many nodes begin in all draws, until no more blocks are drawn.
const MOST_BEGUN: u64 = 40_000_000;

/// How many draws in a row may bring nothing new, until no more blocks are drawn,
const MOST_IDLE: u32 = 40_000;

/// and how often before that each way that is not met has its turn.
const ROUNDS: u32 = 3;

/// A way that trees can go at a node.
#[derive(Clone, Copy, Debug, PartialEq, Eq)]
pub struct Way {
    pub node: u16,
    pub number: u16,
}

/// A block that goes a way that no block before it goes.
#[derive(Drop)]
pub struct Example {
    pub sampled: Sampled,
    pub way: Way,
}

/// Blocks that go the ways of a description, and the ways that none of them goes.
#[derive(Drop)]
pub struct Covered {
    pub blocks: Vec<Example>,
    pub unmet: Vec<Way>,
}

/// Blocks of at most so many bits, each of which goes a way of the description that none before it goes, and the ways
/// that none of them goes. They have few bits where blocks of few bits are found that go these ways. The same seed gives
/// the same blocks. The steps that mark the ways are not counted.
pub fn cover<L: Ledger>(
    alloc: Global,
    plan: &Plan,
    few: u32,
    most: u32,
    seed: u64,
    steps: &mut Steps<L>,
) -> Result<Covered, NoMemory>
    ensures blocks { IfOk result (λ told. All (IsExample plan.now most) told.blocks.items) }
    ensures ways { IfOk result (λ told. AreTold plan.now told.blocks.items told.unmet.items) }
    ensures steps { steps.new ≤ steps.old + cover_work (length plan.now.nodes) most }
{
    let mut marks = WayMarks::new(alloc, plan, steps)?;
    let blocks = found(alloc, plan, few, most, seed, &mut marks, steps)?;
    let unmet = ways_unset(alloc, plan, &marks, steps)?;
    Ok(Covered { blocks, unmet })
}

/// How many blocks of at most so many bits are drawn, at most.
fn most_draws(most: u32) -> u32
    ensures { result ≡ draws most }
{
    MOST_DRAWN / most.max(FEWEST_COUNTED)
}

/// The blocks, each of which sets a mark that was not set. They are drawn in turn by chance, and towards a way that is not
/// met.
fn found<L: Ledger>(
    alloc: Global,
    plan: &Plan,
    few: u32,
    most: u32,
    seed: u64,
    marks: &mut WayMarks,
    steps: &mut Steps<L>,
) -> Result<Vec<Example>, NoMemory>
    requires marks { HasMarks plan.now marks.old }
    requires none { (i way : ℕ) → ¬ IsMarked marks.old i way }
    ensures many { HasMarks plan.now marks.new }
    ensures blocks { IfOk result (λ told. All (IsExample plan.now most) told.items) }
    ensures marks { IfOk result (λ told. AreMet plan.now told.items marks.new) }
    ensures steps { steps.new ≤ steps.old + 3 * length plan.now.nodes
        + draws most * (work (length plan.now.nodes) most + 2 * length plan.now.nodes) }
{
    let mut told = Vec::new(alloc);
    let mut sampler = Sampler::new(alloc, plan, steps)?;
    sampler.begin(seed);
    let mut target = Target::new(alloc, plan, marks, steps)?;
    let mut idle = 0u32;
    for turn in 0..most_draws(most) {
        if is_enough(&target, idle) || sampler.nodes_begun() >= MOST_BEGUN {
            break;
        }
        let aim = if turn % 2 == 0 {
            Aim::any(few)
        } else {
            target.aim(few, most)
        };
        let drawn = sampler.attempt(wish(most, turn / 2), aim, steps)?;
        let kept = keep(plan, drawn, marks, &mut told)?;
        idle = idle_after(idle, kept);
        target.go_on(alloc, plan, marks, steps)?;
    }
    Ok(told)
}

/// How many draws in a row brought nothing new, with one that was kept or not.
fn idle_after(idle: u32, kept: bool) -> u32 {
    if kept { 0 } else { idle.saturating_add(1) }
}

/// Whether no way is left, or so many draws brought nothing new that no more is hoped for.
fn is_enough(target: &Target, idle: u32) -> bool {
    target.is_none() || idle >= MOST_IDLE && target.round >= ROUNDS
}

/// What is asked of the next block, behind so many others.
fn wish(most: u32, turn: u32) -> Wish
    ensures { result.length ≡ AtMost most }
{
    let values = if turn % 4 < 3 {
        Values::Edges
    } else {
        Values::Uniform
    };
    Wish {
        length: Length::AtMost(most),
        values,
    }
}

/// Keeps a block that sets a mark that was not set. Whether it did.
fn keep(
    plan: &Plan,
    drawn: Option<Sampled>,
    marks: &mut WayMarks,
    told: &mut Vec<Example>,
) -> Result<bool, NoMemory>
    requires many { HasMarks plan.now marks.old }
    requires marks { AreMet plan.now told.old.items marks.old }
    ensures many { HasMarks plan.now marks.new }
    ensures marks { OnOk result (AreMet plan.now told.new.items marks.new) }
    ensures blocks { (most : ℕ) → All (IsExample plan.now most) told.old.items → IfSome drawn (IsSample plan.now (AtMost most))
        → OnOk result (All (IsExample plan.now most) told.new.items) }
{
    let Some(sampled) = drawn else {
        return Ok(false);
    };
    let Some(way) = marks.add_tree::<Brand>(plan, &sampled.tree, Blank::new(1)) else {
        return Ok(false);
    };
    told.push(Example { sampled, way })?;
    Ok(true)
}

/// The ways whose marks are not set.
pub(crate) fn ways_unset<L: Ledger>(
    alloc: Global,
    plan: &Plan,
    marks: &WayMarks,
    steps: &mut Steps<L>,
) -> Result<Vec<Way>, NoMemory>
    requires { HasMarks plan.now marks.now }
    ensures ways { IfOk result (λ unmet. AllUnmet plan.now (length plan.now.nodes) unmet.items marks.now) }
    ensures steps { steps.new ≤ steps.old + length plan.now.nodes }
{
    let mut unmet = Vec::new(alloc);
    for i in 0..plan.len() {
        let count = ways(plan.node(i, steps));
        add_unset(i, count, marks, &mut unmet)?;
    }
    Ok(unmet)
}

/// Adds the ways of a node whose marks are not set.
fn add_unset(node: u16, count: u16, marks: &WayMarks, unmet: &mut Vec<Way>) -> Result<(), NoMemory>
    ensures { OnOk result (IsUnmetWith node count marks.now unmet.old.items unmet.new.items) }
{
    for number in 0..count {
        if !marks.has(node, number) {
            unmet.push(Way { node, number })?;
        }
    }
    Ok(())
}
