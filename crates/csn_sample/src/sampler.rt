//! Blocks that are made to order.

ghost use Rattle.std.specs.Prelude.{◌≡◌, ◌+◌, ◌*◌, ◌≤◌, length, IfOk, IfSome, IsTrue};
ghost use Rattle.csn_desc.specs.TreeV.{TreeV};
ghost use Rattle.csn_sample.specs.Samples.{Fits, HasTree, IsBlock, IsSample, most_of, begun, work};

use crate::aim::Aim;
use crate::chart::Chart;
use crate::decoded::decoded;
use crate::draft::Draft;
use crate::drawn::Stop;
use crate::generator::Generator;
use crate::spans::{Spans, plan_spans};
use crate::wish::Wish;
use csn_bits::{Bits, MOST_BITS, NoMemory};
use csn_certify::{Plan, Steps};
use csn_desc::Tree;
use csn_judge::{Judged, judge_block};
use std::alloc::Global;
use std::marker::Model;
use std::sync::ledger::Ledger;

/// How often a block is drawn until it is a string, and as long as it was asked.
pub const TRIES: u32 = 64;

/// A block that is a string of the description, and the tree that it has.
#[derive(Drop)]
pub struct Sampled {
    pub block: Bits,
    pub tree: Tree,
}

/// Makes blocks of a certified description. A contract sees the description.
#[derive(Drop)]
pub struct Sampler<'a> {
    alloc: Global,
    plan: &'a Plan,
    spans: Spans,
    draft: Draft,
}

impl<'a> Model for Sampler<'a> {
    ghost use Rattle.csn_desc.specs.Nodes.{DescV};

    ghost Value = { DescV };

    ghost view = { λ s. s.plan.now };
}

impl<'a> Sampler<'a> {
    /// For the blocks of a plan.
    pub fn new<L: Ledger>(
        alloc: Global,
        plan: &'a Plan,
        steps: &mut Steps<L>,
    ) -> Result<Sampler<'a>, NoMemory>
        ensures desc { IfOk result (λ sampler. sampler ≡ plan.now) }
        ensures steps { steps.new ≤ steps.old + length plan.now.nodes }
    {
        let spans = plan_spans(alloc, plan, steps)?;
        Ok(Sampler {
            alloc,
            plan,
            spans,
            draft: Draft::new(alloc),
        })
    }

    /// A block of the description, as it is asked for, with its tree. The same seed gives the same block. None says that
    /// no such block was found, and not that there is none: `TRIES` draws came to no string, or to none as long as that.
    pub fn sample<L: Ledger>(
        &mut self,
        wish: Wish,
        seed: u64,
        steps: &mut Steps<L>,
    ) -> Result<Option<Sampled>, NoMemory>
        ensures desc { self.new ≡ self.old }
        ensures told { IfOk result (λ found. IfSome found (IsSample self.old wish.length)) }
        ensures steps { steps.new ≤ steps.old + TRIES * work (length self.old.nodes) (most_of wish.length) }
    {
        self.begin(seed);
        for _ in 0..TRIES {
            if let Some(sampled) = self.attempt(wish, Aim::any(MOST_BITS), steps)? {
                return Ok(Some(sampled));
            }
        }
        Ok(None)
    }

    /// Draws from a seed on.
    pub(crate) fn begin(&mut self, seed: u64)
        ensures { self.new ≡ self.old }
    {
        self.draft.drawn.generator = Generator::new(seed);
    }

    /// How many nodes began in all draws so far.
    pub(crate) fn nodes_begun(&self) -> u64 {
        self.draft.begun
    }

    /// A block that is a string, and as long as was asked, without its tree, in half the time. The steps of its judge are not
    /// counted.
    pub fn block<L: Ledger>(
        &mut self,
        wish: Wish,
        seed: u64,
        steps: &mut Steps<L>,
    ) -> Result<Option<Bits>, NoMemory>
        ensures desc { self.new ≡ self.old }
        ensures told { IfOk result (λ found. IfSome found (IsBlock self.old wish.length)) }
        ensures steps { steps.new ≤ steps.old + TRIES * begun (length self.old.nodes) (most_of wish.length) }
    {
        self.begin(seed);
        for _ in 0..TRIES {
            if let Some(block) = self.draw(wish, Aim::any(MOST_BITS), steps)? {
                if is_string(self.plan, &block) {
                    return Ok(Some(block));
                }
            }
        }
        Ok(None)
    }

    /// One draw of a block with its tree, which may come to no string. The draws go on from the last one.
    pub(crate) fn attempt<L: Ledger>(
        &mut self,
        wish: Wish,
        aim: Aim<'_>,
        steps: &mut Steps<L>,
    ) -> Result<Option<Sampled>, NoMemory>
        ensures desc { self.new ≡ self.old }
        ensures told { IfOk result (λ found. IfSome found (IsSample self.old wish.length)) }
        ensures steps { steps.new ≤ steps.old + work (length self.old.nodes) (most_of wish.length) }
    {
        let alloc = self.alloc;
        let plan = self.plan;
        let Some(block) = self.draw(wish, aim, steps)? else {
            return Ok(None);
        };
        judged(alloc, plan, block, steps)
    }

    /// One draw of a block that is as long as was asked, which may be no string.
    fn draw<L: Ledger>(
        &mut self,
        wish: Wish,
        aim: Aim<'_>,
        steps: &mut Steps<L>,
    ) -> Result<Option<Bits>, NoMemory>
        ensures desc { self.new ≡ self.old }
        ensures fits { IfOk result (λ found. IfSome found (λ block. Fits wish.length (length block))) }
        ensures steps { steps.new ≤ steps.old + begun (length self.old.nodes) (most_of wish.length) }
    {
        let begun = most_begun(self.plan, wish.length.most());
        let chart = Chart {
            plan: self.plan,
            bits: self.spans.bits.as_slice(),
            numbers: self.spans.numbers.as_slice(),
            aim,
        };
        match self.draft.draw_block(&chart, wish, begun, steps) {
            Ok(()) => {}
            Err(Stop::Unlucky) => return Ok(None),
            Err(Stop::NoMemory(why)) => return Err(why),
        }
        let block = self.draft.drawn.packed(self.alloc)?;
        if wish.length.fits(block.len()) {
            Ok(Some(block))
        } else {
            Ok(None)
        }
    }
}

/// Whether a block is a string.
fn is_string(plan: &Plan, block: &Bits) -> bool
    ensures { IsTrue result → (tree : TreeV) × HasTree plan.now block.now tree }
{
    // its length tells that no block has two trees
    let _count = plan.len();
    match judge_block(plan, block) {
        Judged::Ok => true,
        Judged::Refused { .. } => false,
    }
}

/// How many nodes begin in a draw, at most.
fn most_begun(plan: &Plan, bits: u32) -> u64
    ensures { result ≡ begun (length plan.now.nodes) bits }
{
    4 * u64::from(plan.len()) + 64 * (u64::from(bits) + 1)
}

/// A block that was drawn, where it is a string.
fn judged<L: Ledger>(
    alloc: Global,
    plan: &Plan,
    block: Bits,
    steps: &mut Steps<L>,
) -> Result<Option<Sampled>, NoMemory>
    ensures tree { IfOk result (λ found. IfSome found (λ told. HasTree plan.now told.block told.tree)) }
    ensures block { IfOk result (λ found. IfSome found (λ told. told.block ≡ block)) }
    ensures steps { steps.new ≤ steps.old + 8 * length plan.now.nodes * (length block + 1) }
{
    match decoded(alloc, plan, &block, steps)? {
        Some(tree) => Ok(Some(Sampled { block, tree })),
        None => Ok(None),
    }
}
