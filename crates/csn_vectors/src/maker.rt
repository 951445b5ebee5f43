//! Blocks to order, a line each.

ghost use Rattle.std.specs.Prelude.{◌≡◌, ◌≢◌, ◌<◌, ◌++◌, ◌∷◌, [], Ok, true, false, IfOk, OnOk};
ghost use Rattle.csn_bits.specs.Line.{written};
ghost use Rattle.csn_treetext.specs.declared.version.Version.TheVariants.{Second};
ghost use Rattle.csn_treetext.specs.Text.{text_of};
ghost use Rattle.csn_treetext.specs.Fits.{Fits};
ghost use Rattle.csn_vectors.specs.Lines.{TellsBlock, block_line};

use crate::column::push_block;
use csn_bits::{Bits, NoMemory};
use csn_certify::{Plan, Steps};
use csn_desc::Tree;
use csn_sample::{Generator, Length, Sampled, Sampler, Values, Wish, ample};
use csn_treetext::{fits, write_tree};
use std::alloc::Global;
use std::marker::{Brand, Model};
use std::sync::ledger::{Blank, Ledger};

/// How many seeds are tried until one gives a block.
const MOST_SEEDS: u32 = 16;

/// Makes lines of blocks that are strings of a description. A contract sees the description.
#[derive(Drop)]
pub struct BlockMaker<'a> {
    alloc: Global,
    sampler: Sampler<'a>,
    seeds: Generator,
    most: u32,
}

impl<'a> Model for BlockMaker<'a> {
    ghost use Rattle.csn_desc.specs.Nodes.{DescV};

    ghost Value = { DescV };

    ghost view = { λ m. m.sampler };
}

impl<'a> BlockMaker<'a> {
    /// Makes blocks of a plan, the same ones from the same seed.
    pub fn new(alloc: Global, plan: &'a Plan, seed: u64) -> Result<BlockMaker<'a>, NoMemory>
        ensures { IfOk result (λ maker. maker ≡ plan.now) }
    {
        BlockMaker::new_with::<Brand>(alloc, plan, seed, Blank::new(1))
    }

    /// The same with a counter of steps.
    fn new_with<L: Ledger>(
        alloc: Global,
        plan: &'a Plan,
        seed: u64,
        blank: Blank,
    ) -> Result<BlockMaker<'a>, NoMemory>
        requires name { blank.name ≡ L.name }
        requires parts { blank.parts ≡ L.parts }
        requires some { 0 < blank.parts }
        ensures { IfOk result (λ maker. maker ≡ plan.now) }
    {
        let mut steps = Steps::<L>::new(blank);
        let most = ample(alloc, plan, &mut steps)?;
        let sampler = Sampler::new(alloc, plan, &mut steps)?;
        Ok(BlockMaker {
            alloc,
            sampler,
            seeds: Generator::new(seed),
            most,
        })
    }

    /// Writes the line of the next block, with its tree behind a tab where that is asked for. Whether one was found: some
    /// descriptions have no string, or hardly any.
    pub fn push_next(&mut self, trees: bool, out: &mut Vec<u8>) -> Result<bool, NoMemory>
        ensures desc { self.new ≡ self.old }
        ensures told { result ≡ Ok true → TellsBlock self.old trees out.old.items out.new.items }
        ensures none { result ≡ Ok false → out.new.items ≡ out.old.items }
    {
        for _ in 0..MOST_SEEDS {
            if self.push_seed(trees, out)? {
                return Ok(true);
            }
        }
        Ok(false)
    }

    /// The line of the block of the next seed, if the seed gives one.
    fn push_seed(&mut self, trees: bool, out: &mut Vec<u8>) -> Result<bool, NoMemory>
        ensures desc { self.new ≡ self.old }
        ensures told { result ≡ Ok true → TellsBlock self.old trees out.old.items out.new.items }
        ensures none { result ≡ Ok false → out.new.items ≡ out.old.items }
    {
        if trees {
            self.push_with_tree::<Brand>(Blank::new(1), out)
        } else {
            self.push_alone::<Brand>(Blank::new(1), out)
        }
    }

    /// What is asked of each block.
    fn wish(&self) -> Wish {
        Wish {
            length: Length::AtMost(self.most),
            values: Values::Uniform,
        }
    }

    /// The line of the block of the next seed with its tree, if the seed gives one whose tree has a text, with a counter of
    /// steps.
    fn push_with_tree<L: Ledger>(
        &mut self,
        blank: Blank,
        out: &mut Vec<u8>,
    ) -> Result<bool, NoMemory>
        requires name { blank.name ≡ L.name }
        requires parts { blank.parts ≡ L.parts }
        requires some { 0 < blank.parts }
        ensures desc { self.new ≡ self.old }
        ensures told { result ≡ Ok true → TellsBlock self.old true out.old.items out.new.items }
        ensures none { result ≡ Ok false → out.new.items ≡ out.old.items }
    {
        let mut steps = Steps::<L>::new(blank);
        let wish = self.wish();
        let seed = self.seeds.number();
        let found = self.sampler.sample(wish, seed, &mut steps)?;
        match &found {
            Some(sampled) => push_sampled(self.alloc, sampled, out),
            None => Ok(false),
        }
    }

    /// The line of the block of the next seed, if the seed gives one, with a counter of steps.
    fn push_alone<L: Ledger>(&mut self, blank: Blank, out: &mut Vec<u8>) -> Result<bool, NoMemory>
        requires name { blank.name ≡ L.name }
        requires parts { blank.parts ≡ L.parts }
        requires some { 0 < blank.parts }
        ensures desc { self.new ≡ self.old }
        ensures told { result ≡ Ok true → TellsBlock self.old false out.old.items out.new.items }
        ensures none { result ≡ Ok false → out.new.items ≡ out.old.items }
    {
        let mut steps = Steps::<L>::new(blank);
        let wish = self.wish();
        let seed = self.seeds.number();
        let found = self.sampler.block(wish, seed, &mut steps)?;
        match &found {
            Some(block) => push_line(self.alloc, block, out),
            None => Ok(false),
        }
    }
}

/// Writes the line of a block with its tree, if its tree has a text. Whether it has.
fn push_sampled(alloc: Global, sampled: &Sampled, out: &mut Vec<u8>) -> Result<bool, NoMemory>
    ensures told { result ≡ Ok true → out.new.items ≡ out.old.items ++ block_line true sampled.now.block sampled.now.tree }
    ensures none { result ≡ Ok false → out.new.items ≡ out.old.items }
{
    if !fits(&sampled.tree) {
        return Ok(false);
    }
    push_block(alloc, &sampled.block, out)?;
    out.push(b'\t')?;
    push_tree(alloc, &sampled.tree, out)?;
    out.push(b'\n')?;
    Ok(true)
}

/// Writes the text of a tree.
fn push_tree(alloc: Global, tree: &Tree, out: &mut Vec<u8>) -> Result<(), NoMemory>
    requires { Fits tree.now }
    ensures { OnOk result (out.new.items ≡ out.old.items ++ text_of Second tree.now) }
{
    let text = write_tree(alloc, tree)?;
    out.extend_from_slice(&text)?;
    Ok(())
}

/// Writes the line of a block alone.
fn push_line(alloc: Global, block: &Bits, out: &mut Vec<u8>) -> Result<bool, NoMemory>
    ensures told { result ≡ Ok true → out.new.items ≡ out.old.items ++ written block.now ++ 10 ∷ [] }
    ensures not { result ≢ Ok false }
{
    push_block(alloc, block, out)?;
    out.push(b'\n')?;
    Ok(true)
}
