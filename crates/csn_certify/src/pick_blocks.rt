//! The entries of choices in blocks, of which equal ones are kept once: most entries refuse, and many choices tell
//! the same of the last bits of a word.

ghost use Rattle.std.specs.Prelude.{◌≡◌, ℕ, ◌+◌, ◌-◌, ◌*◌, ◌/◌, ◌<◌, ◌≤◌, ◌++◌, List, [], length, slice_index_or, IfOk};
ghost use Rattle.csn_certify.specs.declared.pick_blocks.TheConstants.{BLOCK};
ghost use Rattle.csn_certify.specs.declared.pick_table.Entry.{Entry};
ghost use Rattle.csn_certify.specs.declared.pick_table.Entry.TheVariants.{Refuse};
ghost use Rattle.csn_certify.specs.PickTables.{IsBlockOf, AreFirstBlocks, AreOnce, digest_of};
ghost use Rattle.csn_certify.specs.SameEntries.{block_told};
ghost use Rattle.std.proofs.Common.{ap};
ghost use Rattle.std.specs.Hash as fed;

use crate::pick_table::Entry;
use csn_bits::NoMemory;
use indexmap::IndexSet;
use std::alloc::Global;
use std::hash::{Hash, Hasher};
use std::marker::Model;

/// How many entries stand in a block.
pub(crate) const BLOCK: usize = 64;

/// Entries that stand one after another.
#[derive(Drop, PartialEq, Eq)]
struct Block {
    entries: Vec<Entry>,
}

impl Hash for Block {
    ghost hash_input = { λ block. fed.u64 (digest_of block.entries.items) };

    ghost respects_eq = { λ a b told. ap (λ entries. fed.u64 (digest_of entries)) (block_told a.entries.items b.entries.items told) };

    fn hash<H: Hasher>(&self, state: &mut H) {
        digest(self.entries.as_slice()).hash(state);
    }
}

/// Blocks of entries, each kept once. A contract sees the list of them.
#[derive(Drop)]
pub(crate) struct Blocks {
    blocks: IndexSet<Block>,
}

impl Model for Blocks {
    ghost use Rattle.std.specs.Prelude.{List, map};
    ghost use Rattle.csn_certify.specs.declared.pick_table.Entry.{Entry};
    ghost use Rattle.csn_certify.specs.PickTables.{blocks_code};

    ghost Value = { List (List Entry) };

    ghost coded = { blocks_code };

    ghost view = { λ b. map (λ block. block.entries.items) b.blocks.keys };
}

impl Blocks {
    /// No blocks.
    pub fn new(alloc: Global) -> Blocks
        ensures { result ≡ [] }
    {
        Blocks {
            blocks: IndexSet::new(alloc),
        }
    }

    /// The entry at a place of the block with this number.
    pub fn entry(&self, number: usize, place: usize) -> Entry
        requires { number < length self.now }
        ensures { result ≡ slice_index_or (slice_index_or self.now number []) place Refuse }
    {
        match self.blocks.as_slice()[number].entries.get(place) {
            Some(entry) => *entry,
            None => Entry::Refuse,
        }
    }

    /// Keeps all blocks of some entries, and answers their numbers.
    pub fn keep_all(&mut self, alloc: Global, entries: &[Entry]) -> Result<Vec<u32>, NoMemory>
        ensures kept { IfOk result (λ index. AreFirstBlocks entries.now ((length entries.now + (BLOCK - 1)) / BLOCK) index.items self.new) }
        ensures more { (more : List (List Entry)) × (self.new ≡ self.old ++ more) }
    {
        let count = entries.len().div_ceil(BLOCK);
        let mut index = Vec::with_capacity(alloc, count)?;
        for at in 0..count {
            let block = Block {
                entries: block_of(alloc, entries, at)?,
            };
            let number = self.keep(block)?;
            index.push(number)?;
        }
        Ok(index)
    }

    /// Keeps a block, and answers its number: that of the same one, where it is there.
    fn keep(&mut self, block: Block) -> Result<u32, NoMemory>
        ensures kept { IfOk result (λ at. (at < length self.new) × (slice_index_or self.new at [] ≡ block.entries.items)) }
        ensures more { (more : List (List Entry)) × (self.new ≡ self.old ++ more) }
        ensures once { AreOnce self.new }
    {
        let (at, _added) = self.blocks.insert_full(block)?;
        if at > u32::MAX as usize {
            return Err(NoMemory);
        }
        Ok(at as u32)
    }
}

/// A number that is the same for the same entries, and mostly another for others.
fn digest(entries: &[Entry]) -> u64
    ensures { result ≡ digest_of entries.now }
{
    let mut digest: u64 = 0;
    for at in 0..entries.len() {
        digest = digest
            .wrapping_mul(0x9E37_79B9_7F4A_7C15)
            .wrapping_add(entries[at].number());
    }
    digest
}

/// The block at a place of some entries, without the refusals at its end.
fn block_of(alloc: Global, entries: &[Entry], at: usize) -> Result<Vec<Entry>, NoMemory>
    requires { BLOCK * at ≤ length entries.now }
    ensures { IfOk result (λ block. IsBlockOf entries.now at block.items) }
{
    let first = BLOCK * at;
    let end = end_of(entries, first);
    let mut block = Vec::with_capacity(alloc, end - first)?;
    block.extend_from_slice(&entries[first..end])?;
    Ok(block)
}

/// Where the entries of a block end that begins here, without the refusals at its end.
fn end_of(entries: &[Entry], first: usize) -> usize
    requires { first ≤ length entries.now }
    ensures from { first ≤ result }
    ensures within { result ≤ length entries.now }
    ensures most { result ≤ first + BLOCK }
    ensures refused { (place : ℕ) → result ≤ place → place < first + BLOCK → slice_index_or entries.now place Refuse ≡ Refuse }
{
    let left = entries.len() - first;
    let size = if left < BLOCK { left } else { BLOCK };
    for i in (0..size).rev() {
        if entries[first + i] != Entry::Refuse {
            return first + i + 1;
        }
    }
    first
}
