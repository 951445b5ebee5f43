//! What look-ahead tells at a choice, in one table for all held bits.

ghost use Rattle.std.specs.Prelude.{◌≡◌, ℕ, ◌+◌, ◌^◌, ◌<◌, ◌≤◌, length, slice_index_or};
ghost use Rattle.csn_look.specs.KeyMarks.{IsWord};
ghost use Rattle.csn_certify.specs.declared.pick_table.Entry.TheVariants.{Refuse};
ghost use Rattle.csn_certify.specs.PickTables.{entry_at, number_of, table_in, IsWithin};

use crate::pick_blocks::{BLOCK, Blocks};
use csn_look::Word;
use std::marker::Model;

/// How held bits stand to the keys of the alternatives of a choice.
#[derive(Clone, Copy, PartialEq, Eq)]
pub(crate) enum Entry {
    /// They begin with no key, and are the beginning of none.
    Refuse,
    /// They begin with no key, and are the beginning of one.
    Wait,
    /// They begin with a key of this alternative where there are so many of them, and are its beginning where
    /// there are fewer.
    Take { bits: u8, alternative: u16 },
}

impl Entry {
    /// The number of the entry, of which no other entry has the same.
    pub fn number(self) -> u64
        ensures { result ≡ number_of self }
    {
        match self {
            Entry::Refuse => 1,
            Entry::Wait => 2,
            Entry::Take { bits, alternative } => 256 * (alternative as u64) + bits as u64 + 3,
        }
    }
}

/// The entries of a choice at an octet position, one for each word of at most `width` bits, at the place of the
/// word. Longer words are cut to the width.
#[derive(Drop)]
pub(crate) struct Filled {
    pub none: Option<u16>,
    pub width: u8,
    pub entries: Vec<Entry>,
}

/// How many entries a table keeps by itself: those of words of at most two bits, which most choices need no more of.
pub(crate) const FIRST: usize = 8;

/// The same, where the entries are kept in blocks: which block stands at each place. The first entries stand here too, so
/// that one look does for them.
#[derive(Drop)]
pub(crate) struct KeptTable {
    pub none: Option<u16>,
    pub width: u8,
    pub first: [Entry; FIRST],
    pub index: Vec<u32>,
}

/// A table of a choice, with the blocks that have its entries.
#[derive(Drop)]
pub(crate) struct PickTable<'a> {
    table: &'a KeptTable,
    blocks: &'a Blocks,
}

impl<'a> Model for PickTable<'a> {
    ghost use Rattle.csn_certify.specs.PickTables.{PickTableV, pick_table_code, table_in, IsWithin};

    ghost Value = { PickTableV };

    ghost coded = { pick_table_code };

    ghost view = { λ t. table_in t.blocks.now t.table.now };

    ghost invariant = { λ t. IsWithin t.blocks.now t.table.now };
}

impl<'a> PickTable<'a> {
    /// The table in these blocks.
    pub fn new(table: &'a KeptTable, blocks: &'a Blocks) -> PickTable<'a>
        requires { IsWithin blocks.now table.now }
        ensures { result ≡ table_in blocks.now table.now }
    {
        PickTable { table, blocks }
    }

    /// The alternative that takes no bits, where there is one.
    pub fn none(&self) -> Option<u16>
        ensures { result ≡ self.now.none }
    {
        self.table.none
    }

    /// The entry of held bits.
    pub fn entry(&self, held: &Word) -> Entry
        ensures { result ≡ entry_at self.now held.now }
    {
        let over = held.len().saturating_sub(self.table.width);
        let place = held.place() >> over;
        if place < FIRST {
            return self.table.first[place];
        }
        let block = self.table.index[place / BLOCK];
        self.blocks.entry(block as usize, place % BLOCK)
    }
}

/// The first entries of a choice, with refusals where there are fewer.
pub(crate) fn first_of(entries: &[Entry]) -> [Entry; FIRST]
    ensures { (place : ℕ) → place < FIRST → slice_index_or result place Refuse ≡ slice_index_or entries.now place Refuse }
{
    let mut first = [Entry::Refuse; FIRST];
    for place in 0..FIRST {
        if let Some(entry) = entries.get(place) {
            first[place] = *entry;
        }
    }
    first
}
