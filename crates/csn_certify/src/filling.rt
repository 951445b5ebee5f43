//! Filling the entries of a choice, from the keys of one alternative after another.

ghost use Rattle.std.specs.Prelude.{◌≡◌, ℕ, ◌<◌, ◌≤◌, List, length, slice_index_or};
ghost use Rattle.csn_look.specs.KeyMarks.{IsWord};
ghost use Rattle.csn_certify.specs.declared.pick_table.Entry.TheVariants.{Refuse};
ghost use Rattle.csn_certify.specs.PickTables.{HasEntries, entry_of};
ghost use Rattle.csn_certify.specs.Filling.{started, IsDeep, IsFresh, IsFilled, IsTaken, FillsUnder, FillsAt};

use crate::pick_table::Entry;
use csn_look::{KeyTable, MOST_WORD, Stands, Word};

/// The width, or more where more bits have to be looked at of what goes on from the word to see the keys of a table.
/// No further bit is looked at where all words of one size are keys.
pub(crate) fn widened(table: &KeyTable, word: &Word, width: u8) -> u8
    requires word { IsWord word.now }
    requires fresh { IsFresh table.now word.now }
    requires width { width ≤ MOST_WORD }
    ensures deep { IsDeep table.now word.now result }
    ensures more { length word.now ≤ result }
    ensures wider { width ≤ result }
    ensures most { result ≤ MOST_WORD }
{
    if width as usize == MOST_WORD {
        return width;
    }
    match table.stands(word) {
        Stands::Key => greater(width, word.len()),
        Stands::Neither => greater(width, word.len()),
        Stands::Starts => match table.full_behind(word) {
            Some(_) => greater(width, word.len()),
            None => {
                let first = widened(table, &word.with(0), width);
                widened(table, &word.with(1), first)
            }
        },
    }
}

/// The greater number.
pub(crate) fn greater(a: u8, b: u8) -> u8
    ensures first { a ≤ result }
    ensures second { b ≤ result }
    ensures one { (n : ℕ) → a ≤ n → b ≤ n → result ≤ n }
{
    if a < b { b } else { a }
}

/// The keys of one alternative, and the entries that they fill.
#[derive(Clone, Copy)]
pub(crate) struct Filling<'a> {
    pub table: &'a KeyTable,
    pub alternative: u16,
    pub width: u8,
}

impl Filling<'_> {
    /// Fills the entries of the word and of those that go on from it, as the keys tell.
    pub fn fill(&self, entries: &mut [Entry], word: &Word)
        requires size { HasEntries self.now.width entries.old }
        requires word { IsWord word.now }
        requires within { length word.now ≤ self.now.width }
        requires fresh { IsFresh self.now.table.now word.now }
        requires deep { IsDeep self.now.table.now word.now self.now.width }
        ensures size { HasEntries self.now.width entries.new }
        ensures fills { FillsUnder word.now self.now.width (IsFilled self.now.table.now self.now.alternative) entries.old entries.new }
    {
        match self.table.stands(word) {
            Stands::Neither => {}
            Stands::Key => self.cover(entries, word, word.len()),
            Stands::Starts => match self.table.full_behind(word) {
                Some(bits) => self.cover(entries, word, bits),
                None => {
                    self.put(entries, word, self.entry(entries, word).started());
                    self.fill(entries, &word.with(0));
                    self.fill(entries, &word.with(1));
                }
            },
        }
    }

    /// Takes the alternative, by so many bits, at the word and at those that go on from it.
    fn cover(&self, entries: &mut [Entry], word: &Word, bits: u8)
        requires size { HasEntries self.now.width entries.old }
        requires word { IsWord word.now }
        requires within { length word.now ≤ self.now.width }
        ensures size { HasEntries self.now.width entries.new }
        ensures fills { FillsUnder word.now self.now.width (IsTaken self.now.alternative bits) entries.old entries.new }
    {
        let entry = Entry::Take {
            bits,
            alternative: self.alternative,
        };
        let place = word.place();
        for more in 0..self.width - word.len() + 1 {
            let first = place << more;
            put_all(entries, first, first + (1 << more), entry);
        }
    }

    /// The entry of a word.
    fn entry(&self, entries: &[Entry], word: &Word) -> Entry
        requires size { HasEntries self.now.width entries.now }
        requires within { length word.now ≤ self.now.width }
        ensures { result ≡ entry_of entries.now word.now }
    {
        entries[word.place()]
    }

    /// Puts an entry at a word.
    fn put(&self, entries: &mut [Entry], word: &Word, entry: Entry)
        requires size { HasEntries self.now.width entries.old }
        requires word { IsWord word.now }
        requires within { length word.now ≤ self.now.width }
        ensures size { HasEntries self.now.width entries.new }
        ensures put { FillsAt word.now self.now.width entry entries.old entries.new }
    {
        entries[word.place()] = entry;
    }
}

/// Puts an entry at all places from the first one on, and before the end.
fn put_all(entries: &mut [Entry], first: usize, end: usize, entry: Entry)
    requires order { first ≤ end }
    requires within { end ≤ length entries.old }
    ensures size { length entries.new ≡ length entries.old }
    ensures put { (place : ℕ) → first ≤ place → place < end → slice_index_or entries.new place Refuse ≡ entry }
    ensures before { (place : ℕ) → place < first → slice_index_or entries.new place Refuse ≡ slice_index_or entries.old place Refuse }
    ensures behind { (place : ℕ) → end ≤ place → slice_index_or entries.new place Refuse ≡ slice_index_or entries.old place Refuse }
{
    for place in first..end {
        entries[place] = entry;
    }
}

impl Entry {
    /// The entry where the held bits are also the beginning of a key.
    fn started(self) -> Entry
        ensures { result ≡ started self }
    {
        match self {
            Entry::Refuse => Entry::Wait,
            Entry::Wait => Entry::Wait,
            Entry::Take { bits, alternative } => Entry::Take { bits, alternative },
        }
    }
}
