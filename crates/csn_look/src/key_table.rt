ghost use Rattle.std.specs.Prelude.{◌≡◌, ◌↔◌, ℕ, ◌<◌, ◌≤◌, ◌%◌, [], length, nat_eq, IsTrue, IfNone, IfOk, IfSome, OnErr, slice_index, slice_index_or, refl};
ghost use Rattle.std.specs.Cmp.{partial_equiv_from_equiv};
ghost use Rattle.std.specs.Cmp.Lexicographic.{nat_list_eq_equiv, pointwise};
ghost use Rattle.std.specs.Hash as fed;
ghost use Rattle.std.proofs.lemmas.Bool.Decides.{Decides-eqb};
ghost use Rattle.std.proofs.lemmas.Slice.Eq.{slice_eq-Decides};
ghost use Rattle.csn_look.specs.KeyMarks.{has_key, is_marked, KeysAre, Adds, IsBeginning, IsStanding};
ghost use Rattle.csn_look.specs.KeyLists.{IsKeyList};
ghost use Rattle.csn_look.specs.KeyProducts.{AfterKeys};
ghost use Rattle.csn_look.specs.KeySteps.{Extends};
ghost use Rattle.csn_look.specs.Blocks.{four, digest_of};
ghost use Rattle.csn_look.specs.Full.{IsFull};

use crate::blocks::{BLOCK, BLOCKS, block_of, digest, join_marks, keep_block, unpack};
use crate::full::full_size;
use crate::key_marks::{MARK_WORDS, MARKS, STARTS, add_key, begins_with_key, is_key, key_mark};
use crate::key_products::{add_after_size, add_words, words_of};
use crate::key_set::{KeySet, list_keys};
use crate::starts::mark_starts;
use crate::word::{MOST_WORD, Word};
use csn_bits::NoMemory;
use std::alloc::Global;
use std::hash::{Hash, Hasher};
use std::marker::Model;

/// How some bits stand to a set of keys.
#[derive(Clone, Copy, Debug, PartialEq, Eq)]
pub enum Begins {
    /// A key is a prefix of them.
    Key,
    /// No key is a prefix of them, and they are a prefix of a key.
    Proper,
    /// Neither.
    Neither,
}

/// How one very word stands in a set of keys.
#[derive(Clone, Copy, Debug, PartialEq, Eq)]
pub enum Stands {
    /// It is a key, whole or cut.
    Key,
    /// It is no key, and a prefix of one.
    Starts,
    /// Neither.
    Neither,
}

/// A set of keys. A contract sees its marks, and reads them by `has_key`.
#[derive(Debug, Drop)]
pub struct KeyTable {
    // which block stands at each place; none where the blocks are all the marks, one after another
    index: Vec<u8>,
    blocks: Vec<u64>,
}

impl Model for KeyTable {
    ghost use Rattle.std.specs.Prelude.{List, ℕ};
    ghost use Rattle.csn_look.specs.KeyTables.{IsKeyTable};
    ghost use Rattle.csn_look.specs.Blocks.{marks_of, AreWithin};

    ghost Value = { List ℕ };

    ghost view = { λ t. marks_of t.index.items t.blocks.items };

    ghost invariant = { λ t. IsKeyTable (marks_of t.index.items t.blocks.items) × AreWithin t.index.items t.blocks.items };
}

impl KeyTable {
    /// No keys.
    pub fn new(alloc: Global) -> Result<KeyTable, NoMemory>
        ensures { IfOk result (λ table. KeysAre table (λ word whole. ⊥)) }
    {
        Ok(KeyTable {
            index: Vec::new(alloc),
            blocks: vec![in alloc; 0; MARK_WORDS]?,
        })
    }

    /// The same set, kept in as little room as its keys need.
    pub(crate) fn packed(&self, alloc: Global) -> Result<KeyTable, NoMemory>
        ensures { IfOk result (λ table. table ≡ self.now) }
    {
        let _ = &self.index;
        let mut index = Vec::with_capacity(alloc, BLOCKS)?;
        let mut blocks = vec![in alloc; 0; BLOCK]?;
        for at in 0..BLOCKS {
            let block = keep_block(&mut blocks, self.block(at))?;
            index.push(block)?;
        }
        blocks.shrink_to_fit();
        Ok(KeyTable { index, blocks })
    }

    /// Whether both sets are kept in the same blocks.
    fn is_kept_alike(&self, other: &KeyTable) -> bool
        ensures { IsTrue result → self.now ≡ other.now }
    {
        self.index.as_slice() == other.index.as_slice()
            && self.blocks.as_slice() == other.blocks.as_slice()
    }

    /// Whether both sets have the same marks.
    fn has_same_marks(&self, other: &KeyTable) -> bool
        ensures { IsTrue result ↔ self.now ≡ other.now }
    {
        let _ = &self.index;
        let _ = &other.index;
        for at in 0..MARK_WORDS {
            if self.word(at) != other.word(at) {
                return false;
            }
        }
        true
    }

    /// The block at a place.
    pub(crate) fn block(&self, at: usize) -> [u64; BLOCK]
        requires { at < BLOCKS }
        ensures { result ≡ four self.now at }
    {
        if self.index.len() > 0 {
            block_of(self.blocks.as_slice(), self.index[at] as usize)
        } else {
            block_of(self.blocks.as_slice(), at)
        }
    }

    /// The number of 64 marks at a place.
    pub(crate) fn word(&self, at: usize) -> u64
        requires { at < MARK_WORDS }
        ensures { result ≡ slice_index self.now at }
    {
        if self.index.len() > 0 {
            let block = self.index[at / BLOCK] as usize;
            self.blocks[BLOCK * block + at % BLOCK]
        } else {
            self.blocks[at]
        }
    }

    /// Whether the mark is set.
    pub(crate) fn is_marked(&self, at: usize) -> bool
        requires { at < MARKS }
        ensures { result ≡ is_marked self.now at }
    {
        (self.word(at / 64) >> (at % 64)) % 2 == 1
    }

    /// Whether the word is a key of the set, whole or cut.
    pub fn holds(&self, word: &Word, whole: bool) -> bool
        ensures { result ≡ has_key self.now word.now whole }
    {
        self.is_marked(key_mark(word.place(), whole))
    }

    /// How the held bits stand to the keys.
    pub fn begins(&self, held: &Word) -> Begins
        ensures { IsBeginning result self.now held.now }
    {
        let _ = &self.index;
        let place = held.place();
        if begins_with_key(self, place) {
            Begins::Key
        } else if self.is_marked(STARTS + place) {
            Begins::Proper
        } else {
            Begins::Neither
        }
    }

    /// How one very word stands in the set; its own prefixes are not asked for. Going on by a bit from the empty
    /// word, and only from words that start keys, meets each key that no other one begins.
    pub fn stands(&self, word: &Word) -> Stands
        ensures { IsStanding result self.now word.now }
    {
        let _ = &self.index;
        let place = word.place();
        if is_key(self, place) {
            Stands::Key
        } else if self.is_marked(STARTS + place) {
            Stands::Starts
        } else {
            Stands::Neither
        }
    }

    /// How many bits the keys have that go on from the word, where all words of one size that go on from it are keys,
    /// and no shorter one is.
    pub fn full_behind(&self, word: &Word) -> Option<u8>
        ensures full { IfSome result (IsFull self.now word.now) }
        ensures none { IfNone result ((bits : ℕ) → ¬ IsFull self.now word.now bits) }
    {
        let _ = &self.index;
        let len = word.len();
        let Some(more) = full_size(self, word.place(), len) else {
            return None;
        };
        Some(len + more)
    }

    /// The keys of the set in a list.
    pub fn keys(&self, alloc: Global) -> Result<KeySet, NoMemory>
        ensures { IfOk result (λ keys. IsKeyList self.now keys) }
    {
        let _ = &self.index;
        let mut keys = Vec::new(alloc);
        list_keys(self, 1, 0, &mut keys)?;
        Ok(KeySet { keys })
    }

    /// One key more. After an error the set is as it was.
    pub fn add(&mut self, alloc: Global, word: &Word, whole: bool) -> Result<(), NoMemory>
        ensures added { IfOk result (λ done. Adds self.old self.new (λ key mark. (key ≡ word.now) × (mark ≡ whole))) }
        ensures err { OnErr result (self.new ≡ self.old) }
    {
        unpack(alloc, &mut self.index, &mut self.blocks)?;
        add_key(&mut self.blocks, word.place(), whole);
        Ok(())
    }

    /// The keys of another set too. After an error the set is as it was.
    pub fn add_all(&mut self, alloc: Global, other: &KeyTable) -> Result<(), NoMemory>
        ensures added { IfOk result (λ done. Adds self.old self.new (λ key mark. IsTrue (has_key other.now key mark))) }
        ensures err { OnErr result (self.new ≡ self.old) }
    {
        let _ = &other.index;
        unpack(alloc, &mut self.index, &mut self.blocks)?;
        join_marks(&mut self.blocks, other);
        Ok(())
    }

    /// All words of so many bits. After an error the set is as it was.
    pub fn add_words(&mut self, alloc: Global, size: usize, whole: bool) -> Result<(), NoMemory>
        requires { size ≤ MOST_WORD }
        ensures added { IfOk result (λ done. Adds self.old self.new (λ key mark. (length key ≡ size) × (mark ≡ whole))) }
        ensures err { OnErr result (self.new ≡ self.old) }
    {
        unpack(alloc, &mut self.index, &mut self.blocks)?;
        add_words(&mut self.blocks, words_of(size), whole);
        Ok(())
    }

    /// The keys of a first part and of what comes after it, which is in a table of its own for each number of
    /// bits modulo 8 that the first part may have. After an error the set is as it was.
    pub fn add_after(
        &mut self,
        alloc: Global,
        first: &KeyTable,
        tables: &[KeyTable],
        rests: &[usize; 8],
    ) -> Result<(), NoMemory>
        requires { (size : ℕ) → size < 8 → slice_index rests.now size < length tables.now }
        ensures added { IfOk result
            (λ done. Adds self.old self.new
            (AfterKeys first.now (λ size. slice_index_or tables.now (slice_index rests.now (size % 8)) []))) }
        ensures err { OnErr result (self.new ≡ self.old) }
    {
        let _ = &first.index;
        unpack(alloc, &mut self.index, &mut self.blocks)?;
        add_after(&mut self.blocks, first, tables, rests);
        Ok(())
    }
}

/// The keys of a first part and of what comes after it.
fn add_after(marks: &mut [u64], first: &KeyTable, tables: &[KeyTable], rests: &[usize; 8])
    requires size { length marks.old ≡ MARK_WORDS }
    requires first_size { length first.now ≡ MARK_WORDS }
    requires known { (size : ℕ) → size < 8 → slice_index rests.now size < length tables.now }
    ensures { Extends marks.old marks.new (AfterKeys first.now (λ size. slice_index_or tables.now (slice_index rests.now (size % 8)) [])) }
{
    for size in 0..MOST_WORD + 1 {
        let rest = &tables[rests[size % 8]];
        let _ = &rest.index;
        add_after_size(marks, first, rest, size);
    }
    mark_starts(marks);
}

impl PartialEq for KeyTable {
    ghost eq = { λ a b. pointwise nat_eq a b };

    ghost laws = { partial_equiv_from_equiv nat_list_eq_equiv };

    fn eq(&self, other: &KeyTable) -> bool {
        self.is_kept_alike(other) || self.has_same_marks(other)
    }
}

impl Eq for KeyTable {
    ghost laws = { nat_list_eq_equiv };
}

impl Hash for KeyTable {
    ghost hash_input = { λ marks. fed.u64 (digest_of marks) };

    ghost respects_eq = { (fed.same_Alike (λ marks. fed.u64 (digest_of marks)) (λ a b. slice_eq-Decides Decides-eqb a b (pointwise nat_eq a b) refl)).fed };

    fn hash<H: Hasher>(&self, state: &mut H) {
        let _ = &self.index;
        digest(self).hash(state);
    }
}
