ghost use Rattle.std.specs.Prelude.{◌≡◌, ◌<◌, ◌%◌, ◌≤◌, [], ℕ, length, slice_index, slice_index_or, IfOk, IfSome};
ghost use Rattle.csn_look.specs.KeyProducts.{AfterKeys};
ghost use Rattle.csn_look.specs.KeyRows.{table_of, HasTable, IsMore};
ghost use Rattle.csn_look.specs.KeyMarks.{KeysAre};
ghost use Rattle.csn_look.specs.MadeProducts.{IsProduct, LeafKeys, leaf_of_size};

use crate::key_marks::{STARTS, key_mark};
use crate::key_table::KeyTable;
use crate::key_tables::KeyTables;
use crate::word::{MOST_WORD, Word};
use csn_bits::NoMemory;
use indexmap::IndexMap;
use std::alloc::Global;
use std::collections::BTreeMap;
use std::marker::Model;

/// That the table `at` has the keys of the table `first` and of what comes after it.
#[derive(Clone, Copy)]
pub(crate) struct Product {
    pub first: usize,
    pub rests: [usize; 8],
    pub at: usize,
}

/// Tables of keys while they are made, with the products that were made already, each of which is made once.
/// A contract sees the list of tables.
#[derive(Drop)]
pub(crate) struct TableMaker {
    tables: KeyTables,
    products: Vec<Product>,
    // where a product with this digest is likely to stand
    likely: BTreeMap<u64, usize>,
    // which table has one key, or all words of a size
    leaves: IndexMap<usize, usize>,
}

impl Model for TableMaker {
    ghost use Rattle.std.specs.Prelude.{List, ℕ};

    ghost Value = { List (List ℕ) };

    ghost use Rattle.csn_look.specs.MadeProducts.{AreMade};

    ghost view = { λ m. m.tables };

    ghost invariant = { λ m. AreMade m.tables m.products.items m.leaves };
}

impl TableMaker {
    /// No tables.
    pub fn new(alloc: Global) -> TableMaker
        ensures { result ≡ [] }
    {
        TableMaker {
            tables: KeyTables::new(alloc),
            products: Vec::new(alloc),
            likely: BTreeMap::new(alloc),
            leaves: IndexMap::new(alloc),
        }
    }

    /// The tables that were made.
    pub fn into_tables(self) -> KeyTables
        ensures { result ≡ self }
    {
        self.tables
    }

    /// The table with this number.
    pub fn get(&self, at: usize) -> &KeyTable
        requires { at < length self.now }
        ensures { result.now ≡ slice_index_or self.now at [] }
    {
        self.tables.get(at)
    }

    /// Keeps a table, and answers its number.
    pub fn keep(&mut self, alloc: Global, table: &KeyTable) -> Result<usize, NoMemory>
        ensures kept { IfOk result (λ at. (at < length self.new) × (slice_index_or self.new at [] ≡ table.now)) }
        ensures more { IsMore self.old self.new }
    {
        self.tables.keep(table.packed(alloc)?)
    }

    /// Keeps the table of the keys of a first part and of what comes after it, which is in a table of its own for
    /// each number of bits modulo 8 that the first part may have; and answers its number.
    pub fn keep_after(
        &mut self,
        alloc: Global,
        first: usize,
        rests: &[usize; 8],
    ) -> Result<usize, NoMemory>
        requires first { first < length self.old }
        requires rests { (size : ℕ) → size < 8 → slice_index rests.now size < length self.old }
        ensures kept { IfOk result
            (λ at. HasTable self.new at
            (AfterKeys (table_of self.old first) (λ size. table_of self.old (slice_index rests.now (size % 8))))) }
        ensures more { IsMore self.old self.new }
    {
        let digest = digest_of(first, rests);
        if let Some(at) = self.made(digest, first, rests) {
            return Ok(at);
        }
        let mut table = KeyTable::new(alloc)?;
        table.add_after(alloc, self.get(first), self.tables.as_slice(), rests)?;
        let at = self.keep(alloc, &table)?;
        let product = Product {
            first,
            rests: *rests,
            at,
        };
        self.remember(digest, product)?;
        Ok(at)
    }

    /// Keeps the table of one key, and answers its number.
    pub fn keep_key(&mut self, alloc: Global, word: &Word, whole: bool) -> Result<usize, NoMemory>
        ensures kept { IfOk result (λ at. HasTable self.new at (λ key mark. (key ≡ word.now) × (mark ≡ whole))) }
        ensures more { IsMore self.old self.new }
    {
        let leaf = key_mark(word.place(), whole);
        if let Some(at) = self.leaf(leaf) {
            return Ok(at);
        }
        let mut table = KeyTable::new(alloc)?;
        table.add(alloc, word, whole)?;
        self.keep_leaf(alloc, leaf, &table)
    }

    /// Keeps the table of all words of so many bits, and answers its number.
    pub fn keep_words(&mut self, alloc: Global, size: usize, whole: bool) -> Result<usize, NoMemory>
        requires { size ≤ MOST_WORD }
        ensures kept { IfOk result (λ at. HasTable self.new at (λ key mark. (length key ≡ size) × (mark ≡ whole))) }
        ensures more { IsMore self.old self.new }
    {
        let leaf = leaf_of_size(size, whole);
        if let Some(at) = self.leaf(leaf) {
            return Ok(at);
        }
        let mut table = KeyTable::new(alloc)?;
        table.add_words(alloc, size, whole)?;
        self.keep_leaf(alloc, leaf, &table)
    }

    /// The table that is looked up by this number, where it was made.
    fn leaf(&self, leaf: usize) -> Option<usize>
        ensures { IfSome result (λ at. HasTable self.now at (LeafKeys leaf)) }
    {
        let at = self.leaves.get(&leaf)?;
        Some(*at)
    }

    /// Keeps the table that is looked up by this number, and answers its own.
    fn keep_leaf(&mut self, alloc: Global, leaf: usize, table: &KeyTable) -> Result<usize, NoMemory>
        requires { KeysAre table.now (LeafKeys leaf) }
        ensures kept { IfOk result (λ at. HasTable self.new at (LeafKeys leaf)) }
        ensures more { IsMore self.old self.new }
    {
        let at = self.keep(alloc, table)?;
        self.leaves.insert(leaf, at)?;
        Ok(at)
    }

    /// The table that was made of these, where it is known.
    fn made(&self, digest: u64, first: usize, rests: &[usize; 8]) -> Option<usize>
        ensures { IfSome result (λ at. IsProduct self.now first rests.now at) }
    {
        let Some(at) = self.likely.get(&digest) else {
            return None;
        };
        if *at >= self.products.len() {
            return None;
        }
        let product = self.products[*at];
        if product.first == first && product.rests == *rests {
            Some(product.at)
        } else {
            None
        }
    }

    /// Keeps in mind that a product was made.
    fn remember(&mut self, digest: u64, product: Product) -> Result<(), NoMemory>
        requires { IsProduct self.old product.first product.rests product.at }
        ensures { self.new ≡ self.old }
    {
        let at = self.products.len();
        self.products.push(product)?;
        self.likely.insert(digest, at)?;
        Ok(())
    }
}

/// What the table of all words of so many bits is looked up by.
fn leaf_of_size(size: usize, whole: bool) -> usize
    requires { size ≤ MOST_WORD }
    ensures { result ≡ leaf_of_size size whole }
{
    let leaf = STARTS + size;
    if whole { leaf } else { leaf + MOST_WORD + 1 }
}

/// A number that is the same for the same numbers, and mostly another for others.
fn digest_of(first: usize, rests: &[usize; 8]) -> u64 {
    let mut digest: u64 = 0xCBF2_9CE4_8422_2325 ^ first as u64;
    for rest in rests {
        digest = digest.wrapping_mul(0x0100_0000_01B3).rotate_left(29) ^ *rest as u64;
    }
    digest
}
