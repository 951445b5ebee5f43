ghost use Rattle.std.specs.Prelude.{◌≡◌, ◌<◌, [], length, slice_index_or, IfOk};
ghost use Rattle.csn_look.specs.KeyTables.{AreOnce};
ghost use Rattle.csn_look.specs.KeyRows.{IsMore};

use crate::key_table::KeyTable;
use csn_bits::NoMemory;
use indexmap::IndexSet;
use std::alloc::Global;
use std::marker::Model;

/// Tables of keys, each kept once. A contract sees the list of them.
#[derive(Drop)]
pub struct KeyTables {
    tables: IndexSet<KeyTable>,
}

impl Model for KeyTables {
    ghost use Rattle.std.specs.Prelude.{List, ℕ};

    ghost Value = { List (List ℕ) };

    ghost view = { λ t. t.tables.keys };
}

impl KeyTables {
    /// No tables.
    pub fn new(alloc: Global) -> KeyTables
        ensures { result ≡ [] }
    {
        KeyTables {
            tables: IndexSet::new(alloc),
        }
    }

    /// How many tables there are.
    pub fn len(&self) -> usize
        ensures { result ≡ length self.now }
    {
        self.tables.len()
    }

    /// The table with this number.
    pub fn get(&self, at: usize) -> &KeyTable
        requires { at < length self.now }
        ensures { result.now ≡ slice_index_or self.now at [] }
    {
        &self.tables.as_slice()[at]
    }

    /// All of them, in the order of their numbers.
    pub(crate) fn as_slice(&self) -> &[KeyTable]
        ensures { result.now ≡ self.now }
    {
        self.tables.as_slice()
    }

    /// Keeps a table, and answers its number: that of the one with the same keys, where there is one.
    pub fn keep(&mut self, table: KeyTable) -> Result<usize, NoMemory>
        ensures kept { IfOk result (λ at. (at < length self.new) × (slice_index_or self.new at [] ≡ table)) }
        ensures more { IsMore self.old self.new }
        ensures once { AreOnce self.new }
    {
        let (at, _added) = self.tables.insert_full(table)?;
        Ok(at)
    }
}
