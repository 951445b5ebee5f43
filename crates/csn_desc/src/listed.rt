ghost use Rattle.std.specs.Prelude.{◌≡◌, ◌<◌, ◌≤◌, [], ◌∷◌, ◌++◌, length, slice_get, OnOk, OnErr, IfErr};

use csn_bits::NoMemory;
use std::alloc::Global;
use std::marker::Model;

/// Items in their order, of which there are at most `MOST`. A contract sees the list of them.
#[derive(Drop)]
pub struct Listed<T, const MOST: u32> {
    items: Vec<T>,
}

impl<T, const MOST: u32> Model for Listed<T, MOST> {
    ghost use Rattle.std.specs.Prelude.{List, ◌≤◌, length};
    ghost use Rattle.std.specs.Coded.{coded_list};

    ghost Value = { List T };

    ghost coded = { coded_list T.code };

    ghost view = { λ l. l.items.items };

    ghost invariant = { λ l. length l.items.items ≤ MOST };
}

impl<T, const MOST: u32> Listed<T, MOST> {
    /// No items. It takes no memory.
    pub fn new(alloc: Global) -> Listed<T, MOST>
        ensures { result ≡ [] }
    {
        Listed {
            items: Vec::new(alloc),
        }
    }

    /// Adds an item at the end. For want of memory it hands the item back.
    pub fn push(&mut self, item: T) -> Result<(), T>
        requires { length self.old < MOST }
        ensures ok { OnOk result (self.new ≡ self.old ++ item ∷ []) }
        ensures err { OnErr result (self.new ≡ self.old) }
        ensures handed_back { IfErr result (λ given. given ≡ item) }
    {
        match self.items.push(item) {
            Ok(()) => Ok(()),
            Err(failed) => Err(failed.value),
        }
    }

    /// How many items there are.
    pub fn len(&self) -> u32
        ensures len { result ≡ length self.now }
        ensures bound { result ≤ MOST }
    {
        self.items.len() as u32
    }

    /// The item at the place `at`, counted from 0.
    pub fn get(&self, at: u32) -> &T
        requires { at < length self.now }
        ensures { slice_get self.now at ≡ Some result.now }
    {
        &self.items[at as usize]
    }
}

impl<T: Drop, const MOST: u32> Listed<T, MOST> {
    /// Adds an item at the end. Behind `MOST` items there is no memory for one more.
    pub fn add(&mut self, item: T) -> Result<(), NoMemory>
        ensures ok { OnOk result (self.new ≡ self.old ++ item ∷ []) }
        ensures err { OnErr result (self.new ≡ self.old) }
    {
        if self.len() >= MOST {
            return Err(NoMemory);
        }
        match self.push(item) {
            Ok(()) => Ok(()),
            Err(_) => Err(NoMemory),
        }
    }
}
