ghost use Rattle.std.specs.Prelude.{◌≡◌, ◌<◌, ◌≤◌, [], ◌∷◌, ◌++◌, length, slice_get, ◌==◌, OnOk, OnErr};
ghost use Rattle.std.specs.List.{list_any};

use crate::desc::MOST_NODES;
use csn_bits::NoMemory;
use std::alloc::Global;
use std::marker::Model;

/// The numbers of the parts of a node, in their order. A contract sees the list of them.
#[derive(Drop)]
pub struct Parts {
    numbers: Vec<u16>,
}

impl Model for Parts {
    ghost use Rattle.csn_desc.specs.declared.desc.TheConstants.{MOST_NODES};
    ghost use Rattle.std.specs.Prelude.{List, ℕ, ◌≤◌, length};

    ghost Value = { List ℕ };

    ghost view = { λ p. p.numbers.items };

    ghost invariant = { λ p. length p.numbers.items ≤ MOST_NODES };
}

impl Parts {
    /// No parts. It takes no memory.
    pub fn new(alloc: Global) -> Parts
        ensures { result ≡ [] }
    {
        Parts {
            numbers: Vec::new(alloc),
        }
    }

    /// Adds a part at the end; fewer than 16,384 stand before it.
    pub fn push(&mut self, part: u16) -> Result<(), NoMemory>
        requires { length self.old < MOST_NODES }
        ensures ok { OnOk result (self.new ≡ self.old ++ part ∷ []) }
        ensures err { OnErr result (self.new ≡ self.old) }
    {
        Ok(self.numbers.push(part)?)
    }

    /// How many parts there are.
    pub fn len(&self) -> u16
        ensures len { result ≡ length self.now }
        ensures bound { result ≤ MOST_NODES }
    {
        self.numbers.len() as u16
    }

    /// The number of the part at the place `at`, counted from 0.
    pub fn get(&self, at: u16) -> u16
        requires { at < length self.now }
        ensures { slice_get self.now at ≡ Some result }
    {
        self.numbers[at as usize]
    }

    /// Whether the node with this number is one of the parts.
    pub(crate) fn has(&self, part: u16) -> bool
        ensures { result ≡ list_any (λ number. number == part) self.now }
    {
        self.numbers.contains(&part)
    }
}
