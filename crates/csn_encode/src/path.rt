ghost use Rattle.std.specs.Prelude.{◌≡◌, ◌<◌, ◌≤◌, ◌-◌, [], ◌∷◌, ◌++◌, length, take, slice_get, OnOk, OnErr};

use csn_bits::NoMemory;
use std::alloc::Global;
use std::marker::Model;

/// The most steps that a path has: as many as there are nodes inside one another.
pub const MOST_STEPS: u32 = 64;

/// The way from the root of a tree to a tree inside it: at each tree the number of the next one, counted
/// from 0, and 0 below an alternative and below a label. A contract sees the list of the numbers.
#[derive(Drop)]
pub struct Path {
    numbers: Vec<u32>,
}

impl Model for Path {
    ghost use Rattle.csn_encode.specs.declared.path.TheConstants.{MOST_STEPS};
    ghost use Rattle.std.specs.Prelude.{List, ℕ, ◌≤◌, length};

    ghost Value = { List ℕ };

    ghost view = { λ p. p.numbers.items };

    ghost invariant = { λ p. length p.numbers.items ≤ MOST_STEPS };
}

impl Path {
    /// The path of the root. It takes no memory.
    pub(crate) fn new(alloc: Global) -> Path
        ensures { result ≡ [] }
    {
        Path {
            numbers: Vec::new(alloc),
        }
    }

    /// Goes on to the tree with this number.
    pub(crate) fn push(&mut self, number: u32) -> Result<(), NoMemory>
        requires { length self.old < MOST_STEPS }
        ensures ok { OnOk result (self.new ≡ self.old ++ number ∷ []) }
        ensures err { OnErr result (self.new ≡ self.old) }
    {
        Ok(self.numbers.push(number)?)
    }

    /// Goes back by the last step.
    pub(crate) fn pop(&mut self)
        ensures { self.new ≡ take (length self.old - 1) self.old }
    {
        self.numbers.pop();
    }

    /// How many steps the path has.
    pub fn len(&self) -> u32
        ensures count { result ≡ length self.now }
        ensures within { result ≤ MOST_STEPS }
    {
        self.numbers.len() as u32
    }

    /// The number at the step `at`, counted from 0.
    pub fn get(&self, at: u32) -> u32
        requires { at < length self.now }
        ensures { slice_get self.now at ≡ Some result }
    {
        self.numbers[at as usize]
    }
}
