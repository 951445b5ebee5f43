ghost use Rattle.std.specs.Prelude.{◌≡◌, ◌≤◌, ◌<◌, ◌++◌, ◌∷◌, [], length, slice_get, Some, OnOk, IsTrue};

use csn_bits::NoMemory;
use csn_cert::Pattern;
use csn_cert::laws::texts_are_of_one_pattern;
use std::alloc::Global;
use std::marker::Model;

/// Patterns for each of the first few octet positions. A contract sees the list of these lists.
#[derive(Drop)]
pub(crate) struct Row {
    lists: Vec<Vec<Pattern>>,
}

impl Model for Row {
    ghost use Rattle.std.specs.Prelude.{List, map};
    ghost use Rattle.csn_cert.specs.PatternV.{PatternV};

    ghost Value = { List (List PatternV) };

    ghost view = { λ r. map (λ v. v.items) r.lists.items };
}

impl Row {
    /// No lists.
    pub fn new(alloc: Global) -> Row
        ensures { result ≡ [] }
    {
        Row {
            lists: Vec::new(alloc),
        }
    }

    /// Adds the patterns of the next octet position.
    pub fn push(&mut self, patterns: Vec<Pattern>) -> Result<(), NoMemory>
        ensures { OnOk result (self.new ≡ self.old ++ patterns.items ∷ []) }
    {
        Ok(self.lists.push(patterns)?)
    }

    /// Whether the lists are those of another.
    pub fn same(&self, other: &Row) -> bool
        ensures { IsTrue result → self.now ≡ other.now }
    {
        texts_are_of_one_pattern();
        self.lists == other.lists
    }

    /// The patterns at an octet position.
    pub fn at(&self, octet: u8) -> &[Pattern]
        requires { octet < length self.now }
        ensures { slice_get self.now octet ≡ Some result.now }
    {
        self.lists[octet as usize].as_slice()
    }
}
