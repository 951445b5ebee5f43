ghost use Rattle.std.specs.Prelude.{◌≡◌, ◌≤◌, slice_get};

use crate::symbol_set::SymbolSet;
use std::marker::Model;

/// What may stand after a part, for each octet position at which the part can end. A contract sees the
/// list of the eight sets.
#[derive(Clone, Copy, Debug, PartialEq, Eq)]
pub struct Follow {
    at: [SymbolSet; 8],
}

impl Model for Follow {
    ghost use Rattle.std.specs.Prelude.{List, ◌≡◌, length};
    ghost use Rattle.csn_look.specs.SignsV.{SignsV};

    ghost Value = { List SignsV };

    ghost view = { λ f. f.at };

    ghost invariant = { λ f. length f.at ≡ 8 };

    ghost inverse = { λ sets. record { at = sets } };
}

impl Follow {
    /// The set for each octet position, from 0 to 7.
    pub fn new(at: [SymbolSet; 8]) -> Follow
        ensures { result ≡ at }
    {
        Follow { at }
    }

    /// What may stand after a part that ends at this octet position.
    pub fn at(&self, octet: u8) -> SymbolSet
        requires { octet ≤ 7 }
        ensures { slice_get self.now octet ≡ Some result }
    {
        self.at[octet as usize]
    }
}
