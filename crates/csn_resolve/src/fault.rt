ghost use Rattle.std.specs.Prelude.{◌≡◌};
ghost use Rattle.csn_resolve.specs.declared.fault.ResolveFault.TheVariants.{NoMemory as no_memory};

use crate::why::Why;
use csn_bits::NoMemory;

/// Why a named rule gives no description.
#[derive(Clone, Copy, Debug, Drop, PartialEq, Eq)]
pub enum ResolveFault {
    /// The rules are refused. The place, in bytes from 0, is where in the text of the rules.
    Refused { why: Why, place: u32 },
    NoMemory,
}

impl From<NoMemory> for ResolveFault {
    ghost from_gives = { λ _ e. e ≡ no_memory };

    fn from(_e: NoMemory) -> ResolveFault {
        ResolveFault::NoMemory
    }
}
