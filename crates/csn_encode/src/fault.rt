ghost use Rattle.std.specs.Prelude.{◌≡◌};

use crate::misfit::{Misfit, MisfitWhy};
use csn_bits::NoMemory;

/// Why a tree was not written as bits.
#[derive(Drop)]
pub enum EncodeFault {
    /// No bits that end within a block have the tree.
    Misfit(Misfit),
    /// There was no memory.
    NoMemory,
}

/// Why the writing of a tree stopped. Where it does not fit is told by the path.
#[derive(Clone, Copy, Drop)]
pub(crate) enum Stop {
    Misfit(MisfitWhy),
    NoMemory,
}

impl From<NoMemory> for Stop {
    ghost use Rattle.csn_encode.specs.declared.fault.Stop.TheVariants.{NoMemory as no_memory};

    ghost from_gives = { λ _ e. e ≡ no_memory };

    fn from(_e: NoMemory) -> Stop {
        Stop::NoMemory
    }
}
