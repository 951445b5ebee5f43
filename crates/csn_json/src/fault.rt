ghost use Rattle.std.specs.Prelude.{◌≡◌};
ghost use Rattle.csn_json.specs.declared.fault.JsonFault.TheVariants.{NoMemory as no_memory};

use std::alloc::AllocFailed;
use thiserror::Error;

/// Why bytes could not be read as a tree in JSON.
#[derive(Clone, Copy, Debug, Drop, PartialEq, Eq, Error)]
pub enum JsonFault {
    /// They are no JSON.
    #[error("no JSON")]
    NotJson,
    /// They are a value that shows no tree.
    #[error("a JSON value that shows no tree")]
    NotTree,
    #[error("out of memory")]
    NoMemory,
}

impl<T: Drop> From<AllocFailed<T>> for JsonFault {
    ghost from_gives = { λ _ e. e ≡ no_memory };

    fn from(_e: AllocFailed<T>) -> JsonFault {
        JsonFault::NoMemory
    }
}
