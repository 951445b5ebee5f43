ghost use Rattle.std.specs.Prelude.{◌≡◌};
ghost use Rattle.csn_lines.specs.declared.fault.Fault.TheVariants.{Memory};
ghost use Rattle.csn_lines.specs.Ends.{end_by};

use csn_plan::Ended;
use std::alloc::{AllocError, AllocFailed};

/// Why a run stopped before its job was done.
#[derive(Clone, Copy, Debug, PartialEq, Eq)]
pub enum Fault {
    /// A file or the input could not be read.
    Read,
    /// The output could not be written.
    Write,
    /// There was no memory.
    Memory,
    /// A description or the input is longer than its limit.
    TooLong,
}

impl Fault {
    /// The end of a run that the fault stopped.
    pub fn end(self) -> Ended
        ensures { result ≡ end_by self }
    {
        match self {
            Fault::Read => Ended::ReadFault,
            Fault::Write => Ended::WriteFault,
            Fault::Memory => Ended::NoMemory,
            Fault::TooLong => Ended::TooLong,
        }
    }
}

impl From<AllocError> for Fault {
    ghost from_gives = { λ _ fault. fault ≡ Memory };

    fn from(_: AllocError) -> Fault {
        Fault::Memory
    }
}
