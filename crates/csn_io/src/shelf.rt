ghost use Rattle.std.specs.Prelude.{◌≡◌, ℕ, ◌≤◌, List, Option, Some, IfOk, Vec, Result, vec_len, ⊤};
ghost use Rattle.std.specs.declared.alloc.Global.{Global};
ghost use Rattle.csn_io.specs.Faults.{Rose};
ghost use Rattle.csn_io.specs.ShelfFault.{OnMissing, OnFailed, UnlessFailed, BeginsFile, LacksFile};
ghost use Rattle.csn_io.specs.declared.shelf.ShelfFault.TheVariants.{NoMemory};

use std::alloc::{AllocError, Global};

/// Why a shelf gave no file.
#[derive(Clone, Copy, Debug, PartialEq, Eq)]
pub enum ShelfFault {
    /// The shelf tells its files, and has none of that name.
    Missing,
    /// The outside is at fault, and the shelf's count of faults shows it.
    Failed,
    NoMemory,
}

/// Files that are fetched by their names.
pub trait Shelf {
    ghost use Rattle.csn_io.specs.declared.shelf.ShelfFault.{ShelfFault};

    /// The files by their names, for a shelf that tells what it holds.
    ghost files: { Self → Option (List ℕ → Option (List ℕ)) };

    /// How many faults there were so far.
    ghost faults: { Self → ℕ };

    /// The name that was asked for at the last fault.
    ghost last_fault: { Self → Option (List ℕ) };

    /// No call fails any more.
    ghost steady: { Self → Type 0 };

    /// What a form promises of a call beyond what every shelf does: of itself before the call, the
    /// name, how many bytes are asked for at most, the answer, and itself afterwards.
    ghost fetch_gives: { Self → List ℕ → ℕ → Result (Vec ℕ Global) ShelfFault → Self → Type 0 } = { λ _ _ _ _ _. ⊤ };

    /// The first `most` bytes of the file with this name, or all of them where it has fewer.
    ///
    /// Want of memory may be answered in place of anything else, also for a file that is not held.
    fn fetch(&mut self, alloc: Global, name: &str, most: u32) -> Result<Vec<u8>, ShelfFault>
        ensures files_stay { files self.new ≡ files self.old }
        ensures begins_file { IfOk result (λ file. BeginsFile (files self.old) name.now most file.items) }
        ensures at_most { IfOk result (λ file. vec_len file ≤ most) }

        // Missing comes exactly where the files are told and the name is not held.
        ensures missing { OnMissing result (LacksFile (files self.old) name.now) }
        ensures failed_not_missing { OnFailed result (LacksFile (files self.old) name.now → ⊥) }

        // Failed comes only with a fault, which has the asked name; nothing else is a fault.
        ensures failed { OnFailed result (Rose (faults self.old) (faults self.new)) }
        ensures failed_name { OnFailed result (last_fault self.new ≡ Some name.now) }
        ensures no_fault { UnlessFailed result (faults self.new ≡ faults self.old) }
        ensures no_fault_name { UnlessFailed result (last_fault self.new ≡ last_fault self.old) }
        ensures never_falls { faults self.old ≤ faults self.new }

        ensures steady_stays { steady self.old → steady self.new }
        ensures steady_count { steady self.old → faults self.new ≡ faults self.old }
        ensures steady_not_failed { OnFailed result (steady self.old → ⊥) }

        ensures gives { fetch_gives self.old name.now most result self.new };
}

impl From<AllocError> for ShelfFault {
    ghost from_gives = { λ _ fault. fault ≡ NoMemory };

    fn from(_: AllocError) -> ShelfFault {
        ShelfFault::NoMemory
    }
}
