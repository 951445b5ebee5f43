ghost use Rattle.std.specs.Prelude.{◌≡◌, [], None, Some, take, IfOk};
ghost use Rattle.csn_io.specs.Faults.{name_of};
ghost use Rattle.csn_io.specs.Files.{file_of};

use super::calls::Calls;
use crate::faults::NamedFaults;
use crate::shelf::{Shelf, ShelfFault};
use std::alloc::{AllocError, Global};
use std::collections::BTreeMap;

/// A shelf of the files that it holds.
#[derive(Drop)]
pub struct MemShelf {
    files: BTreeMap<String, Vec<u8>>,
    calls: Calls,
    faults: NamedFaults,
}

impl MemShelf {
    ghost use Rattle.csn_io.specs.MemShelf.{Plans};

    /// The calls whose numbers, counted from 0, are in `failing` fail, but for those that ask for
    /// a name that is not held. It takes no memory.
    pub fn new(files: BTreeMap<String, Vec<u8>>, failing: Vec<u32>) -> MemShelf
        ensures files { ⟦<MemShelf as Shelf>⟧.files result ≡ Some (file_of files) }
        ensures faults { ⟦<MemShelf as Shelf>⟧.faults result ≡ 0 }
        ensures last_fault { ⟦<MemShelf as Shelf>⟧.last_fault result ≡ None }
        ensures plan { Plans result failing.items }
        ensures steady { failing.items ≡ [] → ⟦<MemShelf as Shelf>⟧.steady result }
    {
        MemShelf {
            files,
            calls: Calls::new(failing),
            faults: NamedFaults::none(),
        }
    }
}

impl Shelf for MemShelf {
    ghost use Rattle.csn_io.specs.MemShelf.{FetchesAsPlanned};

    ghost files = { λ s. Some (file_of s.files) };

    ghost faults = { λ s. s.faults.count };

    ghost last_fault = { λ s. name_of s.faults.last };

    ghost steady = { λ s. s.calls.failing.items ≡ [] };

    ghost fetch_gives = { FetchesAsPlanned };

    fn fetch(&mut self, alloc: Global, name: &str, most: u32) -> Result<Vec<u8>, ShelfFault> {
        let fails = self.calls.next_fails();
        let Some(file) = self.files.get(name) else {
            return Err(ShelfFault::Missing);
        };
        if fails {
            self.faults.rise(alloc, name)?;
            return Err(ShelfFault::Failed);
        }
        Ok(front(alloc, file, most)?)
    }
}

/// The first `most` bytes, or all.
fn front(alloc: Global, file: &[u8], most: u32) -> Result<Vec<u8>, AllocError>
    ensures { IfOk result (λ front. front.items ≡ take most file.now) }
{
    let n = file.len().min(most as usize);
    Vec::from_slice(alloc, &file[..n])
}
