ghost use Rattle.std.specs.Prelude.{◌≡◌, ◌≤◌, None, IfOk, IfSome, take, vec_len};
ghost use Rattle.csn_io.specs.Faults.{name_of};

use crate::faults::NamedFaults;
use crate::shelf::{Shelf, ShelfFault};
use std::alloc::Global;
use std::fs;
use std::io::{self, ErrorKind, Read};
use std::rt::Files;

/// A shelf of the files of the system, where a name is a path.
#[derive(Drop)]
pub struct DirShelf<'a, R> {
    rt: &'a R,
    faults: NamedFaults,
}

impl<'a, R: Files> DirShelf<'a, R> {
    /// It takes no memory.
    pub fn new(rt: &'a R) -> DirShelf<'a, R>
        ensures files { ⟦<DirShelf<'a, R> as Shelf>⟧.files result ≡ None }
        ensures faults { ⟦<DirShelf<'a, R> as Shelf>⟧.faults result ≡ 0 }
        ensures last_fault { ⟦<DirShelf<'a, R> as Shelf>⟧.last_fault result ≡ None }
    {
        DirShelf {
            rt,
            faults: NamedFaults::none(),
        }
    }
}

impl<'a, R: Files> Shelf for DirShelf<'a, R> {
    ghost files = { λ _. None };

    ghost faults = { λ s. s.faults.count };

    ghost last_fault = { λ s. name_of s.faults.last };

    ghost steady = { λ _. ⊥ };

    fn fetch(&mut self, alloc: Global, name: &str, most: u32) -> Result<Vec<u8>, ShelfFault> {
        match read_front(self.rt, alloc, name, most) {
            Ok(file) => Ok(file),
            Err(error) if error.kind() == ErrorKind::OutOfMemory => Err(ShelfFault::NoMemory),
            Err(_) => {
                self.faults.rise(alloc, name)?;
                Err(ShelfFault::Failed)
            }
        }
    }
}

/// The first `most` bytes of a file, or all.
fn read_front<R: Files>(rt: &R, alloc: Global, name: &str, most: u32) -> io::Result<Vec<u8>>
    ensures { IfOk result (λ front. vec_len front ≤ most) }
{
    read_most(alloc, fs::open(rt, name)?, most)
}

/// The first `most` bytes that a reader gives, or all.
fn read_most<R: Read + Drop>(alloc: Global, from: R, most: u32) -> io::Result<Vec<u8>>
    ensures bytes { IfSome (R.remaining from) (λ bytes. IfOk result (λ front. front.items ≡ take most bytes)) }
    ensures at_most { IfOk result (λ front. vec_len front ≤ most) }
{
    let mut front = Vec::new(alloc);
    from.take(u64::from(most)).read_to_end(&mut front)?;
    // Of a reader that does not tell its bytes no clause says that `take` keeps to its limit.
    front.truncate(most as usize);
    Ok(front)
}
