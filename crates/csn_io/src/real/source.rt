ghost use Rattle.std.specs.Prelude.{◌≡◌, ◌<◌, ◌≤◌, None, length, take};
ghost use Rattle.std.specs.Io.KnownBytes.{Consumes};
ghost use Rattle.csn_io.specs.Faults.{Keeps, Rose};
ghost use Rattle.csn_io.specs.Got.{IfBytes, OnFailed};
ghost use Rattle.csn_io.specs.Real.{ReadsAsTold};
ghost use Rattle.csn_io.specs.declared.source.Got.TheVariants.{Failed};

use crate::faults::Faults;
use crate::source::{Got, Source};
use std::io::Read;

/// A source over a reader, as standard input.
#[derive(Drop)]
pub struct StdSource<R> {
    reader: R,
    faults: Faults,
}

impl<R: Read> StdSource<R> {
    /// It takes no memory.
    pub fn new(reader: R) -> StdSource<R>
        ensures left { ⟦<StdSource<R> as Source>⟧.left result ≡ None }
        ensures faults { ⟦<StdSource<R> as Source>⟧.faults result ≡ 0 }
    {
        StdSource {
            reader,
            faults: Faults::none(),
        }
    }
}

impl<R: Read> Source for StdSource<R> {
    ghost left = { λ _. None };

    ghost faults = { λ s. s.faults };

    ghost steady = { λ _. ⊥ };

    ghost take_gives = { λ old _ got new. ReadsAsTold (R.remaining old.reader) (R.remaining new.reader) got };

    fn take(&mut self, into: &mut [u8]) -> Got
        requires { 0 < length into.old }

        // The bytes are those that were read, where the reader tells its own.
        ensures bytes { IfBytes result (λ n. Consumes (R.remaining self.old.reader) (R.remaining self.new.reader) (take n into.new)) }

        // The clauses of the trait that are not met by what the form tells.
        ensures at_least_one { IfBytes result (λ n. 0 < n) }
        ensures within { IfBytes result (λ n. n ≤ length into.new) }
        ensures failed { OnFailed result (Rose self.old.faults self.new.faults) }
        ensures outside { Keeps ⊥ ⊥ self.old.faults self.new.faults (result ≡ Failed) }
        ensures gives { ReadsAsTold (R.remaining self.old.reader) (R.remaining self.new.reader) result }
    {
        match self.reader.read(into) {
            Ok(0) => Got::End,
            Ok(n) => Got::Bytes(n),
            Err(_) => {
                self.faults.rise();
                Got::Failed
            }
        }
    }
}
