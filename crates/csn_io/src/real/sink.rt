ghost use Rattle.std.specs.Prelude.{◌≡◌, ◌<◌, ◌≤◌, None, length, take};
ghost use Rattle.std.specs.Io.KnownBytes.{Appends};
ghost use Rattle.csn_io.specs.Faults.{Keeps, Rose};
ghost use Rattle.csn_io.specs.Put.{IfTook, OnFailed, UnlessFailed};
ghost use Rattle.csn_io.specs.Real.{WritesAsTold, FlushesAsTold};
ghost use Rattle.csn_io.specs.declared.sink.Put.TheVariants.{Failed};

use crate::faults::Faults;
use crate::real::flushing::Flushing;
use crate::sink::{Put, Sink};
use std::io::Write;

/// A sink over a writer, as standard output.
#[derive(Drop)]
pub struct StdSink<W> {
    writer: W,
    faults: Faults,
}

impl<W: Write> StdSink<W> {
    /// It takes no memory.
    pub fn new(writer: W) -> StdSink<W>
        ensures taken { ⟦<StdSink<W> as Sink>⟧.taken result ≡ None }
        ensures flushed { ⟦<StdSink<W> as Sink>⟧.flushed result ≡ None }
        ensures faults { ⟦<StdSink<W> as Sink>⟧.faults result ≡ 0 }
    {
        StdSink {
            writer,
            faults: Faults::none(),
        }
    }
}

impl<W: Flushing> Sink for StdSink<W> {
    ghost taken = { λ _. None };

    ghost flushed = { λ _. None };

    ghost faults = { λ s. s.faults };

    ghost steady = { λ _. ⊥ };

    ghost put_gives = { λ old _ put new. WritesAsTold (W.contents old.writer) (W.contents new.writer) put };

    ghost flush_gives = { λ old put new.
        FlushesAsTold (W.flushed_as old.writer new.writer) (W.contents old.writer) (W.contents new.writer) put };

    /// A write that takes nothing of the piece is a fault.
    fn put(&mut self, piece: &[u8]) -> Put
        requires some { 0 < length piece.now }
        requires unfailed { self.old.faults ≡ 0 }

        // The bytes that were written are the front of the piece, where the writer tells its own.
        ensures bytes { IfTook result (λ n. Appends (W.contents self.old.writer) (W.contents self.new.writer) (take n piece.now)) }

        // The clauses of the trait that are not met by what the form tells.
        ensures at_least_one { IfTook result (λ n. 0 < n) }
        ensures within { IfTook result (λ n. n ≤ length piece.now) }
        ensures failed { OnFailed result (Rose self.old.faults self.new.faults) }
        ensures no_fault { UnlessFailed result (self.new.faults ≡ self.old.faults) }
        ensures outside { Keeps ⊥ ⊥ self.old.faults self.new.faults (result ≡ Failed) }
        ensures gives { WritesAsTold (W.contents self.old.writer) (W.contents self.new.writer) result }
    {
        match self.writer.write(piece) {
            Ok(n) if n > 0 => Put::Took(n),
            _ => {
                self.faults.rise();
                Put::Failed
            }
        }
    }

    fn flush(&mut self) -> Put {
        match self.writer.flush_all() {
            Ok(()) => Put::Took(0),
            Err(_) => {
                self.faults.rise();
                Put::Failed
            }
        }
    }
}
