ghost use Rattle.std.specs.Prelude.{OnOk, ⊤};
ghost use Rattle.std.specs.Io.KnownBytes.{Keeps};

use std::io::{self, Write};

/// A writer of which a flush that was made can be told from one that was left out. `Write` says only that a flush keeps
/// what the writer holds.
pub trait Flushing: Write {
    /// What a flush that succeeds does to the writer.
    ghost flushed_as: { Self → Self → Type 0 };

    /// A flush, as `Write` has it.
    fn flush_all(&mut self) -> io::Result<()>
        ensures flushed { OnOk result (flushed_as self.old self.new) }
        ensures bytes { Keeps (Self.contents self.old) (Self.contents self.new) };
}

impl<W: Write> Flushing for W {
    ghost flushed_as = { λ _ _. ⊤ };

    fn flush_all(&mut self) -> io::Result<()> {
        self.flush()
    }
}
