//! Lines that are kept whole, for a command that answers a line all at once.

ghost use Rattle.std.specs.Prelude.{◌≡◌, ◌<◌, ◌≤◌, ◌++◌, ◌∷◌, [], List, ℕ, length, IfOk, OnOk, OnErr};
ghost use Rattle.csn_lines.specs.declared.lines.TheConstants.{LINE_FEED, MOST_INPUT};
ghost use Rattle.csn_lines.specs.Lines.{is_refusal, is_refused};
ghost use Rattle.csn_lines.specs.LineState.{closing_of};
ghost use Rattle.csn_lines.specs.Work.{Works};

use crate::lines::{LINE_FEED, LineCommand, LineResult};
use std::alloc::{AllocError, Global};

/// A command that answers each line of the input as a whole. The answer may depend on the lines before it.
pub trait WholeLineCommand {
    ghost use Rattle.csn_lines.specs.LineState.{Kept};
    ghost use Rattle.csn_lines.specs.Work.{LineWork};

    /// What it does.
    ghost work: { Self → LineWork };

    /// What it keeps of the lines so far.
    ghost kept: { Self → Kept };

    /// Writes what a line gives, without its line feed.
    fn answer(&mut self, alloc: Global, line: &[u8], out: &mut Vec<u8>) -> LineResult
        requires some { 0 < length line.now }
        requires fits { length line.now ≤ MOST_INPUT }
        ensures ok { IfOk result (λ answered. (answer : List ℕ) × (out.new.items ≡ out.old.items ++ answer)
            × Works (work self.old) (kept self.old) line.now (answer ++ LINE_FEED ∷ []) (kept self.new)
            × (is_refused answered ≡ is_refusal answer)) }
        ensures work { work self.new ≡ work self.old }
        ensures err { OnErr result ((tail : List ℕ) × (out.new.items ≡ out.old.items ++ tail)) };

    /// Writes what stands behind the last line.
    fn close(&mut self, alloc: Global, out: &mut Vec<u8>) -> Result<(), AllocError>
        ensures ok { OnOk result (out.new.items ≡ out.old.items ++ closing_of (kept self.old)) }
        ensures err { OnErr result ((tail : List ℕ) × (out.new.items ≡ out.old.items ++ tail)) };
}

/// A command over whole lines, with what was taken of the open one.
#[derive(Drop)]
pub struct WholeLines<C> {
    line: Vec<u8>,
    command: C,
}

impl<C> WholeLines<C> {
    pub fn new(alloc: Global, command: C) -> WholeLines<C>
        ensures line { result.line.items ≡ [] }
        ensures command { result.command ≡ command }
    {
        WholeLines {
            line: Vec::new(alloc),
            command,
        }
    }
}

impl<C: WholeLineCommand> LineCommand for WholeLines<C> {
    ghost work = { λ s. C.work s.command };

    ghost kept = { λ s. C.kept s.command };

    ghost reads = { λ s line. s.line.items ≡ line };

    fn take(&mut self, bytes: &[u8]) -> Result<(), AllocError> {
        self.line.extend_from_slice(bytes)
    }

    /// The line is forgotten, but its memory is kept for the next one.
    fn answer(&mut self, alloc: Global, out: &mut Vec<u8>) -> LineResult {
        let answered = self.command.answer(alloc, &self.line, out)?;
        out.push(LINE_FEED)?;
        self.line.clear();
        Ok(answered)
    }

    fn close(&mut self, alloc: Global, out: &mut Vec<u8>) -> Result<(), AllocError> {
        self.command.close(alloc, out)
    }
}
