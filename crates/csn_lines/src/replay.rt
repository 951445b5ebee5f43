//! Lines of `replay`: a line of a capture in, what its block is shown as and the reports of watchers out.

ghost use Rattle.std.specs.Prelude.{◌≡◌, ◌++◌, [], List, ℕ, length, map, IfOk};
ghost use Rattle.csn_lines.specs.Language.{of_plans};
ghost use Rattle.csn_lines.specs.Replaying.{ReadsCapture, desc_of};
ghost use Rattle.csn_lines.specs.Work.{watching};

use crate::capture_text::CaptureText;
use crate::lines::{LINE_FEED, LineCommand, LineResult};
use csn_io::MemSink;
use csn_replay::{Told, Watcher, close, tell};
use std::alloc::{AllocError, Global};
use std::mem;

/// How many bytes of reports are taken at once.
const REPORT_PIECE: u32 = 4096;

/// The command `replay`.
#[derive(Drop)]
pub struct Replay<'a> {
    pub text: CaptureText<'a>,
    /// Those that are left.
    pub watchers: Vec<Box<dyn Watcher>>,
}

impl LineCommand for Replay<'_> {
    ghost work = { λ s. watching (of_plans (map desc_of s.text.writers.items)) };

    ghost kept = { λ s. record { bodies = []; watchers = map (λ b. (Watcher-box b).watched b.value) s.watchers.items } };

    ghost reads = { λ s line. ReadsCapture s.text.writers.items s.text.head line };

    fn take(&mut self, bytes: &[u8]) -> Result<(), AllocError> {
        self.text.take(bytes);
        Ok(())
    }

    fn answer(&mut self, alloc: Global, out: &mut Vec<u8>) -> LineResult {
        let (answered, seen) = self.text.answer(out)?;
        out.push(LINE_FEED)?;
        let Some(seen) = seen else {
            return Ok(answered);
        };
        let mut reports = MemSink::new(alloc, REPORT_PIECE, Vec::new(alloc));
        match tell(alloc, &mut self.watchers, &seen, &mut reports) {
            Told::Ok => {
                out.extend_from_slice(reports.taken())?;
                Ok(answered)
            }
            Told::WriteFault => Err(AllocError),
            Told::NoMemory => Err(AllocError),
        }
    }

    fn close(&mut self, alloc: Global, out: &mut Vec<u8>) -> Result<(), AllocError> {
        let left = mem::replace(&mut self.watchers, Vec::new(alloc));
        let mut reports = MemSink::new(alloc, REPORT_PIECE, Vec::new(alloc));
        match close(alloc, left, &mut reports) {
            Told::Ok => out.extend_from_slice(reports.taken()),
            Told::WriteFault => Err(AllocError),
            Told::NoMemory => Err(AllocError),
        }
    }
}
