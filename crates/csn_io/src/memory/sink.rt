ghost use Rattle.std.specs.Prelude.{◌≡◌, ◌<◌, ◌≤◌, [], Some, length};

use super::calls::Calls;
use crate::faults::Faults;
use crate::sink::{Put, Sink};
use std::alloc::Global;

/// A sink that keeps what it takes.
#[derive(Drop)]
pub struct MemSink {
    taken: Vec<u8>,
    flushed: usize,
    most: u32,
    calls: Calls,
    faults: Faults,
    ghost within: { flushed ≤ length taken.items },
    ghost some: { 0 < most },
}

impl MemSink {
    ghost use Rattle.csn_io.specs.MemSink.{Plans};

    /// Takes at most `most` bytes in a call. The calls whose numbers are in `failing` fail, where
    /// `put` and `flush` are counted together from 0. It takes no memory.
    pub fn new(alloc: Global, most: u32, failing: Vec<u32>) -> MemSink
        requires { 1 ≤ most }
        ensures taken { ⟦<MemSink as Sink>⟧.taken result ≡ Some [] }
        ensures flushed { ⟦<MemSink as Sink>⟧.flushed result ≡ Some 0 }
        ensures faults { ⟦<MemSink as Sink>⟧.faults result ≡ 0 }
        ensures plan { Plans result most failing.items }
        ensures steady { failing.items ≡ [] → ⟦<MemSink as Sink>⟧.steady result }
    {
        MemSink {
            taken: Vec::new(alloc),
            flushed: 0,
            most,
            calls: Calls::new(failing),
            faults: Faults::none(),
        }
    }

    /// All bytes that were taken, also those that are not flushed.
    pub fn taken(&self) -> &[u8]
        ensures { ⟦<MemSink as Sink>⟧.taken self.now ≡ Some result.now }
    {
        &self.taken
    }
}

impl Sink for MemSink {
    ghost use Rattle.csn_io.specs.MemSink.{FlushesAsPlanned, PutsAsPlanned};

    ghost taken = { λ s. Some s.taken.items };

    ghost flushed = { λ s. Some s.flushed };

    ghost faults = { λ s. s.faults };

    ghost steady = { λ s. s.calls.failing.items ≡ [] };

    ghost put_gives = { PutsAsPlanned };

    ghost flush_gives = { FlushesAsPlanned };

    fn put(&mut self, piece: &[u8]) -> Put {
        if self.calls.next_fails() {
            self.faults.rise();
            return Put::Failed;
        }
        let n = piece.len().min(self.most as usize);
        match self.taken.extend_from_slice(&piece[..n]) {
            Ok(()) => Put::Took(n),
            Err(_) => Put::NoMemory,
        }
    }

    fn flush(&mut self) -> Put {
        if self.calls.next_fails() {
            self.faults.rise();
            return Put::Failed;
        }
        self.flushed = self.taken.len();
        Put::Took(0)
    }
}
