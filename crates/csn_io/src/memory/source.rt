ghost use Rattle.std.specs.Prelude.{◌≡◌, ◌<◌, ◌≤◌, [], Some};

use super::calls::Calls;
use super::unread::Unread;
use crate::faults::Faults;
use crate::source::{Got, Source};

/// A source of the bytes that it holds.
#[derive(Drop)]
pub struct MemSource {
    unread: Unread,
    most: u32,
    calls: Calls,
    faults: Faults,
    ghost some: { 0 < most },
}

impl MemSource {
    ghost use Rattle.csn_io.specs.MemSource.{Plans};

    /// Gives at most `most` bytes in a call. The calls whose numbers, counted from 0, are in
    /// `failing` fail. It takes no memory.
    pub fn new(bytes: Vec<u8>, most: u32, failing: Vec<u32>) -> MemSource
        requires { 1 ≤ most }
        ensures left { ⟦<MemSource as Source>⟧.left result ≡ Some bytes.items }
        ensures faults { ⟦<MemSource as Source>⟧.faults result ≡ 0 }
        ensures plan { Plans result most failing.items }
        ensures steady { failing.items ≡ [] → ⟦<MemSource as Source>⟧.steady result }
    {
        MemSource {
            unread: Unread::new(bytes),
            most,
            calls: Calls::new(failing),
            faults: Faults::none(),
        }
    }
}

impl Source for MemSource {
    ghost use Rattle.csn_io.specs.MemSource.{TakesAsPlanned};

    ghost left = { λ s. Some s.unread };

    ghost faults = { λ s. s.faults };

    ghost steady = { λ s. s.calls.failing.items ≡ [] };

    ghost take_gives = { TakesAsPlanned };

    fn take(&mut self, into: &mut [u8]) -> Got {
        if self.calls.next_fails() {
            self.faults.rise();
            return Got::Failed;
        }
        if self.unread.is_empty() {
            return Got::End;
        }
        let n = self.unread.read(into, self.most as usize);
        Got::Bytes(n)
    }
}
