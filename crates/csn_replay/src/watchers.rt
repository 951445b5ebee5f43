//! The watchers of this crate, one for each kind of count.

ghost use Rattle.std.specs.Prelude.{◌≡◌, ◌≤◌};
ghost use Rattle.csn_replay.specs.declared.seen.Kind.TheVariants.{Blocks, Refused, Length};

use crate::seen::{Go, Kind, Seen};
use crate::tally::Tally;
use crate::watcher::Watcher;
use csn_catalogue::Entry;

/// Counts the blocks of an entry.
#[derive(Drop)]
pub struct EntryWatcher {
    entry: Entry,
    tally: Tally,
}

impl EntryWatcher {
    /// Counts the blocks of an entry, up to this count.
    pub fn new(entry: Entry, until: u64) -> EntryWatcher
        requires { 1 ≤ until }
        ensures { ⟦<EntryWatcher as Watcher>⟧.watched result ≡ record { kind = Blocks entry; count = 0; until = until } }
    {
        EntryWatcher {
            entry,
            tally: Tally::new(until),
        }
    }
}

impl Watcher for EntryWatcher {
    ghost watched = { λ w. record { kind = Blocks w.entry; count = w.tally.count; until = w.tally.until } };

    fn kind(&self) -> Kind {
        Kind::Blocks(self.entry)
    }

    fn count(&self) -> u64 {
        self.tally.count
    }

    fn until(&self) -> u64 {
        self.tally.until
    }

    fn see(&mut self, seen: &Seen) -> Go {
        self.tally.add(u64::from(seen.entry == self.entry))
    }
}

/// Counts the blocks that are refused.
#[derive(Drop)]
pub struct RefusedWatcher {
    tally: Tally,
}

impl RefusedWatcher {
    /// Counts the blocks that are refused, up to this count.
    pub fn new(until: u64) -> RefusedWatcher
        requires { 1 ≤ until }
        ensures { ⟦<RefusedWatcher as Watcher>⟧.watched result ≡ record { kind = Refused; count = 0; until = until } }
    {
        RefusedWatcher {
            tally: Tally::new(until),
        }
    }
}

impl Watcher for RefusedWatcher {
    ghost watched = { λ w. record { kind = Refused; count = w.tally.count; until = w.tally.until } };

    fn kind(&self) -> Kind {
        Kind::Refused
    }

    fn count(&self) -> u64 {
        self.tally.count
    }

    fn until(&self) -> u64 {
        self.tally.until
    }

    fn see(&mut self, seen: &Seen) -> Go {
        self.tally.add(u64::from(!seen.ok))
    }
}

/// Counts the bits of all blocks.
#[derive(Drop)]
pub struct BitsWatcher {
    tally: Tally,
}

impl BitsWatcher {
    /// Counts the bits of all blocks, up to this count.
    pub fn new(until: u64) -> BitsWatcher
        requires { 1 ≤ until }
        ensures { ⟦<BitsWatcher as Watcher>⟧.watched result ≡ record { kind = Length; count = 0; until = until } }
    {
        BitsWatcher {
            tally: Tally::new(until),
        }
    }
}

impl Watcher for BitsWatcher {
    ghost watched = { λ w. record { kind = Length; count = w.tally.count; until = w.tally.until } };

    fn kind(&self) -> Kind {
        Kind::Length
    }

    fn count(&self) -> u64 {
        self.tally.count
    }

    fn until(&self) -> u64 {
        self.tally.until
    }

    fn see(&mut self, seen: &Seen) -> Go {
        self.tally.add(u64::from(seen.bits))
    }
}
