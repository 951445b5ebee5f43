ghost use Rattle.std.specs.Prelude.{◌≡◌, ◌↔◌, IfOk, true};
ghost use Rattle.csn_replay.specs.Watched.{counted, is_done, report_line};
ghost use Rattle.csn_replay.specs.declared.seen.Go.TheVariants.{Done};

use crate::seen::{Go, Kind, Seen};
use crate::tally::line_of;
use csn_bits::NoMemory;
use std::alloc::Global;

/// Counts something of the blocks that it is shown, until it has counted enough.
pub trait Watcher: Drop {
    ghost use Rattle.csn_replay.specs.Watched.{Watched};

    /// What it counts, how far it has come, and when it is done.
    ghost watched: { Self → Watched };

    /// What it counts.
    fn kind(&self) -> Kind
        ensures { result ≡ (watched self.now).kind };

    /// How much it has counted so far.
    fn count(&self) -> u64
        ensures { result ≡ (watched self.now).count };

    /// The count at which it is done.
    fn until(&self) -> u64
        ensures { result ≡ (watched self.now).until };

    /// Shows it a block. A count stays at the greatest that there is.
    fn see(&mut self, seen: &Seen) -> Go
        ensures counted { watched self.new ≡ counted seen.now (watched self.old) }
        ensures done { (result ≡ Done) ↔ (is_done (watched self.new) ≡ true) };

    /// The line in which it reports, without its line feed.
    fn report_line(&self, alloc: Global) -> Result<Vec<u8>, NoMemory>
        ensures { IfOk result (λ line. line.items ≡ report_line (watched self.now)) }
    {
        line_of(alloc, self.kind(), self.count())
    }
}
