//! Captures of blocks, and watchers that count what is in them.
#![tactic(auto)]

mod capture;
mod head;
pub mod laws;
mod output;
mod seen;
mod tally;
mod telling;
mod told;
mod watcher;
mod watchers;

pub use capture::{Capture, MOST_LINE, read_capture};
pub use head::CaptureHead;
pub use output::put_all;
pub use seen::{Go, Kind, Seen};
pub use telling::{close, tell};
pub use told::Told;
pub use watcher::Watcher;
pub use watchers::{BitsWatcher, EntryWatcher, RefusedWatcher};
