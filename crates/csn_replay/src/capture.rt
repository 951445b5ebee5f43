ghost use Rattle.std.specs.Prelude.{◌≡◌, ◌≤◌, Some, IfSome, length};
ghost use Rattle.csn_replay.specs.Capture.{IsCapture};

use csn_catalogue::{Entry, entry_of};
use memchr::memchr;

/// A line of a capture: the word of an entry, one space, and a block of it.
#[derive(Clone, Copy, Debug, Drop, PartialEq, Eq)]
pub struct Capture {
    pub entry: Entry,
    /// Where the block begins in the line, in bytes.
    pub block_at: u32,
}

/// The longest line that is read, in bytes.
pub const MOST_LINE: usize = 16_777_216;

/// Reads a line by its first space. Nothing is said of the block that stands behind it.
pub fn read_capture(line: &[u8]) -> Option<Capture>
    requires { length line.now ≤ 16777216 }
    ensures capture { IfSome result (λ capture. IsCapture line.now capture.entry capture.block_at) }
    ensures every { (entry : _) (at : _) → IsCapture line.now entry at → result ≡ Some (record { entry = entry; block_at = at }) }
{
    let word_end = memchr(b' ', line)?;
    let entry = entry_of(&line[..word_end])?;
    Some(Capture {
        entry,
        block_at: word_end as u32 + 1,
    })
}
