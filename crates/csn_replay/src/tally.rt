//! What the watchers of this crate are made of.

ghost use Rattle.std.specs.Prelude.{◌≡◌, ◌+◌, ◌++◌, ◌↔◌, IfOk, OnOk, min, true, leb, codes};
ghost use Rattle.std.specs.Fmt.{decimal};
ghost use Rattle.csn_replay.specs.Watched.{greatest_count, title};
ghost use Rattle.csn_replay.specs.declared.seen.Go.TheVariants.{Done};

use crate::seen::{Go, Kind};
use csn_bits::NoMemory;
use csn_catalogue::word_of;
use itoa::Buffer;
use std::alloc::Global;

/// A count that comes from 0, and the number at which it has come far enough.
#[derive(Drop)]
pub struct Tally {
    pub count: u64,
    pub until: u64,
}

impl Tally {
    pub fn new(until: u64) -> Tally
        ensures count { result.count ≡ 0 }
        ensures until { result.until ≡ until }
    {
        Tally { count: 0, until }
    }

    pub fn add(&mut self, weight: u64) -> Go
        ensures count { self.new.count ≡ min (self.old.count + weight) greatest_count }
        ensures until { self.new.until ≡ self.old.until }
        ensures done { (result ≡ Done) ↔ (leb self.new.until self.new.count ≡ true) }
    {
        self.count = self.count.saturating_add(weight);
        if self.count >= self.until {
            Go::Done
        } else {
            Go::Stay
        }
    }
}

/// The line that reports a count, without its line feed.
pub fn line_of(alloc: Global, kind: Kind, count: u64) -> Result<Vec<u8>, NoMemory>
    ensures { IfOk result (λ line. line.items ≡ title kind ++ codes " " ++ decimal count) }
{
    let mut line = Vec::new(alloc);
    push_title(&mut line, kind)?;
    push_count(&mut line, count)?;
    Ok(line)
}

/// Adds what a count of this kind is called.
fn push_title(line: &mut Vec<u8>, kind: Kind) -> Result<(), NoMemory>
    ensures { OnOk result (line.new.items ≡ line.old.items ++ title kind) }
{
    match kind {
        Kind::Blocks(entry) => {
            line.extend_from_slice(b"entry ")?;
            line.extend_from_slice(word_of(entry))?;
        }
        Kind::Refused => line.extend_from_slice(b"refused")?,
        Kind::Length => line.extend_from_slice(b"bits")?,
    }
    Ok(())
}

/// Adds a space, and the count in decimal.
fn push_count(line: &mut Vec<u8>, count: u64) -> Result<(), NoMemory>
    ensures { OnOk result (line.new.items ≡ line.old.items ++ codes " " ++ decimal count) }
{
    line.push(b' ')?;
    line.extend_from_slice(Buffer::new().format(count).as_bytes())?;
    Ok(())
}
