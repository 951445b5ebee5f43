//! What answers the lines of an input.

ghost use Rattle.std.specs.Prelude.{◌≤◌, length};
ghost use Rattle.csn_explaining.specs.Texts.{HasGrown};
ghost use Rattle.csn_bits.specs.declared.feed.TheConstants.{MOST_LINE};

use std::alloc::{AllocError, Global};

/// What a line was given.
#[derive(Clone, Copy, Debug, PartialEq, Eq)]
pub enum Answered {
    /// What it asks for.
    Given,
    /// The reason why it gets nothing.
    Refused,
}

/// What answers each line of an input by itself.
pub trait LineTeller {
    /// Writes what a line gives, with its line feed, and tells whether it was refused. For want of memory nothing is
    /// written.
    fn tell(
        &mut self,
        alloc: Global,
        line: &[u8],
        out: &mut Vec<u8>,
    ) -> Result<Answered, AllocError>
        requires { length line.now ≤ MOST_LINE }
        ensures { HasGrown out.old.items out.new.items };
}
