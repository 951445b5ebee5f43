ghost use Rattle.std.specs.Prelude.{◌≡◌, ◌-◌, ◌≤◌, ◌↔◌, ℕ, IsTrue, min};
ghost use Rattle.csn_sample.specs.Samples.{Fits};

use crate::span::Span;
use crate::wish::Length;

/// How many bits a part is to have: a draw keeps to it where it can.
#[derive(Clone, Copy, Debug, PartialEq, Eq)]
pub(crate) struct Room {
    pub least: u64,
    pub most: u64,
}

impl Room {
    /// The room of a whole block.
    pub fn of(length: Length) -> Room
        ensures { (bits : ℕ) → Fits length bits ↔ ((result.least ≤ bits) × (bits ≤ result.most)) }
    {
        match length {
            Length::Exactly(bits) => Room {
                least: u64::from(bits),
                most: u64::from(bits),
            },
            Length::AtMost(most) => Room {
                least: 0,
                most: u64::from(most),
            },
        }
    }

    /// The room where there are at most so many bits.
    pub fn within(self, most: u32) -> Room
        ensures least { result.least ≡ self.least }
        ensures most { result.most ≡ min self.most most }
    {
        Room {
            least: self.least,
            most: self.most.min(u64::from(most)),
        }
    }

    /// What is left of the room where so many bits of it are there, and another part comes behind.
    pub fn left(self, used: u64, behind: Span) -> Room
        ensures least { result.least ≡ self.least - used - behind.most }
        ensures most { result.most ≡ self.most - used - behind.least }
    {
        Room {
            least: self.least.saturating_sub(used).saturating_sub(behind.most),
            most: self.most.saturating_sub(used).saturating_sub(behind.least),
        }
    }

    /// Whether a part of this span fits in.
    pub fn takes(self, span: Span) -> bool
        ensures { IsTrue result ↔ ((span.least ≤ self.most) × (self.least ≤ span.most)) }
    {
        span.least <= self.most && self.least <= span.most
    }
}
