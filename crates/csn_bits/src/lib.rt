//! Bit strings of at most 65,536 octets, and the block lines that spell them.
#![tactic(auto)]

mod bits;
mod digit;
mod fault;
mod feed;
pub mod laws;
mod packed;
mod pattern;

pub use bits::{Bits, MOST_BITS};
pub use digit::digit_value;
pub use fault::{BitsFault, LineWhy, NoMemory};
pub use feed::{HexEnd, HexFeed, HexStep, MOST_LINE, Pairs};
pub use packed::{MOST_ADDED, PackedBits};
pub use pattern::pattern_bit;
