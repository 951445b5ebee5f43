//! Control messages from the blocks of one downlink: a message that fits no single block comes in two, which are
//! joined (3GPP TS 44.060, clauses 10.3 and 10.4). No memory is taken.
#![tactic(auto)]

pub mod examples;
mod header;
mod joined;
mod joiner;
pub mod laws;
mod message;

pub use joined::{Joined, MOST_MESSAGE, SegmentWhy};
pub use joiner::Joiner;
