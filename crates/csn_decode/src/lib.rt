//! The decoder of blocks: bits in, in whatever pieces they come, and at the end the tree that they have.
#![tactic(auto)]

mod alternative;
mod builder;
mod decoder;
mod open;
mod track;
mod verdict;

pub use csn_judge::Fed;
pub use decoder::Decoder;
pub use verdict::DecodeFault;
