//! Blocks of an entry of the catalogue made by a generator, and judged.
#![tactic(auto)]

mod generator;
mod soaking;
mod template;

pub use soaking::{MOST_BLOCKS, Soaked, soak};
