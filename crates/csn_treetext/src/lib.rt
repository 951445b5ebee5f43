//! Trees as text, both ways.
#![tactic(auto)]

mod bounds;
mod closing;
mod decimals;
pub mod examples;
mod fault;
pub mod laws;
mod leaf;
mod long;
mod name;
mod next;
mod read;
mod source;
mod stack;
mod steps;
mod version;
mod write;

pub use bounds::{GREATEST_ALTERNATIVE, MOST_LEVELS, fits};
pub use fault::TextFault;
pub use read::{read_old_tree, read_tree};
pub use version::Version;
pub use write::write_tree;
