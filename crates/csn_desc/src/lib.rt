//! What a description is made of, and the trees that its blocks have.
#![tactic(auto)]

mod begun;
mod builder;
mod desc;
pub mod examples;
mod kept;
mod label;
pub mod laws;
mod listed;
mod moves;
mod node;
mod overfull;
mod parts;
mod reading;
mod run;
mod symbol;
mod tree;

pub use builder::{DescBuilder, DescFault, MOST_DEPTH};
pub use desc::{Desc, MOST_NODES};
pub use label::{Label, LabelFault, is_label};
pub use listed::Listed;
pub use moves::Move;
pub use node::{Count, Head, MOST_ADDED, MOST_COUNT, MOST_VALUE_BITS, Node};
pub use parts::Parts;
pub use reading::Reading;
pub use run::{MOST_SYMBOLS, Run};
pub use symbol::Symbol;
pub use tree::{MOST_TREES, Rows, Shape, Tree};
