//! Test vectors of a description, as lines of text: strings of it, and blocks that are nearly strings.
#![tactic(auto)]

mod column;
mod covers;
mod maker;
mod nears;

pub use covers::push_cover;
pub use maker::BlockMaker;
pub use nears::push_nearly;
