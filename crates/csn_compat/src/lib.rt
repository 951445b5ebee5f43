//! Whether a new description takes the blocks of an old one.
#![tactic(auto)]

mod comparing;
pub mod examples;
pub mod laws;
mod leaf;
mod pairs;
mod taking;

pub use comparing::compat;
