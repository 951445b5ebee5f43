//! Blocks to order: strings of a description that a generator makes, each judged before it is told.
#![tactic(auto)]

mod aim;
mod change;
mod chart;
mod covering;
mod decoded;
mod draft;
mod drawn;
mod generator;
mod marks;
mod met;
mod near;
mod room;
mod sampler;
mod shapes;
mod span;
mod spans;
mod spots;
mod target;
mod tries;
mod way_numbers;
mod wish;

pub use change::Change;
pub use covering::{Covered, Example, Way, cover};
pub use generator::Generator;
pub use near::{Near, nearly};
pub use sampler::{Sampled, Sampler, TRIES};
pub use spans::ample;
pub use tries::Tries;
pub use way_numbers::ways;
pub use wish::{Length, Values, Wish};
