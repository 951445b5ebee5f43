//! The top call of the companion: what is asked for and the outside in, an end out.
#![tactic(auto)]

mod asked;
mod lines;
mod opening;
mod running;
mod sampling;

pub use asked::{Asked, Job, Order, reading_of};
pub use running::explain;
