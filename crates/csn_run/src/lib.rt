//! The top call of the program: words and the outside in, an end out.
#![tactic(auto)]

mod comparing;
pub mod laws;
mod memory;
mod outside;
mod planned;
mod reporting;
mod soaking;
mod top;
mod verifying;

pub use csn_plan::Ended;
pub use memory::{Ran, run_in_memory, run_watched};
pub use outside::Outside;
pub use top::run;
