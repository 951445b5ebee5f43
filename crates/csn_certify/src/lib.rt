//! Which descriptions are certified: look-ahead tells of each block how it is read, and a conflict says
//! where it cannot.
#![tactic(auto)]

mod alternatives;
mod certifying;
mod chooser;
mod clashes;
mod conflict;
pub mod examples;
mod filling;
mod lasts;
pub mod laws;
mod layouts;
mod meets;
mod numbers;
mod overlaps;
mod pick;
mod pick_blocks;
mod pick_table;
mod pick_tables;
mod plan;
mod repeats;
mod same_keys;
mod search;
mod steps;

pub use certifying::{CertifyFault, certify};
pub use conflict::Conflict;
pub use layouts::Layout;
pub use numbers::{MOST_NUMBERS, Number, count_of};
pub use pick::Pick;
pub use plan::Plan;
pub use steps::Steps;
