//! Where the nodes of a description stand in its text, and which names were put in round them.
#![tactic(auto)]

mod finding;
mod form;
pub mod laws;
mod origin;
mod walk;

pub use finding::origins;
pub use origin::{Origin, PutIn};
