//! Names put in: the description that a named rule gives, and why and where rules are refused.
#![tactic(auto)]

mod around;
mod begun;
mod build;
pub mod examples;
mod fault;
mod first;
mod form;
pub mod laws;
mod leaf;
mod leave;
mod made;
mod marks;
mod names;
mod resolving;
mod shown;
mod steps;
mod tail;
mod walk;
mod walker;
mod why;

pub use fault::ResolveFault;
pub use form::{Width, unit_of, width_of};
pub use marks::{Marks, Test};
pub use names::Names;
pub use resolving::resolve;
pub use tail::{End, Tail, Word, tail_of};
pub use why::Why;
