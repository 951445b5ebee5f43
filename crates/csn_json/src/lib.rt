//! Trees as JSON, both ways, for programs that read nothing else.
#![tactic(auto)]

pub mod examples;
mod fault;
mod form;
pub mod laws;
mod members;
mod number;
mod piece;
mod read;
mod reading;
mod tag;
mod write;

pub use fault::JsonFault;
pub use form::TreeForm;
pub use read::read_json;
pub use write::{json_fits, write_json};
