//! The bits that have a tree, and for a tree that no bits have the place where it does not fit.
#![tactic(auto)]

mod along;
mod draft;
mod encoding;
mod fault;
pub mod laws;
mod leaf;
mod misfit;
mod path;
mod symbols;
mod text;
mod text_leaf;
mod write;

pub use encoding::{encode, encode_json, encode_text};
pub use fault::EncodeFault;
pub use misfit::{Misfit, MisfitWhy};
pub use path::{MOST_STEPS, Path};
