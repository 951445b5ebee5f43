//! Certificates of descriptions, and their texts both ways.
#![tactic(auto)]

mod certificate;
mod cursor;
mod fault;
pub mod laws;
mod pattern;
mod read;
mod write;

pub use certificate::Certificate;
pub use fault::CertFault;
pub use pattern::{MOST_MARKS, Mark, Pattern};
pub use read::{MOST_TEXT, read_certificate};
pub use write::write_certificate;
