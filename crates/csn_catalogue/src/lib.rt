//! The catalogue: descriptions of GPRS control messages and rest octets, the entries by which they are asked
//! for, and a sample block of each.
#![tactic(auto)]

mod catalogue;
mod entry;
mod sample;

pub use catalogue::text;
pub use entry::{Entry, entries, entry_of, root_of, word_of};
pub use sample::{Sample, sample_of};
