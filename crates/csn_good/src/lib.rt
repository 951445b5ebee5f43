//! Whether a certificate is good for a description, and so leaves at most one tree to any bits.
#![tactic(auto)]

mod apart;
mod bit_by_bit;
mod checking;
mod claims;
mod ending;
mod following;
mod keys;
pub mod laws;
mod leaf;
mod made;
mod octets;
mod pattern_set;
mod reaching;
mod sets;
mod tail;

pub use checking::{Checked, check_certificate};
pub use leaf::leaf_pattern;
