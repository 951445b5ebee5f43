//! Certificates of descriptions that are certified, made of what look-ahead knows of them.
#![tactic(auto)]

mod digits;
mod joining;
pub mod laws;
mod make;
mod near;
mod pattern_table;
mod row;

pub use make::make_certificate;
