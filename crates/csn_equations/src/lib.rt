//! The equations of look-ahead: what the sets of a node are, from the sets of its parts.
#![tactic(auto)]

pub mod counts;
