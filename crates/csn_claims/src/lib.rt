//! Sets that are claimed of the nodes of a description, when they hold of it, and what they then tell.
#![tactic(auto)]

pub mod laws;
