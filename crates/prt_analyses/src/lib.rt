//! Analyses of a version for every packet at once: which claims about packets hold, and which rules and routes decide nothing.
#![tactic(auto)]

pub mod claims;
pub mod unused;
