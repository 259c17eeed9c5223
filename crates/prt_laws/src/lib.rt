//! Laws: what a publisher and its lookers do are steps of the world of interleavings. No program calls it.
#![tactic(auto)]

pub mod calls;
pub mod laws;
pub mod looker_calls;
pub mod lookers;
