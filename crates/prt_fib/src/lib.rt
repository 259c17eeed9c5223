//! Compiled tables: what becomes of the packets of one source, interface and mark, for quick lookups by destination.
//!
//! A table is made of all rules and routes of a version together. It is for forwarding: a lookup finds the next hop
//! without going through the rules. A table follows a change of a route in a fraction of the time that a new one takes.
#![tactic(auto)]

mod class_tree;
mod directory;
mod dividing;
mod following;
mod hashing;
mod numbering;
mod outcomes;
mod piece;
mod policy;
mod table;

pub use policy::{MOST_CLASSES, PolicyFib};
pub use prt_partition::Outcome;
pub use table::Fib;
