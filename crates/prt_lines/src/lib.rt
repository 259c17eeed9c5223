//! What lines of the command language make of a version that someone owns.
#![tactic(auto)]

mod chunk;
mod step;

pub use chunk::{Executed, advance_all};
pub use step::{advance, next_version};
