//! Tests of the questions about every packet at once.

mod answers;
mod changes;
mod grids;
mod impacts;
pub(crate) mod tables;
mod without_need;
