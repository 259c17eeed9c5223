//! Tests of the store and of the rows of its file, and a caller of it.

mod caller;
#[cfg(test)]
mod database;
#[cfg(test)]
mod failures;
#[cfg(test)]
mod faulty;
#[cfg(test)]
mod files;
#[cfg(test)]
mod one_command;
#[cfg(test)]
mod openings;
mod reopening;
#[cfg(test)]
mod restarts;
#[cfg(test)]
mod steps;
#[cfg(test)]
mod together;
#[cfg(test)]
mod written_rows;

pub use caller::submit;
pub use reopening::reopened;
