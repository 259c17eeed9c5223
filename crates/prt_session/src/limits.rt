//! How many commands are made together.

/// The most commands that are made together.
pub const MOST_TOGETHER: usize = 1_000;
