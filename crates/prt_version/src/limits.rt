//! How much a database holds.

/// The most rules that a database holds.
pub const MOST_RULES: usize = 1_000;

/// The most routes that a database holds.
pub const MOST_ROUTES: usize = 100_000;

/// The most commands that a database ever accepts.
pub const MOST_COMMANDS: u64 = 1_000_000_000_000_000;
