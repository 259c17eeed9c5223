//! Which program this is.

/// The version of the program, and under it the formats of database file that it reads, one a line.
pub const VERSION: &str = "0.1.0\nreads database format 1\nreads database format 2";
