//! Tests of lines from JSON.

mod listings;
