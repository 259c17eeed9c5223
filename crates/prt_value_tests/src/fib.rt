//! Tests of compiled tables.

mod following;
mod lookups;
