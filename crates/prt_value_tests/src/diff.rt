//! Tests of the changes between two versions.

mod changes;
