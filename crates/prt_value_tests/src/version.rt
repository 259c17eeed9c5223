//! Tests of the public calls for tables, lines, versions and texts.
//!
//! Lines and texts are worked examples of `ip-route(8)` and `ip-rule(8)`.

mod from_rows;
mod lines;
mod many_metrics;
mod many_tables;
mod plain_list;
mod random;
mod random_edits;
mod rules;
mod script;
mod sharing;
mod tables;
mod versions;

pub(crate) use script::{commands_of, version_after};
