//! Why a database is refused, for a person: the first row that encodes nothing, or the table that has other columns.
#![tactic(auto)]

mod all_rows;
mod cell;
#[cfg(test)]
mod examples;
mod meta;
mod reading;
mod reason;
mod route;
mod rule;
mod schema;

pub use meta::meta_fault;
pub use reading::rows_reason;
pub use reason::{DatabaseTable, MetaFault, Reason, RowFault};
pub use route::route_fault;
pub use rule::{length_fault, rule_fault};
pub use schema::columns_reason;
