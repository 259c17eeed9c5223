//! The rows of the database file, format 2: what is in the tables `rule`, `route`, `meta` and `suppress`, written and
//! read back.
#![tactic(auto)]

mod cell;
mod code;
mod column;
mod format;
mod laws;
mod meta_row;
mod route_row;
mod rule_row;
mod selector;
mod suppress_row;
mod table_rows;
mod value;

pub use column::{
    META_COLUMNS, MetaColumn, ROUTE_COLUMNS, RULE_COLUMNS, RouteColumn, RuleColumn,
    SUPPRESS_COLUMNS,
};
pub use format::{
    begins_format_2, has_format_2, has_table, is_column, is_format_2, suits_format_2,
};
pub use laws::{rows_named, rows_read_back, rows_selected, statements_write};
pub use meta_row::{count_in_format_1, count_of_rows, meta_values};
pub use route_row::{route_of_row, route_values};
pub use rule_row::{rule_of_row, rule_values};
pub use selector::selector_values;
pub use suppress_row::{RuleLength, length_of_row, length_values};
pub use table_rows::{lengths_of_rows, routes_of_rows, rules_of_rows};
