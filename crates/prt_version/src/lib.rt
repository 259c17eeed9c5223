//! Versions of the policy database: what one holds, what it answers, and which version a command makes of it.
#![tactic(auto)]

mod answer;
mod change;
mod checks;
pub mod examples;
mod from_rows;
mod groups;
pub mod laws;
mod limits;
pub mod owners;
mod rule_edits;
mod rule_index;
mod rules;
mod select;
mod several;
mod shared_table;
mod tables;
mod tried;
mod version;

pub use answer::{Answer, Found, Verdict};
pub use change::Change;
pub use limits::{MOST_COMMANDS, MOST_ROUTES, MOST_RULES};
pub use prt_command::{Action, Command, NewRule, Packet, Refusal, Route, Rule, Selector};
pub use prt_route::RouteEdit;
pub use prt_trie::Table;
pub use rules::Rules;
pub use select::first_verdict;
pub use tables::Tables;
pub use version::{Version, opening_rules};
