//! The texts of routes, rules, answers and refusals, in the form of `ip-route(8)` and `ip-rule(8)`.
#![tactic(auto)]

mod answer;
pub mod examples;
mod hexadecimal;
mod part;
mod push;
mod query;
mod refusal;
mod route;
mod rule;

pub use answer::answer_text;
pub use part::{
    Part, Value, addr_part, dev_part, is_everything, prefix_or, protocol_value, scope_value,
    table_value,
};
pub use prt_command::{Action, Addr, Dev, Mark, Prefix, Query};
pub use prt_version::{Answer, Refusal, Route, Rule, Version};
pub use push::{push_part, push_text};
pub use query::query_text;
pub use refusal::refusal_text;
pub use route::{TablePart, route_parts, route_text, table_part};
pub use rule::{action_part, mark_part, not_part, rule_text, suppress_part};
