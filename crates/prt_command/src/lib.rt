//! The command language: what a line of it asks for, or its first fault.
#![tactic(auto)]

mod ask;
mod examples;
mod item;
mod laws;
mod line;
mod mark;
mod reader;
mod request;
mod value;
mod verb;
mod word_at_fault;
mod words;

pub use examples::{accepted_lines, accepted_routes, accepted_rules, refused_lines};
pub use item::{Item, ItemWord, Items, PrefixWord, Slot, Target, WhichTables};
pub use laws::{any_order, first_faults, readings};
pub use line::{LONGEST_LINE, LONGEST_UNENDED, MOST_LINES, line_text, read_line, read_text};
pub use prt_route::{
    Addr, Dev, Kind, Prefix, Range, Refusal, Route, RouteChoice, RouteKey, Selector,
};
pub use prt_rule::{Action, Mark, Packet, Rule, RuleChoice};
pub use request::{Command, NewRule, Query, Request};
pub use word_at_fault::{WordPlace, fault_word, fault_words};
pub use words::{is, next_word};
