//! Which packets get another answer after a change: groups of them, with what becomes of them before and after.
#![tactic(auto)]

mod all_interfaces;
mod blocks;
mod comparison;
mod document;
mod group;
mod joining;
mod mark_joining;
mod mark_set;
mod merging;
mod order;
mod plain;
mod same;
mod text;
mod words;

pub use comparison::impact;
pub use document::impact_json;
pub use group::{AddrRange, Group, InterfaceSet};
pub use mark_set::{Blocks, MOST_BLOCKS, MarkSet};
pub use text::{impact_text, push_group_line};
