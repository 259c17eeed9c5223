//! Routes: what a route says, its key, which of two routes is better, and which ones a command names.
#![tactic(auto)]

mod choice;
mod dev;
mod edit;
mod kind;
mod names;
mod route;

pub use choice::{Range, RouteChoice, Selector};
pub use dev::{Dev, read_dev};
pub use edit::RouteEdit;
pub use kind::Kind;
pub use names::{
    BOOT_PROTOCOL, DEFAULT_TABLE, GLOBAL_SCOPE, LINK_SCOPE, LOCAL_TABLE, MAIN_TABLE, protocol_name,
    read_protocol, read_scope, read_table, scope_name, table_name,
};
pub use prt_addr::{Addr, Prefix};
pub use prt_refusals::Refusal;
pub use route::{Route, RouteKey};
