//! Tables of routes, and spans of addresses that find the best route for an address.
#![tactic(auto)]

mod branch;
mod bucket;
mod chunk;
mod chunks;
mod cut;
mod directory;
mod edit;
mod index;
mod leaf;
mod listing;
mod parts;
mod piece;
mod pieces;
mod prefix_place;
mod route_rows;
mod span;
mod sweep;
mod table;
mod tree;

pub use prt_route::{Addr, Prefix, Refusal, Route, RouteChoice, RouteEdit, RouteKey};
pub use table::Table;
pub use tree::Tree;
