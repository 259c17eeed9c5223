//! Rules that decide no packet, routes that no packet gets, and what is reported of each.

mod matching;
mod places;
mod reasons;
mod report;
mod search;
mod starts;
mod text;
mod used;

pub use report::{Example, RouteReason, RuleReason, Unused, UnusedRoute, UnusedRule};
pub use search::unused;
pub use text::unused_text;
