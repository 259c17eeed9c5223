//! Rules of the routing policy database: which packets a rule matches, which rules are the same, and which ones a
//! command names.
#![tactic(auto)]

mod choice;
mod laws;
mod matching;
mod order;
mod packet;
mod rule;
mod sameness;

pub use choice::RuleChoice;
pub use laws::same_but_for_ids;
pub use matching::matches;
pub use order::{auto_priority, is_before};
pub use packet::Packet;
pub use prt_route::{Addr, Dev, Prefix, Refusal};
pub use rule::{Action, Mark, Rule};
pub use sameness::same;
