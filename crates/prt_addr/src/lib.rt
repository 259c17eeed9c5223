//! The values that every layer above speaks of: addresses, prefixes and numbers.
#![tactic(auto)]

mod addr;
mod decimal;
mod given;
mod number;
mod prefix;
mod word;

pub use addr::{Addr, addr_text, read_addr};
pub use given::{agrees, agrees_there};
pub use number::read_number;
pub use prefix::{Prefix, prefix_text, read_net, read_prefix};
