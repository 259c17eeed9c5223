//! Versions of the policy database for C: lines make them, and packets are looked up in them.
#![tactic(auto)]

mod answer;
mod fib;
mod fib_held;
mod fib_owner;
mod held;
mod lookup;
mod many;
mod outcome;
mod owner;
mod packet;
mod parts;
mod policy;
mod policy_held;
mod policy_line;
mod policy_owner;
mod status;
mod tables;

pub use fib::{
    prt_fib_find, prt_fib_find_many, prt_fib_free, prt_fib_new, prt_fib_outcome, prt_fib_route,
    prt_fib_share,
};
pub use fib_held::FibHeld;
pub use held::Held;
pub use lookup::prt_lookup;
pub use many::prt_lookup_many;
pub use policy::{
    prt_policy_find, prt_policy_find_many, prt_policy_follow, prt_policy_free, prt_policy_new,
    prt_policy_route, prt_policy_share,
};
pub use policy_held::PolicyHeld;
pub use tables::{
    prt_tables_line, prt_tables_lines, prt_tables_new, prt_tables_release, prt_tables_version,
    prt_version_release,
};
