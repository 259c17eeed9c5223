//! Tests of the crates without a store: addresses, rules, tables and versions, and what is read and printed of them.
//!
//! Expected values are those of `ip-route(8)`, `ip-rule(8)` and RFC 1812, section 5.2.4.3, worked by hand.
#![tactic(auto)]

#[cfg(test)]
mod apply;
#[cfg(test)]
mod claims;
#[cfg(test)]
mod diff;
#[cfg(test)]
mod dump;
#[cfg(test)]
mod explain;
#[cfg(test)]
mod feed;
#[cfg(test)]
mod fib;
#[cfg(test)]
mod importing;
#[cfg(test)]
mod ip_json;
#[cfg(test)]
mod json;
#[cfg(test)]
mod partition;
#[cfg(test)]
mod rule;
#[cfg(test)]
mod spelling;
#[cfg(test)]
mod version;
