//! Tests of the public calls for addresses, routes and rules.
//!
//! Expected values are those of `ip-route(8)`, `ip-rule(8)` and RFC 1812, section 5.2.4.3, worked by hand.

mod addresses;
mod routes;
mod rules;
mod values;
