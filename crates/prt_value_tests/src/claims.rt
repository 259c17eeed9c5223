//! Tests of claims about packets.

mod holding;
mod reading;
