//! Tests of dumps.

mod dumps;
