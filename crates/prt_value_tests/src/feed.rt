//! Tests of feeds.

mod feeds;
