//! Tests of the plans that make the tables of one version those of another.

mod plans;
