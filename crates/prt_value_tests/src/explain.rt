//! Tests of explanations.

mod explanations;
