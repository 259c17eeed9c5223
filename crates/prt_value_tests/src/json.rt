//! Tests of routes, rules, answers and explanations as JSON.

mod explained;
mod script;
mod shown;
