//! The plan that makes the tables of one version those of another.

mod laws;
mod planning;
mod routes;
mod rules;
mod storable;

pub use laws::{accepted_plan_brings, plan_brings, plan_is_empty, plan_keeps_routes};
pub use planning::plan;
pub use storable::is_storable;
