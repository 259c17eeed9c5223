//! Tests of scripts of what `ip` printed.

mod forms;
mod listings;
mod named;
mod told;
