//! The words of the program `prt`: what they ask for, or why it runs nothing.
#![tactic(auto)]

mod analysis;
mod analysis_lines;
mod asking;
mod command_line;
mod fault;
mod following;
mod laws;
mod reach;
mod reach_lines;
mod server_place;
mod service;
mod service_lines;
mod serving;
mod serving_lines;
mod task;
mod version;

pub use analysis::{AssertArgs, Exactness, ImpactArgs};
pub use asking::{Asked, DiffArgs, Form, ImportArgs, Labels, QueryArgs, Shown, Source, Verb};
pub use fault::{DONE, FAULT, Fault, report, words_fault};
pub use following::{FollowArgs, WaitArgs};
pub use laws::nothing_is_asked;
pub use reach::{NumberSpan, Reach};
pub use server_place::ServerPlace;
pub use service::{ApplyArgs, ServerEnds, StatusArgs, StatusForm, Target};
pub use serving::ServeArgs;
pub use task::{Batch, Mode, STANDARD_INPUT, Submitting, Task, read_words};
pub use version::VERSION;
