//! The world of interleavings: events, what each of them does, and what holds after every list of them (`laws.rt`).
//!
//! Replays: lists of events that are read, played over real versions and the real registry, and reported line by line.
#![tactic(auto)]

mod event;
mod event_examples;
mod laws;
mod lookers;
mod machine;
mod outcome;
mod play;
mod read;
mod replay;
mod replay_file;
pub mod replays;
mod stage;
mod text;
mod trace;
mod words;

pub use event::{Commands, Event, Fate, LookerNumber};
pub use event_examples::{event_lines, outcome_lines, refused_lines};
pub use laws::every_run;
pub use outcome::Outcome;
pub use play::play_events;
pub use prt_command::{Command, Packet};
pub use prt_refusals::{Refusal, StoreCall};
pub use prt_replies::{Observer, ScriptEnd};
pub use prt_version::Answer;
pub use replay::run_replay;
pub use replay_file::{LONGEST_REPLAY, MOST_EVENTS, read_events};
pub use text::{call_name, trace_text};
pub use trace::Trace;
