//! What differs between two versions: the commands that bring the one to the other, in the kernel and in prt itself.
#![tactic(auto)]

pub mod apply;
mod commands;
mod diff;
mod fence;
mod held;
mod laws;
mod names;
mod outside;
mod plan;
mod refusal;
mod replacing;
mod routes;
mod rules;
mod text;
mod unreadable;

pub use diff::changes;
pub use fence::{Fence, NumberRange};
pub use held::Held;
pub use laws::{changes_bring, no_changes_where_same, no_gap_opens, nothing_is_passed_over};
pub use outside::{Outside, count_outside};
pub use plan::Changes;
pub use refusal::LineError;
pub use replacing::{left_out_of_replacing, replacing_text};
pub use text::{batch_text, changes_text, commands_text};
pub use unreadable::Unreadable;
