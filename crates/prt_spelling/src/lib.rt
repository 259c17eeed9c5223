//! The line of each command.
#![tactic(auto)]

mod fits;
mod form;
mod laws;
mod line;
mod parts;
mod refusal;
mod spelled;

pub use form::NameForm;
pub use laws::{lines_are_read, values_read_back, what_is_read_is_spelled};
pub use line::{command_line, line_by, push_line};
pub use refusal::SpellingError;
pub use spelled::is_spelled;
