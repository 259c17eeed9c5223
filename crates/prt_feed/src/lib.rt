//! What a feed sends, and what a client makes of it.
#![tactic(auto)]

mod change;
mod laws;
mod opening;
mod reading;
mod text;

pub use change::{Change, read_change};
pub use laws::{
    changes_are_followed, feed_is_followed, opening_is_read, sent_opening_is_read,
    text_has_one_reading,
};
pub use opening::{Opening, OpeningError};
pub use reading::{number_of, read_opening};
pub use text::{change_line, opening_text};
