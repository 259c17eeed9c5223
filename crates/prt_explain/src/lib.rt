//! Why a packet goes where it goes, as a text for people: each rule that is tried, what it finds, and the answer. And the
//! parts of that for other forms: the first mismatch of a rule, and what a lookup finds.
#![tactic(auto)]

mod explanation;
mod laws;
mod lookup;
mod mismatch;
mod notes;

pub use explanation::explanation_text;
pub use laws::{
    asks_up_to_decider, ends_with_answer, mismatch_is_told, runner_up_is_next, silence_is_told,
};
pub use lookup::{Found, look_up};
pub use mismatch::first_mismatch;
pub use notes::suppresses;
