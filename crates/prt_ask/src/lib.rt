//! What tables answer to a question from outside a session: in lines, or in JSON.
#![tactic(auto)]

mod answers;
mod difference;
mod following;
mod mirror;
mod notes;
mod question;
mod refusal;

pub use answers::{Answered, answer};
pub use following::{FollowEnd, follow};
pub use mirror::Mirror;
pub use notes::Notes;
pub use question::{Comparison, Question, question_of};
pub use refusal::AnswerError;
