//! Why a line, a command or a session is refused, and what a session does then.
#![tactic(auto)]

mod on_refusal;
mod refusal;

pub use on_refusal::OnRefusal;
pub use refusal::{Refusal, StoreCall};
