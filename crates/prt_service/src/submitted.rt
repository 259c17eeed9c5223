//! What became of commands that were submitted together.
ghost use Rattle.std.specs.Prelude.{◌≡◌, ◌+◌, ◌<◌, Err, IfOk, List, Ok, length, take, ℕ};
ghost use Rattle.prt_command.specs.declared.request.Command as requests;
ghost use Rattle.prt_published.specs.Line.{Line, grown_by};
ghost use Rattle.prt_refusals.specs.declared.refusal.Refusal as refusals;
ghost use Rattle.prt_service.specs.Group.{answer_before};
ghost use Rattle.prt_service.specs.Service.{AreAnswered};

use crate::ServiceBrand;
use crate::queued_command::QueuedCommand;
use prt_command::Refusal;
use prt_publisher::Receipt;
use std::sync::Wait;

/// Commands of the named front that were submitted together, whose answers wait to be sent: the receipt of the last, or why
/// there is none.
#[derive(Drop)]
pub(crate) struct Submitted<J: ServiceBrand> {
    pub(crate) waiting: Vec<QueuedCommand<J>>,
    pub(crate) became: Result<Receipt, Refusal>,
}

impl<J: ServiceBrand> Submitted<J> {
    /// Sends the answers.
    pub(crate) fn answer<H: Wait>(self, rt: &H)
        requires { AreAnswered J.book J.base self.waiting.items self.became }
    {
        let Submitted { waiting, became } = self;
        let mut later = waiting.len();
        for one in waiting {
            later -= 1;
            let own = answer_before(&became, later as u64);
            one.answer(rt, own);
        }
    }
}

/// Derives from what became of all the answer to the command that was submitted `later` commands before the last: its
/// own receipt, or the one reason.
fn answer_before(became: &Result<Receipt, Refusal>, later: u64) -> Result<Receipt, Refusal>
    requires { IfOk became.now (λ last. later < length last.list) }
    ensures value { result ≡ answer_before became.now later }
    ensures own { (before : Line) → (commands : List requests.Command) → (index : ℕ) → index + later + 1 ≡ length commands →
        became.now ≡ Ok (grown_by before commands) → result ≡ Ok (grown_by before (take (index + 1) commands)) }
    ensures reason { (reason : refusals.Refusal) → became.now ≡ Err reason → result ≡ Err reason }
{
    match became {
        Ok(last) => Ok(last.of_earlier(later)),
        Err(reason) => Err(*reason),
    }
}
