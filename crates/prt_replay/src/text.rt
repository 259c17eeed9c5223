//! The text of a trace.
ghost use Rattle.std.specs.Prelude.{◌≡◌, ◌++◌, IfErr, IfOk, OnOk, codes, decimal};
ghost use Rattle.prt_refusals.specs.declared.refusal.Refusal.TheVariants.{NoMemory};
ghost use Rattle.prt_replay.specs.TraceText.{call_name, numbered, of_looker, outcome_text, trace_text};

use crate::{LookerNumber, Outcome, Trace};
use itoa::Buffer;
use prt_listing::{answer_text, refusal_text};
use prt_refusals::{Refusal, StoreCall};
use std::alloc::{AllocError, Global};

/// Appends a text; if memory is refused, none of it.
fn push_text(out: &mut Vec<u8>, text: &str) -> Result<(), AllocError>
    ensures { OnOk result (out.new.items ≡ out.old.items ++ text.now) }
{
    out.extend_from_slice(text.as_bytes())
}

/// Appends a space and a number.
fn push_number(out: &mut Vec<u8>, number: u64) -> Result<(), AllocError>
    ensures { OnOk result (out.new.items ≡ out.old.items ++ codes " " ++ decimal number) }
{
    push_text(out, " ")?;
    push_text(out, Buffer::new().format(number))
}

/// Appends a word and a number.
fn push_numbered(out: &mut Vec<u8>, word: &str, number: u64) -> Result<(), AllocError>
    ensures { OnOk result (out.new.items ≡ out.old.items ++ numbered word.now number) }
{
    push_text(out, word)?;
    push_number(out, number)
}

/// Appends a word, the number of a looker and another number.
fn push_of_looker(
    out: &mut Vec<u8>,
    word: &str,
    looker: LookerNumber,
    number: u64,
) -> Result<(), AllocError>
    ensures { OnOk result (out.new.items ≡ out.old.items ++ of_looker word.now looker number) }
{
    push_numbered(out, word, u64::from(looker.get()))?;
    push_number(out, number)
}

/// Returns the word for a store call.
pub fn call_name(call: StoreCall) -> &'static str
    ensures { result.now ≡ call_name call }
{
    match call {
        StoreCall::Begin => "begin",
        StoreCall::Write => "write",
        StoreCall::Count => "count",
        StoreCall::Commit => "commit",
    }
}

/// Appends the line of an outcome, without its newline.
fn push_outcome(out: &mut Vec<u8>, outcome: &Outcome) -> Result<(), AllocError>
    ensures { OnOk result (out.new.items ≡ out.old.items ++ outcome_text outcome.now) }
{
    match outcome {
        Outcome::Nothing => push_text(out, "none"),
        Outcome::Prepared(number) => push_numbered(out, "prepared", *number),
        Outcome::Refused(refusal) => refusal_text(out, refusal).or(Err(AllocError)),
        Outcome::Called(call) => push_text(out, call_name(*call)),
        Outcome::Published(number) => push_numbered(out, "published", *number),
        Outcome::Noted(number) => push_numbered(out, "noted", *number),
        Outcome::Acknowledged(number) => push_numbered(out, "ok", *number),
        Outcome::Online(looker, number) => push_of_looker(out, "online", *looker, *number),
        Outcome::Fetched(looker, number) => push_of_looker(out, "fetch", *looker, *number),
        Outcome::Announced(looker, number) => push_of_looker(out, "announce", *looker, *number),
        Outcome::Offline(looker) => push_numbered(out, "offline", u64::from(looker.get())),
        Outcome::Answered(answer) => answer_text(out, answer).or(Err(AllocError)),
        Outcome::Reclaimed(count) => push_numbered(out, "reclaim", *count),
        Outcome::Stopped => push_text(out, "stop"),
        Outcome::Reopened(number) => push_numbered(out, "reopen", *number),
    }
}

/// Appends the line of an outcome.
fn push_line(out: &mut Vec<u8>, outcome: &Outcome) -> Result<(), AllocError>
    ensures { OnOk result (out.new.items ≡ out.old.items ++ (outcome_text outcome.now ++ codes "\n")) }
{
    push_outcome(out, outcome)?;
    push_text(out, "\n")
}

/// Makes the text of a trace: a line for each outcome, with its newline, as `prt replay` prints it.
///
/// # Errors
///
/// `NoMemory` alone.
pub fn trace_text(alloc: Global, trace: &Trace) -> Result<Vec<u8>, Refusal>
    ensures text { IfOk result (λ text. text.items ≡ trace_text trace.now) }
    ensures reason { IfErr result (λ e. e ≡ NoMemory) }
{
    let mut out = Vec::new(alloc);
    for outcome in trace.outcomes() {
        push_line(&mut out, outcome)?;
    }
    Ok(out)
}
