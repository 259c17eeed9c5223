ghost use Rattle.std.specs.Prelude.{◌≡◌, ◌++◌, IsOkUnless, OnErr, OnOk};
ghost use Rattle.prt_refusals.specs.declared.refusal.Refusal.TheVariants.{NoMemory};
ghost use Rattle.prt_listing.specs.AnswerText.{answer_text, rule_part};
ghost use Rattle.prt_listing.specs.Keeps.{Keeps};
ghost use Rattle.prt_listing.specs.Steps.{part_text};

use crate::part::{Part, Value, table_value};
use crate::push::{push_parts, push_text, whole_or_nothing};
use crate::route::{TablePart, push_route};
use crate::rule::action_part;
use prt_refusals::Refusal;
use prt_version::{Answer, Verdict};
use std::alloc::AllocError;

/// How many bytes are taken at once for an answer: most have less, and then their text never grows.
const ROOM: usize = 128;

/// Names the rule of this priority.
fn rule_part(priority: u32) -> Part
    ensures { part_text result ≡ rule_part priority }
{
    Part::Named("rule", Value::Number(u64::from(priority)))
}

/// Appends an answer.
///
/// # Errors
///
/// Memory is refused; a part of the text may follow what `out` had.
fn push_answer(out: &mut Vec<u8>, answer: &Answer) -> Result<(), AllocError>
    ensures ok { OnOk result (out.new.items ≡ out.old.items ++ answer_text answer.now) }
    ensures err { OnErr result (Keeps out.old.items out.new.items) }
{
    let number = Part::Named("answer", Value::Number(answer.number));
    match &answer.verdict {
        Verdict::Route(priority, route) => {
            let table = Part::Named("table", table_value(route.table));
            push_parts(
                out,
                &[Some(number), Some(rule_part(*priority)), Some(table)],
            )?;
            push_text(out, " ")?;
            push_route(out, route, TablePart::LeftOut)
        }
        Verdict::RuleSays(priority, action) => {
            let parts = [
                Some(number),
                Some(rule_part(*priority)),
                Some(action_part(*action)),
            ];
            push_parts(out, &parts)
        }
        Verdict::NoRoute => {
            push_parts(out, &[Some(number), Some(Part::Alone(Value::Text("none")))])
        }
    }
}

/// Appends an answer as `push_answer` does, and takes the room for it at once.
pub(crate) fn push_with_room(out: &mut Vec<u8>, answer: &Answer) -> Result<(), AllocError>
    ensures ok { OnOk result (out.new.items ≡ out.old.items ++ answer_text answer.now) }
    ensures err { OnErr result (Keeps out.old.items out.new.items) }
{
    out.reserve(ROOM)?;
    push_answer(out, answer)
}

/// Appends an answer: the number of its version, and the rule that decides with its route or action, or `none`.
///
/// # Errors
///
/// `NoMemory` if memory is refused; `out` is as it was.
pub fn answer_text(out: &mut Vec<u8>, answer: &Answer) -> Result<(), Refusal>
    ensures ok { OnOk result (out.new.items ≡ out.old.items ++ answer_text answer.now) }
    ensures err { OnErr result (out.new.items ≡ out.old.items) }
    ensures reason { IsOkUnless result NoMemory }
{
    let len = out.len();
    let pushed = push_with_room(out, answer);
    whole_or_nothing(out, len, pushed)
}
