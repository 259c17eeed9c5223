//! Questions, and how the words of the program ask them.
ghost use Rattle.std.specs.Prelude.{◌≡◌};
ghost use Rattle.prt_ask.specs.Questions.{question, question_by, question_in};
ghost use Rattle.prt_command.specs.Reading.{reading};

use prt_args::{Form, Verb};
use prt_command::{Packet, Query, Refusal, Request, read_line};
use prt_diff::Fence;
use prt_version::Version;

/// Tables that are to be brought to others.
#[derive(Clone, Copy)]
pub struct Comparison<'a> {
    /// What of both is compared.
    pub fence: &'a Fence,
    /// The tables that were found.
    pub found: &'a Version,
}

/// A question to tables.
#[derive(Clone, Copy)]
pub enum Question<'a> {
    /// Which commands recreate them.
    Dump(Form),
    /// Which commands put them in the place of what is there.
    Replace,
    /// What a query of a script asks.
    Query(Query, Form),
    /// Why such a packet gets its route.
    Explain(Packet, Form),
    /// Which commands bring other tables to them.
    Diff(Comparison<'a>),
}

/// Makes the question of what a line asks for.
fn question_by<'a>(verb: Verb, form: Form, asked: &Option<Request>) -> Result<Question<'a>, Refusal>
    ensures { result ≡ question_by verb form asked.now }
{
    match (verb, asked) {
        (Verb::Explain, Some(Request::Query(Query::Get(packet)))) => {
            Ok(Question::Explain(*packet, form))
        },
        (Verb::Explain, _) => Err(Refusal::UnknownVerb),
        (_, Some(Request::Query(query))) => Ok(Question::Query(*query, form)),
        _ => Err(Refusal::UnknownVerb),
    }
}

/// Reads the question of a line that asks one.
fn question_in<'a>(verb: Verb, line: &[u8], form: Form) -> Result<Question<'a>, Refusal>
    ensures { result ≡ question_in verb form (reading line.now) }
{
    match read_line(line) {
        Ok(asked) => question_by(verb, form, &asked),
        Err(reason) => Err(reason),
    }
}

/// Reads the question that a line asks, by the subcommand that it came with, to be answered in this form. Of `dump` the
/// line says nothing.
///
/// # Errors
///
/// The first fault of the line, as of `read_line`; `UnknownVerb` if it asks nothing, or if an explanation is wanted of what is
/// no `route get`.
pub fn question_of<'a>(verb: Verb, line: &[u8], form: Form) -> Result<Question<'a>, Refusal>
    ensures { result ≡ question verb line.now form }
{
    match verb {
        Verb::Dump => Ok(Question::Dump(form)),
        Verb::Replace => Ok(Question::Replace),
        Verb::Get | Verb::Show | Verb::Explain => question_in(verb, line, form),
    }
}
