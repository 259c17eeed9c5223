//! Answers.
ghost use Rattle.std.specs.Prelude.{◌≡◌, ◌++◌, IfErr, IfOk, OnOk};
ghost use Rattle.prt_ask.specs.Answers.{AreNotes, AreNotesOf, IsNotAnswered, IsOfChange, IsPlainQuestion, answer, query_json};
ghost use Rattle.prt_diff.specs.Text.{changes_text};
ghost use Rattle.prt_json.specs.Fields.{json_line};

use crate::difference::find_difference;
use crate::notes::Notes;
use crate::question::{Comparison, Question};
use crate::refusal::AnswerError;
use prt_args::Form;
use prt_command::{Query, Refusal};
use prt_diff::{left_out_of_replacing, replacing_text};
use prt_dump::dump_text;
use prt_explain::explanation_text;
use prt_json::{answer_json, explanation_json, routes_json, rules_json, tables_json};
use prt_listing::query_text;
use prt_version::Version;
use std::alloc::Global;

/// Appends the JSON that answers a query.
fn push_query_json(out: &mut Vec<u8>, version: &Version, query: &Query) -> Result<(), Refusal>
    ensures { OnOk result (out.new.items ≡ out.old.items ++ json_line (query_json query.now version.now)) }
{
    match query {
        Query::RouteShow(selector) => routes_json(out, version, selector),
        Query::RuleShow => rules_json(out, version),
        Query::Get(packet) => answer_json(out, version, packet),
    }
}

/// What tables answer.
#[derive(Drop)]
pub struct Answered {
    /// What is written.
    pub text: Vec<u8>,
    /// What is reported to a person.
    pub notes: Notes,
}

/// Writes the lines that bring what was found to tables, and collects what is to be reported of them.
///
/// # Errors
///
/// `Change` if no line can express a change, and `NoMemory`.
fn compared(
    alloc: Global,
    comparison: &Comparison<'_>,
    wanted: &Version,
) -> Result<Answered, AnswerError>
    ensures text { IfOk result (λ made. made.text.items ≡ changes_text comparison.now.fence.now comparison.now.found.now wanted.now) }
    ensures notes { IfOk result (λ made. AreNotesOf comparison.now.fence.now comparison.now.found.now wanted.now made.notes) }
    ensures reason { IfErr result IsOfChange }
{
    let difference = find_difference(alloc, comparison.fence, comparison.found, wanted)?;
    Ok(difference.answer)
}

/// Writes an answer that is no difference.
fn answer_text(
    alloc: Global,
    version: &Version,
    question: &Question<'_>,
) -> Result<Vec<u8>, AnswerError>
    requires { IsPlainQuestion question.now }
    ensures text { IfOk result (λ text. text.items ≡ answer question.now version.now) }
    ensures reason { IfErr result (IsNotAnswered question.now version.now) }
{
    let mut text = Vec::new(alloc);
    let pushed = match question {
        Question::Diff(_) => unreachable!(),
        Question::Dump(Form::Lines) => return Ok(dump_text(alloc, version)?),
        Question::Replace => return Ok(replacing_text(alloc, version)?),
        Question::Dump(Form::Json) => tables_json(&mut text, version),
        Question::Query(query, Form::Lines) => query_text(&mut text, version, query),
        Question::Query(query, Form::Json) => push_query_json(&mut text, version, query),
        Question::Explain(packet, Form::Lines) => explanation_text(&mut text, version, packet),
        Question::Explain(packet, Form::Json) => explanation_json(&mut text, version, packet),
    };
    match pushed {
        Ok(()) => Ok(text),
        Err(_) => Err(AnswerError::NoMemory),
    }
}

/// Answers a question from a version, and collects what is to be reported with the answer.
///
/// # Errors
///
/// Of a dump in lines, and of a difference, a rule or a route that no line can express. `NoMemory` of any.
pub fn answer(
    alloc: Global,
    version: &Version,
    question: &Question<'_>,
) -> Result<Answered, AnswerError>
    ensures text { IfOk result (λ made. made.text.items ≡ answer question.now version.now) }
    ensures notes { IfOk result (λ made. AreNotes question.now version.now made.notes) }
    ensures reason { IfErr result (IsNotAnswered question.now version.now) }
{
    if let Question::Diff(comparison) = question {
        return compared(alloc, comparison, version);
    }
    let text = answer_text(alloc, version, question)?;
    let mut notes = Notes::none(alloc);
    if let Question::Replace = question {
        notes.held = left_out_of_replacing(alloc, version)?;
    }
    Ok(Answered { text, notes })
}
