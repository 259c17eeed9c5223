//! What is asked about tables, and how an answer calls them.
ghost use Rattle.std.specs.Prelude.{◌≡◌, IfOk};
ghost use Rattle.prt_ask.specs.Answers.{AreNotes};
ghost use Rattle.prt_questions.specs.Asking.{with_labels, named_answer, text_form};
ghost use Rattle.prt_import.specs.TableNames.{names_of};

use prt_args::{Form, Labels};
use prt_ask::{AnswerError, Answered, Question, answer};
use prt_import::{Names, Text, with_names};
use prt_version::Version;
use std::alloc::Global;

/// A question, and how its answer calls tables.
#[derive(Clone, Copy)]
pub(crate) struct Inquiry<'a> {
    pub(crate) question: Question<'a>,
    pub(crate) form: Form,
    pub(crate) labels: Labels,
    /// The names that tables have.
    pub(crate) names: &'a Names,
}

/// Returns the form of a text in which names are put.
fn text_form(form: Form) -> Text
    ensures { result ≡ text_form form }
{
    match form {
        Form::Lines => Text::Lines,
        Form::Json => Text::Json,
    }
}

/// Returns a text in which tables have names or numbers, as is asked.
pub(crate) fn with_labels(
    alloc: Global,
    inquiry: &Inquiry<'_>,
    text: Vec<u8>,
) -> Result<Vec<u8>, AnswerError>
    ensures { IfOk result (λ made. made.items ≡ with_labels inquiry.now.labels inquiry.now.form (names_of inquiry.now.names.now) text.items) }
{
    let Labels::Names = inquiry.labels else {
        return Ok(text);
    };
    match with_names(alloc, inquiry.names, text_form(inquiry.form), &text) {
        Ok(named) => Ok(named),
        Err(_) => Err(AnswerError::NoMemory),
    }
}

/// Returns what a version answers, with these labels of tables, and what is reported of it to a person.
///
/// # Errors
///
/// As of `answer`, and `NoMemory`.
pub(crate) fn named_answer(
    alloc: Global,
    version: &Version,
    inquiry: &Inquiry<'_>,
) -> Result<Answered, AnswerError>
    ensures text { IfOk result (λ made. made.text.items ≡ named_answer inquiry.now version.now) }
    ensures notes { IfOk result (λ made. AreNotes inquiry.now.question version.now made.notes) }
{
    let Answered { text, notes } = match answer(alloc, version, &inquiry.question) {
        Ok(made) => made,
        Err(reason) => return Err(reason),
    };
    match with_labels(alloc, inquiry, text) {
        Ok(text) => Ok(Answered { text, notes }),
        Err(reason) => Err(reason),
    }
}
