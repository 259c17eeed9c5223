//! What differs between what was found and tables.
ghost use Rattle.std.specs.Prelude.{◌≡◌, IfErr, IfOk};
ghost use Rattle.prt_ask.specs.Answers.{AreNotesOf, IsOfChange};
ghost use Rattle.prt_diff.specs.Plan.{changes};
ghost use Rattle.prt_diff.specs.Text.{changes_text};

use crate::answers::Answered;
use crate::notes::Notes;
use crate::refusal::AnswerError;
use prt_command::Command;
use prt_diff::{Changes, Fence, batch_text, changes, count_outside};
use prt_version::Version;
use std::alloc::Global;

/// What differs: the commands, their lines, and what is to be told of them.
#[derive(Drop)]
pub(crate) struct Difference {
    pub(crate) commands: Vec<Command>,
    pub(crate) answer: Answered,
}

/// Finds what differs within a fence.
///
/// # Errors
///
/// `Change` if no line can express a change, and `NoMemory`.
pub(crate) fn find_difference(
    alloc: Global,
    fence: &Fence,
    found: &Version,
    wanted: &Version,
) -> Result<Difference, AnswerError>
    ensures commands { IfOk result (λ difference. difference.commands.items ≡ changes fence.now found.now wanted.now) }
    ensures text { IfOk result (λ difference. difference.answer.text.items ≡ changes_text fence.now found.now wanted.now) }
    ensures notes { IfOk result (λ difference. AreNotesOf fence.now found.now wanted.now difference.answer.notes) }
    ensures reason { IfErr result IsOfChange }
{
    let Changes {
        commands,
        rules: _,
        early,
        moved,
        left,
        held,
    } = changes(alloc, fence, found, wanted)?;
    let text = batch_text(alloc, &commands)?;
    let outside = count_outside(fence, wanted)?;
    let notes = Notes {
        early,
        moved,
        left,
        held,
        outside,
    };
    Ok(Difference {
        commands,
        answer: Answered { text, notes },
    })
}
