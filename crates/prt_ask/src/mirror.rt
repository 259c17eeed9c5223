//! What `ip` listed, as it is brought to tables that change.
ghost use Rattle.std.specs.Prelude.{◌≡◌, ◌+◌, None, IfOk, OnErr, OnOk};
ghost use Rattle.prt_ask.specs.Answers.{AreNotesOf};
ghost use Rattle.prt_ask.specs.Mirrors.{after_change, mirror_of};
ghost use Rattle.prt_diff.specs.Text.{changes_text};
ghost use Rattle.prt_version.specs.Change.{apply, fold, refusal};

use crate::answers::Answered;
use crate::difference::{Difference, find_difference};
use crate::refusal::AnswerError;
use prt_command::Command;
use prt_diff::Fence;
use prt_feed::Change;
use prt_version::Version;
use std::alloc::Global;

/// What `ip` listed, after the lines that were printed for it, and the tables that it was brought to.
#[derive(Drop)]
pub struct Mirror {
    /// What of both is compared.
    pub fence: Fence,
    /// The listing, after those lines.
    pub found: Version,
    /// The tables.
    pub wanted: Version,
}

/// Makes the version after commands.
///
/// # Errors
///
/// `Refused` with the refusal of the first one that is refused, or `NoMemory` in it.
fn after_commands(version: &Version, commands: &[Command]) -> Result<Version, AnswerError>
    ensures { IfOk result (λ after. after ≡ fold version.now commands.now) }
{
    let (_, mut after) = match version.after_all(&[]) {
        Ok(made) => made,
        Err(reason) => return Err(AnswerError::Refused(reason)),
    };
    // One by one: there may be more of them than `after_all` has room for on the stack.
    for command in commands {
        after = after_command(&after, command)?;
    }
    Ok(after)
}

/// Makes the version after a command.
///
/// # Errors
///
/// `Refused` with its refusal, or `NoMemory` in it.
fn after_command(version: &Version, command: &Command) -> Result<Version, AnswerError>
    ensures value { IfOk result (λ after. after ≡ apply version.now command.now) }
    ensures allowed { OnOk result (refusal version.now command.now ≡ None) }
{
    let change = match version.check(command) {
        Ok(change) => change,
        Err(reason) => return Err(AnswerError::Refused(reason)),
    };
    match version.next(&change) {
        Ok(after) => Ok(after),
        Err(reason) => Err(AnswerError::Refused(reason)),
    }
}

impl Mirror {
    /// Begins with a listing and with the tables that it is brought to by the lines of the answer.
    ///
    /// # Errors
    ///
    /// `Change` if no line can express a change, `Refused` if there is no room for one, `NoMemory`.
    pub fn begin(
        alloc: Global,
        fence: Fence,
        found: Version,
        wanted: Version,
    ) -> Result<(Mirror, Answered), AnswerError>
        ensures mirror { IfOk result (λ begun. begun.0 ≡ mirror_of fence found wanted) }
        ensures text { IfOk result (λ begun. begun.1.text.items ≡ changes_text fence found wanted) }
        ensures notes { IfOk result (λ begun. AreNotesOf fence found wanted begun.1.notes) }
    {
        let Difference { commands, answer } = find_difference(alloc, &fence, &found, &wanted)?;
        let found = after_commands(&found, &commands)?;
        Ok((
            Mirror {
                fence,
                found,
                wanted,
            },
            answer,
        ))
    }

    /// Takes the next change of the tables, and writes the lines that bring the listing to the tables after it.
    ///
    /// # Errors
    ///
    /// `Gap` if it isn't the next one; `Change` if no line can express a change; `Refused` if the change is refused or there is
    /// no room for one of the lines; `NoMemory`. Then nothing has changed.
    pub fn follow(&mut self, alloc: Global, change: &Change) -> Result<Answered, AnswerError>
        ensures number { OnOk result (change.now.number ≡ self.old.wanted.count + 1) }
        ensures accepted { OnOk result (refusal self.old.wanted change.now.command ≡ None) }
        ensures mirror { OnOk result (self.new ≡ after_change self.old change.now.command) }
        ensures text { IfOk result (λ made. made.text.items ≡ changes_text self.old.fence self.old.found (apply self.old.wanted change.now.command)) }
        ensures notes { IfOk result (λ made. AreNotesOf self.old.fence self.old.found (apply self.old.wanted change.now.command) made.notes) }
        ensures same { OnErr result (self.new ≡ self.old) }
    {
        if Some(change.number) != self.wanted.number().checked_add(1) {
            return Err(AnswerError::Gap);
        }
        let wanted = after_command(&self.wanted, &change.command)?;
        let Difference { commands, answer } = find_difference(
            alloc,
            &self.fence,
            &self.found,
            &wanted,
        )?;
        self.found = after_commands(&self.found, &commands)?;
        self.wanted = wanted;
        Ok(answer)
    }
}
