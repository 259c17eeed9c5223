//! The lines of commands, for a reader, a server or `ip -batch`.
ghost use Rattle.std.specs.Prelude.{◌≡◌, ◌++◌, All, IfErr, IfOk, OnOk, codes};
ghost use Rattle.prt_spelling.specs.Line.{line_by};
ghost use Rattle.prt_spelling.specs.Spelled.{IsWhyNotSpelled};
ghost use Rattle.prt_spelling.specs.declared.form.NameForm.TheVariants.{ByName, ByNumber};
ghost use Rattle.prt_diff.specs.Plan.{changes};
ghost use Rattle.prt_diff.specs.Text.{IsAskedFor, IsWhyNotWritten, batch_text, changes_text, commands_text, text_by};

use crate::diff::changes;
use crate::fence::Fence;
use crate::refusal::LineError;
use prt_command::Command;
use prt_listing::push_text;
use prt_spelling::{NameForm, SpellingError, line_by};
use prt_version::Version;
use std::alloc::{AllocError, Global};

/// Appends these bytes, and a newline.
fn push_line(text: &mut Vec<u8>, line: &[u8]) -> Result<(), AllocError>
    ensures { OnOk result (text.new.items ≡ text.old.items ++ (line.now ++ codes "\n")) }
{
    text.extend_from_slice(line)?;
    push_text(text, "\n")
}

/// Appends the line of the command, with protocols and scopes in this form, and a newline.
fn push_command(
    alloc: Global,
    text: &mut Vec<u8>,
    form: NameForm,
    command: &Command,
) -> Result<(), SpellingError>
    ensures text { OnOk result (text.new.items ≡ text.old.items ++ (line_by form command.now ++ codes "\n")) }
    ensures read { OnOk result (IsAskedFor form command.now) }
    ensures reason { IfErr result (λ reason. IsWhyNotSpelled command.now reason) }
{
    let line = line_by(alloc, form, command)?;
    let Ok(()) = push_line(text, &line) else {
        return Err(SpellingError::NoMemory);
    };
    Ok(())
}

/// Formats the commands as lines, with protocols and scopes in this form.
fn text_by(alloc: Global, form: NameForm, commands: &[Command]) -> Result<Vec<u8>, LineError>
    ensures text { IfOk result (λ text. text.items ≡ text_by form commands.now) }
    ensures read { IfOk result (λ text. All (IsAskedFor form) commands.now) }
    ensures reason { IfErr result (λ reason. IsWhyNotWritten commands.now reason) }
{
    let mut text = Vec::new(alloc);
    for command in commands {
        match push_command(alloc, &mut text, form, command) {
            Ok(()) => {}
            Err(SpellingError::NoLine) => return Err(LineError::NoLine(*command)),
            Err(SpellingError::NoMemory) => return Err(LineError::NoMemory),
        }
    }
    Ok(text)
}

/// Formats the commands as lines with the names of protocols and scopes: each asks for its command, and ends with a newline.
///
/// # Errors
///
/// `NoLine` with the first command that no line asks for: of a rule or a route with an interface whose name has `#`, a
/// control byte or a byte above 0x7e, or that a table may not hold. `NoMemory` may come instead.
pub fn commands_text(alloc: Global, commands: &[Command]) -> Result<Vec<u8>, LineError>
    ensures text { IfOk result (λ text. text.items ≡ commands_text commands.now) }
    ensures read { IfOk result (λ text. All (IsAskedFor ByName) commands.now) }
    ensures reason { IfErr result (λ reason. IsWhyNotWritten commands.now reason) }
{
    text_by(alloc, NameForm::ByName, commands)
}

/// Formats the commands as lines for `ip -batch`, with the numbers of protocols and scopes: each asks for its command, and ends with a
/// newline.
///
/// # Errors
///
/// Those of [`commands_text`].
pub fn batch_text(alloc: Global, commands: &[Command]) -> Result<Vec<u8>, LineError>
    ensures text { IfOk result (λ text. text.items ≡ batch_text commands.now) }
    ensures read { IfOk result (λ text. All (IsAskedFor ByNumber) commands.now) }
    ensures reason { IfErr result (λ reason. IsWhyNotWritten commands.now reason) }
{
    text_by(alloc, NameForm::ByNumber, commands)
}

/// Formats the commands that [`changes`] computes as lines for `ip -batch`. If nothing differs there are none.
///
/// [`changes`]: crate::changes
///
/// # Errors
///
/// Those of [`commands_text`].
pub fn changes_text(
    alloc: Global,
    fence: &Fence,
    found: &Version,
    wanted: &Version,
) -> Result<Vec<u8>, LineError>
    ensures text { IfOk result (λ text. text.items ≡ changes_text fence.now found.now wanted.now) }
    ensures read { IfOk result (λ text. All (IsAskedFor ByNumber) (changes fence.now found.now wanted.now)) }
    ensures reason { IfErr result (λ reason. IsWhyNotWritten (changes fence.now found.now wanted.now) reason) }
{
    let Ok(changes) = changes(alloc, fence, found, wanted) else {
        return Err(LineError::NoMemory);
    };
    batch_text(alloc, &changes.commands)
}
