ghost use Rattle.std.specs.Prelude.{◌≡◌, ◌⊎◌, IfErr, IfOk, None, OnOk, Some};
ghost use Rattle.std.specs.Arc.{arc_value};
ghost use Rattle.std.specs.Option.{unwrap_or};
ghost use Rattle.std.specs.Result.{result_err};
ghost use Rattle.prt_refusals.specs.declared.refusal.Refusal.TheVariants.{NoMemory};
ghost use Rattle.prt_lines.specs.Lines.{line_refusal, line_state};
ghost use Rattle.prt_version.specs.Change.{IsChecked, apply, put_if, refusal};

use prt_command::{Command, Request, read_line};
use prt_version::owners::first_owner;
use prt_version::{Change, Refusal, Version};
use std::alloc::Global;
use std::sync::Arc;

/// Makes the version after a change that was checked.
fn after(version: &Version, checked: Result<Change, Refusal>) -> Result<Version, Refusal>
    requires { IfOk checked (λ change. IsChecked version.now change) }
    ensures value { IfOk result (λ next. next ≡ put_if version.now checked) }
    ensures allowed { OnOk result (result_err checked ≡ None) }
    ensures reason { IfErr result (λ reason. (result_err checked ≡ Some reason) ⊎ (reason ≡ NoMemory)) }
{
    match checked {
        Ok(change) => version.next(&change),
        Err(reason) => Err(reason),
    }
}

/// Makes the version after a command.
fn made(version: &Version, command: &Command) -> Result<Version, Refusal>
    ensures value { IfOk result (λ next. next ≡ apply version.now command.now) }
    ensures allowed { OnOk result (refusal version.now command.now ≡ None) }
    ensures reason { IfErr result (λ reason. (refusal version.now command.now ≡ Some reason) ⊎ (reason ≡ NoMemory)) }
{
    after(version, version.check(command))
}

/// Makes the version after a line, which comes without its newline. None if the line asks for no change: it is blank, a comment
/// or a question. The version stays as it is.
///
/// # Errors
///
/// The first fault of the line, as of `read_line`; then what `Version::check` refuses the command for. `NoMemory` may come
/// in place of both.
pub fn next_version(version: &Version, line: &[u8]) -> Result<Option<Version>, Refusal>
    ensures value { IfOk result (λ next. unwrap_or next version.now ≡ line_state version.now line.now) }
    ensures allowed { OnOk result (line_refusal version.now line.now ≡ None) }
    ensures reason { IfErr result (λ reason. (line_refusal version.now line.now ≡ Some reason) ⊎ (reason ≡ NoMemory)) }
{
    match read_line(line)? {
        Some(Request::Command(command)) => Ok(Some(made(version, &command)?)),
        Some(Request::Query(_)) | None => Ok(None),
    }
}

/// Executes a line: its owner owns the version after it, in place of the one before, which other owners keep.
///
/// # Errors
///
/// As of [`next_version`]; the owner then owns the same version as before.
pub fn advance(alloc: Global, owner: &mut Arc<Version>, line: &[u8]) -> Result<(), Refusal>
    ensures value { OnOk result (arc_value owner.new ≡ line_state (arc_value owner.old) line.now) }
    ensures allowed { OnOk result (line_refusal (arc_value owner.old) line.now ≡ None) }
    ensures same { IfErr result (λ reason. owner.new ≡ owner.old) }
    ensures reason { IfErr result (λ reason. (line_refusal (arc_value owner.old) line.now ≡ Some reason) ⊎ (reason ≡ NoMemory)) }
{
    if let Some(next) = next_version(owner, line)? {
        *owner = first_owner(alloc, next)?;
    }
    Ok(())
}
