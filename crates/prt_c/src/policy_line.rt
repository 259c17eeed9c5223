//! Lines that a policy table follows.
ghost use Rattle.std.specs.Prelude.{◌≡◌, IfErr, IfOk, None, OnOk};
ghost use Rattle.std.specs.Arc.{arc_value};
ghost use Rattle.std.specs.Option.{unwrap_or};
ghost use Rattle.prt_lines.specs.Lines.{line_refusal, line_state};
ghost use Rattle.prt_c.specs.Policies.{IsUnfollowed};

use prt_command::{Request, read_line};
use prt_fib::PolicyFib;
use prt_version::Refusal;
use prt_version::owners::first_owner;
use std::alloc::Global;
use std::sync::Arc;

/// Makes the policy table after a line, which comes without its newline. None if the line asks for no change.
///
/// # Errors
///
/// The first fault of the line, as of `read_line`; otherwise as of `PolicyFib::follow`. `NoMemory` may come in place of
/// each. The table stays as it is.
fn after_line(alloc: Global, policy: &PolicyFib, line: &[u8]) -> Result<Option<PolicyFib>, Refusal>
    ensures value { IfOk result (λ next. unwrap_or next policy.now ≡ line_state policy.now line.now) }
    ensures allowed { OnOk result (line_refusal policy.now line.now ≡ None) }
    ensures reason { IfErr result (IsUnfollowed policy.now line.now) }
{
    match read_line(line)? {
        Some(Request::Command(command)) => Ok(Some(policy.follow(alloc, &command)?)),
        Some(Request::Query(_)) | None => Ok(None),
    }
}

/// Executes a line: its owner owns the policy table after it, in place of the one before, which other owners keep.
///
/// # Errors
///
/// As of [`after_line`]; the owner then owns the same table as before.
pub(crate) fn advance(alloc: Global, owner: &mut Arc<PolicyFib>, line: &[u8]) -> Result<(), Refusal>
    ensures value { OnOk result (arc_value owner.new ≡ line_state (arc_value owner.old) line.now) }
    ensures allowed { OnOk result (line_refusal (arc_value owner.old) line.now ≡ None) }
    ensures same { IfErr result (λ reason. owner.new ≡ owner.old) }
    ensures reason { IfErr result (IsUnfollowed (arc_value owner.old) line.now) }
{
    if let Some(next) = after_line(alloc, owner, line)? {
        *owner = first_owner(alloc, next)?;
    }
    Ok(())
}
