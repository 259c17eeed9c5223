//! Commands that are made together.
ghost use Rattle.std.specs.Prelude.{◌≡◌, ◌⊎◌, [], ◌∷◌, ◌++◌, None, Some, IfErr, IfOk, OnOk};
ghost use Rattle.prt_refusals.specs.declared.refusal.Refusal.TheVariants.{NoMemory};
ghost use Rattle.prt_version.specs.Accepted.{IsAccepted, IsRefusedFor, changes_of};
ghost use Rattle.prt_version.specs.Change.{apply, fold, refusal};

use crate::{Change, Command, Refusal, Version};

/// Makes the version after a command, and adds the change that it makes.
///
/// # Errors
///
/// As of `Version::check` and `Version::next`.
fn made_by(
    version: &Version,
    command: &Command,
    changes: &mut Vec<Change>,
) -> Result<Version, Refusal>
    ensures changes { OnOk result (changes.new.items ≡ changes.old.items ++ changes_of version.now (command.now ∷ [])) }
    ensures version { IfOk result (λ next. next ≡ apply version.now command.now) }
    ensures allowed { OnOk result (refusal version.now command.now ≡ None) }
    ensures reason { IfErr result (λ reason. (refusal version.now command.now ≡ Some reason) ⊎ (reason ≡ NoMemory)) }
{
    changes.push(version.check(command)?)?;
    match changes.last() {
        Some(change) => version.next(change),
        None => unreachable!(),
    }
}

/// Makes the commands one after the other, each of the version after those before it, and adds the changes that they
/// make. Holds one version and the next at a time.
///
/// # Errors
///
/// As of `Version::after_all`.
pub(crate) fn make_all(
    version: Version,
    commands: &[Command],
    changes: &mut Vec<Change>,
) -> Result<Version, Refusal>
    ensures changes { OnOk result (changes.new.items ≡ changes.old.items ++ changes_of version commands.now) }
    ensures version { IfOk result (λ last. last ≡ fold version commands.now) }
    ensures accepted { OnOk result (IsAccepted version commands.now) }
    ensures reason { IfErr result (IsRefusedFor version commands.now) }
{
    let Some((first, rest)) = commands.split_first() else {
        return Ok(version);
    };
    let next = match made_by(&version, first, changes) {
        Ok(next) => next,
        Err(reason) => return Err(reason),
    };
    drop(version);
    make_all(next, rest, changes)
}
