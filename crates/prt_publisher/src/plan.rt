//! What commands need to be published, with its memory.
ghost use Rattle.std.specs.Prelude.{◌≡◌, IfErr, IfOk};
ghost use Rattle.std.specs.Arc.{arc_value};
ghost use Rattle.prt_refusals.specs.declared.refusal.Refusal.TheVariants.{NoMemory};
ghost use Rattle.prt_publisher.specs.Step.{AreChecked, IsPlan, commands_checked};

use crate::checked::CheckedCommands;
use crate::{ChangeSet, Checked};
use prt_command::{Command, Refusal};
use prt_published::Front;
use prt_version::{Change, Version};
use std::alloc::{AllocError, Global};
use std::sync::Arc;

/// Commands that are published together, the changes that they make, and the version after them in the hands of three
/// owners: the publisher, the front and the registry.
#[derive(Drop)]
pub(crate) struct Plan {
    pub(crate) commands: Vec<Command>,
    pub(crate) changes: Vec<Change>,
    pub(crate) next: Arc<Version>,
    pub(crate) shown: Arc<Version>,
    pub(crate) noted: Arc<Version>,
}

/// Makes three owners of a version.
pub(crate) fn owners(
    alloc: Global,
    version: Version,
) -> Result<(Arc<Version>, Arc<Version>, Arc<Version>), AllocError>
    ensures { IfOk result (λ three. (arc_value three.0 ≡ version) × (arc_value three.1 ≡ version) × (arc_value three.2 ≡ version)) }
{
    let first = Arc::new(alloc, version)?;
    let second = Arc::try_clone(&first)?;
    let third = Arc::try_clone(&first)?;
    Ok((first, second, third))
}

/// Plans checked commands.
///
/// # Errors
///
/// `NoMemory`.
fn plan_checked(published: &Version, checked: Checked) -> Result<ChangeSet, Refusal>
    requires { AreChecked published.now checked }
    ensures value { IfOk result (λ set. set ≡ record { base = published.now; commands = commands_checked checked }) }
    ensures reason { IfErr result (λ reason. reason ≡ NoMemory) }
{
    match checked.commands {
        CheckedCommands::One(command, change) => {
            let mut set = match ChangeSet::new(published) {
                Ok(set) => set,
                Err(reason) => return Err(reason),
            };
            match set.add_checked(&command, change) {
                Ok(()) => Ok(set),
                Err(reason) => Err(reason),
            }
        }
        CheckedCommands::Several(set) => Ok(set),
    }
}

/// Makes what checked commands need to be published, with all memory that they need after their commit.
///
/// # Errors
///
/// `NoMemory`.
fn make_plan(published: &Version, checked: Checked) -> Result<Plan, Refusal>
    requires { AreChecked published.now checked }
    ensures plan { IfOk result (IsPlan published.now) }
    ensures commands { IfOk result (λ plan. plan.commands.items ≡ commands_checked checked) }
    ensures reason { IfErr result (λ reason. reason ≡ NoMemory) }
{
    let alloc = *published.shared_rules().allocator();
    let set = match plan_checked(published, checked) {
        Ok(set) => set,
        Err(reason) => return Err(reason),
    };
    let (commands, changes, last) = set.into_parts();
    let (next, shown, noted) = owners(alloc, last)?;
    Ok(Plan {
        commands,
        changes,
        next,
        shown,
        noted,
    })
}

/// Makes what checked commands need to be published as `make_plan`, and sees that the front has the memory to show it.
///
/// # Errors
///
/// `NoMemory`.
pub(crate) fn plan_shown(
    front: &mut Front,
    published: &Version,
    checked: Checked,
) -> Result<Plan, Refusal>
    requires { AreChecked published.now checked }
    ensures front { front.new ≡ front.old }
    ensures plan { IfOk result (IsPlan published.now) }
    ensures commands { IfOk result (λ plan. plan.commands.items ≡ commands_checked checked) }
    ensures reason { IfErr result (λ reason. reason ≡ NoMemory) }
{
    if let Err(reason) = front.make_room() {
        return Err(reason);
    }
    make_plan(published, checked)
}
