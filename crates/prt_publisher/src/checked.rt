//! Commands that are refused for nothing.
ghost use Rattle.std.specs.Prelude.{◌≡◌, ◌≤◌, All, IfErr, IfOk, OnOk, length};
ghost use Rattle.prt_command.specs.Storable.{IsStorable};
ghost use Rattle.prt_publisher.specs.Exits.{AreRefused};
ghost use Rattle.prt_publisher.specs.Step.{AreChecked, commands_checked};
ghost use Rattle.prt_version.specs.Accepted.{IsAccepted};

use crate::ChangeSet;
use prt_command::{Command, Refusal};
use prt_version::{Change, Version};

/// Commands of which each is refused for nothing in the state after those before it.
#[derive(Drop)]
pub struct Checked {
    pub(crate) commands: CheckedCommands,
}

#[derive(Drop)]
pub(crate) enum CheckedCommands {
    /// One, with its change. The version after it is still to be made: so it takes no memory before it is admitted.
    One(Command, Change),
    /// Several, with the version after them.
    Several(ChangeSet),
}

impl Checked {
    /// Takes commands that are planned over the published version.
    pub(crate) fn of_set(set: ChangeSet) -> Checked
        requires { 1 ≤ length set.commands }
        ensures checked { AreChecked set.base result }
        ensures commands { commands_checked result ≡ set.commands }
    {
        // Recalls that the version is sound, and the commands are accepted.
        let _number = set.base().number();
        let _commands = set.commands();
        Checked {
            commands: CheckedCommands::Several(set),
        }
    }
}

/// Checks commands, each on the version after those before it. One by itself takes no memory.
///
/// # Errors
///
/// What the first command is refused for that is refused. Of several commands `NoMemory` may come at any up to that.
pub(crate) fn check_all(published: &Version, commands: &[Command]) -> Result<Checked, Refusal>
    requires some { 1 ≤ length commands.now }
    requires storable { All IsStorable commands.now }
    ensures checked { IfOk result (AreChecked published.now) }
    ensures commands { IfOk result (λ checked. commands_checked checked ≡ commands.now) }
    ensures accepted { OnOk result (IsAccepted published.now commands.now) }
    ensures reason { IfErr result (AreRefused published.now commands.now) }
{
    if commands.len() > 1 {
        return match ChangeSet::of_all(published, commands) {
            Ok(set) => Ok(Checked::of_set(set)),
            Err(reason) => Err(reason),
        };
    }
    let [command] = commands else {
        unreachable!();
    };
    // Recalls that the version is sound.
    let _number = published.number();
    match published.check(command) {
        Ok(change) => Ok(Checked {
            commands: CheckedCommands::One(*command, change),
        }),
        Err(reason) => Err(reason),
    }
}
