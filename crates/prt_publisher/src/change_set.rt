//! Commands that are checked and planned.
ghost use Rattle.std.specs.Prelude.{◌≡◌, ◌⊎◌, ◌++◌, [], ◌∷◌, All, None, Some, Ok, IfErr, IfOk, OnErr, OnOk};
ghost use Rattle.prt_refusals.specs.declared.refusal.Refusal.TheVariants.{NoMemory};
ghost use Rattle.prt_command.specs.Storable.{IsStorable};
ghost use Rattle.prt_publisher.specs.ChangeSet.{planned_state};
ghost use Rattle.prt_version.specs.Accepted.{IsAccepted, IsRefusedFor, changes_of};
ghost use Rattle.prt_version.specs.Change.{check, refusal};

use prt_command::{Command, Refusal};
use prt_version::{Change, Version};
use std::marker::Model;

/// Commands that a version accepts one after the other, with the changes that they make and the version after the last.
/// So none of them is checked or planned again. Contracts see it as the version that it is of, and the commands.
#[derive(Drop)]
pub struct ChangeSet {
    base: Version,
    commands: Vec<Command>,
    changes: Vec<Change>,
    last: Version,
}

impl Model for ChangeSet {
    ghost use Rattle.std.specs.Prelude.{◌≡◌, All};
    ghost use Rattle.prt_command.specs.Storable.{IsStorable};
    ghost use Rattle.prt_publisher.specs.ChangeSet.{Planned};
    ghost use Rattle.prt_version.specs.Accepted.{IsAccepted, changes_of};
    ghost use Rattle.prt_version.specs.Change.{fold};

    ghost Value = { Planned };

    ghost view = { λ set. record { base = set.base; commands = set.commands.items } };

    ghost invariant = { λ set. IsAccepted set.base set.commands.items × (set.changes.items ≡ changes_of set.base set.commands.items)
        × (set.last ≡ fold set.base set.commands.items) × All IsStorable set.commands.items };
}

/// Puts a version in the place of the one before it.
fn advance(last: &mut Version, next: Version)
    ensures { last.new ≡ next }
{
    *last = next;
}

impl ChangeSet {
    /// Begins a set without commands.
    ///
    /// # Errors
    ///
    /// `NoMemory` alone.
    pub fn new(version: &Version) -> Result<ChangeSet, Refusal>
        ensures value { IfOk result (λ set. set ≡ record { base = version.now; commands = [] }) }
        ensures reason { IfErr result (λ reason. reason ≡ NoMemory) }
    {
        let alloc = *version.shared_rules().allocator();
        Ok(ChangeSet {
            base: version.share()?,
            commands: Vec::new(alloc),
            changes: Vec::new(alloc),
            last: version.share()?,
        })
    }

    /// Adds a command with the change that `check` returned for it in the version after those before it.
    ///
    /// # Errors
    ///
    /// `NoMemory`, which leaves the set as it was.
    pub(crate) fn add_checked(&mut self, command: &Command, change: Change) -> Result<(), Refusal>
        requires makes { check (planned_state self.old) command.now ≡ Ok change }
        requires storable { IsStorable command.now }
        ensures ok { OnOk result (self.new ≡ record self.old { commands = self.old.commands ++ command.now ∷ [] }) }
        ensures err { OnErr result (self.new ≡ self.old) }
        ensures reason { IfErr result (λ reason. reason ≡ NoMemory) }
    {
        let next = self.last.next(&change)?;
        self.commands.reserve(1)?;
        self.changes.extend_from_slice(&[change])?;
        match self.commands.extend_from_slice(&[*command]) {
            Ok(()) => {
                advance(&mut self.last, next);
                Ok(())
            }
            Err(_) => unreachable!(),
        }
    }

    /// Adds a command.
    ///
    /// # Errors
    ///
    /// What the version after those before it refuses it for, or `NoMemory`. The set is then as it was.
    pub fn add(&mut self, command: &Command) -> Result<(), Refusal>
        requires { IsStorable command.now }
        ensures ok { OnOk result (self.new ≡ record self.old { commands = self.old.commands ++ command.now ∷ [] }) }
        ensures allowed { OnOk result (refusal (planned_state self.old) command.now ≡ None) }
        ensures err { OnErr result (self.new ≡ self.old) }
        ensures reason { IfErr result (λ reason. (refusal (planned_state self.old) command.now ≡ Some reason) ⊎ (reason ≡ NoMemory)) }
        ensures accepted { OnOk result (IsAccepted self.new.base self.new.commands) }
    {
        match self.last.check(command) {
            Ok(change) => {
                self.add_checked(command, change)?;
                Ok(())
            }
            Err(reason) => Err(reason),
        }
    }

    /// Makes a set of commands.
    ///
    /// # Errors
    ///
    /// What the first command is refused for that is refused in the version after those before it. `NoMemory` may come
    /// before that.
    pub fn of_all(version: &Version, commands: &[Command]) -> Result<ChangeSet, Refusal>
        requires { All IsStorable commands.now }
        ensures value { IfOk result (λ set. set ≡ record { base = version.now; commands = commands.now }) }
        ensures accepted { OnOk result (IsAccepted version.now commands.now) }
        ensures reason { IfErr result (IsRefusedFor version.now commands.now) }
    {
        let mut set = match ChangeSet::new(version) {
            Ok(set) => set,
            Err(reason) => return Err(reason),
        };
        for command in commands {
            if let Err(reason) = set.add(command) {
                return Err(reason);
            }
        }
        Ok(set)
    }

    /// Returns the version that it is of.
    pub fn base(&self) -> &Version
        ensures { result.now ≡ self.now.base }
    {
        &self.base
    }

    /// Returns the commands.
    pub fn commands(&self) -> &[Command]
        ensures value { result.now ≡ self.now.commands }
        ensures accepted { IsAccepted self.now.base self.now.commands }
        ensures storable { All IsStorable self.now.commands }
    {
        self.commands.as_slice()
    }

    /// Returns the version after the commands.
    pub fn last(&self) -> &Version
        ensures { result.now ≡ planned_state self.now }
    {
        &self.last
    }

    /// Returns the commands, their changes, and the version after them.
    pub(crate) fn into_parts(self) -> (Vec<Command>, Vec<Change>, Version)
        ensures commands { result.0.items ≡ self.commands }
        ensures changes { result.1.items ≡ changes_of self.base self.commands }
        ensures version { result.2 ≡ planned_state self }
    {
        let ChangeSet {
            base: _,
            commands,
            changes,
            last,
        } = self;
        (commands, changes, last)
    }
}
