//! The publisher's calls, with what they are in the world.
ghost use Rattle.std.specs.Prelude.{◌≡◌, ◌≤◌, [], ◌∷◌, All, length, true, IfErr, IfOk, IsTrue, OnOk};
ghost use Rattle.sqlite.specs.Held.{state};
ghost use Rattle.sqlite.specs.State.{HasCleanDisk};
ghost use Rattle.prt_command.specs.Storable.{IsStorable};
ghost use Rattle.prt_published.specs.Line.{line_state};
ghost use Rattle.prt_grace.specs.Registry.{new_registry};
ghost use Rattle.prt_publisher.specs.Standing.{IsQuiet};
ghost use Rattle.prt_publisher.specs.Step.{AreChecked, commands_checked};
ghost use Rattle.prt_rows.specs.Effects.{AreEmpty};
ghost use Rattle.prt_store.specs.Exits.{IsKnown, MayLeave};
ghost use Rattle.prt_version.specs.State.{State};
ghost use Rattle.prt_replay.specs.World.{run_from, start};
ghost use Rattle.prt_replay.specs.declared.event.Event.{Event};
ghost use Rattle.prt_replay.specs.declared.event.Event.TheVariants.{Submit, SubmitAll};
ghost use Rattle.prt_laws.specs.Events.{AsksSome, asked};
ghost use Rattle.prt_laws.specs.Laws.{Admits, AdoptsAgain, AdoptsStopped, BeginsAt, ChecksNot, Commits, DeclinesBy, FailsToCommit, Notes, Plans};
ghost use Rattle.prt_laws.specs.Laws.{PlansNot, Prepares, PreparesNot, Publishes, PublishesNot, Shows, Submits, SubmitsNot};
ghost use Rattle.prt_laws.specs.Runs.{Acknowledges, HoldsAll, TakesNot, events_of, receipts_of, step_acts};

use prt_command::{Command, Refusal};
use prt_grace::{Domain, LockedRegistry};
use prt_publisher::{Checked, Phase, Publisher, Receipt};
use sqlite::{Alter, Connection};
use std::alloc::Global;
use std::sync::Wait;

/// Checks commands, outside the lock: no event.
///
/// # Errors
///
/// Those of `Publisher::check_all`. The world refuses the commands for the same reason; of `NoMemory` it has no event.
pub fn check_all<S: Alter + Drop>(
    publisher: &Publisher<S>,
    commands: &[Command],
) -> Result<Checked, Refusal>
    requires quiet { IsQuiet publisher.now.phase }
    requires some { 1 ≤ length commands.now }
    requires storable { All IsStorable commands.now }
    ensures ok { IfOk result (λ checked. AreChecked (line_state publisher.now.line) checked × (commands_checked checked ≡ commands.now)) }
    ensures ready { OnOk result (publisher.now.phase ≡ Phase.Ready) }
    ensures err { IfErr result (λ why. ChecksNot S.Store publisher.now publisher.now commands.now why) }
{
    match publisher.check_all(commands) {
        Ok(checked) => Ok(checked),
        Err(reason) => Err(reason),
    }
}

/// Sees that there is room for checked commands, under the lock of the registry: then they are admitted.
///
/// # Errors
///
/// `Busy`: the world refuses the commands for want of room, after a reclaim.
pub fn admit<S: Alter + Drop>(
    publisher: &mut Publisher<S>,
    registry: &mut LockedRegistry,
    checked: Checked,
) -> Result<(), Refusal>
    requires ready { publisher.old.phase ≡ Phase.Ready }
    requires checked { AreChecked (line_state publisher.old.line) checked }
    ensures ok { OnOk result (Admits S.Store publisher.old publisher.new registry.old registry.new) }
    ensures then { OnOk result ((publisher.new.phase ≡ Phase.Admitted) × (publisher.new.commands ≡ commands_checked checked)) }
    ensures err { IfErr result (λ why. (event : Event) → AsksSome event → commands_checked checked ≡ asked event →
        DeclinesBy S.Store publisher.old publisher.new true registry.old registry.new event why) }
{
    match publisher.admit(registry, checked) {
        Ok(()) => Ok(()),
        Err(reason) => Err(reason),
    }
}

/// Makes the version of the admitted commands, outside the lock.
///
/// # Errors
///
/// `NoMemory`, of which the world has no event.
pub fn plan<S: Alter + Drop>(publisher: &mut Publisher<S>) -> Result<(), Refusal>
    requires { publisher.old.phase ≡ Phase.Admitted }
    ensures ok { OnOk result (Plans S.Store publisher.old publisher.new) }
    ensures then { OnOk result ((publisher.new.phase ≡ Phase.Prepared) × (publisher.new.commands ≡ publisher.old.commands)) }
    ensures err { IfErr result (λ why. PlansNot S.Store publisher.old publisher.new why) }
{
    match publisher.plan() {
        Ok(()) => Ok(()),
        Err(reason) => Err(reason),
    }
}

/// Commits the prepared commands: a store call for each, and three more.
///
/// # Errors
///
/// `StoreFailed`: the calls before the named one succeed, and that one fails. For each state that a crash may leave it
/// has the fate that leaves this state.
pub fn commit<S: Alter + Drop>(publisher: &mut Publisher<S>) -> Result<(), Refusal>
    requires { publisher.old.phase ≡ Phase.Prepared }
    ensures ok { OnOk result (Commits S.Store publisher.old publisher.new) }
    ensures then { OnOk result ((publisher.new.phase ≡ Phase.Committed) × (publisher.new.commands ≡ publisher.old.commands)) }
    ensures err { IfErr result (λ why. FailsToCommit S.Store publisher.old publisher.new why) }
{
    match publisher.commit() {
        Ok(()) => Ok(()),
        Err(reason) => Err(reason),
    }
}

/// Shows the version of the committed commands.
///
/// # Errors
///
/// `NotPublished`: the publication fails.
pub fn show<S: Alter + Drop, H: Wait>(publisher: &mut Publisher<S>, rt: &H) -> Result<(), Refusal>
    requires { publisher.old.phase ≡ Phase.Committed }
    ensures ok { OnOk result (Shows S.Store publisher.old publisher.new) }
    ensures then { OnOk result ((publisher.new.phase ≡ Phase.Published) × (publisher.new.commands ≡ publisher.old.commands)) }
    ensures err { IfErr result (λ why. PublishesNot S.Store publisher.old publisher.new why) }
{
    match publisher.show(rt) {
        Ok(()) => Ok(()),
        Err(reason) => Err(reason),
    }
}

/// Notes the published version, and acknowledges its commands.
pub fn note<S: Alter + Drop>(publisher: &mut Publisher<S>, registry: &mut LockedRegistry) -> Receipt
    requires { publisher.old.phase ≡ Phase.Published }
    ensures { Notes S.Store publisher.old publisher.new registry.old registry.new result }
{
    publisher.note(registry)
}

/// Submits commands by the steps that `Publisher::submit_all` makes, in one registry: so it is said that there was room,
/// and that the version was noted.
///
/// # Errors
///
/// Those of the steps.
pub fn submit_by_steps<S: Alter + Drop, H: Wait>(
    publisher: &mut Publisher<S>,
    rt: &H,
    registry: &mut LockedRegistry,
    commands: &[Command],
) -> Result<Receipt, Refusal>
    requires quiet { IsQuiet publisher.old.phase }
    requires some { 1 ≤ length commands.now }
    requires storable { All IsStorable commands.now }
    ensures ok { IfOk result (λ told. (event : Event) → commands.now ≡ asked event →
        Acknowledges S.Store publisher.old registry.old event told publisher.new registry.new) }
    ensures err { IfErr result (λ why. (event : Event) → commands.now ≡ asked event →
        TakesNot S.Store publisher.old registry.old event why publisher.new registry.new) }
{
    let checked = match check_all(publisher, commands) {
        Ok(checked) => checked,
        Err(reason) => return Err(reason),
    };
    if let Err(reason) = admit(publisher, registry, checked) {
        return Err(reason);
    }
    if let Err(reason) = plan(publisher) {
        return Err(reason);
    }
    if let Err(reason) = commit(publisher) {
        return Err(reason);
    }
    if let Err(reason) = show(publisher, rt) {
        return Err(reason);
    }
    let receipt = note(publisher, registry);
    Ok(receipt)
}

/// Submits the first commands of a new file, with the registry of its domain. What a crash leaves then holds each of them,
/// under its own number, of which the receipt reports the last.
///
/// # Errors
///
/// Those of the steps.
pub fn first_commands<S: Alter + Drop, H: Wait>(
    publisher: &mut Publisher<S>,
    rt: &H,
    registry: &mut LockedRegistry,
    commands: &[Command],
) -> Result<Receipt, Refusal>
    requires quiet { IsQuiet publisher.old.phase }
    requires some { 1 ≤ length commands.now }
    requires storable { All IsStorable commands.now }
    requires registry { registry.old ≡ new_registry (line_state publisher.old.line) }
    ensures { IfOk result (λ told. (event : Event) → commands.now ≡ asked event → BeginsAt S.Store publisher.old start →
        IsKnown S.Store publisher.new.ours_first publisher.new.tables → (left : State) → MayLeave S.Store publisher.new.tables left →
        HoldsAll (run_from start (events_of (step_acts event told))) (receipts_of (step_acts event told)) [] left) }
{
    match submit_by_steps(publisher, rt, registry, commands) {
        Ok(receipt) => Ok(receipt),
        Err(reason) => Err(reason),
    }
}

/// Prepares a command, with the domain.
///
/// # Errors
///
/// Those of `Publisher::prepare`. The world refuses the command for the same reason, for want of room if it has none;
/// of `NoMemory` it has no event.
pub fn prepare<S: Alter + Drop, H: Wait>(
    publisher: &mut Publisher<S>,
    rt: &H,
    domain: &Domain,
    command: &Command,
) -> Result<(), Refusal>
    requires quiet { IsQuiet publisher.old.phase }
    requires storable { IsStorable command.now }
    ensures ok { OnOk result (Prepares S.Store publisher.old publisher.new (Submit command.now)) }
    ensures err { IfErr result (λ why. PreparesNot S.Store publisher.old publisher.new (Submit command.now) why) }
{
    match publisher.prepare(rt, domain, command) {
        Ok(()) => Ok(()),
        Err(reason) => Err(reason),
    }
}

/// Prepares commands together, with the domain.
///
/// # Errors
///
/// Those of `Publisher::prepare_all`. The world refuses the commands for the same reason, for want of room if it has
/// none; of `NoMemory` it has no event.
pub fn prepare_all<S: Alter + Drop, H: Wait>(
    publisher: &mut Publisher<S>,
    rt: &H,
    domain: &Domain,
    commands: &[Command],
) -> Result<(), Refusal>
    requires quiet { IsQuiet publisher.old.phase }
    requires some { 1 ≤ length commands.now }
    requires storable { All IsStorable commands.now }
    ensures ok { OnOk result (Prepares S.Store publisher.old publisher.new (SubmitAll commands.now)) }
    ensures err { IfErr result (λ why. PreparesNot S.Store publisher.old publisher.new (SubmitAll commands.now) why) }
{
    match publisher.prepare_all(rt, domain, commands) {
        Ok(()) => Ok(()),
        Err(reason) => Err(reason),
    }
}

/// Publishes the committed commands, with the domain.
///
/// # Errors
///
/// `NotPublished`: the publication fails.
pub fn publish<S: Alter + Drop, H: Wait>(
    publisher: &mut Publisher<S>,
    rt: &H,
    domain: &Domain,
) -> Result<Receipt, Refusal>
    requires { publisher.old.phase ≡ Phase.Committed }
    ensures ok { IfOk result (λ told. Publishes S.Store publisher.old publisher.new told) }
    ensures err { IfErr result (λ why. PublishesNot S.Store publisher.old publisher.new why) }
{
    match publisher.publish(rt, domain) {
        Ok(receipt) => Ok(receipt),
        Err(reason) => Err(reason),
    }
}

/// Submits a command, with the domain: in a world that has room all of its events, one after the other.
///
/// # Errors
///
/// Those of `Publisher::submit`, each with its events.
pub fn submit<S: Alter + Drop, H: Wait>(
    publisher: &mut Publisher<S>,
    rt: &H,
    domain: &Domain,
    command: &Command,
) -> Result<Receipt, Refusal>
    requires quiet { IsQuiet publisher.old.phase }
    requires storable { IsStorable command.now }
    ensures ok { IfOk result (λ told. Submits S.Store publisher.old publisher.new (Submit command.now) told) }
    ensures err { IfErr result (λ why. SubmitsNot S.Store publisher.old publisher.new (Submit command.now) why) }
{
    match publisher.submit(rt, domain, command) {
        Ok(receipt) => Ok(receipt),
        Err(reason) => Err(reason),
    }
}

/// Submits commands together, with the domain: in a world that has room all of their events, one after the other.
///
/// # Errors
///
/// Those of `Publisher::submit_all`, each with its events: all of the commands are stored, or none.
pub fn submit_all<S: Alter + Drop, H: Wait>(
    publisher: &mut Publisher<S>,
    rt: &H,
    domain: &Domain,
    commands: &[Command],
) -> Result<Receipt, Refusal>
    requires quiet { IsQuiet publisher.old.phase }
    requires some { 1 ≤ length commands.now }
    requires storable { All IsStorable commands.now }
    ensures ok { IfOk result (λ told. Submits S.Store publisher.old publisher.new (SubmitAll commands.now) told) }
    ensures err { IfErr result (λ why. SubmitsNot S.Store publisher.old publisher.new (SubmitAll commands.now) why) }
{
    match publisher.submit_all(rt, domain, commands) {
        Ok(receipt) => Ok(receipt),
        Err(reason) => Err(reason),
    }
}

/// Adopts the database of a connection: of a new file that is the world's start, of one that was left so a stop and an
/// opening, wherever the stop fell.
///
/// # Errors
///
/// As `Publisher::adopt`.
pub fn adopt<S: Alter + Drop>(
    alloc: Global,
    conn: Connection<S>,
) -> Result<(Publisher<S>, Domain), (Refusal, Connection<S>)>
    ensures fresh { IfOk result (λ made. AreEmpty (state S.Store conn).now → IsKnown S.Store made.0.ours_first made.0.tables → BeginsAt S.Store made.0 start) }
    ensures again { IfOk result (λ made. HasCleanDisk (state S.Store made.0.tables) → IsTrue (state S.Store conn).is_open →
        AdoptsAgain S.Store (state S.Store conn).now.trees made.0) }
    ensures stopped { IfOk result (λ made. HasCleanDisk (state S.Store made.0.tables) → IsTrue (state S.Store conn).is_open →
        AdoptsStopped S.Store (state S.Store conn).now.trees made.0) }
{
    match Publisher::adopt(alloc, conn) {
        Ok((publisher, domain)) => Ok((publisher, domain)),
        Err(refused) => Err(refused),
    }
}
