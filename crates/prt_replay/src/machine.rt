//! A replay: real versions and the real registry, with a version in memory as the disk.
ghost use Rattle.std.specs.Prelude.{◌≡◌, IfOk, None, true};
ghost use Rattle.std.specs.Arc.{arc_value};
ghost use Rattle.prt_version.specs.Change.{fold};
ghost use Rattle.prt_version.specs.State.{opening_state};
ghost use Rattle.prt_refusals.specs.declared.refusal.StoreCall.TheVariants.{Write};
ghost use Rattle.prt_replay.specs.declared.outcome.Outcome.TheVariants as outcomes;
ghost use Rattle.prt_replay.specs.declared.stage.Stage.TheVariants.{Prepared, Ready, Stopped};
ghost use Rattle.prt_replay.specs.Machine.{acknowledge_by, announce_by, announced_at, at_stage, call_by, can_announce, commit_by, fail_by};
ghost use Rattle.prt_replay.specs.Machine.{fail_publication_by, fetch_by, is_stopped_at, left_by, look_by, machine_step, note_by, offline_by};
ghost use Rattle.prt_replay.specs.Machine.{online_by, opened, prepare_all, publish_by, reclaim_by, reopen_by, running_step, seat_of, stop_by};
ghost use Rattle.prt_replay.specs.Machine.{submit_by, submit_some};

use crate::lookers::Lookers;
use crate::stage::Stage;
use crate::{Event, Fate, LookerNumber, Outcome};
use prt_command::{Command, Packet};
use prt_refusals::{Refusal, StoreCall};
use prt_version::Version;
use std::alloc::{AllocError, Global};
use std::marker::Model;
use std::slice;
use std::sync::Arc;

/// What the service, its disk and its lookers hold.
#[derive(Drop)]
pub(crate) struct Machine {
    lookers: Lookers,
    published: Arc<Version>,
    disk: Arc<Version>,
    /// The version after the commands that are under way.
    next: Arc<Version>,
    stage: Stage,
}

impl Model for Machine {
    ghost use Rattle.std.specs.Arc.{arc_value};
    ghost use Rattle.prt_replay.specs.Machine.{MachineState};

    ghost Value = { MachineState };

    ghost view = { λ m. record { lookers = m.lookers; published = arc_value m.published; disk = arc_value m.disk; next = arc_value m.next; stage = m.stage } };
}

impl Machine {
    /// Opens a database with this version on its disk.
    fn opened(alloc: Global, disk: Arc<Version>) -> Result<Machine, AllocError>
        ensures { IfOk result (λ machine. machine ≡ opened (arc_value disk)) }
    {
        let noted = Arc::try_clone(&disk)?;
        let published = Arc::try_clone(&disk)?;
        let next = Arc::try_clone(&disk)?;
        Ok(Machine {
            lookers: Lookers::new(alloc, noted)?,
            published,
            disk,
            next,
            stage: Stage::Ready,
        })
    }

    /// Makes a new database, opened.
    pub(crate) fn new(alloc: Global) -> Result<Machine, AllocError>
        ensures { IfOk result (λ machine. machine ≡ opened opening_state) }
    {
        let Ok(version) = Version::opening(alloc) else {
            return Err(AllocError);
        };
        Machine::opened(alloc, Arc::new(alloc, version)?)
    }

    /// Checks commands together if none is under way.
    fn submit(&mut self, alloc: Global, commands: &[Command]) -> Result<Outcome, AllocError>
        ensures { IfOk result (λ outcome. record { machine = self.new; outcome = outcome } ≡ submit_some self.old commands.now) }
    {
        if commands.is_empty() {
            return Ok(Outcome::Nothing);
        }
        match self.stage {
            Stage::Ready => self.prepare(alloc, commands),
            Stage::Closed => Ok(Outcome::Refused(Refusal::Closed)),
            _ => Ok(Outcome::Nothing),
        }
    }

    /// Makes the version after commands, unless one is refused or there is no room.
    fn prepare(&mut self, alloc: Global, commands: &[Command]) -> Result<Outcome, AllocError>
        ensures { IfOk result (λ outcome. record { machine = self.new; outcome = outcome } ≡ submit_by self.old commands.now Ready) }
    {
        match self.published.after_all(commands) {
            Ok((_, next)) if self.lookers.has_room() => self.prepare_next(alloc, next, commands),
            Ok(_) => Ok(Outcome::Refused(Refusal::Busy)),
            Err(Refusal::NoMemory) => Err(AllocError),
            Err(reason) => Ok(Outcome::Refused(reason)),
        }
    }

    /// Goes on with the version after commands.
    fn prepare_next(
        &mut self,
        alloc: Global,
        next: Version,
        commands: &[Command],
    ) -> Result<Outcome, AllocError>
        requires { next ≡ fold self.old.published commands.now }
        ensures { IfOk result (λ outcome. record { machine = self.new; outcome = outcome } ≡ prepare_all self.old commands.now None true) }
    {
        self.next = Arc::new(alloc, next)?;
        self.stage = Stage::Prepared(commands.len(), StoreCall::Begin);
        Ok(Outcome::Prepared(self.next.number()))
    }

    /// Lets a store call succeed, after which so many commands are to be written, and this one is the next.
    fn go_on(&mut self, call: StoreCall, left: usize, next: StoreCall) -> Outcome
        ensures { record { machine = self.new; outcome = result } ≡ at_stage self.old (Prepared left next) (outcomes.Called call) }
    {
        self.stage = Stage::Prepared(left, next);
        Outcome::Called(call)
    }

    /// Lets the write call of one command succeed, if so many are to be written.
    fn write(&mut self, left: usize) -> Outcome
        ensures { record { machine = self.new; outcome = result } ≡ call_by self.old (Prepared left Write) }
    {
        if left > 1 {
            self.go_on(StoreCall::Write, left - 1, StoreCall::Write)
        } else {
            self.go_on(StoreCall::Write, 0, StoreCall::Count)
        }
    }

    /// Lets the commit call succeed.
    fn commit(&mut self) -> Result<Outcome, AllocError>
        ensures { IfOk result (λ outcome. record { machine = self.new; outcome = outcome } ≡ commit_by self.old) }
    {
        self.disk = Arc::try_clone(&self.next)?;
        self.stage = Stage::Committed;
        Ok(Outcome::Called(StoreCall::Commit))
    }

    /// Lets the next store call succeed.
    fn call(&mut self) -> Result<Outcome, AllocError>
        ensures { IfOk result (λ outcome. record { machine = self.new; outcome = outcome } ≡ call_by self.old self.old.stage) }
    {
        match self.stage {
            Stage::Prepared(left, StoreCall::Begin) => {
                Ok(self.go_on(StoreCall::Begin, left, StoreCall::Write))
            }
            Stage::Prepared(left, StoreCall::Write) => Ok(self.write(left)),
            Stage::Prepared(left, StoreCall::Count) => {
                Ok(self.go_on(StoreCall::Count, left, StoreCall::Commit))
            }
            Stage::Prepared(_, StoreCall::Commit) => self.commit(),
            _ => Ok(Outcome::Nothing),
        }
    }

    /// Finds what a failure or a stop leaves on the disk.
    fn left(&self, fate: Fate) -> Result<Arc<Version>, AllocError>
        ensures { IfOk result (λ disk. arc_value disk ≡ left_by self.now fate self.now.stage) }
    {
        match (fate, self.stage) {
            (Fate::Kept, Stage::Prepared(_, StoreCall::Commit)) => Arc::try_clone(&self.next),
            _ => Arc::try_clone(&self.disk),
        }
    }

    /// Lets the next store call fail.
    fn fail(&mut self, fate: Fate) -> Result<Outcome, AllocError>
        ensures { IfOk result (λ outcome. record { machine = self.new; outcome = outcome } ≡ fail_by self.old fate self.old.stage) }
    {
        let Stage::Prepared(_, call) = self.stage else {
            return Ok(Outcome::Nothing);
        };
        self.disk = self.left(fate)?;
        self.stage = Stage::Closed;
        Ok(Outcome::Refused(Refusal::StoreFailed(call)))
    }

    /// Stops everything.
    fn stop(&mut self, fate: Fate) -> Result<Outcome, AllocError>
        ensures { IfOk result (λ outcome. record { machine = self.new; outcome = outcome } ≡ stop_by self.old fate) }
    {
        self.disk = self.left(fate)?;
        self.stage = Stage::Stopped;
        Ok(Outcome::Stopped)
    }

    /// Opens the database again after a stop or a failure.
    fn reopen(&mut self, alloc: Global) -> Result<Outcome, AllocError>
        ensures { IfOk result (λ outcome. record { machine = self.new; outcome = outcome } ≡ reopen_by self.old self.old.stage) }
    {
        match self.stage {
            Stage::Closed | Stage::Stopped => self.open_again(alloc),
            _ => Ok(Outcome::Nothing),
        }
    }

    /// Opens the database with what is on its disk.
    fn open_again(&mut self, alloc: Global) -> Result<Outcome, AllocError>
        ensures { IfOk result (λ outcome. record { machine = self.new; outcome = outcome } ≡ reopen_by self.old Stopped) }
    {
        *self = Machine::opened(alloc, Arc::try_clone(&self.disk)?)?;
        Ok(Outcome::Reopened(self.disk.number()))
    }

    /// Publishes the version of the committed commands.
    fn publish(&mut self) -> Result<Outcome, AllocError>
        ensures { IfOk result (λ outcome. record { machine = self.new; outcome = outcome } ≡ publish_by self.old self.old.stage) }
    {
        let Stage::Committed = self.stage else {
            return Ok(Outcome::Nothing);
        };
        self.published = Arc::try_clone(&self.disk)?;
        self.stage = Stage::Published;
        Ok(Outcome::Published(self.published.number()))
    }

    /// Refuses the publication of the committed commands.
    fn fail_publication(&mut self) -> Outcome
        ensures { record { machine = self.new; outcome = result } ≡ fail_publication_by self.old self.old.stage }
    {
        let Stage::Committed = self.stage else {
            return Outcome::Nothing;
        };
        self.stage = Stage::Closed;
        Outcome::Refused(Refusal::NotPublished)
    }

    /// Notes the published version, for which its submission left room.
    fn note(&mut self) -> Result<Outcome, AllocError>
        ensures { IfOk result (λ outcome. record { machine = self.new; outcome = outcome } ≡ note_by self.old self.old.stage) }
    {
        let Stage::Published = self.stage else {
            return Ok(Outcome::Nothing);
        };
        let number = self.published.number();
        if !self.lookers.has_room() || number <= self.lookers.noted() {
            return Ok(Outcome::Nothing);
        }
        self.lookers.note(Arc::try_clone(&self.published)?);
        self.stage = Stage::Noted;
        Ok(Outcome::Noted(number))
    }

    /// Acknowledges the noted commands.
    fn acknowledge(&mut self) -> Outcome
        ensures { record { machine = self.new; outcome = result } ≡ acknowledge_by self.old self.old.stage }
    {
        let Stage::Noted = self.stage else {
            return Outcome::Nothing;
        };
        self.stage = Stage::Ready;
        Outcome::Acknowledged(self.published.number())
    }

    /// Brings a looker online, which announces the noted number.
    fn online(&mut self, looker: LookerNumber) -> Outcome
        ensures { record { machine = self.new; outcome = result } ≡ online_by self.old looker (announced_at self.old.lookers looker) }
    {
        match self.lookers.online(looker) {
            Some(number) => Outcome::Online(looker, number),
            None => Outcome::Nothing,
        }
    }

    /// Lets an online looker take hold of the published version.
    fn fetch(&mut self, looker: LookerNumber) -> Result<Outcome, AllocError>
        ensures { IfOk result (λ outcome. record { machine = self.new; outcome = outcome } ≡ fetch_by self.old looker (announced_at self.old.lookers looker)) }
    {
        if !self.lookers.is_online(looker) {
            return Ok(Outcome::Nothing);
        }
        let version = Arc::try_clone(&self.published)?;
        self.lookers.hold(looker, version);
        Ok(Outcome::Fetched(looker, self.published.number()))
    }

    /// Lets a looker announce the version that it holds.
    fn announce(&mut self, looker: LookerNumber) -> Outcome
        ensures { record { machine = self.new; outcome = result } ≡ announce_by self.old looker (can_announce self.old.lookers looker) }
    {
        match self.lookers.announce(looker) {
            Some(number) => Outcome::Announced(looker, number),
            None => Outcome::Nothing,
        }
    }

    /// Takes an online looker offline.
    fn offline(&mut self, looker: LookerNumber) -> Outcome
        ensures { record { machine = self.new; outcome = result } ≡ offline_by self.old looker (announced_at self.old.lookers looker) }
    {
        if !self.lookers.is_online(looker) {
            return Outcome::Nothing;
        }
        self.lookers.offline(looker);
        Outcome::Offline(looker)
    }

    /// Looks a packet up in the version that a looker holds.
    fn look(&self, looker: LookerNumber, packet: &Packet) -> Outcome
        ensures { record { machine = self.now; outcome = result } ≡ look_by self.now packet.now (seat_of self.now.lookers looker).held }
    {
        match self.lookers.held(looker) {
            Some(version) => Outcome::Answered(version.select(packet)),
            None => Outcome::Nothing,
        }
    }

    /// Releases the versions that no looker can hold any more.
    fn reclaim(&mut self) -> Outcome
        ensures { record { machine = self.new; outcome = result } ≡ reclaim_by self.old }
    {
        Outcome::Reclaimed(self.lookers.reclaim() as u64)
    }

    /// Does a looker's event, a reclaim or a stop, while nothing has stopped.
    fn step_running(&mut self, event: &Event) -> Result<Outcome, AllocError>
        ensures { IfOk result (λ outcome. record { machine = self.new; outcome = outcome } ≡ running_step self.old event.now) }
    {
        match event {
            Event::Online(looker) => Ok(self.online(*looker)),
            Event::Fetch(looker) => self.fetch(*looker),
            Event::Announce(looker) => Ok(self.announce(*looker)),
            Event::Offline(looker) => Ok(self.offline(*looker)),
            Event::Look(looker, packet) => Ok(self.look(*looker, packet)),
            Event::Reclaim => Ok(self.reclaim()),
            Event::Stop(fate) => self.stop(*fate),
            _ => Ok(Outcome::Nothing),
        }
    }

    /// Does one event.
    ///
    /// # Errors
    ///
    /// Memory was refused; what the machine keeps then is of no use any more.
    pub(crate) fn step(&mut self, alloc: Global, event: &Event) -> Result<Outcome, AllocError>
        ensures { IfOk result (λ outcome. record { machine = self.new; outcome = outcome } ≡ machine_step self.old event.now) }
    {
        match event {
            Event::Submit(command) => self.submit(alloc, slice::from_ref(command)),
            Event::SubmitAll(commands) => self.submit(alloc, commands.as_slice()),
            Event::Call => self.call(),
            Event::Fail(fate) => self.fail(*fate),
            Event::Publish => self.publish(),
            Event::PublishFail => Ok(self.fail_publication()),
            Event::Note => self.note(),
            Event::Ack => Ok(self.acknowledge()),
            Event::Reopen => self.reopen(alloc),
            _ if self.is_stopped() => Ok(Outcome::Nothing),
            _ => self.step_running(event),
        }
    }

    /// Returns whether everything is stopped.
    fn is_stopped(&self) -> bool
        ensures { result ≡ is_stopped_at self.now.stage }
    {
        matches!(self.stage, Stage::Stopped)
    }
}
