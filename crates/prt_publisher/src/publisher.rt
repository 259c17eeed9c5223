//! The publisher of one database.
ghost use Rattle.std.specs.Prelude.{◌≡◌, ◌⊎◌, ◌+◌, ◌<◌, ◌≤◌, ◌↔◌, [], ◌∷◌, All, length, IfErr, IfOk, IsTrue, None, OnErr, OnOk, true};
ghost use Rattle.std.specs.Arc.{arc_value};
ghost use Rattle.sqlite.specs.Held.{Held, state};
ghost use Rattle.sqlite.specs.State.{HasCleanDisk};
ghost use Rattle.prt_refusals.specs.declared.refusal.Refusal.TheVariants.{Busy, Closed, Damaged, NoMemory, NotPublished, StoreFailed};
ghost use Rattle.prt_refusals.specs.declared.refusal.StoreCall.{StoreCall};
ghost use Rattle.prt_refusals.specs.declared.refusal.StoreCall.TheVariants.{Commit};
ghost use Rattle.prt_command.specs.Storable.{IsStorable};
ghost use Rattle.prt_published.specs.Line.{grown, grown_by, line_state};
ghost use Rattle.prt_grace.specs.Registry.{noted_by, reclaimed};
ghost use Rattle.prt_grace.specs.declared.limits.TheConstants.{MOST_RETIRED};
ghost use Rattle.prt_publisher.specs.Exits.{AreNotAcknowledged, AreNotChecked, AreNotPrepared, HasCommitted, HaveCommitted, IsNotAcknowledged};
ghost use Rattle.prt_publisher.specs.Exits.{IsNotPrepared, Spares, Takes, TakesAll};
ghost use Rattle.prt_publisher.specs.Openings.{HasOpened, HasRefused};
ghost use Rattle.prt_publisher.specs.Standing.{IsQuiet, Stands, unnoted};
ghost use Rattle.prt_publisher.specs.Step.{AreChecked, commands_checked, phase_of};
ghost use Rattle.prt_rows.specs.Format.{BeginsFormat2};
ghost use Rattle.prt_store.specs.Exits.{IsKnown, MayLeave, Opens};
ghost use Rattle.prt_store.specs.Stored.{Stores};
ghost use Rattle.prt_version.specs.Accepted.{IsAccepted};
ghost use Rattle.prt_version.specs.Change.{fold};
ghost use Rattle.prt_version.specs.State.{State};

use crate::checked::check_all;
use crate::opening::open;
use crate::plan::{Plan, plan_shown};
use crate::{ChangeSet, Checked, Phase, Receipt, Seats};
use prt_command::{Command, Refusal};
use prt_grace::{Domain, Keeper, LockedRegistry};
use prt_published::{Front, Known, Told};
use prt_store::{Stamp, Store};
use prt_version::Version;
use sqlite::{Alter, Connection, Error};
use std::alloc::Global;
use std::marker::Model;
use std::snapshot::Snapshot;
use std::sync::{Arc, Wait};
use std::{mem, slice};

/// What is kept of the commands under way.
#[derive(Drop)]
enum Step {
    Ready,
    Admitted(Checked),
    Prepared(Plan),
    Committed(Plan, Stamp),
    /// With the version to be noted.
    Published(Vec<Command>, Arc<Version>),
    /// With the commands that are stored and not published, if there are some.
    Closed(Option<Vec<Command>>),
}

/// Goes on to another step.
fn go_on(step: &mut Step, next: Step)
    ensures { step.new ≡ next }
{
    drop(mem::replace(step, next));
}

/// Takes admitted commands out of their step, which is ready then.
fn take_admitted(step: &mut Step) -> Checked
    requires { phase_of step.old ≡ Phase.Admitted }
    ensures was { step.old ≡ Step.Admitted result }
    ensures left { step.new ≡ Step.Ready }
{
    match mem::replace(step, Step::Ready) {
        Step::Admitted(checked) => checked,
        _ => unreachable!(),
    }
}

/// Takes a prepared plan out of its step, which is closed then.
fn take_prepared(step: &mut Step) -> Plan
    requires { phase_of step.old ≡ Phase.Prepared }
    ensures was { step.old ≡ Step.Prepared result }
    ensures left { step.new ≡ Step.Closed None }
{
    match mem::replace(step, Step::Closed(None)) {
        Step::Prepared(plan) => plan,
        _ => unreachable!(),
    }
}

/// Takes a committed plan and its stamp out of their step, which is closed then.
fn take_committed(step: &mut Step) -> (Plan, Stamp)
    requires { phase_of step.old ≡ Phase.Committed }
    ensures was { step.old ≡ Step.Committed result.0 result.1 }
    ensures left { step.new ≡ Step.Closed None }
{
    match mem::replace(step, Step::Closed(None)) {
        Step::Committed(plan, stamp) => (plan, stamp),
        _ => unreachable!(),
    }
}

/// Takes commands for one database, and publishes the version after each, or after those that are made together.
///
/// Commands are prepared, committed and published; `submit_all` does the three. To prepare them is to check them, to
/// admit them and to plan them. The steps `admit` and `note` take the registry of the domain, which the caller has
/// locked; `prepare_all` and `publish` lock it for that one step each. The domain's lock is held while no version is made,
/// across no store call, and while no reader is waited for.
///
/// End it by `end`: the drop of its front frees no memory.
#[derive(Drop)]
pub struct Publisher<S: Alter + Drop> {
    store: Store<S>,
    /// Whether our tables are the first of their file: of other files nothing is known.
    ours_first: bool,
    version: Arc<Version>,
    front: Front,
    keeper: Keeper,
    step: Step,
}

impl<S: Alter + Drop> Model for Publisher<S> {
    ghost use Rattle.std.specs.Prelude.{◌≡◌, ◌+◌};
    ghost use Rattle.std.specs.Arc.{arc_value};
    ghost use Rattle.sqlite.specs.Held.{Held, held_code};
    ghost use Rattle.prt_published.specs.Line.{line_state};
    ghost use Rattle.prt_publisher.specs.Standing.{Agrees, Standing, standing_code, unnoted};
    ghost use Rattle.prt_publisher.specs.Step.{IsStep, commands_of, phase_of};
    ghost use Rattle.prt_store.specs.Exits.{IsKnown};
    ghost use Rattle.prt_version.specs.Accepted.{IsAccepted};

    ghost Value = { Standing (Held S) };

    ghost coded = { standing_code (held_code S.code) };

    ghost view = { λ p. record { phase = phase_of p.step; line = p.front; commands = commands_of p.step; ours_first = p.ours_first; tables = p.store.conn } };

    ghost invariant = { λ p. (arc_value p.version ≡ line_state p.front)
        × (p.keeper.noted + unnoted (phase_of p.step) (commands_of p.step) ≡ (arc_value p.version).count) × IsAccepted p.front.base p.front.list
        × IsStep (line_state p.front) p.step
        × (IsKnown S.Store p.ours_first p.store.conn → Agrees S.Store (phase_of p.step) (commands_of p.step) (line_state p.front) p.store.conn) };
}

impl<S: Alter + Drop> Publisher<S> {
    /// Opens the database of a connection on which nothing is pending, and publishes the state that is stored there. Its
    /// tables are made if they are missing; four empty tables become those of a new database.
    ///
    /// Returns the domain too, in which that state is noted.
    ///
    /// # Errors
    ///
    /// With the connection: `OpenFailed` if one of the tables has other columns, and the connection is as it was then;
    /// or if a store call fails. `Damaged`: never of a file that is new, or whose first tables encode a state.
    /// `NoMemory`. The rows are then as `Store::adopt` leaves them. The connection is to be closed and opened again
    /// before it is used.
    pub fn adopt(
        alloc: Global,
        conn: Connection<S>,
    ) -> Result<(Publisher<S>, Domain), (Refusal, Connection<S>)>
        ensures ready { IfOk result (λ made. (made.0.phase ≡ Phase.Ready) × (made.0.commands ≡ []) × (made.0.line.list ≡ [])) }
        ensures stands { IfOk result (λ made. Stands S.Store made.0) }
        ensures format { IfOk result (λ made. (made.0.ours_first ≡ true) ↔ BeginsFormat2 (state S.Store conn).now.schema) }
        ensures opened { IfOk result (λ made. HasOpened S.Store conn made.0.tables (line_state made.0.line)) }
        ensures refused { IfErr result (λ refused. HasRefused S.Store conn refused.1 refused.0) }
    {
        let opened = match open(alloc, conn) {
            Ok(opened) => opened,
            Err(refused) => return Err(refused),
        };
        Ok((
            Publisher {
                store: opened.store,
                ours_first: opened.ours_first,
                version: opened.begun.version,
                front: opened.begun.front,
                keeper: opened.begun.keeper,
                step: Step::Ready,
            },
            opened.begun.domain,
        ))
    }

    /// Returns how far it is with the commands under way.
    pub fn phase(&self) -> Phase
        ensures value { result ≡ self.now.phase }
        ensures stands { Stands S.Store self.now }
    {
        match self.step {
            Step::Ready => Phase::Ready,
            Step::Admitted(_) => Phase::Admitted,
            Step::Prepared(_) => Phase::Prepared,
            Step::Committed(_, _) => Phase::Committed,
            Step::Published(_, _) => Phase::Published,
            Step::Closed(_) => Phase::Closed,
        }
    }

    /// Returns the version that was published last; at first the one that was stored.
    pub fn published(&self) -> &Version
        ensures { result.now ≡ line_state self.now.line }
    {
        &self.version
    }

    /// Shares the version that was published last, and its list.
    ///
    /// # Errors
    ///
    /// `NotFetched` if the version has as many owners as can be counted.
    pub fn share(&self) -> Result<(Arc<Version>, Known), Refusal>
        ensures version { IfOk result (λ shared. arc_value shared.0 ≡ line_state self.now.line) }
        ensures list { IfOk result (λ shared. shared.1 ≡ self.now.line) }
        ensures accepted { IfOk result (λ shared. IsAccepted shared.1.base shared.1.list) }
        ensures reason { IfErr result (λ reason. reason ≡ Refusal.NotFetched) }
    {
        match Arc::try_clone(&self.version) {
            Ok(version) => Ok((version, self.front.known())),
            Err(_) => Err(Refusal::NotFetched),
        }
    }

    /// Returns the published list.
    pub fn known(&self) -> Known
        ensures { result ≡ self.now.line }
    {
        self.front.known()
    }

    /// Returns the number of the version that was noted last: the published one, except in the moment before it is noted.
    pub fn noted(&self) -> u64
        ensures { result + unnoted self.now.phase self.now.commands ≡ (line_state self.now.line).count }
    {
        self.keeper.noted()
    }

    /// Makes the readers of its front: once. It waits as a publication does.
    ///
    /// # Errors
    ///
    /// `NoMemory`.
    pub fn seats<H: Wait>(&mut self, rt: &H, alloc: Global) -> Result<Seats, Refusal>
        ensures seats { IfOk result (λ seats. (seats.book ≡ self.old.line.book) × (seats.base ≡ self.old.line.base)) }
        ensures same { self.new ≡ self.old }
        ensures reason { IfErr result (λ reason. reason ≡ NoMemory) }
    {
        match self.front.readers(rt, alloc) {
            Ok(readers) => Ok(Seats::new(self.front.known(), readers)),
            Err(reason) => Err(reason),
        }
    }

    /// Returns the library's error of the commit that closed it, if one did.
    pub fn failure(&self) -> Option<Error> {
        self.store.failure()
    }

    /// Returns its store and its front, and lets the rest go.
    fn into_parts(self) -> (Store<S>, Front)
        ensures tables { result.0.conn ≡ self.tables }
        ensures stands { Stands S.Store self }
    {
        drop(self.step);
        (self.store, self.front)
    }

    /// Returns the connection, with its tables as they are. It waits for nobody: the front's readers go on, and its
    /// memory is never freed.
    pub fn release(self) -> Connection<S>
        ensures tables { result ≡ self.tables }
        ensures stands { Stands S.Store self }
    {
        let (store, _front) = self.into_parts();
        store.release()
    }

    /// Ends its front, which waits for readers that are inside, and returns the connection, with its tables as they are.
    pub fn end<H: Wait>(self, rt: &H) -> Connection<S>
        ensures tables { result ≡ self.tables }
        ensures stands { Stands S.Store self }
    {
        let (store, front) = self.into_parts();
        front.end(rt);
        store.release()
    }

    /// Checks commands one after the other. Needs no lock, and of one command no memory.
    ///
    /// # Errors
    ///
    /// `Closed` exactly if it is closed; otherwise what the first command is refused for that is refused in the state
    /// after those before it. Of several commands `NoMemory` may come at any up to that.
    pub fn check_all(&self, commands: &[Command]) -> Result<Checked, Refusal>
        requires quiet { IsQuiet self.now.phase }
        requires some { 1 ≤ length commands.now }
        requires storable { All IsStorable commands.now }
        ensures ok { IfOk result (λ checked. AreChecked (line_state self.now.line) checked × (commands_checked checked ≡ commands.now)) }
        ensures took { OnOk result (TakesAll self.now commands.now × (self.now.commands ≡ [])) }
        ensures err { IfErr result (AreNotChecked self.now.phase (line_state self.now.line) commands.now) }
        ensures stands { Stands S.Store self.now }
    {
        match self.step {
            Step::Ready => check_all(&self.version, commands),
            Step::Closed(_) => Err(Refusal::Closed),
            Step::Admitted(_) | Step::Prepared(_) | Step::Committed(_, _) | Step::Published(_, _) =>
                unreachable!(),
        }
    }

    /// Has the registry give up the versions that nobody can hold, and sees that it has room for one more: then the
    /// checked commands are admitted.
    ///
    /// # Errors
    ///
    /// `Busy` exactly if the registry has no room. The publisher is then as it was, and the registry too, except for
    /// what it gave up.
    pub fn admit(&mut self, registry: &mut LockedRegistry, checked: Checked) -> Result<(), Refusal>
        requires ready { self.old.phase ≡ Phase.Ready }
        requires checked { AreChecked (line_state self.old.line) checked }
        ensures ok { OnOk result (self.new ≡ record self.old { phase = Phase.Admitted; commands = commands_checked checked }) }
        ensures idle { OnOk result (self.old.commands ≡ []) }
        ensures room { OnOk result (length registry.new.retired < MOST_RETIRED) }
        ensures err { IfErr result (λ reason. (reason ≡ Busy) × (self.new ≡ self.old) × (MOST_RETIRED ≤ length registry.new.retired)) }
        ensures registry { registry.new ≡ reclaimed registry.old }
        ensures stands { Stands S.Store self.new }
    {
        // Recalls what is stored.
        let _phase = self.phase();
        if !registry.make_room() {
            return Err(Refusal::Busy);
        }
        go_on(&mut self.step, Step::Admitted(checked));
        Ok(())
    }

    /// Takes the memory of the version after the admitted commands, and of its three owners. Needs no lock.
    ///
    /// # Errors
    ///
    /// `NoMemory`: it is ready again, as it was before the commands.
    pub fn plan(&mut self) -> Result<(), Refusal>
        requires { self.old.phase ≡ Phase.Admitted }
        ensures ok { OnOk result (self.new ≡ record self.old { phase = Phase.Prepared }) }
        ensures allowed { IsAccepted (line_state self.old.line) self.old.commands }
        ensures err { OnErr result (self.new ≡ record self.old { phase = Phase.Ready; commands = [] }) }
        ensures reason { IfErr result (λ reason. reason ≡ NoMemory) }
        ensures stands { Stands S.Store self.new }
    {
        let checked = take_admitted(&mut self.step);
        match plan_shown(&mut self.front, &self.version, checked) {
            Ok(plan) => {
                go_on(&mut self.step, Step::Prepared(plan));
                Ok(())
            }
            Err(reason) => Err(reason),
        }
    }

    /// Commits the prepared commands in one transaction. The state before them is still published.
    ///
    /// # Errors
    ///
    /// `StoreFailed`, with the store call: it is closed. The tables encode the state before, while their connection is
    /// open; a crash leaves that state or, only if the call was the commit, possibly the one after all of the commands.
    pub fn commit(&mut self) -> Result<(), Refusal>
        requires { self.old.phase ≡ Phase.Prepared }
        ensures ok { OnOk result (self.new ≡ record self.old { phase = Phase.Committed; tables = self.new.tables }) }
        ensures err { OnErr result (self.new ≡ record self.old { phase = Phase.Closed; commands = []; tables = self.new.tables }) }
        ensures reason { IfErr result (λ reason. (call : StoreCall) × (reason ≡ StoreFailed call)) }
        ensures clean { HasCleanDisk (state S.Store self.new.tables) → HasCleanDisk (state S.Store self.old.tables) }
        ensures stands { Stands S.Store self.new }
        ensures others { Spares S.Store self.old self.new }
        ensures left { IsKnown S.Store self.new.ours_first self.new.tables → IfErr result (λ reason. (left : State) → MayLeave S.Store self.new.tables left →
            (left ≡ line_state self.old.line) ⊎ ((reason ≡ StoreFailed Commit) × (left ≡ fold (line_state self.old.line) self.old.commands))) }
        ensures now { IsKnown S.Store self.new.ours_first self.new.tables → IsTrue (state S.Store self.new.tables).is_open →
            OnErr result (Stores (state S.Store self.new.tables).now (line_state self.old.line)) }
        ensures ran { HasCleanDisk (state S.Store self.new.tables) →
            OnOk result (HaveCommitted S.Store self.old self.old.commands self.new.tables) }
    {
        let plan = take_prepared(&mut self.step);
        let number = plan.next.number();
        match self.store.commit_all(plan.changes.as_slice(), number) {
            Ok(stamp) => {
                go_on(&mut self.step, Step::Committed(plan, stamp));
                Ok(())
            }
            Err(reason) => Err(reason),
        }
    }

    /// Shows readers the version after the committed commands, in one swap.
    ///
    /// # Errors
    ///
    /// `NotPublished` if the front refuses it: it is closed, with the old version published and the commands stored.
    pub fn show<H: Wait>(&mut self, rt: &H) -> Result<(), Refusal>
        requires { self.old.phase ≡ Phase.Committed }
        ensures ok { OnOk result ((self.new ≡ record self.old { phase = Phase.Published; line = self.new.line })
            × (self.new.line ≡ grown_by self.old.line self.old.commands)) }
        ensures err { OnErr result (self.new ≡ record self.old { phase = Phase.Closed }) }
        ensures reason { IfErr result (λ reason. reason ≡ NotPublished) }
        ensures stands { Stands S.Store self.new }
    {
        let (plan, stamp) = take_committed(&mut self.step);
        let shown = plan.shown;
        match self
            .front
            .publish_all(rt, stamp, Snapshot::of(&plan.commands), shown)
        {
            Ok(_told) => {
                self.version = plan.next;
                go_on(&mut self.step, Step::Published(plan.commands, plan.noted));
                Ok(())
            }
            Err(reason) => {
                self.step = Step::Closed(Some(plan.commands));
                Err(reason)
            }
        }
    }

    /// Notes the published version in the registry, and acknowledges the commands.
    pub fn note(&mut self, registry: &mut LockedRegistry) -> Receipt
        requires { self.old.phase ≡ Phase.Published }
        ensures same { self.new ≡ record self.old { phase = Phase.Ready; commands = [] } }
        ensures receipt { result ≡ self.old.line }
        ensures registry { registry.new ≡ noted_by registry.old (line_state self.old.line) }
        ensures stands { Stands S.Store self.new }
    {
        match mem::replace(&mut self.step, Step::Ready) {
            Step::Published(_, noted) => {
                self.keeper.note(registry, noted);
                let number = self.version.number();
                let told = Told::whole(&self.front.known());
                Receipt::new(number, told)
            }
            _ => unreachable!(),
        }
    }

    /// Prepares a command: a list of one for `prepare_all`.
    ///
    /// # Errors
    ///
    /// `Closed` exactly if it is closed; otherwise what the command is refused for; if that is nothing, `Busy` (64
    /// versions that readers may hold) or `NoMemory`. It is then as it was, and the call may be made again.
    pub fn prepare<H: Wait>(
        &mut self,
        rt: &H,
        domain: &Domain,
        command: &Command,
    ) -> Result<(), Refusal>
        requires quiet { IsQuiet self.old.phase }
        requires storable { IsStorable command.now }
        ensures ok { OnOk result ((self.new ≡ record self.old { phase = Phase.Prepared; commands = command.now ∷ [] }) × Takes self.old command.now) }
        ensures err { IfErr result (λ reason. (self.new ≡ self.old) × IsNotPrepared self.old.phase (line_state self.old.line) command.now reason) }
        ensures stands { Stands S.Store self.new }
    {
        self.prepare_all(rt, domain, slice::from_ref(command))
    }

    /// Checks commands one after the other, sees that the domain has room for one more version, and takes the memory of
    /// the version after them. The domain's lock is held for the room alone.
    ///
    /// # Errors
    ///
    /// Those of `check_all`; if none is refused, `Busy` (64 versions that readers may hold) or `NoMemory`. It is then
    /// as it was, and the call may be made again.
    pub fn prepare_all<H: Wait>(
        &mut self,
        rt: &H,
        domain: &Domain,
        commands: &[Command],
    ) -> Result<(), Refusal>
        requires quiet { IsQuiet self.old.phase }
        requires some { 1 ≤ length commands.now }
        requires storable { All IsStorable commands.now }
        ensures ok { OnOk result ((self.new ≡ record self.old { phase = Phase.Prepared; commands = commands.now }) × TakesAll self.old commands.now) }
        ensures err { IfErr result (λ reason. (self.new ≡ self.old) × AreNotPrepared self.old.phase (line_state self.old.line) commands.now reason) }
        ensures stands { Stands S.Store self.new }
    {
        match self.check_all(commands) {
            Ok(checked) => self.prepare_checked(rt, domain, checked),
            Err(reason) => Err(reason),
        }
    }

    /// Admits checked commands and plans them.
    ///
    /// # Errors
    ///
    /// `Busy` or `NoMemory`. It is then as it was.
    fn prepare_checked<H: Wait>(
        &mut self,
        rt: &H,
        domain: &Domain,
        checked: Checked,
    ) -> Result<(), Refusal>
        requires ready { self.old.phase ≡ Phase.Ready }
        requires checked { AreChecked (line_state self.old.line) checked }
        ensures ok { OnOk result ((self.new ≡ record self.old { phase = Phase.Prepared; commands = commands_checked checked })
            × TakesAll self.old (commands_checked checked)) }
        ensures err { IfErr result (λ reason.
            (self.new ≡ self.old) × AreNotPrepared self.old.phase (line_state self.old.line) (commands_checked checked) reason) }
        ensures stands { Stands S.Store self.new }
    {
        let admitted = self.admit(&mut domain.lock(rt), checked);
        if let Err(reason) = admitted {
            return Err(reason);
        }
        self.plan()
    }

    /// Publishes the version after the committed commands in one swap, notes it, and acknowledges the commands. The
    /// domain's lock is held for the note alone.
    ///
    /// # Errors
    ///
    /// `NotPublished` if the front refuses it: it is closed, with the old version published and the commands stored.
    pub fn publish<H: Wait>(&mut self, rt: &H, domain: &Domain) -> Result<Receipt, Refusal>
        requires { self.old.phase ≡ Phase.Committed }
        ensures ok { OnOk result ((self.new ≡ record self.old { phase = Phase.Ready; line = self.new.line; commands = [] })
            × (self.new.line ≡ grown_by self.old.line self.old.commands)) }
        ensures receipt { IfOk result (λ receipt. receipt ≡ self.new.line) }
        ensures err { OnErr result (self.new ≡ record self.old { phase = Phase.Closed }) }
        ensures reason { IfErr result (λ reason. reason ≡ NotPublished) }
        ensures stands { Stands S.Store self.new }
    {
        if let Err(reason) = self.show(rt) {
            return Err(reason);
        }
        let receipt = self.note(&mut domain.lock(rt));
        Ok(receipt)
    }

    /// Prepares, commits and publishes a command: a list of one for `submit_all`. After it the publisher is ready or
    /// closed.
    ///
    /// # Errors
    ///
    /// Those of `prepare`, `commit` and `publish`, with what each leaves.
    pub fn submit<H: Wait>(
        &mut self,
        rt: &H,
        domain: &Domain,
        command: &Command,
    ) -> Result<Receipt, Refusal>
        requires quiet { IsQuiet self.old.phase }
        requires storable { IsStorable command.now }
        ensures quiet { IsQuiet self.new.phase }
        ensures ok { IfOk result (λ receipt.
            (receipt ≡ grown self.old.line command.now)
            × (self.new ≡ record self.old { phase = Phase.Ready; line = grown self.old.line command.now; commands = []; tables = self.new.tables })) }
        ensures took { OnOk result (Takes self.old command.now) }
        ensures err { IfErr result (λ reason. IsNotAcknowledged S.Store self.old command.now reason self.new) }
        ensures clean { HasCleanDisk (state S.Store self.new.tables) → HasCleanDisk (state S.Store self.old.tables) }
        ensures others { Spares S.Store self.old self.new }
        ensures stands { Stands S.Store self.new }
        ensures ran { HasCleanDisk (state S.Store self.new.tables) → OnOk result (HasCommitted S.Store self.old command.now self.new.tables) }
    {
        self.submit_all(rt, domain, slice::from_ref(command))
    }

    /// Prepares, commits and publishes commands together: all of them or none. After it the publisher is ready or closed.
    ///
    /// # Errors
    ///
    /// Those of `prepare_all`, `commit` and `publish`, with what each leaves.
    pub fn submit_all<H: Wait>(
        &mut self,
        rt: &H,
        domain: &Domain,
        commands: &[Command],
    ) -> Result<Receipt, Refusal>
        requires quiet { IsQuiet self.old.phase }
        requires some { 1 ≤ length commands.now }
        requires storable { All IsStorable commands.now }
        ensures quiet { IsQuiet self.new.phase }
        ensures ok { IfOk result (λ receipt.
            (receipt ≡ grown_by self.old.line commands.now)
            × (self.new ≡ record self.old {
              phase = Phase.Ready;
              line = grown_by self.old.line commands.now;
              commands = [];
              tables =
                  self.new.tables;
            })) }
        ensures took { OnOk result (TakesAll self.old commands.now) }
        ensures err { IfErr result (λ reason. AreNotAcknowledged S.Store self.old commands.now reason self.new) }
        ensures clean { HasCleanDisk (state S.Store self.new.tables) → HasCleanDisk (state S.Store self.old.tables) }
        ensures others { Spares S.Store self.old self.new }
        ensures stands { Stands S.Store self.new }
        ensures ran { HasCleanDisk (state S.Store self.new.tables) → OnOk result (HaveCommitted S.Store self.old commands.now self.new.tables) }
    {
        match self.check_all(commands) {
            Ok(checked) => self.submit_checked(rt, domain, checked),
            Err(reason) => Err(reason),
        }
    }

    /// Commits and publishes a set that is of the published version: all of its commands or none. None is checked or
    /// planned again. After it the publisher is ready or closed.
    ///
    /// # Errors
    ///
    /// `Closed` exactly if it is closed; `Busy` and `NoMemory`, which leave it as it was; those of `commit` and `publish`,
    /// with what each leaves.
    pub fn submit_set<H: Wait>(
        &mut self,
        rt: &H,
        domain: &Domain,
        set: ChangeSet,
    ) -> Result<Receipt, Refusal>
        requires quiet { IsQuiet self.old.phase }
        requires some { 1 ≤ length set.commands }
        requires base { set.base ≡ line_state self.old.line }
        ensures quiet { IsQuiet self.new.phase }
        ensures ok { IfOk result (λ receipt.
            (receipt ≡ grown_by self.old.line set.commands)
            × (self.new ≡ record self.old {
              phase = Phase.Ready;
              line = grown_by self.old.line set.commands;
              commands = [];
              tables =
                  self.new.tables;
            })) }
        ensures took { OnOk result (TakesAll self.old set.commands) }
        ensures err { IfErr result (λ reason. AreNotAcknowledged S.Store self.old set.commands reason self.new) }
        ensures clean { HasCleanDisk (state S.Store self.new.tables) → HasCleanDisk (state S.Store self.old.tables) }
        ensures others { Spares S.Store self.old self.new }
        ensures stands { Stands S.Store self.new }
        ensures ran { HasCleanDisk (state S.Store self.new.tables) → OnOk result (HaveCommitted S.Store self.old set.commands self.new.tables) }
    {
        match self.phase() {
            Phase::Ready => self.submit_checked(rt, domain, Checked::of_set(set)),
            _ => Err(Refusal::Closed),
        }
    }

    /// Admits, plans, commits and publishes checked commands: all of them or none.
    ///
    /// # Errors
    ///
    /// `Busy` and `NoMemory`, which leave it as it was; those of `commit` and `publish`, with what each leaves.
    fn submit_checked<H: Wait>(
        &mut self,
        rt: &H,
        domain: &Domain,
        checked: Checked,
    ) -> Result<Receipt, Refusal>
        requires ready { self.old.phase ≡ Phase.Ready }
        requires checked { AreChecked (line_state self.old.line) checked }
        ensures quiet { IsQuiet self.new.phase }
        ensures ok { IfOk result (λ receipt.
            (receipt ≡ grown_by self.old.line (commands_checked checked))
            × (self.new ≡ record self.old {
              phase = Phase.Ready;
              line = grown_by self.old.line (commands_checked checked);
              commands =
                  [];
              tables = self.new.tables;
            })) }
        ensures took { OnOk result (TakesAll self.old (commands_checked checked)) }
        ensures err { IfErr result (λ reason. AreNotAcknowledged S.Store self.old (commands_checked checked) reason self.new) }
        ensures clean { HasCleanDisk (state S.Store self.new.tables) → HasCleanDisk (state S.Store self.old.tables) }
        ensures others { Spares S.Store self.old self.new }
        ensures stands { Stands S.Store self.new }
        ensures ran { HasCleanDisk (state S.Store self.new.tables) → OnOk result (HaveCommitted S.Store self.old (commands_checked checked) self.new.tables) }
    {
        if let Err(reason) = self.prepare_checked(rt, domain, checked) {
            return Err(reason);
        }
        if let Err(reason) = self.commit() {
            return Err(reason);
        }
        match self.publish(rt, domain) {
            Ok(receipt) => Ok(receipt),
            Err(reason) => Err(reason),
        }
    }
}
