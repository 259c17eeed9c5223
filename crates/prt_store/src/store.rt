//! The store as a type.

ghost use Rattle.std.specs.Prelude.{◌≡◌, ◌≤◌, ◌⊎◌, ◌↔◌, IfErr, IfOk, IsTrue, None, OnErr, OnOk, Err, length};
ghost use Rattle.sqlite.specs.Effect.{IsDatabase};
ghost use Rattle.sqlite.specs.Held.{state};
ghost use Rattle.sqlite.specs.State.{HasCleanDisk, IsUnchanged};
ghost use Rattle.sqlite.specs.Tree.{Trees};
ghost use Rattle.prt_refusals.specs.Opening.{IsOpenRefusal};
ghost use Rattle.prt_refusals.specs.declared.refusal.StoreCall.{StoreCall as FailedCall};
ghost use Rattle.prt_refusals.specs.declared.refusal.StoreCall.TheVariants.{Commit, Begin};
ghost use Rattle.prt_refusals.specs.declared.refusal.Refusal.TheVariants.{Damaged, StoreFailed};
ghost use Rattle.prt_version.specs.Change.{put};
ghost use Rattle.prt_version.specs.State.{State};
ghost use Rattle.prt_rows.specs.Format.{IsFormat2};
ghost use Rattle.prt_store.specs.Adopted.{IsSettled};
ghost use Rattle.prt_store.specs.Exits.{IsStored, MayLeave};
ghost use Rattle.prt_store.specs.Failures.{AllFailFor, FailsFor};
ghost use Rattle.prt_store.specs.Loaded.{StaysSettled};
ghost use Rattle.prt_store.specs.Made.{MakesChange, MakesChanges};
ghost use Rattle.prt_store.specs.Next.{AreNext, IsNext, MakesNext, put_all};
ghost use Rattle.prt_store.specs.Openings.{HasDone};
ghost use Rattle.prt_store.specs.Shown.{ShowsDamage, ShowsState};
ghost use Rattle.prt_store.specs.Stops.{AllStoppedIn, MakesAllCalls, MakesCalls, StoppedIn};
ghost use Rattle.prt_store.specs.Stored.{Stores};
ghost use Rattle.prt_store.specs.Written.{CommitsNothing};

use crate::commit::make_changes;
use crate::load::load;
use prt_refusals::Refusal;
use prt_version::{Change, Version};
use sqlite::{Alter, Connection, Error};
use std::alloc::Global;
use std::slice;

/// Says that the commands up to this number were committed. A commit alone makes one.
#[derive(Debug, Drop)]
pub struct Stamp {
    number: u64,
}

impl Stamp {
    /// Returns the number of commands that had been accepted with this one, from 1 to 10^15.
    pub fn number(&self) -> u64
        ensures { result ≡ self.now.number }
    {
        self.number
    }
}

/// The rules and routes of a database file, on a connection of its own.
#[derive(Drop)]
pub struct Store<S: Alter + Drop> {
    pub(crate) conn: Connection<S>,
    /// Why the library failed the last commit, if it did.
    pub(crate) failure: Option<Error>,
}

impl<S: Alter + Drop> Store<S> {
    /// Returns the library's error of the last commit, if one of its calls failed that.
    pub fn failure(&self) -> Option<Error>
        ensures { result ≡ self.now.failure }
    {
        self.failure
    }

    /// Returns the connection, with its tables as they are.
    pub fn release(self) -> Connection<S>
        ensures { result ≡ self.conn }
    {
        self.conn
    }

    /// Loads the version whose rows the four SELECTs showed, whatever other tables the file has. If the first tables
    /// are the four, it is the one that they encode. After `Ok` nothing is changed; a crash leaves in any case what it
    /// could leave before.
    ///
    /// # Errors
    ///
    /// `Damaged` only if the rows that were shown encode no state; `OpenFailed` if a store call fails; `NoMemory`. The
    /// tables are as they were, if the connection is still open and nothing was pending on it.
    pub fn load(&mut self, alloc: Global) -> Result<Version, Refusal>
        ensures shown { HasCleanDisk (state S.Store self.new.conn) → IfOk result (ShowsState S.Store self.old.conn) }
        ensures ok { HasCleanDisk (state S.Store self.new.conn) → IsFormat2 (state S.Store self.old.conn).now.schema →
            IfOk result (Stores (state S.Store self.old.conn).now) }
        ensures damaged { HasCleanDisk (state S.Store self.new.conn) → IsFormat2 (state S.Store self.old.conn).now.schema →
            IfErr result (λ reason. reason ≡ Damaged → (stored : State) → Stores (state S.Store self.old.conn).now stored → ⊥) }
        ensures damage { HasCleanDisk (state S.Store self.new.conn) → IfErr result (λ reason. reason ≡ Damaged → ShowsDamage S.Store self.old.conn) }
        ensures reason { IfErr result IsOpenRefusal }
        ensures same { HasCleanDisk (state S.Store self.new.conn) →
            OnOk result (IsUnchanged (state S.Store self.old.conn) (state S.Store self.new.conn)) }
        ensures sound { HasCleanDisk (state S.Store self.new.conn) → OnOk result (IsDatabase (state S.Store self.new.conn).now) }
        ensures err { HasCleanDisk (state S.Store self.new.conn) → IsTrue (state S.Store self.new.conn).is_open →
            IsSettled S.Store self.old.conn → OnErr result (StaysSettled S.Store self.old.conn self.new.conn) }
        ensures quiet { CommitsNothing S.Store self.old.conn self.new.conn }
    {
        // Recalls that the rows are as the schema has them.
        let _live = self.conn.schema();
        load(alloc, &mut self.conn)
    }

    /// Makes the change that a command makes of the stored state, whose next number this is, in one transaction.
    ///
    /// After `Ok` the statement of the change ran on the tables as they were, then the one that sets the count. What
    /// they left is committed, whatever the file; nothing is pending. If the tables encoded the state, they encode the
    /// state after the change, all other tables are as they were, and a crash leaves exactly that.
    ///
    /// # Errors
    ///
    /// `StoreFailed` names the call that failed: `Begin` if the connection is in a transaction, and nowhere else;
    /// `Count` only after the change was written, `Commit` only after the count was set too. The tables are as they
    /// were, if the connection is still open; a crash leaves what it could leave before or, only if the commit failed,
    /// possibly what it leaves after `Ok`. `failure` then returns the library's error.
    pub fn commit(&mut self, change: &Change, number: u64) -> Result<Stamp, Refusal>
        requires { (before : State) × IsNext before change.now number }
        ensures stamp { IfOk result (λ stamp. stamp.number ≡ number) }
        ensures reason { IfErr result (λ reason. (call : FailedCall) × (reason ≡ StoreFailed call)) }
        ensures clean { HasCleanDisk (state S.Store self.new.conn) → HasCleanDisk (state S.Store self.old.conn) }
        ensures begin { (result ≡ Err (StoreFailed Begin)) ↔ IsTrue (state S.Store self.old.conn).in_transaction }
        ensures not_begun { result ≡ Err (StoreFailed Begin) → self.new.conn ≡ self.old.conn }
        ensures ok { HasCleanDisk (state S.Store self.new.conn) → OnOk result ((before : State) → IsNext before change.now number →
            Stores (state S.Store self.old.conn).now before →
            MakesNext (state S.Store self.old.conn).now (put before change.now) (state S.Store self.new.conn).now) }
        ensures ran { HasCleanDisk (state S.Store self.new.conn) →
            OnOk result (HasDone S.Store (MakesChange S.Store change.now number) self.old.conn (state S.Store self.new.conn).committed) }
        ensures calls { HasCleanDisk (state S.Store self.new.conn) → OnOk result (MakesCalls S.Store change.now number self.old.conn self.new.conn) }
        ensures stopped { HasCleanDisk (state S.Store self.new.conn) → (call : FailedCall) → result ≡ Err (StoreFailed call) →
            StoppedIn S.Store change.now number self.old.conn call self.new.conn }
        ensures settled { HasCleanDisk (state S.Store self.new.conn) → OnOk result (IsSettled S.Store self.new.conn) }
        ensures crash_ok { HasCleanDisk (state S.Store self.new.conn) → OnOk result ((trees : Trees) →
            (state S.Store self.new.conn).may_leave trees → trees ≡ (state S.Store self.new.conn).now.trees) }
        ensures stored { HasCleanDisk (state S.Store self.new.conn) → OnOk result ((before : State) → IsNext before change.now number →
            IsStored S.Store self.old.conn before → IsStored S.Store self.new.conn (put before change.now)) }
        ensures err { HasCleanDisk (state S.Store self.new.conn) → IsTrue (state S.Store self.new.conn).is_open →
            OnErr result ((state S.Store self.new.conn).now ≡ (state S.Store self.old.conn).now) }
        ensures still_settled { HasCleanDisk (state S.Store self.new.conn) → IsTrue (state S.Store self.new.conn).is_open → IsSettled S.Store self.old.conn →
            OnErr result (IsSettled S.Store self.new.conn) }
        ensures crash_err { HasCleanDisk (state S.Store self.new.conn) → IfErr result (λ reason. (before : State) → IsNext before change.now number →
            Stores (state S.Store self.old.conn).now before → (trees : Trees) → (state S.Store self.new.conn).may_leave trees →
            (state S.Store self.old.conn).may_leave trees
            ⊎ ((reason ≡ StoreFailed Commit)
            × MakesNext (state S.Store self.old.conn).now (put before change.now)
            (record { schema = (state S.Store self.old.conn).now.schema; trees = trees }))) }
        ensures left { HasCleanDisk (state S.Store self.new.conn) → IfErr result (λ reason. (before : State) → IsNext before change.now number →
            IsStored S.Store self.old.conn before → (left : State) → MayLeave S.Store self.new.conn left →
            (left ≡ before) ⊎ ((reason ≡ StoreFailed Commit) × (left ≡ put before change.now))) }
        ensures unfailed { OnOk result (self.new.failure ≡ None) }
        ensures failure { (call : FailedCall) → result ≡ Err (StoreFailed call) →
            FailsFor S.Store change.now number self.old.conn call self.new.conn self.new.failure }
    {
        self.commit_all(slice::from_ref(change), number)
    }

    /// Makes the changes that commands make of the stored state, one after the other, in one transaction. The number is
    /// that of the last command.
    ///
    /// After `Ok` the statements of each change ran in turn on the tables as they were, then the one that sets the count,
    /// once. What they left is committed, whatever the file; nothing is pending. If the tables encoded the state, they
    /// encode the state after all of the changes, all other tables are as they were, and a crash leaves exactly that.
    ///
    /// # Errors
    ///
    /// `StoreFailed` names the call that failed: `Begin` if the connection is in a transaction, and nowhere else;
    /// `Count` only after all changes were written, `Commit` only after the count was set too. The tables are as they
    /// were, if the connection is still open; a crash leaves what it could leave before or, only if the commit failed,
    /// possibly what it leaves after `Ok`: all of the changes or none. `failure` then returns the library's error.
    pub fn commit_all(&mut self, changes: &[Change], number: u64) -> Result<Stamp, Refusal>
        requires some { 1 ≤ length changes.now }
        requires next { (before : State) × AreNext before changes.now number }
        ensures stamp { IfOk result (λ stamp. stamp.number ≡ number) }
        ensures reason { IfErr result (λ reason. (call : FailedCall) × (reason ≡ StoreFailed call)) }
        ensures clean { HasCleanDisk (state S.Store self.new.conn) → HasCleanDisk (state S.Store self.old.conn) }
        ensures begin { (result ≡ Err (StoreFailed Begin)) ↔ IsTrue (state S.Store self.old.conn).in_transaction }
        ensures not_begun { result ≡ Err (StoreFailed Begin) → self.new.conn ≡ self.old.conn }
        ensures ok { HasCleanDisk (state S.Store self.new.conn) → OnOk result ((before : State) → AreNext before changes.now number →
            Stores (state S.Store self.old.conn).now before →
            MakesNext (state S.Store self.old.conn).now (put_all before changes.now) (state S.Store self.new.conn).now) }
        ensures ran { HasCleanDisk (state S.Store self.new.conn) →
            OnOk result (HasDone S.Store (MakesChanges S.Store changes.now number) self.old.conn (state S.Store self.new.conn).committed) }
        ensures calls { HasCleanDisk (state S.Store self.new.conn) → OnOk result (MakesAllCalls S.Store changes.now number self.old.conn self.new.conn) }
        ensures stopped { HasCleanDisk (state S.Store self.new.conn) → (call : FailedCall) → result ≡ Err (StoreFailed call) →
            AllStoppedIn S.Store changes.now number self.old.conn call self.new.conn }
        ensures settled { HasCleanDisk (state S.Store self.new.conn) → OnOk result (IsSettled S.Store self.new.conn) }
        ensures crash_ok { HasCleanDisk (state S.Store self.new.conn) → OnOk result ((trees : Trees) →
            (state S.Store self.new.conn).may_leave trees → trees ≡ (state S.Store self.new.conn).now.trees) }
        ensures stored { HasCleanDisk (state S.Store self.new.conn) → OnOk result ((before : State) → AreNext before changes.now number →
            IsStored S.Store self.old.conn before → IsStored S.Store self.new.conn (put_all before changes.now)) }
        ensures err { HasCleanDisk (state S.Store self.new.conn) → IsTrue (state S.Store self.new.conn).is_open →
            OnErr result ((state S.Store self.new.conn).now ≡ (state S.Store self.old.conn).now) }
        ensures still_settled { HasCleanDisk (state S.Store self.new.conn) → IsTrue (state S.Store self.new.conn).is_open → IsSettled S.Store self.old.conn →
            OnErr result (IsSettled S.Store self.new.conn) }
        ensures crash_err { HasCleanDisk (state S.Store self.new.conn) → IfErr result (λ reason. (before : State) → AreNext before changes.now number →
            Stores (state S.Store self.old.conn).now before → (trees : Trees) → (state S.Store self.new.conn).may_leave trees →
            (state S.Store self.old.conn).may_leave trees
            ⊎ ((reason ≡ StoreFailed Commit)
            × MakesNext (state S.Store self.old.conn).now (put_all before changes.now)
            (record { schema = (state S.Store self.old.conn).now.schema; trees = trees }))) }
        ensures left { HasCleanDisk (state S.Store self.new.conn) → IfErr result (λ reason. (before : State) → AreNext before changes.now number →
            IsStored S.Store self.old.conn before → (left : State) → MayLeave S.Store self.new.conn left →
            (left ≡ before) ⊎ ((reason ≡ StoreFailed Commit) × (left ≡ put_all before changes.now))) }
        ensures unfailed { OnOk result (self.new.failure ≡ None) }
        ensures failure { (call : FailedCall) → result ≡ Err (StoreFailed call) →
            AllFailFor S.Store changes.now number self.old.conn call self.new.conn self.new.failure }
    {
        match make_changes(&mut self.conn, changes, number, &mut self.failure) {
            Ok(()) => Ok(Stamp { number }),
            Err(call) => Err(Refusal::StoreFailed(call)),
        }
    }
}
