//! Stores over files as they are found.

ghost use Rattle.std.specs.Prelude.{◌≡◌, IfErr, IfOk, IfSome, IsErrAnd, IsTrue, Ok};
ghost use Rattle.sqlite.specs.Files.{IsOpened, file_state, over_files};
ghost use Rattle.sqlite.specs.Held.{state};
ghost use Rattle.sqlite.specs.State.{HasCleanDisk, Survives};
ghost use Rattle.sqlite.specs.Tree.{Trees};
ghost use Rattle.prt_refusals.specs.declared.refusal.Refusal.TheVariants.{OpenFailed};
ghost use Rattle.prt_rows.specs.Effects.{AreEmpty};
ghost use Rattle.prt_rows.specs.Format.{BeginsFormat2, HasFormat2, SuitsFormat2};
ghost use Rattle.prt_store.specs.Adopted.{Adopts, AdoptsOne, AdoptsPart, IsAtRest, IsSettled, LeavesPart, RefusesOne};
ghost use Rattle.prt_store.specs.Openings.{KeepsOrFills, MakesAndFills};
ghost use Rattle.prt_store.specs.Stored.{Stores, StoresFormat1};
ghost use Rattle.prt_version.specs.State.{State, opening_state};

use crate::Store;
use crate::opening::open_tables;
use prt_refusals::Refusal;
use sqlite::{Alter, Connection, Error, File, FileStore};

impl<S: Alter + Drop> Store<S> {
    /// Builds the store over a connection on which nothing is pending. The tables `rule`, `route`, `meta` and
    /// `suppress` are made if they are missing, each by itself; if the four have no rows, they are filled with the
    /// opening state, in one transaction, with the row of `meta` last. A file of format 1 is migrated. All other rows
    /// stay as they are, whether they encode a state or not.
    ///
    /// After `Ok`, whatever the file, the four tables have the columns of format 2, nothing is pending, and a crash
    /// leaves what the tables show. Each missing table was made by its statement. Then the statements that look at the
    /// four showed no rows, and those that fill them ran. Or they showed some. Then, if `meta` showed the row of format
    /// 1 and `suppress` no row, the format was set; otherwise nothing was changed.
    ///
    /// The other clauses speak of four kinds of file: without tables, left by a stopped opening, with the tables of format
    /// 1 alone, or with the four first.
    ///
    /// # Errors
    ///
    /// `OpenFailed`, with the connection. If one of the four tables has other columns than those of format 2, the
    /// connection is as it was, whatever the file. If a store call fails in a file of those four kinds, no row is
    /// changed. But four empty tables may have been filled, and a file of format 1 migrated. The connection is to be
    /// closed and opened again before it is used.
    pub fn adopt(mut conn: Connection<S>) -> Result<Store<S>, (Refusal, Connection<S>)>
        ensures ok { IfOk result (λ store. HasCleanDisk (state S.Store store.conn) → BeginsFormat2 (state S.Store conn).now.schema →
            Adopts (state S.Store conn).now (state S.Store store.conn).now) }
        ensures columns { IfOk result (λ store. HasFormat2 (state S.Store store.conn).now.schema) }
        ensures stored { IfOk result (λ store. HasCleanDisk (state S.Store store.conn) → (stored : State) →
            Stores (state S.Store conn).now stored → Stores (state S.Store store.conn).now stored) }
        ensures format_1 { IfOk result (λ store. HasCleanDisk (state S.Store store.conn) → (stored : State) →
            StoresFormat1 (state S.Store conn).now stored → Stores (state S.Store store.conn).now stored) }
        ensures opening { IfOk result (λ store. HasCleanDisk (state S.Store store.conn) → BeginsFormat2 (state S.Store conn).now.schema →
            AreEmpty (state S.Store conn).now → Stores (state S.Store store.conn).now opening_state) }
        ensures settled { IfOk result (λ store. HasCleanDisk (state S.Store store.conn) → BeginsFormat2 (state S.Store conn).now.schema →
            IsSettled S.Store store.conn) }
        ensures crash_ok { IfOk result (λ store. HasCleanDisk (state S.Store store.conn) → BeginsFormat2 (state S.Store conn).now.schema → (trees : Trees) →
            (state S.Store store.conn).may_leave trees → trees ≡ (state S.Store store.conn).now.trees) }
        ensures at_rest { IfOk result (λ store. IsTrue (state S.Store store.conn).is_open → IsAtRest S.Store store.conn) }
        ensures survives_ok { IfOk result (λ store. (HasCleanDisk (state S.Store conn) → BeginsFormat2 (state S.Store conn).now.schema) →
            Survives (state S.Store conn) (state S.Store store.conn) (LeavesPart (state S.Store conn).now)) }
        ensures does { IfOk result (λ store. HasCleanDisk (state S.Store store.conn) → MakesAndFills S.Store conn store.conn) }
        ensures same { IfOk result (λ store. HasCleanDisk (state S.Store store.conn) → HasFormat2 (state S.Store conn).now.schema →
            KeepsOrFills S.Store conn store.conn) }
        ensures reason { IfErr result (λ refused. refused.0 ≡ OpenFailed) }
        ensures other_columns { (SuitsFormat2 (state S.Store conn).now.schema → ⊥) → IsErrAnd result (λ refused. refused.1 ≡ conn) }
        ensures err { IfErr result (λ refused. HasCleanDisk (state S.Store refused.1) → IsTrue (state S.Store refused.1).is_open →
            BeginsFormat2 (state S.Store conn).now.schema → AdoptsPart (state S.Store conn).now (state S.Store refused.1).now) }
        ensures crash_err { IfErr result (λ refused. (HasCleanDisk (state S.Store conn) → BeginsFormat2 (state S.Store conn).now.schema) →
            Survives (state S.Store conn) (state S.Store refused.1) (LeavesPart (state S.Store conn).now)) }
    {
        match open_tables(&mut conn) {
            Ok(()) => Ok(Store {
                conn,
                failure: None,
            }),
            Err(reason) => Err((reason, conn)),
        }
    }
}

/// Builds the store over the connection that an open returned.
fn adopt_opened<S: Alter + Drop>(
    opened: Result<Connection<S>, Error>,
) -> Result<Store<S>, (Refusal, Option<Connection<S>>)>
    ensures reason { IfErr result (λ refused. refused.0 ≡ OpenFailed) }
    ensures ok { IfOk result (λ store. AdoptsOne S.Store (λ was. opened ≡ Ok was) store.conn) }
    ensures err { IfErr result (λ refused. IfSome refused.1 (RefusesOne S.Store (λ was. opened ≡ Ok was))) }
{
    match opened {
        Ok(conn) => match Store::adopt(conn) {
            Ok(store) => Ok(store),
            Err((reason, conn)) => Err((reason, Some(conn))),
        },
        Err(_) => Err((Refusal::OpenFailed, None)),
    }
}

impl Store<FileStore<File>> {
    /// Opens the store of the database file at this path, which is made if there is none. Beside it lies its
    /// write-ahead log; each commit is forced to the disk (SQLite's `synchronous` is FULL).
    ///
    /// # Errors
    ///
    /// `OpenFailed` if the path can't be opened or the file is no database; and, with the connection, if the database
    /// can't be adopted: it is then as `adopt` leaves it.
    pub fn open(
        rt: &HostRuntime,
        path: &str,
    ) -> Result<Store<FileStore<File>>, (Refusal, Option<Connection<FileStore<File>>>)>
        ensures reason { IfErr result (λ refused. refused.0 ≡ OpenFailed) }
        ensures ok { IfOk result (λ store. AdoptsOne over_files (λ was. HasCleanDisk (file_state was) → IsOpened was) store.conn) }
        ensures err { IfErr result (λ refused. IfSome refused.1 (RefusesOne over_files (λ was. HasCleanDisk (file_state was) → IsOpened was))) }
    {
        adopt_opened(Connection::open(rt, path))
    }
}
