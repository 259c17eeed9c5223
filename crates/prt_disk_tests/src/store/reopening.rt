//! A database that is closed, and opened again as a restarted program does.

ghost use Rattle.std.specs.Prelude.{◌≡◌, IfOk};
ghost use Rattle.sqlite.specs.Files.{file_state};
ghost use Rattle.sqlite.specs.State.{HasCleanDisk};
ghost use Rattle.prt_store.specs.Stored.{Stores};
ghost use Rattle.prt_version.specs.State.{State};

use prt_store::Store;
use prt_version::Refusal;
use sqlite::{Connection, FileStore, Options};
use sqlite_disk::Disk;
use std::alloc::Global;

/// Closes the database of a connection and opens its files again. The new connection shows what the last commit left.
///
/// # Errors
///
/// `OpenFailed` if a call fails; the files are let go.
fn opened_again<V: Disk + Drop>(
    alloc: Global,
    conn: Connection<FileStore<V>>,
    options: Options,
) -> Result<Connection<FileStore<V>>, Refusal>
    ensures { IfOk result (λ again. HasCleanDisk (file_state again) → (file_state again).now ≡ (file_state conn).committed) }
{
    // Says that the rows are as the schema has them.
    let _live = conn.schema();
    let files = match conn.close_files() {
        Ok(files) => files,
        Err((_, store)) => {
            drop(store.close());
            return Err(Refusal::OpenFailed);
        }
    };
    match Connection::open_files(alloc, files, options) {
        Ok(again) => Ok(again),
        Err(_) => Err(Refusal::OpenFailed),
    }
}

/// Closes the database of a store, opens it again and adopts it. If the last commit left tables that encode a state, the
/// new store's tables encode it.
///
/// # Errors
///
/// `OpenFailed` if a call fails; the files are let go.
pub fn reopened<V: Disk + Drop>(
    alloc: Global,
    store: Store<FileStore<V>>,
    options: Options,
) -> Result<Store<FileStore<V>>, Refusal>
    ensures { IfOk result (λ again. HasCleanDisk (file_state again.conn) → (stored : State) →
        Stores (file_state store.conn).committed stored → Stores (file_state again.conn).now stored) }
{
    let conn = opened_again(alloc, store.release(), options)?;
    match Store::adopt(conn) {
        Ok(again) => Ok(again),
        Err((reason, _)) => Err(reason),
    }
}
