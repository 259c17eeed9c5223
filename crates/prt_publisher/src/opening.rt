//! What a publisher begins with.
ghost use Rattle.std.specs.Prelude.{◌≡◌, ◌↔◌, [], true, IfErr, IfOk};
ghost use Rattle.std.specs.Arc.{arc_value};
ghost use Rattle.sqlite.specs.Held.{state};
ghost use Rattle.prt_refusals.specs.declared.refusal.Refusal.TheVariants.{NoMemory};
ghost use Rattle.prt_publisher.specs.Openings.{HasOpened, HasRefused};
ghost use Rattle.prt_published.specs.Line.{line_state};
ghost use Rattle.prt_rows.specs.Format.{BeginsFormat2};
ghost use Rattle.prt_version.specs.Accepted.{IsAccepted};

use crate::plan::owners;
use prt_command::Refusal;
use prt_grace::{Domain, Keeper};
use prt_published::Front;
use prt_rows::begins_format_2;
use prt_store::Store;
use prt_version::Version;
use sqlite::{Alter, Connection};
use std::alloc::Global;
use std::sync::Arc;

/// A store, whether its tables are the first of their file, and the version that they encode.
#[derive(Drop)]
struct Loaded<S: Alter + Drop> {
    store: Store<S>,
    ours_first: bool,
    version: Version,
}

/// A version that is noted in a domain and published by a front.
#[derive(Drop)]
pub(crate) struct Begun {
    pub(crate) version: Arc<Version>,
    pub(crate) domain: Domain,
    pub(crate) keeper: Keeper,
    pub(crate) front: Front,
}

/// A store whose state is published.
#[derive(Drop)]
pub(crate) struct Opened<S: Alter + Drop> {
    pub(crate) store: Store<S>,
    pub(crate) ours_first: bool,
    pub(crate) begun: Begun,
}

/// Adopts the tables of a connection, and loads the version that they encode.
///
/// # Errors
///
/// With the connection: `OpenFailed`, `Damaged`, `NoMemory`.
fn adopt_and_load<S: Alter + Drop>(
    alloc: Global,
    conn: Connection<S>,
) -> Result<Loaded<S>, (Refusal, Connection<S>)>
    ensures format { IfOk result (λ loaded. (loaded.ours_first ≡ true) ↔ BeginsFormat2 (state S.Store conn).now.schema) }
    ensures opened { IfOk result (λ loaded. HasOpened S.Store conn loaded.store.conn loaded.version) }
    ensures refused { IfErr result (λ refused. HasRefused S.Store conn refused.1 refused.0) }
{
    let ours_first = begins_format_2(conn.schema());
    let mut store = match Store::adopt(conn) {
        Ok(store) => store,
        Err(refused) => return Err(refused),
    };
    match store.load(alloc) {
        Ok(version) => {
            // Recalls that the version is sound.
            let _number = version.number();
            Ok(Loaded {
                store,
                ours_first,
                version,
            })
        }
        Err(reason) => Err((reason, store.release())),
    }
}

/// Notes a version in a new domain, and publishes it in a new front.
///
/// # Errors
///
/// `NoMemory`.
fn begin(alloc: Global, version: Version) -> Result<Begun, Refusal>
    ensures begun { IfOk result (λ begun.
        (arc_value begun.version ≡ version) × (begun.front.base ≡ version) × (begun.front.list ≡ []) × (begun.keeper.noted ≡ version.count)) }
    ensures reason { IfErr result (λ reason. reason ≡ NoMemory) }
{
    let (kept, noted, shown) = owners(alloc, version)?;
    let (domain, keeper) = Domain::new(noted);
    let front = Front::new(alloc, shown)?;
    Ok(Begun {
        version: kept,
        domain,
        keeper,
        front,
    })
}

/// Opens the database of a connection, and publishes the state that is stored there.
///
/// # Errors
///
/// With the connection: `OpenFailed`, `Damaged`, `NoMemory`.
pub(crate) fn open<S: Alter + Drop>(
    alloc: Global,
    conn: Connection<S>,
) -> Result<Opened<S>, (Refusal, Connection<S>)>
    ensures begun { IfOk result (λ opened. (opened.begun.front.list ≡ []) × IsAccepted opened.begun.front.base opened.begun.front.list
        × (arc_value opened.begun.version ≡ line_state opened.begun.front) × (opened.begun.keeper.noted ≡ (arc_value opened.begun.version).count)) }
    ensures format { IfOk result (λ opened. (opened.ours_first ≡ true) ↔ BeginsFormat2 (state S.Store conn).now.schema) }
    ensures opened { IfOk result (λ opened. HasOpened S.Store conn opened.store.conn (line_state opened.begun.front)) }
    ensures refused { IfErr result (λ refused. HasRefused S.Store conn refused.1 refused.0) }
{
    let loaded = match adopt_and_load(alloc, conn) {
        Ok(loaded) => loaded,
        Err(refused) => return Err(refused),
    };
    match begin(alloc, loaded.version) {
        Ok(begun) => Ok(Opened {
            store: loaded.store,
            ours_first: loaded.ours_first,
            begun,
        }),
        Err(reason) => Err((reason, loaded.store.release())),
    }
}
