//! Databases, and what they encode.

use prt_command::{Query, Range, Selector};
use prt_listing::query_text;
use prt_store::Store;
use prt_version::{Refusal, Version};
use sqlite::{Alter, Connection, Error};
use std::alloc::Global;

/// `rule show` of a new database.
pub const OPENING_RULES: &str =
    "0:\tfrom all lookup local\n32766:\tfrom all lookup main\n32767:\tfrom all lookup default\nend 3\n";

/// `route show table all`.
const ALL_ROUTES: Query = Query::RouteShow(Selector {
    table: None,
    range: Range::All,
    kind: None,
    proto: None,
    scope: None,
    dev: None,
});

/// What a database encodes: how many commands it accepted, and the answers to `rule show` and `route show table all`.
pub struct Contents {
    pub number: u64,
    pub rules: &'static str,
    pub routes: &'static str,
}

/// Runs statements; without a clause, so that the proof of a test does not carry what they do.
pub fn execute<S: Alter>(connection: &mut Connection<S>, sql: &str) -> Result<(), Error> {
    connection.execute_batch(sql)
}

/// Makes the store that adopts the connection.
pub fn adopted<S: Alter + Drop>(connection: Connection<S>) -> Result<Store<S>, Refusal> {
    match Store::adopt(connection) {
        Ok(store) => Ok(store),
        Err((reason, _connection)) => Err(reason),
    }
}

/// Returns what the store loads.
pub fn loaded<S: Alter + Drop>(alloc: Global, store: &mut Store<S>) -> Result<Version, Refusal> {
    store.load(alloc)
}

/// Collects the lines that answer a query.
fn answer(alloc: Global, version: &Version, query: &Query) -> Result<Vec<u8>, Refusal> {
    let mut text = Vec::new(alloc);
    query_text(&mut text, version, query)?;
    Ok(text)
}

/// Returns the connection, and whether its database encodes this once it is adopted.
pub fn spells<S: Alter + Drop>(
    alloc: Global,
    connection: Connection<S>,
    contents: &Contents,
) -> Result<(bool, Connection<S>), Refusal> {
    let mut store = adopted(connection)?;
    let version = loaded(alloc, &mut store)?;
    let rules = answer(alloc, &version, &Query::RuleShow)?;
    let routes = answer(alloc, &version, &ALL_ROUTES)?;
    let is_same = version.number() == contents.number
        && rules.as_slice() == contents.rules.as_bytes()
        && routes.as_slice() == contents.routes.as_bytes();
    Ok((is_same, store.release()))
}
