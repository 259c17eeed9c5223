//! What is reported of tables that another program has changed.

use crate::{columns_reason, rows_reason};
use sqlite::Connection;
use std::alloc::Global;
use std::test::Fail;

/// The tables of a new database that holds a route.
const TABLES: &str = "
    CREATE TABLE rule (id INTEGER PRIMARY KEY NOT NULL, priority INTEGER NOT NULL, inverted INTEGER NOT NULL, src_net INTEGER NOT NULL, src_len INTEGER NOT NULL, dst_net INTEGER NOT NULL, dst_len INTEGER NOT NULL, iif TEXT NOT NULL, mark INTEGER NOT NULL, mask INTEGER NOT NULL, act INTEGER NOT NULL, tbl INTEGER NOT NULL) STRICT;
    CREATE TABLE route (tbl INTEGER NOT NULL, net INTEGER NOT NULL, len INTEGER NOT NULL, metric INTEGER NOT NULL, kind INTEGER NOT NULL, via INTEGER NOT NULL, dev TEXT NOT NULL, src INTEGER NOT NULL, proto INTEGER NOT NULL, scope INTEGER NOT NULL, PRIMARY KEY (tbl, net, len, metric)) STRICT;
    CREATE TABLE meta (id INTEGER PRIMARY KEY NOT NULL, format INTEGER NOT NULL, count INTEGER NOT NULL) STRICT;
    CREATE TABLE suppress (rule INTEGER PRIMARY KEY NOT NULL REFERENCES rule (id) ON DELETE CASCADE, len INTEGER NOT NULL) STRICT;
    INSERT INTO rule VALUES (1, 0, 0, 0, 0, 0, 0, '', -1, -1, 1, 255), (2, 32766, 0, 0, 0, 0, 0, '', -1, -1, 1, 254);
    INSERT INTO route VALUES (254, 167772160, 8, 0, 1, -1, 'eth0', -1, 3, 253);
    INSERT INTO meta VALUES (1, 2, 2)";

/// Collects what is reported of the tables after these statements.
fn told(alloc: Global, statements: &str) -> Result<String, Fail> {
    let mut conn = Connection::open_in_memory(alloc)?;
    conn.execute_batch(TABLES)?;
    conn.execute_batch(statements)?;
    let reason = match columns_reason(conn.schema()) {
        Some(reason) => Some(reason),
        None => rows_reason(&mut conn)?,
    };
    match reason {
        Some(reason) => Ok(format!(in alloc; "{reason}")?),
        None => Ok(format!(in alloc; "nothing")?),
    }
}

#[test]
fn tells_the_route(rt: HostRuntime) -> Result<(), Fail> {
    for (statements, text) in [
        ("DELETE FROM suppress", "nothing"),
        (
            "UPDATE route SET net = 167772161",
            "route, row 1: bits after its length",
        ),
        (
            "UPDATE route SET len = 33",
            "route, row 1: wrong value of len",
        ),
        (
            "UPDATE route SET tbl = 0",
            "route, row 1: wrong value of tbl",
        ),
        (
            "UPDATE route SET dev = 'a/b'",
            "route, row 1: wrong value of dev",
        ),
        (
            "UPDATE route SET dev = ''",
            "route, row 1: neither gateway nor interface",
        ),
        (
            "UPDATE route SET kind = 6",
            "route, row 1: next hop, source or scope of a route that is not unicast",
        ),
    ] {
        assert_eq!(rt;
            told(rt.alloc(), statements)?.as_str(),
            text,
            "{statements}"
        );
    }
    Ok(())
}

#[test]
fn tells_the_rule(rt: HostRuntime) -> Result<(), Fail> {
    for (statements, text) in [
        (
            "UPDATE rule SET id = 6 WHERE id = 2",
            "rule, row 6: wrong value of id",
        ),
        (
            "UPDATE rule SET dst_net = 1 WHERE id = 2",
            "rule, row 2: bits after its length",
        ),
        (
            "UPDATE rule SET mark = 7 WHERE id = 2",
            "rule, row 2: mark or mask alone",
        ),
        (
            "UPDATE rule SET act = 6 WHERE id = 2",
            "rule, row 2: table that is not looked up",
        ),
        (
            "UPDATE rule SET priority = 0, tbl = 255 WHERE id = 2",
            "rule, row 2: same rule as row 1",
        ),
        (
            "INSERT INTO suppress VALUES (2, 33)",
            "suppress, row 2: wrong value of len",
        ),
        (
            "UPDATE rule SET act = 6, tbl = 0 WHERE id = 2; INSERT INTO suppress VALUES (2, 8)",
            "suppress, row 2: length of a rule that looks up no table",
        ),
    ] {
        assert_eq!(rt;
            told(rt.alloc(), statements)?.as_str(),
            text,
            "{statements}"
        );
    }
    Ok(())
}

#[test]
fn tells_the_count(rt: HostRuntime) -> Result<(), Fail> {
    for (statements, text) in [
        (
            "UPDATE meta SET format = 3",
            "meta: format 3, this program reads 1 and 2",
        ),
        (
            "UPDATE meta SET format = 1; INSERT INTO suppress VALUES (2, 8)",
            "meta: format 1, with rows in suppress",
        ),
        ("UPDATE meta SET count = -1", "meta: wrong value of count"),
        ("DELETE FROM meta", "meta: 0 rows, not one"),
        ("INSERT INTO meta VALUES (2, 2, 1)", "meta: 2 rows, not one"),
    ] {
        assert_eq!(rt;
            told(rt.alloc(), statements)?.as_str(),
            text,
            "{statements}"
        );
    }
    Ok(())
}

#[test]
fn tells_the_column(rt: HostRuntime) -> Result<(), Fail> {
    for (statements, text) in [
        (
            "DROP TABLE meta; CREATE TABLE meta (id INTEGER PRIMARY KEY NOT NULL, format INTEGER NOT NULL) STRICT",
            "meta: column count is missing or another",
        ),
        (
            "DROP TABLE meta; CREATE TABLE Meta (id INTEGER PRIMARY KEY NOT NULL, format TEXT NOT NULL, count INTEGER NOT NULL) STRICT",
            "meta: column format is missing or another",
        ),
        (
            "DROP TABLE suppress; CREATE TABLE suppress (rule INTEGER PRIMARY KEY NOT NULL REFERENCES rule (id) ON DELETE CASCADE, len INTEGER NOT NULL, note TEXT) STRICT",
            "suppress: column 3 is one too many",
        ),
        (
            "DROP TABLE meta; CREATE TABLE meta (id INTEGER PRIMARY KEY NOT NULL, format INTEGER NOT NULL, count INTEGER NOT NULL CHECK (count > 0)) STRICT",
            "rule, route, meta or suppress: other keys or constraints",
        ),
    ] {
        assert_eq!(rt;
            told(rt.alloc(), statements)?.as_str(),
            text,
            "{statements}"
        );
    }
    Ok(())
}
