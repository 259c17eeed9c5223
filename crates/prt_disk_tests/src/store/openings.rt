//! Files as they are found: half made, with tables of others, or with rows that encode no state.

use super::database::{adopted, execute, loaded, spells};
use super::steps::OPENING;
use prt_rows::is_format_2;
use prt_version::Refusal;
use sqlite::Connection;
use std::alloc::Global;
use std::test::Fail;

/// The table of rules, as format 2 has it.
const RULE_TABLE: &str =
    "CREATE TABLE rule (id INTEGER PRIMARY KEY NOT NULL, priority INTEGER NOT NULL, inverted INTEGER NOT NULL, src_net INTEGER NOT NULL, src_len INTEGER NOT NULL, dst_net INTEGER NOT NULL, dst_len INTEGER NOT NULL, iif TEXT NOT NULL, mark INTEGER NOT NULL, mask INTEGER NOT NULL, act INTEGER NOT NULL, tbl INTEGER NOT NULL) STRICT";

/// Checks whether what these statements make encodes the opening state once it is adopted.
fn is_new_after(alloc: Global, sql: &str) -> Result<bool, Fail> {
    let mut connection = Connection::open_in_memory(alloc)?;
    execute(&mut connection, sql)?;
    Ok(spells(alloc, connection, &OPENING)?.0)
}

#[test]
fn opens_half_made_files(rt: HostRuntime) -> Result<(), Fail> {
    for sql in [
        RULE_TABLE,
        "CREATE TABLE note (title TEXT); INSERT INTO note VALUES ('a')",
    ] {
        assert!(rt; is_new_after(rt.alloc(), sql)?, "{sql}");
    }
    Ok(())
}

/// Finds what comes of loading a new database after this statement.
fn load_after(alloc: Global, sql: &str) -> Result<Option<Refusal>, Fail> {
    let mut connection = adopted(Connection::open_in_memory(alloc)?)?.release();
    execute(&mut connection, sql)?;
    let mut store = adopted(connection)?;
    Ok(loaded(alloc, &mut store).err())
}

#[test]
fn refuses_damaged_rows(rt: HostRuntime) -> Result<(), Fail> {
    for sql in [
        "UPDATE meta SET count = -1",
        "DELETE FROM meta",
        "INSERT INTO route VALUES (0, 0, 0, 0, 6, -1, '', -1, 3, 0)",
        "INSERT INTO suppress VALUES (2, 33)",
        "UPDATE meta SET count = 1; INSERT INTO rule VALUES (4, 5, 0, 0, 0, 0, 0, '', -1, -1, 6, 0); INSERT INTO suppress VALUES (4, 8)",
        "UPDATE meta SET format = 1; INSERT INTO suppress VALUES (2, 8)",
    ] {
        assert_eq!(rt;
            load_after(rt.alloc(), sql)?,
            Some(Refusal::Damaged),
            "{sql}"
        );
    }
    assert_eq!(rt; load_after(rt.alloc(), "UPDATE meta SET count = 1")?, None);
    Ok(())
}

#[test]
fn refuses_other_columns(rt: HostRuntime) -> Result<(), Fail> {
    for sql in [
        "CREATE TABLE route (tbl INTEGER NOT NULL) STRICT",
        "CREATE TABLE suppress (rule INTEGER PRIMARY KEY NOT NULL, len INTEGER NOT NULL) STRICT",
    ] {
        let mut connection = Connection::open_in_memory(rt.alloc())?;
        execute(&mut connection, sql)?;
        assert_eq!(rt;
            adopted(connection).err(),
            Some(Refusal::OpenFailed),
            "{sql}"
        );
    }
    Ok(())
}

/// The tables of routes, of the count and of lengths, as format 2 has them.
const OTHER_TABLES: &str =
    "CREATE TABLE route (tbl INTEGER NOT NULL, net INTEGER NOT NULL, len INTEGER NOT NULL, metric INTEGER NOT NULL, kind INTEGER NOT NULL, via INTEGER NOT NULL, dev TEXT NOT NULL, src INTEGER NOT NULL, proto INTEGER NOT NULL, scope INTEGER NOT NULL, PRIMARY KEY (tbl, net, len, metric)) STRICT; CREATE TABLE meta (id INTEGER PRIMARY KEY NOT NULL, format INTEGER NOT NULL, count INTEGER NOT NULL) STRICT; CREATE TABLE suppress (rule INTEGER PRIMARY KEY NOT NULL REFERENCES rule (id) ON DELETE CASCADE, len INTEGER NOT NULL) STRICT";

#[test]
fn tells_format_2_from_other_schemas(rt: HostRuntime) -> Result<(), Fail> {
    let mut connection = Connection::open_in_memory(rt.alloc())?;
    assert!(rt; !is_format_2(connection.schema()));
    execute(&mut connection, RULE_TABLE)?;
    assert!(rt; !is_format_2(connection.schema()));
    execute(&mut connection, OTHER_TABLES)?;
    assert!(rt; is_format_2(connection.schema()));
    execute(
        &mut connection,
        "CREATE TABLE note (rule INTEGER REFERENCES rule (id))",
    )?;
    assert!(rt; !is_format_2(connection.schema()));
    Ok(())
}
