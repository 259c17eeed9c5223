//! A file of format 1, which its opening migrates, also if it is stopped at any call.

use super::disks::{Faults, Faulty, Mode, OPTIONS, calls_made, closed, copies, new_files, run_in};
use prt_session::Refusal;
use sqlite::{Connection, Files};
use sqlite_disk::Disk;
use std::alloc::Global;
use std::sync::Wait;
use std::test::Fail;

/// The tables of format 1 after `route add default dev wg0 table 51820` and `rule add not fwmark 51820 table 51820`.
const FORMAT_1: &str =
    "CREATE TABLE rule (id INTEGER PRIMARY KEY NOT NULL, priority INTEGER NOT NULL, inverted INTEGER NOT NULL, src_net INTEGER NOT NULL, src_len INTEGER NOT NULL, dst_net INTEGER NOT NULL, dst_len INTEGER NOT NULL, iif TEXT NOT NULL, mark INTEGER NOT NULL, mask INTEGER NOT NULL, act INTEGER NOT NULL, tbl INTEGER NOT NULL) STRICT; INSERT INTO rule VALUES (1, 0, 0, 0, 0, 0, 0, '', -1, -1, 1, 255), (2, 32766, 0, 0, 0, 0, 0, '', -1, -1, 1, 254), (3, 32767, 0, 0, 0, 0, 0, '', -1, -1, 1, 253), (5, 32765, 1, 0, 0, 0, 0, '', 51820, 4294967295, 1, 51820); CREATE TABLE route (tbl INTEGER NOT NULL, net INTEGER NOT NULL, len INTEGER NOT NULL, metric INTEGER NOT NULL, kind INTEGER NOT NULL, via INTEGER NOT NULL, dev TEXT NOT NULL, src INTEGER NOT NULL, proto INTEGER NOT NULL, scope INTEGER NOT NULL, PRIMARY KEY (tbl, net, len, metric)) STRICT; INSERT INTO route VALUES (51820, 0, 0, 0, 1, -1, 'wg0', -1, 3, 253); CREATE TABLE meta (id INTEGER PRIMARY KEY NOT NULL, format INTEGER NOT NULL, count INTEGER NOT NULL) STRICT; INSERT INTO meta VALUES (1, 1, 2)";

/// What shows the whole state.
const LISTINGS: &str = "rule show\nroute show table all\nroute get 192.0.2.7\n";

/// The replies to that, which name the count.
const HELD: &[u8] =
    b"0:\tfrom all lookup local\n32765:\tnot from all fwmark 0xca6c lookup 51820\n32766:\tfrom all lookup main\n32767:\tfrom all lookup default\nend 4\ndefault dev wg0 table 51820 scope link\nend 1\nanswer 2 rule 32765 table 51820 default dev wg0 scope link\n";

/// Opens the database of these files and runs statements. Returns the files, and how many rows the last statement changed.
fn changed_in<V: Disk + Drop>(
    alloc: Global,
    files: Files<V>,
    tables: &str,
    change: &str,
) -> Result<(usize, Files<V>), Fail> {
    if !files.may_be_used() {
        return Err(Fail::from(Refusal::OpenFailed));
    }
    match Connection::open_files(alloc, files, OPTIONS) {
        Ok(mut connection) => {
            connection.execute_batch(tables)?;
            let rows = connection.execute(change, &[])?;
            Ok((rows, closed(connection)))
        }
        Err(_) => Err(Fail::from(Refusal::OpenFailed)),
    }
}

/// Opens copies of these files with these faults, and then what they hold without any. Checks whether that is all of the
/// state, in format 2.
fn is_migrated_with<H: Wait + Copy + Drop>(
    rt: H,
    alloc: Global,
    former: &Files<Faulty>,
    faults: Faults,
) -> Result<bool, Fail> {
    let (_ran, files) = run_in(rt, alloc, copies(alloc, former, faults)?, "", Mode::InTurn);
    let (again, files) = run_in(
        rt,
        alloc,
        copies(alloc, &files, Faults::NONE)?,
        LISTINGS,
        Mode::InTurn,
    );
    let (rows, _files) = changed_in(alloc, files, "", "DELETE FROM meta WHERE format = 2")?;
    Ok(again?.replies.as_slice() == HELD && rows == 1)
}

/// Files that hold those tables.
fn former_files(alloc: Global) -> Result<Files<Faulty>, Fail> {
    let files = new_files(alloc, Faults::NONE);
    Ok(changed_in(alloc, files, FORMAT_1, "UPDATE meta SET count = 2")?.1)
}

#[test]
fn migration_goes_on_after_each_stop(rt: HostRuntime) -> Result<(), Fail> {
    let alloc = rt.alloc();
    let former = former_files(alloc)?;
    let (_ran, whole) = run_in(
        rt,
        alloc,
        copies(alloc, &former, Faults::NONE)?,
        "",
        Mode::InTurn,
    );
    let (log, db) = calls_made(&whole);
    for calls in 0..=log.max(db) {
        let of_log = Faults {
            log_stop: calls,
            ..Faults::NONE
        };
        assert!(rt;
            is_migrated_with(rt, alloc, &former, of_log)?,
            "the log, after {calls}"
        );
        let of_db = Faults {
            db_stop: calls,
            ..Faults::NONE
        };
        assert!(rt;
            is_migrated_with(rt, alloc, &former, of_db)?,
            "the file, after {calls}"
        );
    }
    Ok(())
}
