//! Scripts over desks, whose databases are opened again.

use prt_publisher::{Publisher, StoreDesk};
use prt_session::{
    Desk, MemoryDesk, OnRefusal, Refusal, ScriptEnd, Unobserved, run_atomic, run_script,
};
use sqlite::{Alter, Connection, Error};
use std::alloc::Global;
use std::sync::Wait;
use std::test::Fail;

/// Scripts with each command and each query.
const SCRIPTS: [&str; 2] = [
    "route add 10/8 via 192.0.2.1\nroute add 10/8 dev a\nroute replace 10/8 dev a metric 5\nroute change blackhole 10/8\nroute get 10.1.2.3\nroute show\nroute del 10/8\nroute flush table main\nroute show table all\n",
    "rule add priority 5 from 10/8 table 100\nrule add to 10/8 iif a fwmark 0x10/0xf0 prohibit\nrule show\nroute get 10.0.0.1 iif a mark 0x1f\nrule del priority 5\nrule flush\nrule show\n",
];

/// Collects the replies of a desk to a script, and how it ended.
pub fn run<D: Desk>(alloc: Global, desk: &mut D, script: &str) -> (Vec<u8>, ScriptEnd) {
    let mut text = Vec::new(alloc);
    let mut lines = script.as_bytes();
    let end = run_script(
        alloc,
        desk,
        &mut lines,
        &mut text,
        OnRefusal::GoOn,
        &mut Unobserved,
    );
    (text, end)
}

/// Collects the replies of a desk to an atomic file, and how it ended.
pub fn run_together<D: Desk>(alloc: Global, desk: &mut D, file: &str) -> (Vec<u8>, ScriptEnd) {
    let mut text = Vec::new(alloc);
    let mut lines = file.as_bytes();
    let end = run_atomic(alloc, desk, &mut lines, &mut text, &mut Unobserved);
    (text, end)
}

/// Collects the replies of a desk to a script.
pub fn replies<D: Desk>(alloc: Global, desk: &mut D, script: &str) -> Vec<u8> {
    run(alloc, desk, script).0
}

/// Makes a desk over the database of a connection, or gives the connection back.
pub fn desk_over<S: Alter + Drop, H: Wait + Copy + Drop>(
    rt: H,
    alloc: Global,
    connection: Connection<S>,
) -> Result<StoreDesk<S, H>, (Refusal, Connection<S>)> {
    let (publisher, domain) = Publisher::adopt(alloc, connection)?;
    Ok(StoreDesk::new(rt, publisher, domain))
}

/// Makes a desk over the database of a connection.
pub fn opened<S: Alter + Drop, H: Wait + Copy + Drop>(
    rt: H,
    alloc: Global,
    connection: Connection<S>,
) -> Result<StoreDesk<S, H>, Refusal> {
    match desk_over(rt, alloc, connection) {
        Ok(desk) => Ok(desk),
        Err((reason, _)) => Err(reason),
    }
}

/// Checks whether a desk over the connection replies to a script as one over lists does.
fn replies_as_lists<S: Alter + Drop, H: Wait + Copy + Drop>(
    rt: H,
    alloc: Global,
    connection: Connection<S>,
    script: &str,
) -> Result<bool, Refusal> {
    let mut stored = opened(rt, alloc, connection)?;
    let mut listed = MemoryDesk::opening(alloc)?;
    let wanted = replies(alloc, &mut listed, script);
    Ok(replies(alloc, &mut stored, script).as_slice() == wanted.as_slice())
}

/// Runs a script over the database of a connection, and returns its replies and the connection.
fn run_over<S: Alter + Drop, H: Wait + Copy + Drop>(
    rt: H,
    alloc: Global,
    connection: Connection<S>,
    script: &str,
) -> Result<(Vec<u8>, Connection<S>), Refusal> {
    let mut desk = opened(rt, alloc, connection)?;
    let text = replies(alloc, &mut desk, script);
    Ok((text, desk.end()))
}

/// Sets the count of accepted commands to its limit.
fn fill_count<S: Alter>(connection: &mut Connection<S>) -> Result<usize, Error> {
    connection.execute("UPDATE meta SET count = 1000000000000000", &[])
}

#[test]
fn replies_are_those_of_lists(rt: HostRuntime) -> Result<(), Fail> {
    let alloc = rt.alloc();
    for script in &SCRIPTS {
        let connection = Connection::open_in_memory(alloc)?;
        let is_same = replies_as_lists(rt, alloc, connection, script)?;
        assert!(rt; is_same);
    }
    Ok(())
}

#[test]
fn a_second_run_goes_on(rt: HostRuntime) -> Result<(), Fail> {
    let alloc = rt.alloc();
    let connection = Connection::open_in_memory(alloc)?;
    let (_first, connection) = run_over(rt, alloc, connection, "route add 10/8 via 192.0.2.1\n")?;
    let (second, _same) = run_over(rt, alloc, connection, "route show\nroute del 10/8\n")?;
    assert!(rt; second.as_slice() == b"10.0.0.0/8 via 192.0.2.1\nend 1\nok 2\n".as_slice());
    Ok(())
}

#[test]
fn a_full_count_refuses_a_command(rt: HostRuntime) -> Result<(), Fail> {
    let alloc = rt.alloc();
    let connection = Connection::open_in_memory(alloc)?;
    let (_none, mut connection) = run_over(rt, alloc, connection, "")?;
    fill_count(&mut connection)?;
    let (replies, _same) = run_over(rt, alloc, connection, "rule flush\n")?;
    assert!(rt; replies.as_slice() == b"error 24 CountFull\n".as_slice());
    Ok(())
}
