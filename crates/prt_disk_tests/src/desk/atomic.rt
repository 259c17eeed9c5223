//! An atomic file over files of which each call in turn is the last that works, or the only one that fails.

use super::disks::{Faults, Mode, Ran, calls_made, copies, new_files, run_in};
use super::each_call::{HELD, LISTINGS, is_told};
use prt_refusals::StoreCall;
use prt_session::Refusal;
use std::alloc::Global;
use std::sync::Wait;
use std::test::Fail;

/// The five commands of the script that are accepted.
const FIVE: &str =
    "route replace 10/8 via 192.0.2.1\nroute change blackhole 10/8\nrule add priority 5 from 10/8 table 100\nrule del priority 5\nroute flush table all\n";

/// The replies if all of them are made.
const ALL: &str = "ok 1\nok 2\nok 3\nok 4\nok 5\n";

/// The reply if the store fails.
const NONE: &str = "error 27 StoreFailed\n";

/// Checks whether a run may have left what its files hold: all of the commands if they were acknowledged, or if the
/// call that commits them failed; and none if they weren't.
fn may_leave(ran: &Result<Ran, Refusal>, held: &[u8]) -> bool {
    let is_before = held == HELD[0].as_bytes();
    let is_after = held == HELD[5].as_bytes();
    match ran {
        Err(reason) => *reason == Refusal::OpenFailed && is_before,
        Ok(ran) if ran.replies.as_slice() == ALL.as_bytes() => is_after && ran.end.fault.is_none(),
        Ok(ran) => {
            let may_be_after = ran.end.fault == Some(Refusal::StoreFailed(StoreCall::Commit));
            ran.replies.as_slice() == NONE.as_bytes() && (is_before || may_be_after && is_after)
        }
    }
}

/// Runs the file over new files with these faults. Checks whether the error of a failed commit was returned, and the files
/// hold what it may have left once they work again.
fn is_right_with<H: Wait + Copy + Drop>(
    rt: H,
    alloc: Global,
    faults: Faults,
) -> Result<bool, Fail> {
    let (ran, files) = run_in(rt, alloc, new_files(alloc, faults), FIVE, Mode::Together);
    let works = copies(alloc, &files, Faults::NONE)?;
    let (again, _files) = run_in(rt, alloc, works, LISTINGS, Mode::InTurn);
    Ok(is_told(&ran) && may_leave(&ran, again?.replies.as_slice()))
}

/// The faults at a call of each of the two files.
pub fn faults_at(calls: u64) -> [Faults; 4] {
    [
        Faults {
            log_stop: calls,
            ..Faults::NONE
        },
        Faults {
            db_stop: calls,
            ..Faults::NONE
        },
        Faults {
            log_failure: calls,
            ..Faults::NONE
        },
        Faults {
            db_failure: calls,
            ..Faults::NONE
        },
    ]
}

#[test]
fn atomic_file_leaves_all_or_none(rt: HostRuntime) -> Result<(), Fail> {
    let alloc = rt.alloc();
    let (_ran, whole) = run_in(
        rt,
        alloc,
        new_files(alloc, Faults::NONE),
        FIVE,
        Mode::Together,
    );
    let (log, db) = calls_made(&whole);
    for calls in 0..=log.max(db) {
        for faults in faults_at(calls) {
            assert!(rt; is_right_with(rt, alloc, faults)?, "after {calls}");
        }
    }
    Ok(())
}
