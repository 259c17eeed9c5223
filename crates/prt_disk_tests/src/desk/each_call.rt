//! A script over files of which each call in turn is the last that works, or the only one that fails.

use super::disks::{Faults, Mode, Ran, calls_made, copies, new_files, run_in};
use prt_refusals::StoreCall;
use prt_session::Refusal;
use std::alloc::Global;
use std::sync::Wait;
use std::test::Fail;

/// Five commands that are accepted, one that is refused after them, and a query.
const CHURN: &str =
    "route replace 10/8 via 192.0.2.1\nroute change blackhole 10/8\nrule add priority 5 from 10/8 table 100\nrule del priority 5\nroute flush table all\nrule del priority 5\nroute get 10.1.2.3\n";

/// The replies if so many of them are acknowledged, and the store fails at the next.
const REPLIES: [&str; 6] = [
    "error 27 StoreFailed\nerror 20 Closed\nerror 20 Closed\nerror 20 Closed\nerror 20 Closed\nerror 20 Closed\nanswer 0 none\n",
    "ok 1\nerror 27 StoreFailed\nerror 20 Closed\nerror 20 Closed\nerror 20 Closed\nerror 20 Closed\nanswer 1 rule 32766 table main 10.0.0.0/8 via 192.0.2.1\n",
    "ok 1\nok 2\nerror 27 StoreFailed\nerror 20 Closed\nerror 20 Closed\nerror 20 Closed\nanswer 2 rule 32766 table main blackhole 10.0.0.0/8\n",
    "ok 1\nok 2\nok 3\nerror 27 StoreFailed\nerror 20 Closed\nerror 20 Closed\nanswer 3 rule 32766 table main blackhole 10.0.0.0/8\n",
    "ok 1\nok 2\nok 3\nok 4\nerror 27 StoreFailed\nerror 20 Closed\nanswer 4 rule 32766 table main blackhole 10.0.0.0/8\n",
    "ok 1\nok 2\nok 3\nok 4\nok 5\nerror 22 NoSuch\nanswer 5 none\n",
];

/// What shows the whole state.
pub const LISTINGS: &str = "route get 10.1.2.3\nroute show table all\nrule show\n";

/// The replies to that after so many of the five commands.
pub const HELD: [&str; 6] = [
    "answer 0 none\nend 0\n0:\tfrom all lookup local\n32766:\tfrom all lookup main\n32767:\tfrom all lookup default\nend 3\n",
    "answer 1 rule 32766 table main 10.0.0.0/8 via 192.0.2.1\n10.0.0.0/8 via 192.0.2.1\nend 1\n0:\tfrom all lookup local\n32766:\tfrom all lookup main\n32767:\tfrom all lookup default\nend 3\n",
    "answer 2 rule 32766 table main blackhole 10.0.0.0/8\nblackhole 10.0.0.0/8\nend 1\n0:\tfrom all lookup local\n32766:\tfrom all lookup main\n32767:\tfrom all lookup default\nend 3\n",
    "answer 3 rule 32766 table main blackhole 10.0.0.0/8\nblackhole 10.0.0.0/8\nend 1\n0:\tfrom all lookup local\n5:\tfrom 10.0.0.0/8 lookup 100\n32766:\tfrom all lookup main\n32767:\tfrom all lookup default\nend 4\n",
    "answer 4 rule 32766 table main blackhole 10.0.0.0/8\nblackhole 10.0.0.0/8\nend 1\n0:\tfrom all lookup local\n32766:\tfrom all lookup main\n32767:\tfrom all lookup default\nend 3\n",
    "answer 5 none\nend 0\n0:\tfrom all lookup local\n32766:\tfrom all lookup main\n32767:\tfrom all lookup default\nend 3\n",
];

/// Two commands and a query.
const TWO: &str = "route add default dev eth0\nrule flush\nroute get 10.0.0.1\n";

/// The replies if so many of the two are acknowledged, and the store fails at the next.
const TWO_REPLIES: [&str; 3] = [
    "error 27 StoreFailed\nerror 20 Closed\nanswer 0 none\n",
    "ok 1\nerror 27 StoreFailed\nanswer 1 rule 32766 table main default dev eth0 scope link\n",
    "ok 1\nok 2\nanswer 2 none\n",
];

/// What a lookup answers after so many of the two.
const TWO_HELD: [&str; 3] = [
    "answer 0 none\n",
    "answer 1 rule 32766 table main default dev eth0 scope link\n",
    "answer 2 none\n",
];

/// A script, with what it replies and leaves.
#[derive(Clone, Copy)]
struct Script<'a> {
    text: &'a str,
    replies: &'a [&'a str],
    /// What shows the state, and the replies to that after so many commands.
    shows: &'a str,
    held: &'a [&'a str],
}

/// Builds the script of five commands.
fn churn() -> Script<'static> {
    Script {
        text: CHURN,
        replies: &REPLIES,
        shows: LISTINGS,
        held: &HELD,
    }
}

/// Builds the script of two commands.
fn two_commands() -> Script<'static> {
    Script {
        text: TWO,
        replies: &TWO_REPLIES,
        shows: "route get 10.0.0.1\n",
        held: &TWO_HELD,
    }
}

/// Finds the place of a text among others.
pub fn place_of(texts: &[&str], text: &[u8]) -> Option<usize> {
    texts.iter().position(|other| other.as_bytes() == text)
}

/// Checks whether a desk returned the library's error exactly if a commit failed.
pub fn is_told(ran: &Result<Ran, Refusal>) -> bool {
    match ran {
        Ok(ran) => {
            let has_failed = matches!(ran.end.fault, Some(Refusal::StoreFailed(_)));
            ran.failure.is_some() == has_failed
        }
        Err(_) => true,
    }
}

/// What came of a script over files with faults.
#[derive(Drop)]
struct Found {
    ran: Result<Ran, Refusal>,
    /// The replies to what shows the state, once the files work again.
    held: Vec<u8>,
    /// Whether a call failed that was to fail alone.
    has_failed: bool,
}

/// Counts how many commands were acknowledged, none if the database wasn't opened, and how many its files hold.
fn pair_of(script: Script<'_>, found: &Found) -> Option<(usize, usize)> {
    let stored = place_of(script.held, found.held.as_slice())?;
    match &found.ran {
        Err(_) => Some((0, stored)),
        Ok(ran) => Some((place_of(script.replies, ran.replies.as_slice())?, stored)),
    }
}

/// Checks whether a run may have left what its files hold: nothing if it wasn't opened; otherwise the commands that
/// were acknowledged, and one more only if the call that commits it failed.
fn may_leave(script: Script<'_>, found: &Found) -> bool {
    let Some((acknowledged, stored)) = pair_of(script, found) else {
        return false;
    };
    match &found.ran {
        Err(reason) => *reason == Refusal::OpenFailed && stored == 0,
        Ok(_) if stored == acknowledged => true,
        Ok(ran) => {
            stored == acknowledged.saturating_add(1)
                && ran.end.fault == Some(Refusal::StoreFailed(StoreCall::Commit))
        }
    }
}

/// Runs a script over new files with these faults, and then what shows the state over copies without any.
fn found_with<H: Wait + Copy + Drop>(
    rt: H,
    alloc: Global,
    script: Script<'_>,
    faults: Faults,
) -> Result<Found, Fail> {
    let new = new_files(alloc, faults);
    let (ran, files) = run_in(rt, alloc, new, script.text, Mode::InTurn);
    let has_failed = files.log.has_failed() || files.db.has_failed();
    let works = copies(alloc, &files, Faults::NONE)?;
    let (again, _files) = run_in(rt, alloc, works, script.shows, Mode::InTurn);
    Ok(Found {
        ran,
        held: again?.replies,
        has_failed,
    })
}

/// Counts how many of the five commands are acknowledged and how many the files hold, with these faults.
pub fn pair_with<H: Wait + Copy + Drop>(
    rt: H,
    alloc: Global,
    faults: Faults,
) -> Result<Option<(usize, usize)>, Fail> {
    let found = found_with(rt, alloc, churn(), faults)?;
    Ok(pair_of(churn(), &found))
}

/// Counts how many calls of either file the script of five commands makes at most if none fails.
pub fn most_calls<H: Wait + Copy + Drop>(rt: H, alloc: Global) -> u64 {
    let (log, db) = calls_of(rt, alloc, churn());
    log.max(db)
}

/// Runs a script over new files with these faults. Checks whether the error of a failed commit was returned and the files
/// hold what it may have left once they work again; and whether a call failed that was to fail alone.
fn is_right_with<H: Wait + Copy + Drop>(
    rt: H,
    alloc: Global,
    script: Script<'_>,
    faults: Faults,
) -> Result<(bool, bool), Fail> {
    let found = found_with(rt, alloc, script, faults)?;
    let is_right = is_told(&found.ran) && may_leave(script, &found);
    Ok((is_right, found.has_failed))
}

/// Counts how many calls of the log, and of the database's file, a script makes if none fails.
fn calls_of<H: Wait + Copy + Drop>(rt: H, alloc: Global, script: Script<'_>) -> (u64, u64) {
    let new = new_files(alloc, Faults::NONE);
    calls_made(&run_in(rt, alloc, new, script.text, Mode::InTurn).1)
}

/// Checks whether the first command fails if the log takes so many calls, each later command is refused as closed, and
/// the query is answered.
fn answers_when_closed<H: Wait + Copy + Drop>(rt: H, alloc: Global, calls: u64) -> bool {
    let faults = Faults {
        log_stop: calls,
        ..Faults::NONE
    };
    let (ran, _files) = run_in(rt, alloc, new_files(alloc, faults), CHURN, Mode::InTurn);
    match ran {
        Ok(ran) => place_of(churn().replies, ran.replies.as_slice()) == Some(0),
        Err(_) => false,
    }
}

#[test]
fn a_closed_desk_answers(rt: HostRuntime) {
    let alloc = rt.alloc();
    let (log, _db) = calls_of(rt, alloc, churn());
    assert!(rt; (0..log).any(|calls| answers_when_closed(rt, alloc, calls)));
}

/// Runs a script so that each call in turn of the two files is the only one that fails.
fn fails_once_in<H: Wait + Copy + Drop>(
    rt: H,
    alloc: Global,
    script: Script<'_>,
) -> Result<bool, Fail> {
    let (log, db) = calls_of(rt, alloc, script);
    for calls in 0..=log.max(db) {
        let of_log = Faults {
            log_failure: calls,
            ..Faults::NONE
        };
        let of_db = Faults {
            db_failure: calls,
            ..Faults::NONE
        };
        if is_right_with(rt, alloc, script, of_log)? != (true, calls < log)
            || is_right_with(rt, alloc, script, of_db)? != (true, calls < db)
        {
            return Ok(false);
        }
    }
    Ok(true)
}

#[test]
fn stops_at_each_call(rt: HostRuntime) -> Result<(), Fail> {
    let alloc = rt.alloc();
    let script = churn();
    let (log, db) = calls_of(rt, alloc, script);
    for calls in 0..=log.max(db) {
        let of_log = Faults {
            log_stop: calls,
            ..Faults::NONE
        };
        assert!(rt;
            is_right_with(rt, alloc, script, of_log)?.0,
            "the log, after {calls}"
        );
        let of_db = Faults {
            db_stop: calls,
            ..Faults::NONE
        };
        assert!(rt;
            is_right_with(rt, alloc, script, of_db)?.0,
            "the file, after {calls}"
        );
    }
    Ok(())
}

#[test]
fn fails_once_at_each_call(rt: HostRuntime) -> Result<(), Fail> {
    assert!(rt; fails_once_in(rt, rt.alloc(), churn())?);
    Ok(())
}

#[test]
fn failed_write(rt: HostRuntime) -> Result<(), Fail> {
    assert!(rt; fails_once_in(rt, rt.alloc(), two_commands())?);
    Ok(())
}
