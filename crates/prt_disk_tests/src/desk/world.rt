//! What files with faults hold, beside what a replay of the same commands yields.

use super::atomic::faults_at;
use super::each_call::{most_calls, pair_with};
use prt_replay::{Outcome, play_events, read_events};
use prt_session::Refusal;
use std::alloc::Global;
use std::test::Fail;

/// The five commands of the script that are accepted.
pub const COMMANDS: [&str; 5] = [
    "route replace 10/8 via 192.0.2.1",
    "route change blackhole 10/8",
    "rule add priority 5 from 10/8 table 100",
    "rule del priority 5",
    "route flush table all",
];

/// The events of a command that is acknowledged, once it is submitted.
const ACKNOWLEDGED: &str = "call\ncall\ncall\ncall\npublish\nnote\nack\n";

/// The store calls of one that is not, up to each of the four.
const CALLS: [&str; 4] = ["", "call\n", "call\ncall\n", "call\ncall\ncall\n"];

/// How a transaction is cut short, and the database opened again.
const ENDS: [&str; 4] = [
    "stop kept\nreopen\n",
    "stop lost\nreopen\n",
    "fail kept\nreopen\n",
    "fail lost\nreopen\n",
];

/// Makes the text of a replay: so many commands are acknowledged, and the next one, if there is one, ends so after these
/// store calls.
fn replay_text(
    alloc: Global,
    acknowledged: usize,
    calls: &str,
    end: &str,
) -> Result<Vec<u8>, Refusal> {
    let mut text = Vec::new(alloc);
    for (place, command) in COMMANDS.iter().enumerate() {
        if place <= acknowledged {
            let made = if place < acknowledged {
                ACKNOWLEDGED
            } else {
                calls
            };
            text.extend_from_slice(b"submit ")?;
            text.extend_from_slice(command.as_bytes())?;
            text.extend_from_slice(b"\n")?;
            text.extend_from_slice(made.as_bytes())?;
        }
    }
    text.extend_from_slice(end.as_bytes())?;
    Ok(text)
}

/// Counts how many commands a database has when it is opened again.
fn reopened_at(
    alloc: Global,
    acknowledged: usize,
    calls: &str,
    end: &str,
) -> Result<Option<u64>, Refusal> {
    let text = replay_text(alloc, acknowledged, calls, end)?;
    let events = read_events(alloc, text.as_slice())?;
    let trace = play_events(alloc, events.as_slice())?;
    match trace.outcomes().last() {
        Some(Outcome::Reopened(number)) => Ok(Some(*number)),
        _ => Ok(None),
    }
}

/// Checks whether an end after these store calls yields so many commands.
fn is_known_after(
    alloc: Global,
    acknowledged: usize,
    stored: usize,
    calls: &str,
) -> Result<bool, Refusal> {
    for end in ENDS {
        if reopened_at(alloc, acknowledged, calls, end)? == Some(stored as u64) {
            return Ok(true);
        }
    }
    Ok(false)
}

/// Checks whether some replay acknowledges so many commands and is opened again with so many.
fn is_known(alloc: Global, acknowledged: usize, stored: usize) -> Result<bool, Refusal> {
    for calls in CALLS {
        if is_known_after(alloc, acknowledged, stored, calls)? {
            return Ok(true);
        }
    }
    Ok(false)
}

#[test]
fn world_knows_each_state(rt: HostRuntime) -> Result<(), Fail> {
    let alloc = rt.alloc();
    for calls in 0..=most_calls(rt, alloc) {
        for faults in faults_at(calls) {
            match pair_with(rt, alloc, faults)? {
                Some((acknowledged, stored)) => {
                    assert!(rt; is_known(alloc, acknowledged, stored)?, "after {calls}");
                }
                None => assert!(rt; false, "no such replies after {calls}"),
            }
        }
    }
    Ok(())
}
