//! Runs of the public calls, for a sweep that refuses memory: `prt_faults WORD` makes those of one word.
//!
//! - `slow_looker`: a looker that stays behind while commands are accepted, and as many lookers as there are places.
//! - `grace_period`: a replay of the events on standard input.
//! - `session`: a session over a service, with the lines on standard input.
//! - `quiet`: the calls that take no memory, before and after a mark on standard output.
//!
//! The status is 0, or 1 if a call was refused that isn't made again; the refusal is then the last line.
#![tactic(auto)]

mod grace_period;
mod output;
mod quiet;
mod registries;
mod service;
mod session;
mod slow_looker;
mod versions;
mod words;

use output::{Streams, tell};
use prt_command::Refusal;
use prt_session::Reply;
use quiet::Databases;
use sqlite::{Alter, Connection};
use std::alloc::Global;
use std::io::{Stdin, Stdout};
use std::process::ExitCode;
use std::sync::Wait;
use std::time::Clock;
use std::{env, io};

/// Makes the calls of a word that has a publisher, over new databases.
fn run_over<S: Alter + Drop, H: Wait + Clock + Copy + Drop, T: Streams>(
    rt: H,
    alloc: Global,
    word: &str,
    databases: Databases<S>,
    input: &mut T::Input,
    output: &mut T::Output,
) -> Result<(), Refusal> {
    match word {
        "slow_looker" => slow_looker::run(rt, alloc, databases.served, output),
        "session" => session::run::<S, H, T>(rt, alloc, databases.served, input, output),
        "quiet" => quiet::run(rt, alloc, databases, output),
        _ => Err(Refusal::UnknownWord),
    }
}

/// Makes the calls of a word.
fn run<H: Wait + Clock + Copy + Drop, T: Streams>(
    rt: H,
    alloc: Global,
    word: &str,
    input: &mut T::Input,
    output: &mut T::Output,
) -> Result<(), Refusal> {
    if word == "grace_period" {
        return grace_period::replay(alloc, input, output);
    }
    let databases = Databases {
        published: Connection::open_in_memory(alloc)?,
        stored: Connection::open_in_memory(alloc)?,
        spare: Connection::open_in_memory(alloc)?,
        served: Connection::open_in_memory(alloc)?,
    };
    run_over::<_, H, T>(rt, alloc, word, databases, input, output)
}

/// Makes the calls of the program's word.
fn run_word<H: Wait + Clock + Copy + Drop, T: Streams>(
    rt: H,
    alloc: Global,
    words: io::Result<Vec<String>>,
    input: &mut T::Input,
    output: &mut T::Output,
) -> Result<(), Refusal> {
    let Ok(words) = words else {
        return Err(Refusal::NoMemory);
    };
    match words.get(1) {
        Some(word) => run::<H, T>(rt, alloc, word.as_str(), input, output),
        None => Err(Refusal::MissingValue),
    }
}

/// The standard streams.
struct Standard;

impl Streams for Standard {
    type Input = Stdin;

    type Output = Stdout;
}

fn main(rt: HostRuntime) -> ExitCode {
    let alloc = rt.alloc();
    let words: io::Result<Vec<String>> = env::args(&rt).and_then(|args| Ok(args.collect(alloc)?));
    match run_word::<_, Standard>(rt, alloc, words, &mut rt.stdin(), &mut rt.stdout()) {
        Ok(()) => ExitCode::SUCCESS,
        Err(reason) => {
            let _ = tell(&mut rt.stdout(), &Reply::Refused(reason));
            ExitCode::FAILURE
        }
    }
}
