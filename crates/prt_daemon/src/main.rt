//! The program `prt`, over the files, streams and sockets of this machine.
#![tactic(auto)]

mod calls;
mod machine;

use calls::HostCalls;
use machine::ThisMachine;
use prt_args::{report, words_fault};
use prt_host::run;
use prt_machine::{DatabaseFiles, Host, ServerNet, Streams};
use prt_program::ErrorKeeping;
use sqlite::{File, FileStore};
use std::alloc::Global;
use std::io::{Stderr, Stdin, Stdout};
use std::marker::PhantomData;
use std::process::ExitCode;
use std::rt::Clock;
use std::sync::Wait;
use std::thread::Threads;
use std::{env, io};

/// This machine, with its files and streams. `N` is the network, by which threads start too: only `main` has one that does.
struct ThisHost<N> {
    net: PhantomData<N>,
}

impl<N> Streams for ThisHost<N> {
    type Files = HostRuntime;

    type Input = ErrorKeeping<Stdin>;

    type Output = ErrorKeeping<Stdout>;

    type Errors = Stderr;
}

impl<N: ServerNet + Threads + Wait + Clock + Copy + Drop + Send + Sync> Host for ThisHost<N> {
    type Store = FileStore<File>;

    type Opener = ThisMachine<HostCalls>;

    type Net = N;
}

/// Runs the program over the databases of a machine, with these streams, and returns its exit status. It has no clause, as
/// `main` has none: so `main` isn't proved over all that `run` says of this machine.
fn run_over<H: Host>(
    databases: &mut DatabaseFiles<'_, H>,
    alloc: Global,
    words: &[String],
    input: &mut H::Input,
    output: &mut H::Output,
    errors: H::Errors,
) -> u8 {
    run(databases, alloc, words, input, output, errors)
}

/// Collects the words of the command line.
fn words_of(rt: &HostRuntime) -> io::Result<Vec<String>> {
    let words = env::args(rt)?;
    Ok(words.collect(rt.alloc())?)
}

/// Reads the words, and runs the program over the standard streams.
fn main(rt: HostRuntime) -> ExitCode {
    let alloc = rt.alloc();
    let words = match words_of(&rt) {
        Ok(words) => words,
        Err(error) => {
            let fault = words_fault(alloc, &error);
            return ExitCode::from(report(&fault, &mut rt.stdout(), &mut rt.stderr()));
        }
    };
    let mut databases: DatabaseFiles<'_, ThisHost<HostRuntime>> = DatabaseFiles {
        opener: ThisMachine {
            calls: HostCalls { host: rt },
        },
        files: &rt,
        rt,
    };
    let mut input = ErrorKeeping::new(rt.stdin());
    let mut output = ErrorKeeping::new(rt.stdout());
    let errors = rt.stderr();
    let status = run_over(
        &mut databases,
        alloc,
        &words,
        &mut input,
        &mut output,
        errors,
    );
    ExitCode::from(status)
}
