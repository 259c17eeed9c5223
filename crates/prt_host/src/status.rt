//! The status of a server, as a text of lines `NAME VALUE`.
//!
//! A value that isn't known is `-`. The names, in this order:
//!
//! - `version`: of the program
//! - `number`: how many commands were ever accepted
//! - `rules`, `routes`, `tables`: how many the tables have after that command
//! - `sessions_active`, `sessions_waiting`: how many sessions are served, and how many connections wait for that
//! - `followers`: how many clients of the feed follow
//! - `versions_retired`: how many old versions are kept, since queries may still use them
//! - `oldest_held`: the lowest number that a query may still use, and the place, from 0, of the worker that answers it
//! - `commands_accepted`, `commands_refused`: how many commands were accepted, and how many lines refused, since the start
//! - `groups`, `group_commands`: in how many transactions these were stored, and how many commands those had
//! - `last_commit_unix_seconds`: when the last of them was
//! - `last_commit_milliseconds`: how long it took, check, sync and publication together, with three decimals
//! - `file_bytes`, `log_bytes`: the sizes of the database file and of its log
//! - `state`: `open`, or `closed` and why no command is taken

use crate::counts::Counted;
use prt_args::VERSION;
use prt_grace::Retention;
use prt_machine::Measures;
use prt_refusals::{Refusal, StoreCall};
use prt_service::{Figures, contents_of};
use sqlite::Error;
use std::alloc::{AllocError, Global};
use std::fmt;
use std::time::Duration;

/// What the status of a server is made of.
#[derive(Drop)]
pub(crate) struct Status {
    pub(crate) figures: Figures,
    /// The library's error of the commit that closed it, if one did.
    pub(crate) failure: Option<Error>,
    pub(crate) retention: Retention,
    pub(crate) counted: Counted,
    pub(crate) sizes: Sizes,
}

/// The sizes of the files of a database, in bytes; `None` where the system doesn't say.
#[derive(Clone, Copy)]
pub(crate) struct Sizes {
    pub(crate) file: Option<u64>,
    pub(crate) log: Option<u64>,
}

/// Asks the system for the sizes of the files of the database at a path.
///
/// # Errors
///
/// `AllocError`, if memory is refused.
pub(crate) fn sizes_of<F: Measures>(
    files: &F,
    alloc: Global,
    path: &str,
) -> Result<Sizes, AllocError> {
    let log = format!(in alloc; "{path}-wal")?;
    Ok(Sizes {
        file: files.size_at(path),
        log: files.size_at(&log),
    })
}

/// A value that may not be known.
#[derive(Drop)]
struct OrDash<T: Drop>(Option<T>);

impl<T: fmt::Display + Drop> fmt::Display for OrDash<T> {
    fn fmt<W: fmt::Write>(&self, f: &mut fmt::Formatter<W>) -> fmt::Result {
        match &self.0 {
            Some(value) => write!(f, "{value}"),
            None => f.write_str("-"),
        }
    }
}

/// A time in milliseconds, with three decimals.
#[derive(Clone, Copy)]
struct Milliseconds(Duration);

impl fmt::Display for Milliseconds {
    fn fmt<W: fmt::Write>(&self, f: &mut fmt::Formatter<W>) -> fmt::Result {
        let micros = self.0.as_micros();
        write!(f, "{}.{:03}", micros / 1000, micros % 1000)
    }
}

/// Says of what the tables consist, and by how many commands they came about.
fn tables_text(alloc: Global, figures: &Figures) -> Result<String, AllocError> {
    let contents = figures
        .version
        .as_ref()
        .and_then(|version| contents_of(version).ok());
    let routes = OrDash(contents.map(|contents| contents.routes));
    let tables = OrDash(contents.map(|contents| contents.tables));
    format!(in alloc;
        "number {}\nrules {}\nroutes {routes}\ntables {tables}\n",
        figures.number, figures.rules
    )
}

/// Says who is served, and what is kept for them.
fn clients_text(alloc: Global, status: &Status) -> Result<String, AllocError> {
    let (counted, retention) = (&status.counted, &status.retention);
    let lowest = match (retention.lowest, retention.holder) {
        (Some(number), Some(place)) => format!(in alloc; "{number} {place}")?,
        _ => String::from_str(alloc, "-")?,
    };
    format!(in alloc;
        "sessions_active {}\nsessions_waiting {}\nfollowers {}\nversions_retired {}\noldest_held {lowest}\n\
         commands_accepted {}\ncommands_refused {}\n",
        counted.active,
        counted.waiting,
        status.figures.followers,
        retention.retired,
        counted.accepted,
        counted.refused
    )
}

/// Says what was stored, and where.
fn stored_text(alloc: Global, status: &Status) -> Result<String, AllocError> {
    let tally = &status.figures.tally;
    let at = OrDash(
        tally
            .last
            .and_then(|commit| commit.at)
            .map(|at| at.as_secs()),
    );
    let took = OrDash(tally.last.map(|commit| Milliseconds(commit.took)));
    format!(in alloc;
        "groups {}\ngroup_commands {}\nlast_commit_unix_seconds {at}\nlast_commit_milliseconds {took}\n\
         file_bytes {}\nlog_bytes {}\n",
        tally.groups,
        tally.commands,
        OrDash(status.sizes.file),
        OrDash(status.sizes.log)
    )
}

/// Names a call of a commit to the store.
fn call_name(call: StoreCall) -> &'static str {
    match call {
        StoreCall::Begin => "begin",
        StoreCall::Write => "write",
        StoreCall::Count => "count",
        StoreCall::Commit => "commit",
    }
}

/// Says whether commands are taken, and if not why.
fn state_text(alloc: Global, status: &Status) -> Result<String, AllocError> {
    if status.figures.is_open {
        return String::from_str(alloc, "state open\n");
    }
    match (status.figures.tally.closed_by, &status.failure) {
        (Some(Refusal::StoreFailed(call)), Some(error)) => {
            format!(in alloc;
                "state closed StoreFailed in {}: {error}\n",
                call_name(call)
            )
        }
        (Some(Refusal::StoreFailed(call)), None) => {
            format!(in alloc; "state closed StoreFailed in {}\n", call_name(call))
        }
        (Some(reason), _) => format!(in alloc; "state closed {}\n", reason.name()),
        (None, _) => String::from_str(alloc, "state closed\n"),
    }
}

/// Makes the text of a status.
///
/// # Errors
///
/// `AllocError`, if memory is refused.
pub(crate) fn status_text(alloc: Global, status: &Status) -> Result<String, AllocError> {
    let version = VERSION.lines().next().unwrap_or("-");
    let tables = tables_text(alloc, &status.figures)?;
    let clients = clients_text(alloc, status)?;
    let stored = stored_text(alloc, status)?;
    let state = state_text(alloc, status)?;
    format!(in alloc; "version {version}\n{tables}{clients}{stored}{state}")
}
