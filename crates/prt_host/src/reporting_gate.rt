//! What a server reports, counts and logs round its sessions.
use crate::counts::Counts;
use crate::log::log_line;
use crate::status::{Status, sizes_of, status_text};
use crate::telling::tell_shared;
use prt_command::Command;
use prt_machine::Measures;
use prt_program::{Refusal, cause_message};
use prt_serve::{Gate, Queued};
use prt_service::{Service, ServiceBrand};
use prt_session::Reply;
use prt_spelling::command_line;
use sqlite::Alter;
use std::alloc::{AllocError, Global};
use std::io::{self, Write};
use std::net::SocketAddr;
use std::rt::Clock;
use std::sync::atomic::{AtomicBool, Ordering};
use std::sync::{Mutex, Wait};
use std::time::Duration;

/// For how many seconds a failed acceptance is reported once.
const TELLING_PAUSE: u64 = 60;

/// Lets every line pass, and reports why a commit failed: once, since no command is taken after it. It reports why no
/// connection could be accepted, too, at most once a minute. It counts what becomes of commands and of sessions, logs
/// accepted commands if that is asked for, and makes the status. Its types are no `Host`'s: a gate is used by threads, for
/// which the prover takes no bound of an associated type.
#[derive(Drop)]
pub(crate) struct ReportingGate<
    'a,
    H: Wait + Clock,
    S: Alter + Drop,
    J: ServiceBrand,
    F: Measures,
    E: Write + Drop,
> {
    pub(crate) rt: &'a H,
    pub(crate) alloc: Global,
    pub(crate) service: &'a Service<S, J>,
    /// Where the system is asked for the sizes of the database's files.
    pub(crate) files: &'a F,
    /// The path of the database.
    pub(crate) path: &'a str,
    pub(crate) errors: &'a Mutex<E>,
    /// Whether accepted commands are logged.
    pub(crate) is_logged: bool,
    pub(crate) counts: Counts,
    /// Whether the failed commit was reported.
    pub(crate) is_failure_told: AtomicBool,
    /// When a failed acceptance was last reported, by the clock.
    pub(crate) accept_told: Mutex<Option<Duration>>,
}

impl<
    'a,
    H: Wait + Clock,
    S: Alter + Drop,
    J: ServiceBrand,
    F: Measures,
    E: Write + Drop,
> ReportingGate<'a, H, S, J, F, E> {
    /// Decides whether a failed acceptance is reported now, and notes that it is. Without a clock it is reported once.
    fn is_due(&self) -> bool {
        let now = self.rt.monotonic().unwrap_or(Duration::from_secs(0));
        let mut told = self.accept_told.lock(self.rt);
        let is_due = match *told {
            Some(last) => now.saturating_sub(last) >= Duration::from_secs(TELLING_PAUSE),
            None => true,
        };
        if is_due {
            *told = Some(now);
        }
        is_due
    }

    /// Reports why the commit failed, if that wasn't reported.
    fn tell_commit(&self) {
        // Each client of the transaction gets the refusal.
        if self.is_failure_told.swap(true, Ordering::SeqCst) {
            return;
        }
        let Some(error) = self.service.failure(self.rt) else {
            return;
        };
        let message = cause_message(self.alloc, &self.path, &error);
        tell_shared(self.rt, message, self.errors);
    }

    /// Logs an accepted command, with no lock of the service held.
    fn log(&self, number: u64, session: u64, client: &SocketAddr, line: &[u8]) {
        if self.is_logged {
            let message = log_line(self.alloc, number, session, client, line);
            tell_shared(self.rt, message, self.errors);
        }
    }

    /// Collects what the status is made of. Each lock is held for one copy, and none with another.
    fn collect(&self) -> Result<Status, AllocError> {
        Ok(Status {
            figures: self.service.figures(self.rt),
            failure: self.service.failure(self.rt),
            retention: self.service.retention(self.rt),
            counted: self.counts.copy(),
            sizes: sizes_of(self.files, self.alloc, self.path)?,
        })
    }
}

impl<'a, H: Wait + Clock, S: Alter + Drop, J: ServiceBrand, F: Measures, E: Write + Drop> Gate
    for ReportingGate<'a, H, S, J, F, E> {
    fn before(&self, _session: u64, _line: u64) {}

    fn after(&self, session: u64, client: &SocketAddr, _line: u64, text: &[u8], reply: &Reply) {
        match reply {
            Reply::Accepted(number) => {
                self.counts.accept();
                self.log(*number, session, client, text);
            }
            // A client that went, or was silent for too long, had no line refused.
            Reply::Refused(Refusal::ReadFault | Refusal::WriteFault) => {}
            Reply::Refused(reason) => {
                self.counts.refuse();
                if let Refusal::StoreFailed(_) = reason {
                    self.tell_commit();
                }
            }
            _ => {}
        }
    }

    fn made(&self, session: u64, client: &SocketAddr, number: u64, command: &Command) {
        self.counts.accept();
        if self.is_logged {
            if let Ok(line) = command_line(self.alloc, command) {
                self.log(number, session, client, &line);
            }
        }
    }

    fn begins(&self, _session: u64) {
        self.counts.begin();
    }

    fn ends(&self, _session: u64) {
        self.counts.end();
    }

    fn queued(&self, queued: Queued) {
        self.counts.queue(queued);
    }

    fn not_accepted(&self, error: &io::Error) {
        if self.is_due() {
            let message = cause_message(self.alloc, &"no connection can be accepted", error);
            tell_shared(self.rt, message, self.errors);
        }
    }

    fn status(&self, alloc: Global) -> Option<String> {
        let status = self.collect().ok()?;
        status_text(alloc, &status).ok()
    }
}
