//! What came of submissions, counted.
ghost use Rattle.std.specs.Prelude.{◌≡◌, ◌<◌, ◌+◌, None, Some};
ghost use Rattle.prt_service.specs.Tally.{counted_more};

use prt_command::Refusal;
use std::time::{Clock, Duration};

/// When a submission was acknowledged, and how long it took.
#[derive(Clone, Copy)]
pub struct CommitTime {
    /// When it was, since 1970 by the clock of the day; `None` if that can't be read.
    pub at: Option<Duration>,
    /// How long its check, its transaction and its publication took together; 0 if no clock can be read.
    pub took: Duration,
}

/// What came of the submissions since the service was made.
#[derive(Clone, Copy)]
pub struct Tally {
    /// How many were acknowledged: transactions, each of one command or more.
    pub groups: u64,
    /// How many commands those had.
    pub commands: u64,
    /// The last of them, if there was one.
    pub last: Option<CommitTime>,
    /// Why the publisher closed, if it did.
    pub closed_by: Option<Refusal>,
}

/// Checks whether the publisher closes with a submission that is refused for this.
fn is_closing(reason: Refusal) -> bool {
    matches!(reason, Refusal::StoreFailed(_) | Refusal::NotPublished)
}

impl Tally {
    /// Makes one of no submissions.
    pub(crate) fn new() -> Tally
        ensures { result ≡ record { groups = 0; commands = 0; last = None; closed_by = None } }
    {
        Tally {
            groups: 0,
            commands: 0,
            last: None,
            closed_by: None,
        }
    }

    /// Counts a submission that was acknowledged, by how many commands it had. A count stays at its greatest value.
    pub(crate) fn count(&mut self, commands: u64, time: CommitTime)
        ensures { self.new ≡ record {
          groups = counted_more self.old.groups 1;
          commands = counted_more self.old.commands commands;
          last =
              Some time;
          closed_by = self.old.closed_by;
        } }
    {
        self.groups = self.groups.saturating_add(1);
        self.commands = self.commands.saturating_add(commands);
        self.last = Some(time);
    }

    /// Keeps why a submission was refused, if the publisher closed with it.
    pub(crate) fn count_refusal(&mut self, reason: Refusal)
        ensures { (self.new.groups ≡ self.old.groups) × (self.new.commands ≡ self.old.commands) × (self.new.last ≡ self.old.last) }
    {
        if self.closed_by.is_none() && is_closing(reason) {
            self.closed_by = Some(reason);
        }
    }
}

/// Measures one submission.
#[derive(Clone, Copy)]
pub(crate) struct Stopwatch {
    /// When it began, by the clock that never goes back.
    began: Duration,
}

/// Reads the clock that never goes back; 0 if it can't be read.
fn now<H: Clock>(rt: &H) -> Duration {
    rt.monotonic().unwrap_or(Duration::ZERO)
}

impl Stopwatch {
    pub(crate) fn start<H: Clock>(rt: &H) -> Stopwatch {
        Stopwatch { began: now(rt) }
    }

    /// Says what was measured of a submission that has ended.
    pub(crate) fn stop<H: Clock>(self, rt: &H) -> CommitTime {
        CommitTime {
            at: rt.since_1970().ok(),
            took: now(rt).saturating_sub(self.began),
        }
    }
}
