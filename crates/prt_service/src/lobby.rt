//! Where commands wait for the next group.
ghost use Rattle.std.specs.Prelude.{◌≡◌, [], length};
ghost use Rattle.prt_service.specs.Lobby.{HasEntered};

use crate::ServiceBrand;
use crate::queued_command::QueuedCommand;
use std::alloc::Global;
use std::marker::Model;
use std::mem;
use std::time::Duration;

/// How many commands wait at most, and are submitted together.
const MOST_WAITING: usize = 64;

/// The next group pauses for a sixteenth of the time that the last one took.
const PAUSES_OF_GROUP: u32 = 16;

/// After a group that took fewer milliseconds, a pause would cost more than it gains.
const LEAST_WORTH: u128 = 2;

/// The longest pause, in milliseconds.
const LONGEST_PAUSE: u64 = 1;

/// The commands that wait, in the order in which they came. Contracts see it as their list.
#[derive(Drop)]
pub(crate) struct Lobby<J: ServiceBrand> {
    waiting: Vec<QueuedCommand<J>>,
    /// How many commands the last group had.
    answered: usize,
    /// For how long the next group waits at a time for clients that were answered with the last one.
    pause: Duration,
}

impl<J: ServiceBrand> Model for Lobby<J> {
    ghost use Rattle.std.specs.Prelude.{List};
    ghost use Rattle.prt_command.specs.declared.request.Command as requests;

    ghost Value = { List requests.Command };

    ghost view = { λ lobby. lobby.waiting.items };
}

/// How a command entered the lobby.
pub(crate) enum Entered {
    /// Nobody waited: the thread that brings it submits all that wait once the publisher is free.
    First,
    /// Others wait, of whom the first submits it too.
    Later,
    /// It was let go: there is no place, or no memory for one.
    Full,
}

impl<J: ServiceBrand> Lobby<J> {
    pub(crate) fn new(alloc: Global) -> Lobby<J>
        ensures { result ≡ [] }
    {
        Lobby {
            waiting: Vec::new(alloc),
            answered: 0,
            pause: Duration::ZERO,
        }
    }

    /// Lets a command wait, if there is room.
    pub(crate) fn enter(&mut self, one: QueuedCommand<J>) -> Entered
        ensures { HasEntered self.old one result self.new }
    {
        let before = self.waiting.len();
        if before >= MOST_WAITING || self.waiting.push(one).is_err() {
            return Entered::Full;
        }
        if before == 0 {
            Entered::First
        } else {
            Entered::Later
        }
    }

    /// Takes all that wait.
    pub(crate) fn take_all(&mut self, alloc: Global) -> Vec<QueuedCommand<J>>
        ensures all { result.items ≡ self.old }
        ensures none { self.new ≡ [] }
    {
        mem::replace(&mut self.waiting, Vec::new(alloc))
    }

    /// Returns how many wait.
    pub(crate) fn len(&self) -> usize
        ensures { result ≡ length self.now }
    {
        self.waiting.len()
    }

    /// Notes how many commands the last group had, and how long it took.
    pub(crate) fn note_group(&mut self, commands: usize, took: Duration)
        ensures { self.new ≡ self.old }
    {
        self.answered = commands;
        self.pause = pause_after(took);
    }

    /// Computes for how long the next group waits until it looks again. That is 0 if as many wait as were answered with the
    /// last one, or no more than the last time.
    pub(crate) fn pause_since(&self, before: usize) -> Duration {
        let waiting = self.waiting.len();
        if waiting <= before || waiting >= self.answered {
            return Duration::ZERO;
        }
        self.pause
    }
}

/// Computes the pause of a group after one that took this long: none on a quick disk.
fn pause_after(took: Duration) -> Duration {
    if took.as_millis() < LEAST_WORTH {
        return Duration::ZERO;
    }
    let part = took / PAUSES_OF_GROUP;
    part.min(Duration::from_millis(LONGEST_PAUSE))
}
