//! Followers of what is published.
ghost use Rattle.std.specs.Prelude.{◌≡◌, ◌+◌, length};
ghost use Rattle.prt_published.specs.Line.{line_state};
ghost use Rattle.prt_service.specs.Follow.{IsNews};
ghost use Rattle.prt_version.specs.Accepted.{IsAccepted};

use crate::followers::FollowerNumber;
use crate::published_command::PublishedCommand;
use crate::{News, Service, ServiceBrand, Unfollowed};
use crossbeam_channel::{Receiver, RecvTimeoutError};
use prt_published::{Known, Told};
use sqlite::Alter;
use std::alloc::Global;
use std::marker::Model;
use std::sync::Wait;
use std::time::{Clock, Duration};

/// The end of a channel to which each command comes that is published from now on.
#[derive(Drop)]
pub(crate) struct Changes<J: ServiceBrand> {
    pub(crate) receiver: Receiver<PublishedCommand<J>, Global>,
    pub(crate) follower: FollowerNumber,
}

/// Follows what a service publishes: it knows a prefix of the published list, and learns one command after the other.
/// One thread has it. Contracts see it as the list that it knows.
///
/// Nobody waits for it, and it has no reader. One that is let go without `leave` keeps its channel until a command is
/// published.
#[derive(Drop)]
pub struct Follower<J: ServiceBrand> {
    told: Told,
    number: u64,
    changes: Changes<J>,
}

impl<J: ServiceBrand> Model for Follower<J> {
    ghost use Rattle.std.specs.Prelude.{◌≡◌, ◌+◌, length};
    ghost use Rattle.prt_published.specs.Line.{Line, line_state};

    ghost Value = { Line };

    ghost view = { λ follower. follower.told };

    ghost invariant = { λ follower. (follower.told.book ≡ J.book) × (follower.told.base ≡ J.base)
        × (follower.number ≡ follower.told.base.count + length follower.told.list) × (follower.number ≡ (line_state follower.told).count) };
}

impl<J: ServiceBrand> Follower<J> {
    /// Makes one that knows this list, which has this number.
    pub(crate) fn new(known: &Known, number: u64, changes: Changes<J>) -> Follower<J>
        requires of { (known.now.book ≡ J.book) × (known.now.base ≡ J.base) }
        requires accepted { IsAccepted known.now.base known.now.list }
        requires number { number ≡ (line_state known.now).count }
        ensures { result ≡ known.now }
    {
        Follower {
            told: Told::whole(known),
            number,
            changes,
        }
    }

    /// Returns the number of the last command that it knows; before the first, that of the state that was loaded.
    pub fn number(&self) -> u64
        ensures value { result ≡ self.now.base.count + length self.now.list }
        ensures count { result ≡ (line_state self.now).count }
    {
        self.number
    }

    /// Waits, at most for this time, for the command that is published after those that it knows, and knows it from then on.
    ///
    /// `Ended` if 1,000 commands waited for it and there was one more, or following has ended, once it has learned
    /// those that waited. `Quiet` and `Ended` leave it with what it knew. A clock that can't be read ends the wait.
    pub fn next_within<H: Wait + Clock>(&mut self, rt: &H, patience: Duration) -> News
        ensures { IsNews self.old result self.new }
    {
        let PublishedCommand {
            number,
            command,
            together,
            told,
            of: _,
        } = match self.changes.receiver.recv_timeout(rt, patience) {
            Ok(change) => change,
            Err(RecvTimeoutError::Timeout) => return News::Quiet,
            Err(RecvTimeoutError::Disconnected) => return News::Ended,
        };
        if number - 1 != self.number {
            return News::Ended;
        }
        // Recalls that of two lists of one front the shorter is a prefix of the longer.
        let _is_before = self.told.known().is_before(told.known());
        self.number = number;
        self.told = told;
        News::Command { command, together }
    }

    /// Ends its channel: the service that it is of reports nothing more to it. The result says that it left, with the
    /// list that it knew.
    pub fn leave<S: Alter + Drop, H: Wait>(self, rt: &H, service: &Service<S, J>) -> Unfollowed
        ensures { result ≡ self }
    {
        let Follower {
            told,
            number: _,
            changes,
        } = self;
        service.unfollow(rt, changes.follower, told)
    }
}
