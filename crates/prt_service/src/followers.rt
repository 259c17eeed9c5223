//! The followers to which each published command is reported.
ghost use Rattle.std.specs.Prelude.{◌≡◌, ◌-◌, ◌<◌, [], ◌∷◌, ◌++◌, Contains, MatchOption, length, take};
ghost use Rattle.prt_service.specs.Follow.{others};
ghost use Rattle.prt_service.specs.Service.{EndsWith, EndsWithAll};

use crate::ServiceBrand;
use crate::published_command::PublishedCommand;
use crossbeam_channel::Sender;
use prt_command::Command;
use prt_published::Told;
use prt_publisher::Receipt;
use std::alloc::Global;
use std::marker::Model;
use std::sync::Wait;

/// The number of a follower of a service, which no other has. Its follower alone has it, so nobody else ends its channel.
/// Contracts see it as the number.
#[derive(Drop)]
pub(crate) struct FollowerNumber {
    value: u64,
}

impl Model for FollowerNumber {
    ghost use Rattle.std.specs.Prelude.{ℕ};

    ghost Value = { ℕ };

    ghost view = { λ number. number.value };
}

/// Says that a follower left: no command is sent to its channel any more, and the channel is gone. [`Follower::leave`] alone
/// makes one. Contracts see it as the list that the follower knew.
///
/// [`Follower::leave`]: crate::Follower::leave
#[derive(Drop)]
pub struct Unfollowed {
    told: Told,
}

impl Model for Unfollowed {
    ghost use Rattle.prt_published.specs.Line.{Line};

    ghost Value = { Line };

    ghost view = { λ unfollowed. unfollowed.told };
}

/// Where commands are reported to one follower. Contracts see it as the follower's number.
#[derive(Drop)]
struct Recipient<J: ServiceBrand> {
    number: u64,
    sender: Sender<PublishedCommand<J>, Global>,
}

impl<J: ServiceBrand> Model for Recipient<J> {
    ghost use Rattle.std.specs.Prelude.{ℕ};

    ghost Value = { ℕ };

    ghost view = { λ recipient. recipient.number };
}

/// Where commands are reported to the followers of a service. Each has a channel of its own, and nobody waits for it.
/// Contracts see it as their numbers.
#[derive(Drop)]
pub(crate) struct Followers<J: ServiceBrand> {
    recipients: Vec<Recipient<J>>,
    /// The number of the next one: the others have smaller ones.
    next: u64,
    /// Whether there are to be none from now on.
    is_ended: bool,
}

impl<J: ServiceBrand> Model for Followers<J> {
    ghost use Rattle.std.specs.Prelude.{ℕ, ◌<◌, All, List};

    ghost Value = { List ℕ };

    ghost view = { λ followers. followers.recipients.items };

    ghost invariant = { λ followers. All (λ number. number < followers.next) followers.recipients.items };
}

impl<J: ServiceBrand> Followers<J> {
    pub(crate) fn new(alloc: Global) -> Followers<J>
        ensures { result ≡ [] }
    {
        Followers {
            recipients: Vec::new(alloc),
            next: 0,
            is_ended: false,
        }
    }

    /// Adds one, and returns its number. `None` if following has ended, or if there is no memory for it.
    pub(crate) fn add(
        &mut self,
        sender: Sender<PublishedCommand<J>, Global>,
    ) -> Option<FollowerNumber>
        ensures { MatchOption result (self.new ≡ self.old) (λ number. (self.new ≡ self.old ++ number ∷ []) × (Contains self.old number → ⊥)) }
    {
        if self.is_ended {
            return None;
        }
        let number = self.next;
        let next = number.checked_add(1)?;
        self.recipients.push(Recipient { number, sender }).ok()?;
        self.next = next;
        Some(FollowerNumber { value: number })
    }

    /// Lets one go that has left, and that knew this list. It may have been let go before.
    pub(crate) fn remove(&mut self, number: FollowerNumber, told: Told) -> Unfollowed
        ensures left { self.new ≡ others number self.old }
        ensures known { result ≡ told }
    {
        self.recipients.retain(|one| one.number != number.value);
        Unfollowed { told }
    }

    /// Returns how many there are.
    pub(crate) fn len(&self) -> usize
        ensures { result ≡ length self.now }
    {
        self.recipients.len()
    }

    /// Lets all of them go, and takes none from now on.
    pub(crate) fn end(&mut self)
        ensures { self.new ≡ [] }
    {
        self.recipients.clear();
        self.is_ended = true;
    }

    /// Reports a command to each, and lets those go that have no room for it, or have left.
    fn tell<H: Wait>(&mut self, rt: &H, change: &PublishedCommand<J>) {
        self.recipients
            .retain(|one| one.sender.try_send(rt, change.again()).is_ok());
    }

    /// Reports the commands of a receipt to each, one after the other.
    pub(crate) fn tell_all<H: Wait>(&mut self, rt: &H, last: &Receipt, commands: &[Command])
        requires of { (last.now.book ≡ J.book) × (last.now.base ≡ J.base) }
        requires ends { EndsWithAll last.now.list commands.now }
    {
        let mut later = commands.len();
        let mut together = commands.len() as u64;
        for command in commands {
            if self.recipients.is_empty() {
                return;
            }
            later -= 1;
            self.tell(
                rt,
                &PublishedCommand::new(last, later as u64, command, together),
            );
            together = 0;
        }
    }
}
