//! Commands that wait and are submitted together.
ghost use Rattle.std.specs.Prelude.{◌≡◌, ◌≤◌, ◌++◌, [], ◌∷◌, IfErr, IfOk, IfSome, None, false, length, true};
ghost use Rattle.prt_published.specs.Line.{line_state};
ghost use Rattle.prt_service.specs.Group.{AreSubmitted, HaveUnknownFate, IsPartOf, have_unknown_fate};
ghost use Rattle.prt_service.specs.Service.{AreAnswered};

use crate::ServiceBrand;
use crate::publisher_with_followers::PublisherWithFollowers;
use crate::queued_command::QueuedCommand;
use crate::submitted::Submitted;
use prt_command::{Command, Refusal};
use prt_grace::Domain;
use prt_publisher::ChangeSet;
use prt_version::Version;
use sqlite::Alter;
use std::alloc::Global;
use std::marker::Model;
use std::sync::Wait;

/// Commands that wait, for one transaction: each is accepted after those before it. Contracts see it as the set of them.
#[derive(Drop)]
pub(crate) struct Group<J: ServiceBrand> {
    waiting: Vec<QueuedCommand<J>>,
    set: ChangeSet,
}

impl<J: ServiceBrand> Model for Group<J> {
    ghost use Rattle.std.specs.Prelude.{◌≡◌};
    ghost use Rattle.prt_publisher.specs.ChangeSet.{Planned};

    ghost Value = { Planned };

    ghost view = { λ group. group.set };

    ghost invariant = { λ group. group.waiting.items ≡ group.set.commands };
}

impl<J: ServiceBrand> Group<J> {
    fn new(alloc: Global, published: &Version) -> Result<Group<J>, Refusal>
        ensures { IfOk result (λ group. group ≡ record { base = published.now; commands = [] }) }
    {
        match ChangeSet::new(published) {
            Ok(set) => Ok(Group {
                waiting: Vec::new(alloc),
                set,
            }),
            Err(reason) => Err(reason),
        }
    }

    /// Adds a command, and returns whether it did. It lets the command go if it is refused after those before it, or there
    /// is no memory for it.
    fn add(&mut self, one: QueuedCommand<J>) -> bool
        ensures added { result ≡ true → self.new ≡ record self.old { commands = self.old.commands ++ one ∷ [] } }
        ensures let_go { result ≡ false → self.new ≡ self.old }
    {
        if self.waiting.reserve(1).is_err() {
            return false;
        }
        if self.set.add(one.command()).is_err() {
            return false;
        }
        self.waiting.push_reserved(one);
        true
    }

    /// Adds each command that is accepted after those that were added before it, and lets the others go.
    fn add_accepted(&mut self, waiting: Vec<QueuedCommand<J>>)
        requires { self.old.commands ≡ [] }
        ensures base { self.new.base ≡ self.old.base }
        ensures part { IsPartOf self.new.commands waiting.items }
    {
        for one in waiting {
            let _added = self.add(one);
        }
    }

    /// Submits its commands together: they are published, or their fate is unknown. `None` if they were let go, and nothing
    /// has changed.
    fn submit<S: Alter + Drop, H: Wait>(
        self,
        publisher: &mut PublisherWithFollowers<S, J>,
        rt: &H,
        alloc: Global,
        domain: &Domain,
    ) -> Option<Submitted<J>>
        requires { self.base ≡ line_state publisher.old.line }
        ensures commands { IfSome result (λ submitted. submitted.waiting.items ≡ self.commands) }
        ensures submitted { IfSome result (λ submitted. AreSubmitted S.Store publisher.old self.commands submitted.became publisher.new) }
        ensures fate { IfSome result (λ submitted.
            IfErr submitted.became (λ reason. HaveUnknownFate S.Store publisher.old self.commands reason publisher.new)) }
        ensures answered { IfSome result (λ submitted. AreAnswered J.book J.base self.commands submitted.became) }
        ensures none { result ≡ None → publisher.new ≡ publisher.old }
    {
        let Group { waiting, set } = self;
        let Some(commands) = copy_some(alloc, set.commands()) else {
            return None;
        };
        match publisher.submit_set(rt, domain, set, commands.as_slice()) {
            Ok(last) => Some(Submitted {
                waiting,
                became: Ok(last),
            }),
            Err(reason) if have_unknown_fate(&reason) => Some(Submitted {
                waiting,
                became: Err(reason),
            }),
            Err(_) => None,
        }
    }
}

/// Copies commands. `None` if there are none, or if there is no memory for them.
fn copy_some(alloc: Global, commands: &[Command]) -> Option<Vec<Command>>
    ensures { IfSome result (λ copied. (copied.items ≡ commands.now) × (1 ≤ length commands.now)) }
{
    if commands.is_empty() {
        return None;
    }
    Vec::from_slice(alloc, commands).ok()
}

/// Checks whether commands that are refused for this may be stored.
fn have_unknown_fate(reason: &Refusal) -> bool
    ensures { result ≡ have_unknown_fate reason.now }
{
    matches!(reason, Refusal::StoreFailed(_) | Refusal::NotPublished)
}

/// Submits the commands that wait, in one transaction those that are accepted one after the other. The others are let go, as
/// are all if the publisher has no room or no memory for them together: a thread that waits for one submits it by
/// itself.
pub(crate) fn submit_group<S: Alter + Drop, J: ServiceBrand, H: Wait>(
    publisher: &mut PublisherWithFollowers<S, J>,
    rt: &H,
    alloc: Global,
    domain: &Domain,
    waiting: Vec<QueuedCommand<J>>,
) -> Option<Submitted<J>>
    ensures part { IfSome result (λ submitted. IsPartOf submitted.waiting.items waiting.items) }
    ensures submitted { IfSome result (λ submitted. AreSubmitted S.Store publisher.old submitted.waiting.items submitted.became publisher.new) }
    ensures answered { IfSome result (λ submitted. AreAnswered J.book J.base submitted.waiting.items submitted.became) }
    ensures none { result ≡ None → publisher.new ≡ publisher.old }
{
    if let [one] = waiting.as_slice() {
        let became = publisher.submit(rt, domain, one.command());
        return Some(Submitted { waiting, became });
    }
    let Ok(mut group) = Group::new(alloc, publisher.published()) else {
        return None;
    };
    group.add_accepted(waiting);
    group.submit(publisher, rt, alloc, domain)
}
