//! What lies under the lock of a service.
ghost use Rattle.std.specs.Prelude.{◌≡◌, ◌≤◌, ◌↔◌, [], All, IfErr, IfOk, IfSome, IsTrue, OnOk, false, length, true};
ghost use Rattle.std.specs.Arc.{arc_value};
ghost use Rattle.sqlite.specs.Held.{state};
ghost use Rattle.sqlite.specs.State.{HasCleanDisk};
ghost use Rattle.prt_command.specs.Storable.{IsStorable};
ghost use Rattle.prt_published.specs.Line.{grown, grown_by, line_state};
ghost use Rattle.prt_publisher.specs.Exits.{AreNotAcknowledged, HasCommitted, HaveCommitted, IsNotAcknowledged, Spares, Takes, TakesAll};
ghost use Rattle.prt_publisher.specs.Standing.{IsQuiet, Stands};
ghost use Rattle.prt_publisher.specs.declared.phase.Phase.TheVariants.{Ready};
ghost use Rattle.prt_service.specs.Group.{AreNotMade};
ghost use Rattle.prt_service.specs.Named.{IsNamed};
ghost use Rattle.prt_service.specs.Service.{EndsWith, EndsWithAll, IsAfter, IsFollowRefusal, IsServiceRefusal, IsWhyNotMade};
ghost use Rattle.prt_version.specs.Accepted.{IsAccepted};

use crate::followers::{FollowerNumber, Followers};
use crate::published_command::PublishedCommand;
use crate::submit_error::SubmitError;
use crate::tally::{CommitTime, Tally};
use crate::{Released, ServiceBrand, Unfollowed};
use crossbeam_channel::Sender;
use prt_command::{Command, Refusal};
use prt_grace::Domain;
use prt_published::{Known, Told};
use prt_publisher::{ChangeSet, Phase, Publisher, Receipt};
use prt_version::Version;
use sqlite::{Alter, Error};
use std::alloc::Global;
use std::marker::{Model, PhantomData};
use std::slice;
use std::sync::{Arc, Wait};

/// A publisher of the named front with no command under way, its followers, and what came of its submissions.
#[derive(Drop)]
pub(crate) struct PublisherWithFollowers<S: Alter + Drop, J: ServiceBrand> {
    publisher: Publisher<S>,
    followers: Followers<J>,
    tally: Tally,
    of: PhantomData<J>,
}

impl<S: Alter + Drop, J: ServiceBrand> Model for PublisherWithFollowers<S, J> {
    ghost use Rattle.sqlite.specs.Held.{Held, held_code};
    ghost use Rattle.prt_publisher.specs.Standing.{IsQuiet, Standing, standing_code};
    ghost use Rattle.prt_service.specs.Group.{AreNotMade};
    ghost use Rattle.prt_service.specs.Named.{IsNamed};

    ghost Value = { Standing (Held S) };

    ghost coded = { standing_code (held_code S.code) };

    ghost view = { λ q. q.publisher };

    ghost invariant = { λ q. IsQuiet q.publisher.phase × IsNamed J.book J.base J.ours_first q.publisher };
}

impl<S: Alter + Drop, J: ServiceBrand> PublisherWithFollowers<S, J> {
    pub(crate) fn new(alloc: Global, publisher: Publisher<S>) -> PublisherWithFollowers<S, J>
        requires quiet { IsQuiet publisher.phase }
        requires of { IsNamed J.book J.base J.ours_first publisher }
        ensures { result ≡ publisher }
    {
        PublisherWithFollowers {
            publisher,
            followers: Followers::new(alloc),
            tally: Tally::new(),
            of: PhantomData,
        }
    }

    /// Prepares, commits and publishes a command, and reports it to the followers. The published list is then the one
    /// before with this command, and the receipt is of it.
    ///
    /// # Errors
    ///
    /// Those of `Publisher::submit`, with what each leaves: the published list is the one before.
    pub(crate) fn submit<H: Wait>(
        &mut self,
        rt: &H,
        domain: &Domain,
        command: &Command,
    ) -> Result<Receipt, Refusal>
        requires { IsStorable command.now }
        ensures of { IfOk result (λ receipt. (receipt.book ≡ J.book) × (receipt.base ≡ J.base)) }
        ensures last { IfOk result (λ receipt. EndsWith receipt.list command.now) }
        ensures reason { IfErr result IsServiceRefusal }
        ensures quiet { IsQuiet self.new.phase }
        ensures ok { IfOk result (λ receipt.
            (receipt ≡ grown self.old.line command.now)
            × (self.new ≡ record self.old { phase = Ready; line = grown self.old.line command.now; commands = []; tables = self.new.tables })) }
        ensures took { OnOk result (Takes self.old command.now) }
        ensures err { IfErr result (λ reason. IsNotAcknowledged S.Store self.old command.now reason self.new) }
        ensures clean { HasCleanDisk (state S.Store self.new.tables) → HasCleanDisk (state S.Store self.old.tables) }
        ensures others { Spares S.Store self.old self.new }
        ensures stands { Stands S.Store self.new }
        ensures ran { HasCleanDisk (state S.Store self.new.tables) → OnOk result (HasCommitted S.Store self.old command.now self.new.tables) }
    {
        let receipt = match self.publisher.submit(rt, domain, command) {
            Ok(receipt) => receipt,
            Err(reason) => return Err(reason),
        };
        self.followers
            .tell_all(rt, &receipt, slice::from_ref(command));
        Ok(receipt)
    }

    /// Prepares, commits and publishes commands together, and reports them to the followers. The published list is then
    /// the one before with all of them, in their order, and the receipt is of it.
    ///
    /// # Errors
    ///
    /// Those of `Publisher::submit_all`, with what each leaves: the published list is the one before.
    pub(crate) fn submit_all<H: Wait>(
        &mut self,
        rt: &H,
        domain: &Domain,
        commands: &[Command],
    ) -> Result<Receipt, Refusal>
        requires some { 1 ≤ length commands.now }
        requires storable { All IsStorable commands.now }
        ensures of { IfOk result (λ receipt. (receipt.book ≡ J.book) × (receipt.base ≡ J.base)) }
        ensures last { IfOk result (λ receipt. EndsWithAll receipt.list commands.now) }
        ensures reason { IfErr result IsServiceRefusal }
        ensures quiet { IsQuiet self.new.phase }
        ensures ok { IfOk result (λ receipt.
            (receipt ≡ grown_by self.old.line commands.now)
            × (self.new ≡ record self.old { phase = Ready; line = grown_by self.old.line commands.now; commands = []; tables = self.new.tables })) }
        ensures took { OnOk result (TakesAll self.old commands.now) }
        ensures err { IfErr result (λ reason. AreNotAcknowledged S.Store self.old commands.now reason self.new) }
        ensures clean { HasCleanDisk (state S.Store self.new.tables) → HasCleanDisk (state S.Store self.old.tables) }
        ensures others { Spares S.Store self.old self.new }
        ensures stands { Stands S.Store self.new }
        ensures ran { HasCleanDisk (state S.Store self.new.tables) → OnOk result (HaveCommitted S.Store self.old commands.now self.new.tables) }
    {
        let last = match self.publisher.submit_all(rt, domain, commands) {
            Ok(last) => last,
            Err(reason) => return Err(reason),
        };
        self.followers.tell_all(rt, &last, commands);
        Ok(last)
    }

    /// Commits and publishes a set that is of the published version, and reports its commands to the followers. The
    /// published list is then the one before with all of them, in their order, and the receipt is of it.
    ///
    /// # Errors
    ///
    /// Those of `Publisher::submit_set`, with what each leaves: the published list is the one before.
    pub(crate) fn submit_set<H: Wait>(
        &mut self,
        rt: &H,
        domain: &Domain,
        set: ChangeSet,
        commands: &[Command],
    ) -> Result<Receipt, Refusal>
        requires some { 1 ≤ length commands.now }
        requires same { commands.now ≡ set.commands }
        requires base { set.base ≡ line_state self.old.line }
        ensures of { IfOk result (λ receipt. (receipt.book ≡ J.book) × (receipt.base ≡ J.base)) }
        ensures last { IfOk result (λ receipt. EndsWithAll receipt.list commands.now) }
        ensures reason { IfErr result IsServiceRefusal }
        ensures quiet { IsQuiet self.new.phase }
        ensures ok { IfOk result (λ receipt.
            (receipt ≡ grown_by self.old.line commands.now)
            × (self.new ≡ record self.old { phase = Ready; line = grown_by self.old.line commands.now; commands = []; tables = self.new.tables })) }
        ensures took { OnOk result (TakesAll self.old commands.now) }
        ensures err { IfErr result (λ reason. AreNotAcknowledged S.Store self.old commands.now reason self.new) }
    {
        let last = match self.publisher.submit_set(rt, domain, set) {
            Ok(last) => last,
            Err(reason) => return Err(reason),
        };
        self.followers.tell_all(rt, &last, commands);
        Ok(last)
    }

    /// The same, if the published version has the expected number, where one is given.
    ///
    /// # Errors
    ///
    /// `Refused`, as of `submit_all`. `Moved` if the version has another number, which it returns: nothing has changed.
    pub(crate) fn submit_all_at<H: Wait>(
        &mut self,
        rt: &H,
        domain: &Domain,
        expected: Option<u64>,
        commands: &[Command],
    ) -> Result<Receipt, SubmitError>
        requires some { 1 ≤ length commands.now }
        requires storable { All IsStorable commands.now }
        ensures of { IfOk result (λ receipt. (receipt.book ≡ J.book) × (receipt.base ≡ J.base)) }
        ensures last { IfOk result (λ receipt. EndsWithAll receipt.list commands.now) }
        ensures after { IfOk result (λ receipt. IfSome expected (λ number. IsAfter number commands.now receipt)) }
        ensures reason { IfErr result (IsWhyNotMade expected) }
        ensures quiet { IsQuiet self.new.phase }
        ensures ok { IfOk result (λ receipt.
            (receipt ≡ grown_by self.old.line commands.now)
            × (self.new ≡ record self.old { phase = Ready; line = grown_by self.old.line commands.now; commands = []; tables = self.new.tables })) }
        ensures took { OnOk result (TakesAll self.old commands.now) }
        ensures met { OnOk result (IfSome expected (λ number. number ≡ (line_state self.old.line).count)) }
        ensures err { IfErr result (λ why. AreNotMade S.Store self.old commands.now why self.new) }
    {
        let number = self.publisher.published().number();
        if is_moved(expected, number) {
            return Err(SubmitError::Moved(number));
        }
        match self.submit_all(rt, domain, commands) {
            Ok(receipt) => {
                // Recalls what a receipt's number is.
                let _last = receipt.number();
                Ok(receipt)
            }
            Err(reason) => Err(SubmitError::Refused(reason)),
        }
    }

    /// Returns the version that was published last.
    pub(crate) fn published(&self) -> &Version
        ensures { result.now ≡ line_state self.now.line }
    {
        self.publisher.published()
    }

    /// Shares the version that was published last, and its list.
    ///
    /// # Errors
    ///
    /// `NotFetched` if the version has as many owners as can be counted.
    pub(crate) fn share(&self) -> Result<(Arc<Version>, Known), Refusal>
        ensures version { IfOk result (λ shared. arc_value shared.0 ≡ line_state self.now.line) }
        ensures list { IfOk result (λ shared. shared.1 ≡ self.now.line) }
        ensures of { IfOk result (λ shared. (shared.1.book ≡ J.book) × (shared.1.base ≡ J.base)) }
        ensures accepted { IfOk result (λ shared. IsAccepted shared.1.base shared.1.list) }
        ensures reason { IfErr result IsFollowRefusal }
    {
        self.publisher.share()
    }

    /// Adds a follower, and returns its number. `None` if following has ended, or if there is no memory for it.
    pub(crate) fn add_follower(
        &mut self,
        sender: Sender<PublishedCommand<J>, Global>,
    ) -> Option<FollowerNumber>
        ensures { self.new ≡ self.old }
    {
        self.followers.add(sender)
    }

    /// Lets a follower go that has left, and that knew this list.
    pub(crate) fn remove_follower(&mut self, number: FollowerNumber, told: Told) -> Unfollowed
        ensures same { self.new ≡ self.old }
        ensures known { result ≡ told }
    {
        self.followers.remove(number, told)
    }

    /// Lets all followers go, and takes none from now on.
    pub(crate) fn end_following(&mut self)
        ensures { self.new ≡ self.old }
    {
        self.followers.end();
    }

    /// Counts commands that were submitted together and acknowledged.
    pub(crate) fn count(&mut self, commands: u64, time: CommitTime)
        ensures { self.new ≡ self.old }
    {
        self.tally.count(commands, time);
    }

    /// Keeps why a submission was refused, if it closed with it.
    pub(crate) fn count_refusal(&mut self, reason: Refusal)
        ensures { self.new ≡ self.old }
    {
        self.tally.count_refusal(reason);
    }

    /// Returns what came of the submissions so far.
    pub(crate) fn tally(&self) -> Tally {
        self.tally
    }

    /// Returns whether it takes commands.
    pub(crate) fn is_open(&self) -> bool
        ensures { IsTrue result ↔ (self.now.phase ≡ Ready) }
    {
        matches!(self.publisher.phase(), Phase::Ready)
    }

    /// Returns how many followers there are.
    pub(crate) fn followers(&self) -> usize {
        self.followers.len()
    }

    /// Returns the library's error of the commit that closed it, if one did.
    pub(crate) fn failure(&self) -> Option<Error> {
        self.publisher.failure()
    }

    /// Returns the connection, with its tables as they are, and the published list. It waits for nobody, as
    /// `Publisher::release`.
    pub(crate) fn release(self) -> Released<S>
        ensures tables { result.conn ≡ self.tables }
        ensures published { result.published ≡ self.line }
        ensures quiet { IsQuiet self.phase }
        ensures of { IsNamed J.book J.base J.ours_first self }
        ensures stands { Stands S.Store self }
    {
        let published = self.publisher.known();
        Released {
            conn: self.publisher.release(),
            published,
        }
    }

    /// Ends its front, as `Publisher::end`, and returns the same.
    pub(crate) fn end<H: Wait>(self, rt: &H) -> Released<S>
        ensures tables { result.conn ≡ self.tables }
        ensures published { result.published ≡ self.line }
        ensures quiet { IsQuiet self.phase }
        ensures of { IsNamed J.book J.base J.ours_first self }
        ensures stands { Stands S.Store self }
    {
        let published = self.publisher.known();
        Released {
            conn: self.publisher.end(rt),
            published,
        }
    }
}

/// Checks whether a number was expected, and this is another one.
fn is_moved(expected: Option<u64>, number: u64) -> bool
    ensures moved { result ≡ true → IsWhyNotMade expected (SubmitError.Moved number) }
    ensures met { result ≡ false → IfSome expected (λ other. other ≡ number) }
{
    match expected {
        Some(other) => other != number,
        None => false,
    }
}
