//! A publisher for many threads.
ghost use Rattle.std.specs.Prelude.{◌≡◌, ◌≤◌, All, None, IfErr, IfOk, IfSome, length};
ghost use Rattle.std.specs.Arc.{arc_value};
ghost use Rattle.prt_command.specs.Storable.{IsStorable};
ghost use Rattle.prt_published.specs.Line.{line_state};
ghost use Rattle.prt_publisher.specs.Standing.{IsQuiet};
ghost use Rattle.prt_service.specs.Named.{IsNamed, IsReleased};
ghost use Rattle.prt_service.specs.Service.{EndsWith, EndsWithAll, IsAfter, IsAnswer, IsFollowRefusal, IsServiceRefusal, IsWhyNotMade};

use crate::figures::{Figures, figures_of};
use crate::follower::Changes;
use crate::followers::FollowerNumber;
use crate::group::submit_group;
use crate::lobby::{Entered, Lobby};
use crate::publisher_with_followers::PublisherWithFollowers;
use crate::queued_command::QueuedCommand;
use crate::spare::{Returned, SpareReaders};
use crate::submit_error::SubmitError;
use crate::tally::{CommitTime, Stopwatch};
use crate::{Follower, Looker, Released, ServiceBrand, Unfollowed};
use crossbeam_channel::bounded;
use prt_command::{Command, Refusal};
use prt_grace::{Domain, Retention};
use prt_published::{FrontReader, Told};
use prt_publisher::{Publisher, Receipt, Seats};
use prt_version::Version;
use sqlite::{Alter, Error};
use std::alloc::Global;
use std::sync::{Arc, Mutex, Wait};
use std::thread;
use std::time::{Clock, Duration};

/// How many commands may wait for a follower.
const MOST_UNTOLD: usize = 1000;

/// For how many milliseconds a command waits for room until it is tried again.
const PAUSE: u64 = 5;

/// How often a command waits for room: for a second in all.
const MOST_PAUSES: u32 = 200;

/// How often a group waits at most for clients that were answered with the last one.
const MOST_WAITS: u32 = 4;

/// A publisher, its domain and the readers that no looker has, for any number of threads.
///
/// The publisher lies under a lock: whenever nobody holds it, the publisher is ready, and the published state is stored,
/// or it is closed. The domain has its own lock, which a submission takes under the publisher's. The spare readers lie
/// under a third, held with no other.
///
/// While the publisher is held, up to 64 commands wait in a lobby, under a lock of its own. The thread that came first
/// submits in one transaction those that are accepted one after the other, and each thread gets the receipt of its own
/// command. A thread whose command was left out submits it by itself.
///
/// End it by `end`: the drop of its front frees no memory.
#[derive(Drop)]
pub struct Service<S: Alter + Drop, J: ServiceBrand> {
    publisher: Mutex<PublisherWithFollowers<S, J>>,
    lobby: Mutex<Lobby<J>>,
    domain: Domain,
    spare: Mutex<SpareReaders<J>>,
    alloc: Global,
}

impl<S: Alter + Drop, J: ServiceBrand> Service<S, J> {
    /// Shares a publisher of the named front, which is ready or closed, its readers, and its domain. Takes no memory.
    pub fn new(publisher: Publisher<S>, seats: Seats, domain: Domain) -> Service<S, J>
        requires quiet { IsQuiet publisher.phase }
        requires of { IsNamed J.book J.base J.ours_first publisher }
        requires seats { (seats.book ≡ J.book) × (seats.base ≡ J.base) }
    {
        let alloc = *publisher.published().shared_rules().allocator();
        Service {
            publisher: Mutex::new(PublisherWithFollowers::new(alloc, publisher)),
            lobby: Mutex::new(Lobby::new(alloc)),
            domain,
            spare: Mutex::new(SpareReaders::new(seats)),
            alloc,
        }
    }

    /// Has a command stored, published and noted, together with those of other threads that wait, or by itself. The
    /// receipt's list ends with the command.
    ///
    /// While lookers may hold 64 retired versions, it tries again each 5 ms, for a second at most. In between it holds
    /// nothing, and the commands of others may come first: what the last try finds is what counts.
    ///
    /// # Errors
    ///
    /// `Exists`, `NoSuch`, `Full` or `CountFull`, as the command is refused; `Busy` (lookers may hold 64 retired versions
    /// after a second still) and `NoMemory`: nothing has changed. `StoreFailed` and `NotPublished`, with what
    /// `Publisher::submit` leaves: from then on each command is refused with `Closed`, and lookers go on.
    pub fn submit<H: Wait + Clock>(&self, rt: &H, command: &Command) -> Result<Receipt, Refusal>
        requires { IsStorable command.now }
        ensures of { IfOk result (λ receipt. (receipt.book ≡ J.book) × (receipt.base ≡ J.base)) }
        ensures last { IfOk result (λ receipt. EndsWith receipt.list command.now) }
        ensures reason { IfErr result IsServiceRefusal }
    {
        for _ in 0..MOST_PAUSES {
            let became = self.try_submit(rt, command);
            if !is_busy(&became) {
                return became;
            }
            thread::sleep(rt, Duration::from_millis(PAUSE));
        }
        self.try_submit(rt, command)
    }

    /// Submits a command as `submit` does, without a pause: `Busy` comes at once.
    fn try_submit<H: Wait + Clock>(&self, rt: &H, command: &Command) -> Result<Receipt, Refusal>
        requires { IsStorable command.now }
        ensures of { IfOk result (λ receipt. (receipt.book ≡ J.book) × (receipt.base ≡ J.base)) }
        ensures last { IfOk result (λ receipt. EndsWith receipt.list command.now) }
        ensures reason { IfErr result IsServiceRefusal }
    {
        match self.submit_in_group(rt, command) {
            Some(result) => result,
            None => self.submit_alone(rt, command),
        }
    }

    /// Has a command submitted by itself, and counts it.
    fn submit_alone<H: Wait + Clock>(&self, rt: &H, command: &Command) -> Result<Receipt, Refusal>
        requires { IsStorable command.now }
        ensures of { IfOk result (λ receipt. (receipt.book ≡ J.book) × (receipt.base ≡ J.base)) }
        ensures last { IfOk result (λ receipt. EndsWith receipt.list command.now) }
        ensures reason { IfErr result IsServiceRefusal }
    {
        let mut publisher = self.publisher.lock(rt);
        let watch = Stopwatch::start(rt);
        let became = publisher.submit(rt, &self.domain, command);
        count_outcome(&mut publisher, 1, &became, watch.stop(rt));
        became
    }

    /// Has a command submitted together with those that wait. `None` if it can't wait, or was left out of its group.
    fn submit_in_group<H: Wait + Clock>(
        &self,
        rt: &H,
        command: &Command,
    ) -> Option<Result<Receipt, Refusal>>
        requires { IsStorable command.now }
        ensures { IfSome result (IsAnswer J.book J.base command.now) }
    {
        let Ok((reply_to, replies)) = bounded(self.alloc, 1) else {
            return None;
        };
        let entered = self
            .lobby
            .lock(rt)
            .enter(QueuedCommand::new(command, reply_to));
        match entered {
            Entered::First => self.lead_group(rt),
            Entered::Later => {}
            Entered::Full => return None,
        }
        match replies.recv(rt) {
            Ok(answer) => answer.for_command(command),
            Err(_) => None,
        }
    }

    /// Waits for clients that were answered with the last group, as long as more of them come back. Without it half of
    /// them would be on their way while the other half is stored, and each sync would serve half as many.
    fn await_others<H: Wait + Clock>(&self, rt: &H) {
        let mut before = 0;
        for _ in 0..MOST_WAITS {
            let pause = self.lobby.lock(rt).pause_since(before);
            if pause.is_zero() {
                return;
            }
            before = self.lobby.lock(rt).len();
            thread::sleep(rt, pause);
        }
    }

    /// Submits the commands that wait once the publisher is free, and answers those that were submitted.
    fn lead_group<H: Wait + Clock>(&self, rt: &H) {
        let mut publisher = self.publisher.lock(rt);
        self.await_others(rt);
        let waiting = self.lobby.lock(rt).take_all(self.alloc);
        let watch = Stopwatch::start(rt);
        let submitted = submit_group(&mut publisher, rt, self.alloc, &self.domain, waiting);
        let time = watch.stop(rt);
        if let Some(submitted) = submitted {
            let commands = submitted.waiting.len();
            count_outcome(&mut publisher, commands as u64, &submitted.became, time);
            self.lobby.lock(rt).note_group(commands, time.took);
            // Sends the answers under the lock: those that are answered then come back in time for the next group.
            submitted.answer(rt);
        }
        drop(publisher);
    }

    /// Has commands stored, published and noted together: all of them or none. The receipt's list ends with them, and its
    /// number is that of the last. It waits for room as `submit` does.
    ///
    /// # Errors
    ///
    /// As of `submit`: the first command is refused that is refused in the state after those before it. `NoMemory` may
    /// come at any command up to that.
    pub fn submit_all<H: Wait + Clock>(
        &self,
        rt: &H,
        commands: &[Command],
    ) -> Result<Receipt, Refusal>
        requires some { 1 ≤ length commands.now }
        requires storable { All IsStorable commands.now }
        ensures of { IfOk result (λ receipt. (receipt.book ≡ J.book) × (receipt.base ≡ J.base)) }
        ensures last { IfOk result (λ receipt. EndsWithAll receipt.list commands.now) }
        ensures reason { IfErr result IsServiceRefusal }
    {
        match self.submit_all_at(rt, None, commands) {
            Ok(receipt) => Ok(receipt),
            Err(SubmitError::Refused(reason)) => Err(reason),
            Err(SubmitError::Moved(_)) => unreachable!(),
        }
    }

    /// Submits commands as `submit_all` does, if the published version has the expected number, or none is expected. The
    /// number is read under the lock under which the commands are submitted, again at each try.
    ///
    /// # Errors
    ///
    /// `Refused`, as of `submit_all`. `Moved` if the version has another number, which it returns: nothing has changed.
    pub fn submit_all_at<H: Wait + Clock>(
        &self,
        rt: &H,
        expected: Option<u64>,
        commands: &[Command],
    ) -> Result<Receipt, SubmitError>
        requires some { 1 ≤ length commands.now }
        requires storable { All IsStorable commands.now }
        ensures of { IfOk result (λ receipt. (receipt.book ≡ J.book) × (receipt.base ≡ J.base)) }
        ensures last { IfOk result (λ receipt. EndsWithAll receipt.list commands.now) }
        ensures after { IfOk result (λ receipt. IfSome expected (λ number. IsAfter number commands.now receipt)) }
        ensures reason { IfErr result (IsWhyNotMade expected) }
    {
        for _ in 0..MOST_PAUSES {
            let became = self.try_submit_all_at(rt, expected, commands);
            if !is_busy_at(&became) {
                return became;
            }
            thread::sleep(rt, Duration::from_millis(PAUSE));
        }
        self.try_submit_all_at(rt, expected, commands)
    }

    /// Submits commands as `submit_all_at` does, without a pause: `Busy` comes at once.
    fn try_submit_all_at<H: Wait + Clock>(
        &self,
        rt: &H,
        expected: Option<u64>,
        commands: &[Command],
    ) -> Result<Receipt, SubmitError>
        requires some { 1 ≤ length commands.now }
        requires storable { All IsStorable commands.now }
        ensures of { IfOk result (λ receipt. (receipt.book ≡ J.book) × (receipt.base ≡ J.base)) }
        ensures last { IfOk result (λ receipt. EndsWithAll receipt.list commands.now) }
        ensures after { IfOk result (λ receipt. IfSome expected (λ number. IsAfter number commands.now receipt)) }
        ensures reason { IfErr result (IsWhyNotMade expected) }
    {
        let mut publisher = self.publisher.lock(rt);
        let watch = Stopwatch::start(rt);
        let became = publisher.submit_all_at(rt, &self.domain, expected, commands);
        count_outcome_at(
            &mut publisher,
            commands.len() as u64,
            &became,
            watch.stop(rt),
        );
        became
    }

    /// Returns the number of the published version.
    pub fn number<H: Wait>(&self, rt: &H) -> u64 {
        self.publisher.lock(rt).published().number()
    }

    /// Makes a looker, offline, with a place of the domain and one of the spare readers.
    ///
    /// # Errors
    ///
    /// `Full` if 64 lookers have places, or no reader is left. The service is then as it was.
    pub fn looker<H: Wait>(&self, rt: &H) -> Result<Looker, Refusal>
        ensures of { IfOk result (λ looker. (looker.known.book ≡ J.book) × (looker.known.base ≡ J.base)) }
        ensures offline { IfOk result (λ looker. (looker.held ≡ None) × (looker.announced ≡ None)) }
        ensures reason { IfErr result (λ reason. reason ≡ Refusal.Full) }
    {
        let Some(place) = self.domain.join(rt) else {
            return Err(Refusal::Full);
        };
        // Lets the lock go before the domain's is taken.
        let lent = self.spare.lock(rt).lend();
        match lent {
            Some(reader) => Ok(Looker::new(reader, place)),
            None => {
                self.domain.part(rt, place);
                Err(Refusal::Full)
            }
        }
    }

    /// Makes a follower, which knows the published list, and returns the published version. Each command that is
    /// published from then on comes to the follower, in order. It needs no reader and no place.
    ///
    /// # Errors
    ///
    /// `NotFetched` if the version has as many owners as can be counted, `NoMemory`, and `Closed` if following has
    /// ended or there is no memory for one more. The service is then as it was.
    pub fn follow<H: Wait>(&self, rt: &H) -> Result<(Follower<J>, Arc<Version>), Refusal>
        ensures of { IfOk result (λ made. (made.0.book ≡ J.book) × (made.0.base ≡ J.base)) }
        ensures version { IfOk result (λ made. arc_value made.1 ≡ line_state made.0) }
        ensures reason { IfErr result IsFollowRefusal }
    {
        let Ok((sender, receiver)) = bounded(self.alloc, MOST_UNTOLD) else {
            return Err(Refusal::NoMemory);
        };
        // Nothing is published while the lock is held.
        let mut publisher = self.publisher.lock(rt);
        let (version, known) = match publisher.share() {
            Ok(shared) => shared,
            Err(reason) => return Err(reason),
        };
        let Some(follower) = publisher.add_follower(sender) else {
            return Err(Refusal::Closed);
        };
        let number = version.number();
        let changes = Changes { receiver, follower };
        Ok((Follower::new(&known, number, changes), version))
    }

    /// Lets a follower go that has left, and that knew this list.
    pub(crate) fn unfollow<H: Wait>(
        &self,
        rt: &H,
        follower: FollowerNumber,
        told: Told,
    ) -> Unfollowed
        ensures { result ≡ told }
    {
        self.publisher.lock(rt).remove_follower(follower, told)
    }

    /// Ends following: each follower gets the commands that wait for it, and then none. None is made from then on.
    pub fn end_following<H: Wait>(&self, rt: &H) {
        self.publisher.lock(rt).end_following();
    }

    /// Where its lookers announce what they hold.
    pub(crate) fn domain(&self) -> &Domain {
        &self.domain
    }

    /// Takes a reader back, for the next looker.
    pub(crate) fn take_back<H: Wait>(&self, rt: &H, reader: FrontReader) -> Returned
        requires { (reader.book ≡ J.book) × (reader.base ≡ J.base) }
        ensures { result ≡ reader }
    {
        self.spare.lock(rt).take_back(reader)
    }

    /// Returns the library's error of the commit that closed the publisher, if one did.
    pub fn failure<H: Wait>(&self, rt: &H) -> Option<Error> {
        self.publisher.lock(rt).failure()
    }

    /// Returns what the publisher shows of itself, all at one moment. The lock is held for as long as it takes to copy it, and
    /// nothing changes.
    pub fn figures<H: Wait>(&self, rt: &H) -> Figures {
        figures_of(&self.publisher.lock(rt))
    }

    /// Returns how many retired versions are kept for lookers, and which looker holds them back. Nothing changes.
    pub fn retention<H: Wait>(&self, rt: &H) -> Retention {
        self.domain.retention(rt)
    }

    /// Ends the service, and returns the connection, with its tables as the lock keeps them, and the published list. Of a
    /// file that is known, a ready publisher's tables hold the state after that list, and those of a closed one that or the
    /// state after one submission more, the same one whatever a crash leaves; a crash leaves no other. It waits for nobody:
    /// the front's readers go on, and its memory is never freed.
    pub fn release(self) -> Released<S>
        ensures { IsReleased S.Store J.book J.base J.ours_first result.published result.conn }
    {
        self.publisher.into_inner().release()
    }

    /// Ends the service and its front, which waits for readers that are inside, and returns the same as `release`.
    pub fn end<H: Wait>(self, rt: &H) -> Released<S>
        ensures { IsReleased S.Store J.book J.base J.ours_first result.published result.conn }
    {
        self.publisher.into_inner().end(rt)
    }
}

/// Counts commands that were submitted together, or keeps why they were refused.
fn count_outcome<S: Alter + Drop, J: ServiceBrand>(
    publisher: &mut PublisherWithFollowers<S, J>,
    commands: u64,
    became: &Result<Receipt, Refusal>,
    time: CommitTime,
)
    ensures { publisher.new ≡ publisher.old }
{
    match became {
        Ok(_) => publisher.count(commands, time),
        Err(reason) => publisher.count_refusal(*reason),
    }
}

/// Counts commands that were submitted at an expected number, or keeps why they were refused.
fn count_outcome_at<S: Alter + Drop, J: ServiceBrand>(
    publisher: &mut PublisherWithFollowers<S, J>,
    commands: u64,
    became: &Result<Receipt, SubmitError>,
    time: CommitTime,
)
    ensures { publisher.new ≡ publisher.old }
{
    match became {
        Ok(_) => publisher.count(commands, time),
        Err(SubmitError::Refused(reason)) => publisher.count_refusal(*reason),
        Err(SubmitError::Moved(_)) => {}
    }
}

/// Checks whether there was no room for one more retired version.
fn is_busy(became: &Result<Receipt, Refusal>) -> bool {
    matches!(became, Err(Refusal::Busy))
}

/// Checks whether there was no room for one more retired version, for commands that were submitted at an expected number.
fn is_busy_at(became: &Result<Receipt, SubmitError>) -> bool {
    matches!(became, Err(SubmitError::Refused(Refusal::Busy)))
}
