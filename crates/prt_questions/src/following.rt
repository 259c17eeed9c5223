//! A kernel that follows a server, and the wait for a server.
ghost use Rattle.std.specs.Prelude.{◌≡◌, ◌⊎◌, Bool, IfErr, IfOk, List, Option, ℕ};
ghost use Rattle.std.specs.Io.Buffered.{reader_remaining};
ghost use Rattle.prt_ask.specs.Answers.{AreNotesOf};
ghost use Rattle.prt_ask.specs.Fed.{AreRead};
ghost use Rattle.prt_ask.specs.Mirrors.{Follows, mirror_of};
ghost use Rattle.prt_diff.specs.Text.{changes_text};
ghost use Rattle.prt_feed.specs.declared.change.Change.{Change};
ghost use Rattle.prt_questions.specs.Asking.{HasFollowed, HasFollowedAtMost};
ghost use Rattle.prt_questions.specs.Sources.{AreTold, IsHeard, path_of, sources_of};
ghost use Rattle.prt_version.specs.State.{State};

use crate::asking::{REFUSED, none_message, report_none, write_made};
use crate::importing::{Fenced, read_fenced};
use crate::left::or_left;
use crate::remote::{is_there, open_feed};
use prt_args::{DONE, FAULT, FollowArgs, ServerPlace, WaitArgs};
use prt_ask::{Answered, FollowEnd, Mirror, follow};
use prt_feed::OpeningError;
use prt_machine::{LocalNet, Streams, tell};
use prt_program::cause_message;
use std::alloc::Global;
use std::io::{BufReader, Read, Write};
use std::rt::Clock;
use std::thread;
use std::time::Duration;

/// Why nothing more is followed if the feed ended, or a read of it failed.
const FEED_ENDED: &str = "the feed ended, or nothing came for 45 seconds";

/// How many milliseconds lie between two tries to reach a server.
const PAUSE: u64 = 100;

/// Reports why following a server ended, unless the reader of the lines has gone.
fn tell_end<E: Write>(alloc: Global, place: &ServerPlace<'_>, end: FollowEnd, errors: &mut E) {
    match end {
        FollowEnd::Feed(OpeningError::CutOff) => {
            tell(cause_message(alloc, place, &FEED_ENDED), errors);
        }
        FollowEnd::Feed(reason) => tell(cause_message(alloc, place, &reason), errors),
        FollowEnd::NoLines(reason) => tell(none_message(alloc, place, reason), errors),
        FollowEnd::Unwritten => {}
    }
}

/// Connects to the feed of a server, and begins to bring a listing to its tables. The reader is behind them.
///
/// # Errors
///
/// The exit status: the server doesn't send its tables, or there are no lines. The cause is reported.
fn begin_at<N: LocalNet, W: Write, E: Write>(
    rt: &N,
    alloc: Global,
    place: &ServerPlace<'_>,
    listing: Fenced,
    output: &mut W,
    errors: &mut E,
) -> Result<(BufReader<N::Stream>, Mirror, Answered), u8>
    ensures begun { IfOk result (λ begun.
        (told : State) × (is : AreTold N.reaches N.Stream.remaining rt.now place.now told)
        × (reader_remaining N.Stream.remaining begun.0 ≡ is.rest) × (begun.1 ≡ mirror_of listing.fence listing.found told)
        × (begun.2.text.items ≡ changes_text listing.fence listing.found told) × AreNotesOf listing.fence listing.found told begun.2.notes) }
    ensures fault { IfErr result (λ status. (status ≡ REFUSED) ⊎ (status ≡ FAULT)) }
    ensures unwritten { W.contents output.new ≡ W.contents output.old }
{
    let (reader, wanted) = match open_feed(rt, alloc, place) {
        Ok(opened) => opened,
        Err(reason) => {
            tell(cause_message(alloc, place, &reason), errors);
            return Err(FAULT);
        }
    };
    match Mirror::begin(alloc, listing.fence, listing.found, wanted) {
        Ok((mirror, made)) => Ok((reader, mirror, made)),
        Err(reason) => Err(report_none(alloc, place, reason, output, errors)),
    }
}

/// Returns what was reported of what stays, and of what isn't brought; nothing if memory is refused.
fn rest_of(alloc: Global, made: &Answered) -> String {
    match made.notes.rest() {
        Ok(rest) => rest,
        Err(_) => String::new(alloc),
    }
}

/// Prints the lines for each change that a feed reports, until it ends or one has no lines, and returns the exit status.
fn follow_on<R: Read + Drop, W: Write, E: Write>(
    alloc: Global,
    place: &ServerPlace<'_>,
    mut reader: R,
    mut mirror: Mirror,
    told: String,
    output: &mut W,
    errors: &mut E,
) -> u8
    ensures status { result ≡ FAULT }
    ensures follows { (after : Mirror) × (is_whole : Bool) × (changes : List Change) × (read : Option (List ℕ))
        × AreRead (R.remaining reader) read changes × Follows mirror after changes is_whole (W.contents output.old) (W.contents output.new) }
{
    let end = follow(alloc, &mut mirror, &mut reader, told, output, errors);
    tell_end(alloc, place, end, errors);
    FAULT
}

/// Prints the lines that bring what `ip` printed to the tables of a server, within a fence. Then it prints those for each
/// change that its feed reports. Returns the exit status.
///
/// With `--once` it ends after the first lines, with the status of `diff`. Otherwise it ends with 3: if the feed ends, if a
/// change has no lines, and if the lines can't be written. No database is touched.
pub(crate) fn follow_server<H: Streams, N: LocalNet>(
    files: &H::Files,
    rt: &N,
    alloc: Global,
    following: &FollowArgs<'_>,
    input: &mut H::Input,
    output: &mut H::Output,
    errors: &mut H::Errors,
) -> u8
    ensures status { (result ≡ DONE) ⊎ ((result ≡ REFUSED) ⊎ (result ≡ FAULT)) }
    ensures whole { result ≡ DONE →
        HasFollowed (sources_of H.Files.opens H.Files.Opened.remaining files.now N.reaches N.Stream.remaining rt.now
        (H.Input.remaining input.old)) (H.Output.contents output.old) (H.Output.contents output.new)
        (path_of following.now.file) following.now.server following.now.reach }
    ensures at_most { HasFollowedAtMost
        (sources_of H.Files.opens H.Files.Opened.remaining files.now N.reaches N.Stream.remaining rt.now (H.Input.remaining input.old))
        (H.Output.contents output.old) (H.Output.contents output.new) (path_of following.now.file) following.now.server following.now.reach }
{
    let place = &following.server;
    let (file, reach) = (following.file, &following.reach);
    let listing = match read_fenced::<H>(files, alloc, file, reach, input, output, errors) {
        Ok(listing) => listing,
        Err(status) => return status,
    };
    let left = listing.left;
    let (reader, mirror, made) = match begin_at(rt, alloc, place, listing, output, errors) {
        Ok(begun) => begun,
        Err(status) => return status,
    };
    let told = rest_of(alloc, &made);
    let written = write_made(made, output, errors);
    if following.is_once || written == FAULT {
        return or_left(written, left);
    }
    follow_on(alloc, place, reader, mirror, told, output, errors)
}

/// Returns the time by the clock that never goes back; 0 if it can't be read.
fn time<N: Clock>(rt: &N) -> Duration {
    rt.monotonic().unwrap_or(Duration::ZERO)
}

/// Waits until a server answers at a place, its sessions or its feed, and returns the exit status: 3 if none has answered
/// after the seconds that are given. Without a clock it waits through as many pauses. No database is touched, and nothing
/// printed.
pub(crate) fn wait_for<N: LocalNet + Clock, E: Write>(
    rt: &N,
    alloc: Global,
    waiting: &WaitArgs<'_>,
    errors: &mut E,
) -> u8
    ensures status { (result ≡ DONE) ⊎ (result ≡ FAULT) }
    ensures heard { result ≡ DONE → IsHeard N.reaches N.Stream.remaining rt.now waiting.now.server }
{
    let begun = time(rt);
    let patience = Duration::from_secs(waiting.seconds);
    let tries = waiting.seconds.saturating_mul(1000 / PAUSE);
    for _try in 0..=tries {
        if matches!(is_there(rt, alloc, &waiting.server), Ok(true)) {
            return DONE;
        }
        if time(rt).saturating_sub(begun) >= patience {
            break;
        }
        thread::sleep(rt, Duration::from_millis(PAUSE));
    }
    tell(
        cause_message(alloc, &waiting.server, &"no server answers"),
        errors,
    );
    FAULT
}
