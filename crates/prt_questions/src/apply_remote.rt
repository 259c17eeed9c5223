//! `prt apply` over a server: gives it the tables that a script describes.
ghost use Rattle.std.specs.Prelude.{◌≡◌, ◌⊎◌, IfOk};
ghost use Rattle.prt_questions.specs.Applying.{AreMadeBy, IsPrinted, IsPrintedAtMost};
ghost use Rattle.prt_questions.specs.Sources.{AreTold, IsAtomicReply};
ghost use Rattle.prt_questions.specs.Submitting.{AreMadeInParts};
ghost use Rattle.prt_questions.specs.Tried.{IsTriedFor, IsTriedWith};
ghost use Rattle.prt_version.specs.State.{State};

use crate::applying::Manner;
use crate::asking::write_text;
use crate::atomic::{Made, expect_atomic, send_changes};
use crate::planning::{Planned, plan_changes, report_unplanned};
use crate::remote::{ServerError, read_tables};
use prt_args::{DONE, FAULT, ServerEnds, ServerPlace};
use prt_command::Command;
use prt_machine::{LocalNet, tell};
use prt_program::cause_message;
use prt_session::MOST_TOGETHER;
use prt_version::Version;
use std::alloc::Global;
use std::io::Write;

/// How often changes are worked out, if others change the tables meanwhile.
const TRIES: usize = 3;

/// Why nothing is sent to a server if the words don't say where it takes changes.
const NO_PLACE: &str = "no place is named where the server takes atomic scripts";

/// Has a server make changes over its tables of this number, in parts of `MOST_TOGETHER` at most. `done` counts those that it made.
///
/// # Errors
///
/// Why the connection failed, or what the server said. Nothing is sent to what takes no atomic scripts.
fn submit_in_parts<N: LocalNet>(
    rt: &N,
    alloc: Global,
    place: &ServerPlace<'_>,
    number: u64,
    commands: &[Command],
    done: &mut usize,
) -> Result<Made, ServerError>
    ensures { IfOk result (λ made. made ≡ Made.All → AreMadeInParts (IsAtomicReply N.reaches N.Stream.remaining rt.now place.now) number commands.now) }
{
    if commands.is_empty() {
        return Ok(Made::All);
    }
    // A session would make the lines one by one. The name of a socket leaves no doubt.
    if let ServerPlace::Address(_) = place {
        expect_atomic(rt, alloc, place)?;
    }
    let mut sent = number;
    let mut rest = commands;
    'parts: while !rest.is_empty() {
        let (part, later) = rest.split_at(usize::min(MOST_TOGETHER, rest.len()));
        match send_changes(rt, alloc, place, sent, part)? {
            Made::All => {}
            Made::Moved => return Ok(Made::Moved),
        }
        sent += part.len() as u64;
        *done = done.saturating_add(part.len());
        rest = later;
    }
    Ok(Made::All)
}

/// What came of one try.
#[derive(Drop)]
enum Tried {
    /// This is to be printed: nothing is left to be changed, or all changes were made.
    Text(Vec<u8>),
    /// Others changed the tables meanwhile.
    Moved,
    /// The exit status; the cause is reported.
    Failed(u8),
}

/// Reports how many changes a server made before it made no more, if it made any.
fn tell_made<E: Write>(alloc: Global, place: &ServerPlace<'_>, made: usize, errors: &mut E) {
    if made > 0 {
        let message = format!(in alloc; "prt: {place}: the first {made} changes are made\n");
        tell(message, errors);
    }
}

/// Has a server make changes that were planned over its tables of this number. If it doesn't make all of them, it is reported
/// how many it made.
fn submit_planned<N: LocalNet, E: Write>(
    rt: &N,
    alloc: Global,
    place: &ServerPlace<'_>,
    number: u64,
    planned: Planned,
    errors: &mut E,
) -> Tried
    ensures { IsTriedWith (AreMadeInParts
        (IsAtomicReply N.reaches N.Stream.remaining rt.now place.now) number planned.commands.items) planned.text.items result }
{
    let Planned { commands, text } = planned;
    let mut made = 0;
    match submit_in_parts(rt, alloc, place, number, commands.as_slice(), &mut made) {
        Ok(Made::All) => Tried::Text(text),
        Ok(Made::Moved) => {
            tell_made(alloc, place, made, errors);
            Tried::Moved
        }
        Err(reason) => {
            tell_made(alloc, place, made, errors);
            tell(cause_message(alloc, place, &reason), errors);
            Tried::Failed(FAULT)
        }
    }
}

/// Works out the changes over the tables as they are now, and has the server make them unless they are only printed.
fn try_once<N: LocalNet, W: Write, E: Write>(
    rt: &N,
    alloc: Global,
    ends: &ServerEnds<'_>,
    wanted: &Version,
    manner: Manner,
    output: &mut W,
    errors: &mut E,
) -> Tried
    ensures text { IsTriedFor (AreTold N.reaches N.Stream.remaining rt.now ends.now.feed)
        (λ told. AreMadeBy
        (IsAtomicReply N.reaches N.Stream.remaining rt.now) ends.now.atomic manner.is_dry_run told wanted.now) manner.shows_impact wanted.now result }
    ensures unwritten { W.contents output.new ≡ W.contents output.old }
{
    let found = match read_tables(rt, alloc, &ends.feed) {
        Ok(version) => version,
        Err(reason) => {
            tell(cause_message(alloc, &ends.feed, &reason), errors);
            return Tried::Failed(FAULT);
        }
    };
    let planned = match plan_changes(alloc, &found, wanted, manner.shows_impact) {
        Ok(planned) => planned,
        Err(reason) => {
            return Tried::Failed(report_unplanned(alloc, &ends.feed, reason, output, errors));
        }
    };
    if manner.is_dry_run {
        return Tried::Text(planned.text);
    }
    match &ends.atomic {
        Some(place) => submit_planned(rt, alloc, place, found.number(), planned, errors),
        None => {
            tell(cause_message(alloc, &ends.feed, &NO_PLACE), errors);
            Tried::Failed(FAULT)
        }
    }
}

/// Makes the tables of a server those that are wanted, and prints how. Returns the exit status.
///
/// Up to 1,000 changes are made together; more of them in as few parts as that takes. If others change the tables meanwhile, the
/// changes are worked out again: three tries at most.
pub(crate) fn apply_to_server<N: LocalNet, W: Write, E: Write>(
    rt: &N,
    alloc: Global,
    ends: &ServerEnds<'_>,
    wanted: &Version,
    manner: Manner,
    output: &mut W,
    errors: &mut E,
) -> u8
    ensures status { (result ≡ DONE) ⊎ (result ≡ FAULT) }
    ensures whole { result ≡ DONE →
        (told : State) × AreTold N.reaches N.Stream.remaining rt.now ends.now.feed told
        × AreMadeBy (IsAtomicReply N.reaches N.Stream.remaining rt.now) ends.now.atomic manner.is_dry_run told wanted.now
        × IsPrinted manner.shows_impact told wanted.now (W.contents output.old) (W.contents output.new) }
    ensures part { (W.contents output.new ≡ W.contents output.old)
        ⊎ ((told : State) × AreTold N.reaches N.Stream.remaining rt.now ends.now.feed told
        × IsPrintedAtMost manner.shows_impact told wanted.now (W.contents output.old) (W.contents output.new)) }
{
    for _ in 0..TRIES {
        match try_once(rt, alloc, ends, wanted, manner, output, errors) {
            Tried::Text(text) => return write_text(text, output),
            Tried::Moved => {}
            Tried::Failed(status) => return status,
        }
    }
    let message = "others change the tables all the time: try again";
    tell(cause_message(alloc, &ends.feed, &message), errors);
    FAULT
}
