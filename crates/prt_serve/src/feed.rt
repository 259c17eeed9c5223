//! A feed: the tables as they are published, and each change after them.
ghost use Rattle.std.specs.Prelude.{◌≡◌, ◌++◌, IfOk, IfErr, None, OnErr, Some, codes};
ghost use Rattle.std.specs.Arc.{arc_value};
ghost use Rattle.prt_feed.specs.Feed.{change_line, opening_text};
ghost use Rattle.prt_published.specs.Line.{Line, line_state};
ghost use Rattle.prt_serve.specs.Feed.{Feeds, Remarks, Tells, comment_text};
ghost use Rattle.prt_service.specs.Service.{IsFollowRefusal};
ghost use Rattle.prt_replies.specs.Written.{Written};

use crate::context::{ServiceContext, Serving};
use crate::follower_slots::{FollowerSlot, FollowerSlots};
use crate::watch::{Due, Peer, Watch, look};
use arrayvec::ArrayString;
use itoa::Buffer;
use prt_command::Command;
use prt_feed::{change_line, opening_text};
use prt_replies::write_bytes;
use prt_service::{Follower, News, Unfollowed};
use prt_session::Refusal;
use prt_version::Version;
use std::alloc::Global;
use std::io::{Read, Write};
use std::sync::{Arc, Wait};
use std::thread;
use std::time::{Clock, Duration};

/// How often a connection asks for a slot, and looks at its peer meanwhile.
const TRIES: u64 = 100;

/// How many milliseconds lie between two of these.
const PAUSE: u64 = 10;

/// A feed that has ended.
#[derive(Drop)]
pub struct Fed {
    /// Whether all of it went well.
    pub is_whole: bool,
    /// That its follower left.
    pub left: Unfollowed,
}

/// Writes the tables of a version; returns whether all of it went well.
fn write_opening<W: Write>(writer: &mut W, alloc: Global, version: &Version) -> bool
    ensures { Written result (W.contents writer.old) (W.contents writer.new) (opening_text version.now) }
{
    match opening_text(alloc, version) {
        Ok(text) => write_bytes(writer, &text),
        Err(_) => false,
    }
}

/// Writes the line of a command; returns whether all of it went well.
fn write_change<W: Write>(writer: &mut W, alloc: Global, number: u64, command: &Command) -> bool
    ensures { Written result (W.contents writer.old) (W.contents writer.new) (change_line number command.now ++ codes "\n") }
{
    match change_line(alloc, number, command) {
        Some(text) => write_bytes(writer, &text),
        None => false,
    }
}

/// Writes a line that says nothing, by which a peer that has gone is found; returns whether all of it went well.
fn write_heartbeat<W: Write>(writer: &mut W) -> bool
    ensures { Written result (W.contents writer.old) (W.contents writer.new) (comment_text None ++ codes "\n") }
{
    write_bytes(writer, b"#\n")
}

/// Formats the comment before this many commands that were made together, with its newline.
fn together_text(count: u64) -> ArrayString<40>
    ensures { result.bytes ≡ comment_text (Some count) ++ codes "\n" }
{
    let mut digits = Buffer::new();
    let mut line = ArrayString::new();
    line.push_str("# together ");
    line.push_str(digits.format(count));
    line.push_str("\n");
    line
}

/// Writes the comment before this many commands that were made together; returns whether all of it went well.
fn write_count<W: Write>(writer: &mut W, count: u64) -> bool
    ensures { Written result (W.contents writer.old) (W.contents writer.new) (comment_text (Some count) ++ codes "\n") }
{
    write_bytes(writer, together_text(count).as_bytes())
}

/// Writes the comment before commands that were made together, if there are several; returns whether all of it went well.
fn write_together<W: Write>(writer: &mut W, count: u64) -> bool
    ensures { Remarks result (W.contents writer.old) (W.contents writer.new) }
{
    if count <= 1 {
        return true;
    }
    write_count(writer, count)
}

/// Looks at the peer while nothing is published, and writes a heartbeat if one is due; returns whether all of it went
/// well. It didn't if the peer has gone.
fn write_quiet<R: Read, W: Write>(watch: &mut Watch<'_, R>, writer: &mut W) -> bool
    ensures { Remarks result (W.contents writer.old) (W.contents writer.new) }
{
    match watch.look() {
        Due::Nothing => true,
        Due::Heartbeat => {
            watch.wrote();
            write_heartbeat(writer)
        }
        Due::Closing => false,
    }
}

/// Writes each command that the follower learns, until it learns none, and comments; returns whether all of it went well.
fn tell_on<C: Serving, R: Read, W: Write>(
    context: &ServiceContext<'_, C>,
    follower: &mut Follower<C::Brand>,
    watch: &mut Watch<'_, R>,
    writer: &mut W,
) -> bool
    ensures { Tells follower.old follower.new result (W.contents writer.old) (W.contents writer.new) }
{
    for _ in context.rt.forever() {
        match follower.next_within(context.rt, watch.pause()) {
            News::Command { command, together } => {
                watch.wrote();
                if !write_together(writer, together) {
                    return false;
                }
                if !write_change(writer, context.alloc, follower.number(), &command) {
                    return false;
                }
            }
            News::Quiet => {
                if !write_quiet(watch, writer) {
                    return false;
                }
            }
            News::Ended => return true,
        }
    }
    true
}

/// Takes a slot, for which it waits up to a second. `None` if none gets free, or the peer sends nothing more: it then
/// has most likely gone.
fn slot_for<'a, H: Wait + Clock, R: Read>(
    rt: &H,
    slots: &'a FollowerSlots,
    reader: &mut R,
) -> Option<FollowerSlot<'a>> {
    for _ in 0..TRIES {
        if let Some(slot) = slots.take(rt) {
            return Some(slot);
        }
        thread::sleep(rt, Duration::from_millis(PAUSE));
        if !matches!(look(reader), Peer::There) {
            return None;
        }
    }
    None
}

/// Writes what is published: the tables of a version, and, with a slot, each command that the follower learns after it;
/// returns whether all of it went well.
fn feed<C: Serving, R: Read, W: Write>(
    context: &ServiceContext<'_, C>,
    slots: &FollowerSlots,
    follower: &mut Follower<C::Brand>,
    version: Arc<Version>,
    reader: &mut R,
    writer: &mut W,
) -> bool
    requires { arc_value version ≡ line_state follower.old }
    ensures { Feeds follower.old follower.new result (W.contents writer.old) (W.contents writer.new) }
{
    let _number = follower.number();
    let is_written = write_opening(writer, context.alloc, &version);
    // Releases the version before it waits.
    drop(version);
    if !is_written {
        return false;
    }
    let Some(slot) = slot_for(context.rt, slots, reader) else {
        return true;
    };
    let is_whole = tell_on(context, follower, &mut Watch::new(reader), writer);
    slot.leave(context.rt);
    is_whole
}

/// Feeds a writer: the tables of the published version, with its number, as the lines of a dump; and then each command that
/// is published after it, with its number, as it is acknowledged. `Feeds` defines the text.
///
/// After the tables it needs a slot, and ends if none gets free within a second. With one it goes on until following
/// ends, the writer falls behind by more than 1,000 commands, or the peer has gone; nobody waits for the writer. The
/// reader, whose reads hardly wait, shows whether the peer is there; while nothing is published it is looked at once a
/// second, and a line `#` is written after each 15 seconds. A line `# together K` comes before K commands that were made
/// together, if there are several: their readers saw all of them at once.
///
/// Returns whether all of it was written. It was not if the writer fails, if no line can express a rule, a route or a
/// command, or if memory is refused: then a part of it was written.
///
/// # Errors
///
/// Those of `Service::follow`; nothing is written then.
pub fn serve_feed<C: Serving, R: Read, W: Write>(
    context: &ServiceContext<'_, C>,
    slots: &FollowerSlots,
    reader: &mut R,
    writer: &mut W,
) -> Result<Fed, Refusal>
    ensures fed { IfOk result (λ fed.
        (opening : Line) × (opening.book ≡ C.Brand.book) × (opening.base ≡ C.Brand.base)
        × Feeds opening fed.left fed.is_whole (W.contents writer.old) (W.contents writer.new)) }
    ensures reason { IfErr result IsFollowRefusal }
    ensures nothing { OnErr result (writer.new ≡ writer.old) }
{
    let (mut follower, version) = match context.service.follow(context.rt) {
        Ok(made) => made,
        Err(reason) => return Err(reason),
    };
    let is_whole = feed(context, slots, &mut follower, version, reader, writer);
    Ok(Fed {
        is_whole,
        left: follower.leave(context.rt, context.service),
    })
}
