//! The lines for each change of a feed.
ghost use Rattle.std.specs.Prelude.{◌≡◌, [], ◌∷◌, List, MatchResult, Option, false, true, ℕ};
ghost use Rattle.prt_ask.specs.Ends.{is_whole};
ghost use Rattle.prt_ask.specs.Fed.{AreRead};
ghost use Rattle.prt_ask.specs.Mirrors.{AreAtMost, Follows};
ghost use Rattle.prt_feed.specs.declared.change.Change.{Change};

use crate::mirror::Mirror;
use crate::notes::Notes;
use crate::refusal::AnswerError;
use prt_feed::{Change, OpeningError, read_change};
use prt_replies::write_bytes;
use std::alloc::Global;
use std::io::{Read, Write};

/// Why following ended.
#[derive(Clone, Copy, Debug, PartialEq, Eq)]
pub enum FollowEnd {
    /// The feed ended, or told no change.
    Feed(OpeningError),
    /// There were no lines for a change.
    NoLines(AnswerError),
    /// Lines could not be written.
    Unwritten,
}

/// Reports what is to be reported of lines, if anything is; nobody misses it if that fails. What stays and what isn't brought
/// is reported unless it was the last report.
fn tell<E: Write>(notes: &Notes, told: &mut String, errors: &mut E) {
    if let Ok(text) = notes.steps() {
        let _told = errors.write_all(text.as_bytes()).is_ok();
    }
    if let Ok(text) = notes.rest() {
        if text.as_str() != told.as_str() {
            let _told = errors.write_all(text.as_bytes()).is_ok();
            *told = text;
        }
    }
}

/// Writes the lines for a change, and tells what there is to tell of them.
///
/// # Errors
///
/// `NoLines` if there are none: nothing was written, and the mirror is as it was. `Unwritten` if a part of them was written.
fn write_lines<W: Write, E: Write>(
    alloc: Global,
    mirror: &mut Mirror,
    change: &Change,
    told: &mut String,
    output: &mut W,
    errors: &mut E,
) -> Result<(), FollowEnd>
    ensures { MatchResult result (λ _. Follows mirror.old mirror.new (change.now ∷ []) true (W.contents output.old) (W.contents output.new))
        (λ end. (changes : List Change) × AreAtMost change.now changes
        × Follows mirror.old mirror.new changes (is_whole end) (W.contents output.old) (W.contents output.new)) }
{
    let answer = match mirror.follow(alloc, change) {
        Ok(answer) => answer,
        Err(reason) => return Err(FollowEnd::NoLines(reason)),
    };
    tell(&answer.notes, told, errors);
    if write_bytes(output, &answer.text) {
        Ok(())
    } else {
        Err(FollowEnd::Unwritten)
    }
}

/// Writes the lines that bring a listing to the tables of a feed, after each of its changes, and flushes each. Returns when
/// the feed ends, when a change isn't the next one or has no lines, and when the lines can't be written.
///
/// The reader is behind the opening of the feed, and should have a buffer. The last report of what stays and what isn't brought
/// is repeated only after another one.
pub fn follow<R: Read, W: Write, E: Write>(
    alloc: Global,
    mirror: &mut Mirror,
    reader: &mut R,
    mut told: String,
    output: &mut W,
    errors: &mut E,
) -> FollowEnd
    ensures { (changes : List Change) × (read : Option (List ℕ)) × AreRead (R.remaining reader.old) read changes
        × Follows mirror.old mirror.new changes (is_whole result) (W.contents output.old) (W.contents output.new) }
{
    for _line in 0..u64::MAX {
        let change = match read_change(reader) {
            Ok(Some(change)) => change,
            Ok(None) => continue,
            Err(reason) => return FollowEnd::Feed(reason),
        };
        if let Err(end) = write_lines(alloc, mirror, &change, &mut told, output, errors) {
            return end;
        }
    }
    FollowEnd::Feed(OpeningError::CutOff)
}
