//! What is reported of the words of a line.
ghost use Rattle.std.specs.Prelude.{◌≡◌, ◌++◌, OnOk, map};
ghost use Rattle.prt_command.specs.Reading.{words};
ghost use Rattle.prt_import.specs.TableNames.{known_names};
ghost use Rattle.prt_import.specs.Told.{fault_word, is_kernels, is_kernels_value, note_of, noted, notes_of, numbered, remark_of};

use crate::known::{Meaning, Object, Role, meaning_of};
use crate::names::HostNames;
use crate::omitted_line::{OmittedLine, Source};
use crate::reason::Reason;
use crate::step::{Place, step_of};
use prt_command::{is, next_word};
use std::alloc::{AllocError, Global};

/// Finds the word for which a line has to be left out, in a text that begins at this place of the line; an empty word if
/// there is none.
pub(crate) fn word_at_fault<'a>(
    names: &HostNames,
    object: Object,
    place: Place,
    text: &'a [u8],
) -> &'a [u8]
    ensures { result.now ≡ fault_word (known_names names.now) object place (words text.now) }
{
    let mut place = place;
    let mut rest = text;
    while let Some((word, after)) = next_word(rest) {
        match step_of(names, object, place, word) {
            Ok(step) => place = step.next,
            Err(_) => return word,
        }
        rest = after;
    }
    &text[..0]
}

/// Finds why a word is left off, if that is reported.
fn note_of(object: Object, place: Place, word: &[u8]) -> Option<Reason>
    ensures { result ≡ note_of object place word.now }
{
    match (place, meaning_of(object, word)) {
        (Place::Item, Some(Meaning::Told(reason))) => Some(reason),
        (Place::Item, Some(Meaning::Before(Role::RuleProtocol))) => Some(Reason::RuleProtocol),
        (Place::Item, Some(Meaning::Before(Role::Metric))) => Some(Reason::Metric),
        _ => None,
    }
}

/// Records a word of a line, if it is one that is reported.
fn push_note(
    alloc: Global,
    notes: &mut Vec<OmittedLine>,
    source: Source<'_>,
    object: Object,
    place: Place,
    word: &[u8],
) -> Result<(), AllocError>
    ensures { OnOk result (map remark_of notes.new.items
        ≡ map remark_of notes.old.items ++ noted (numbered source.entry) word.now (note_of object place word.now)) }
{
    match note_of(object, place, word) {
        Some(reason) => {
            notes.push(OmittedLine::new(alloc, source, word, reason)?)?;
            Ok(())
        }
        None => Ok(()),
    }
}

/// Records each word that is left off, in a text that begins at this place of a line.
pub(crate) fn push_notes(
    alloc: Global,
    notes: &mut Vec<OmittedLine>,
    source: Source<'_>,
    names: &HostNames,
    object: Object,
    place: Place,
    text: &[u8],
) -> Result<(), AllocError>
    ensures { OnOk result (map remark_of notes.new.items
        ≡ map remark_of notes.old.items ++ notes_of (known_names names.now) object (numbered source.entry) place (words text.now)) }
{
    let mut place = place;
    let mut rest = text;
    while let Some((word, after)) = next_word(rest) {
        let Ok(step) = step_of(names, object, place, word) else {
            return Ok(());
        };
        push_note(alloc, notes, source, object, place, word)?;
        place = step.next;
        rest = after;
    }
    Ok(())
}

/// Checks whether a word and its value say that the kernel made a route: by its protocol.
fn is_kernels_value(word: &[u8], value: &[u8]) -> bool
    ensures { result ≡ is_kernels_value word.now value.now }
{
    is(word, b"proto") && is(value, b"kernel")
}

/// Checks whether a route's line says that the kernel made it: it has the kernel's protocol.
pub(crate) fn is_kernels(text: &[u8]) -> bool
    ensures { result ≡ is_kernels (words text.now) }
{
    let mut before: &[u8] = b"";
    let mut rest = text;
    while let Some((word, after)) = next_word(rest) {
        if is_kernels_value(before, word) {
            return true;
        }
        before = word;
        rest = after;
    }
    false
}
