//! The words of a line, put into those of the command language.
ghost use Rattle.std.specs.Prelude.{◌≡◌, ◌++◌, IfErr, IfOk, OnOk};
ghost use Rattle.prt_command.specs.Reading.{words};
ghost use Rattle.prt_import.specs.Fault.{IsWhy};
ghost use Rattle.prt_import.specs.Translation.{IsTranslated, translated, written_text};
ghost use Rattle.prt_import.specs.TableNames.{known_names};

use crate::fault::Fault;
use crate::known::Object;
use crate::names::HostNames;
use crate::step::{Place, Written, step_of};
use prt_command::next_word;
use prt_listing::{Part, Value, push_part, push_text};
use std::alloc::AllocError;

/// Appends a space and what is written for a word.
fn push_written(out: &mut Vec<u8>, written: Written, word: &[u8]) -> Result<(), AllocError>
    ensures { OnOk result (out.new.items ≡ out.old.items ++ written_text written word.now) }
{
    match written {
        Written::Nothing => Ok(()),
        Written::Same => {
            push_text(out, " ")?;
            out.extend_from_slice(word)
        }
        Written::WithMask => {
            push_text(out, " ")?;
            out.extend_from_slice(word)?;
            push_text(out, "/0xffffffff")
        }
        Written::Number(number) => {
            push_text(out, " ")?;
            push_part(out, &Part::Alone(Value::Number(u64::from(number))))
        }
    }
}

/// Appends what is written for each word of a text, which begins at this place of a line. Returns whether the scope of a
/// route is implied after them.
///
/// # Errors
///
/// `Left` if the line has to be left out, `NoMemory` if memory is refused; some of the words may follow what `out` had.
pub(crate) fn push_words(
    out: &mut Vec<u8>,
    names: &HostNames,
    object: Object,
    place: Place,
    text: &[u8],
) -> Result<bool, Fault>
    ensures ok { IfOk result (λ is_settled.
        IsTranslated out.old.items out.new.items is_settled (translated (known_names names.now) object place (words text.now))) }
    ensures err { IfErr result (λ fault. IsWhy (translated (known_names names.now) object place (words text.now)) fault) }
{
    let mut place = place;
    let mut is_scope_settled = false;
    let mut rest = text;
    while let Some((word, after)) = next_word(rest) {
        let step = step_of(names, object, place, word)?;
        push_written(out, step.written, word)?;
        place = step.next;
        is_scope_settled |= step.settles_scope;
        rest = after;
    }
    Ok(is_scope_settled)
}
