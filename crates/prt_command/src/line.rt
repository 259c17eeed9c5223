ghost use Rattle.std.specs.Prelude.{◌≡◌, ◌≤◌, ◌∷◌, [], codes, Err, IfErr, IfOk, MatchOption, MatchResult, Ok};
ghost use Rattle.prt_refusals.specs.Refusal.{code_of};
ghost use Rattle.prt_command.specs.Reading.{line_words, object_request, reading, skip_word, verb_request, words, words_request};
ghost use Rattle.prt_command.specs.Storable.{IsStorableLine};

use crate::Request;
use crate::reader::read_request;
use crate::verb::Object;
use crate::words::{is, next_word, text_of};
use prt_route::Refusal;

/// The most bytes of a line, without its newline; one byte more is `LineTooLong`.
pub const LONGEST_LINE: usize = 1024;

/// The most bytes of a line that are read on to its end, without its newline; one byte more ends the session.
pub const LONGEST_UNENDED: usize = 65_536;

/// The most lines of a session or of a replay; a byte after them is `TooManyLines`.
pub const MOST_LINES: usize = 1_000_000;

/// Skips one optional word: the next word, and the text after it.
fn skip_word<'a>(skipped: &[u8], word: &'a [u8], rest: &'a [u8]) -> Option<(&'a [u8], &'a [u8])>
    ensures { MatchOption result (skip_word skipped.now (word.now ∷ words rest.now) ≡ [])
        (λ next. skip_word skipped.now (word.now ∷ words rest.now) ≡ next.0.now ∷ words next.1.now) }
{
    if is(word, skipped) {
        next_word(rest)
    } else {
        Some((word, rest))
    }
}

/// Reads a verb of the object, and the items after it; an object alone is shown.
fn read_verb(object: Object, text: &[u8]) -> Result<Request, Refusal>
    ensures { result ≡ verb_request object (words text.now) }
{
    match next_word(text) {
        Some((word, rest)) => {
            let verb = object.verb_of(word).ok_or(Refusal::UnknownVerb)?;
            read_request(verb, rest)
        }
        None => read_request(object.lone_verb(), text),
    }
}

/// Reads an object, and the verb and the items after it.
fn read_object(word: &[u8], rest: &[u8]) -> Result<Request, Refusal>
    ensures { result ≡ object_request (word.now ∷ words rest.now) }
{
    let object = Object::object_of(word).ok_or(Refusal::UnknownObject)?;
    read_verb(object, rest)
}

/// Reads the words of a line from this one on: `ip` and `-4`, which may be left out, an object, a verb and items.
fn read_words(word: &[u8], rest: &[u8]) -> Result<Request, Refusal>
    ensures { result ≡ object_request (skip_word (codes "-4") (skip_word (codes "ip") (word.now ∷ words rest.now))) }
{
    let (word, rest) = skip_word(b"ip", word, rest).ok_or(Refusal::UnknownObject)?;
    let (word, rest) = skip_word(b"-4", word, rest).ok_or(Refusal::UnknownObject)?;
    read_object(word, rest)
}

/// Reads the text of a line: what it asks for, or None if it has no words.
///
/// # Errors
///
/// The first fault of its words, from left to right, then what the items lack.
pub fn read_text(text: &[u8]) -> Result<Option<Request>, Refusal>
    ensures { result ≡ words_request (words text.now) }
{
    match next_word(text) {
        None => Ok(None),
        Some((word, rest)) => Ok(Some(read_words(word, rest)?)),
    }
}

/// Takes the text of a line, which comes without its newline: all before the first `#`.
///
/// # Errors
///
/// `LineTooLong` if the line has more than [`LONGEST_LINE`] bytes. Then `NotAscii` if a byte of its text is neither white space
/// nor a printable ASCII character.
pub fn line_text(line: &[u8]) -> Result<&[u8], Refusal>
    ensures { MatchResult result
        (λ text. line_words line.now ≡ Ok (words text.now))
        (λ refusal. line_words line.now ≡ Err refusal) }
{
    if line.len() > LONGEST_LINE {
        return Err(Refusal::LineTooLong);
    }
    text_of(line).ok_or(Refusal::NotAscii)
}

/// Reads a line of the command language, which has the words of ip-route(8) and ip-rule(8). Returns what it asks for, or None
/// if it is blank or a comment.
///
/// The line comes without its newline. A table that it names is 1 or more. A route that it asks for has a next hop if it is
/// unicast, and only then.
///
/// # Errors
///
/// The first fault of the line, one of the first eighteen refusals: `LineTooLong`, `NotAscii`, then the fault of the
/// first bad word, from left to right, then what the items lack.
pub fn read_line(line: &[u8]) -> Result<Option<Request>, Refusal>
    ensures reading { result ≡ reading line.now }
    ensures storable { IfOk result IsStorableLine }
    ensures number { IfErr result (λ refusal. code_of refusal ≤ 18) }
{
    let text = line_text(line)?;
    read_text(text)
}
