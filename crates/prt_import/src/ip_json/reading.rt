//! A document, read value by value.
ghost use Rattle.std.specs.Prelude.{◌≡◌, ◌<◌, ◌≤◌, ◌∷◌, length, option_map, Some, None, Err, IfErr, IfOk, OnOk};
ghost use Rattle.json.specs.Json.{document, items, max_depth, members, read_key, value};
ghost use Rattle.json.specs.Reads.{token_of};
ghost use Rattle.json.specs.Token.{begin_object};
ghost use Rattle.json.specs.Value.{members_view};
ghost use Rattle.prt_import.specs.IpJson.Listing.{document_lines, line, lines};
ghost use Rattle.prt_import.specs.IpJson.Steps.{Appends, appended};

use super::fault::{ListingError, not_listed};
use super::line::push_line;
use super::words::UNSAID_LINE;
use json::{MAX_DEPTH, Reader, Scratch, Token, Value};
use prt_listing::push_text;
use std::alloc::Global;

/// Appends the line of the next value of an array.
fn push_next_line(
    out: &mut Vec<u8>,
    alloc: Global,
    reader: &mut Reader<'_>,
) -> Result<(), ListingError>
    ensures ok { OnOk result (Appends (value 127 reader.old) reader.new line out.old.items out.new.items) }
    ensures no_json { result ≡ Err ListingError.NoJson → value 127 reader.old ≡ None }
    ensures shorter { OnOk result (length reader.new < length reader.old) }
{
    match Value::read(alloc, reader, MAX_DEPTH - 1) {
        Ok(value) => push_line(out, &value)?,
        Err(error) => return Err(not_listed(error)),
    }
    Ok(())
}

/// Appends the line of each value of an array whose opening bracket was taken.
fn push_lines(out: &mut Vec<u8>, alloc: Global, reader: &mut Reader<'_>) -> Result<(), ListingError>
    ensures ok { OnOk result (Appends (items (value 127) (length reader.old) reader.old) reader.new lines out.old.items out.new.items) }
    ensures no_json { result ≡ Err ListingError.NoJson → items (value 127) (length reader.old) reader.old ≡ None }
    ensures shorter { OnOk result (length reader.new < length reader.old) }
{
    while !reader.take_end_array() {
        push_next_line(out, alloc, reader)?;
    }
    Ok(())
}

/// Takes the name of the next member, if the closing brace is not next.
fn next_name<'a>(reader: &mut Reader<'a>) -> Result<Option<&'a str>, ListingError>
    ensures ok { IfOk result (λ name. read_key reader.old ≡ Some (option_map (λ s. s.now) name, reader.new)) }
    ensures err { IfErr result (λ fault. (fault ≡ ListingError.NoJson) × (read_key reader.old ≡ None)) }
{
    match reader.next_key() {
        Ok(name) => Ok(name),
        Err(_) => Err(ListingError::NoJson),
    }
}

/// Reads the members of an object whose opening brace was taken.
fn read_members<'a>(
    alloc: Global,
    reader: &mut Reader<'a>,
) -> Result<Vec<(&'a str, Value<'a>)>, ListingError>
    ensures ok { IfOk result (λ read. members (value 127) (length reader.old) reader.old ≡ Some (members_view read.items, reader.new)) }
    ensures no_json { result ≡ Err ListingError.NoJson → members (value 127) (length reader.old) reader.old ≡ None }
    ensures shorter { OnOk result (length reader.new < length reader.old) }
{
    let mut read = Vec::new(alloc);
    while let Some(name) = next_name(reader)? {
        let member = match Value::read(alloc, reader, MAX_DEPTH - 1) {
            Ok(value) => (name, value),
            Err(error) => return Err(not_listed(error)),
        };
        if read.push(member).is_err() {
            return Err(ListingError::NoMemory);
        }
    }
    Ok(read)
}

/// Appends the line of an object whose opening brace was taken.
fn push_one_line(
    out: &mut Vec<u8>,
    alloc: Global,
    reader: &mut Reader<'_>,
) -> Result<(), ListingError>
    ensures ok { OnOk result (Appends (value 128 (begin_object ∷ reader.old)) reader.new document_lines out.old.items out.new.items) }
    ensures no_json { result ≡ Err ListingError.NoJson → value 128 (begin_object ∷ reader.old) ≡ None }
{
    let value = match read_members(alloc, reader) {
        Ok(members) => Value::Object(members),
        Err(fault) => return Err(fault),
    };
    push_line(out, &value)?;
    Ok(())
}

/// Appends the lines of a document whose first token was taken.
fn push_document(
    out: &mut Vec<u8>,
    alloc: Global,
    reader: &mut Reader<'_>,
    first: &Token<'_>,
) -> Result<(), ListingError>
    ensures ok { OnOk result (Appends (value max_depth (token_of first.now ∷ reader.old)) reader.new document_lines out.old.items out.new.items) }
    ensures no_json { result ≡ Err ListingError.NoJson → value max_depth (token_of first.now ∷ reader.old) ≡ None }
{
    match first {
        Token::BeginArray => push_lines(out, alloc, reader),
        Token::BeginObject => push_one_line(out, alloc, reader),
        Token::String(_) | Token::Number(_) | Token::Bool(_) | Token::Null => {
            push_text(out, UNSAID_LINE)?;
            Ok(())
        }
        Token::EndObject | Token::EndArray | Token::Key(_) | Token::Bad => Err(
            ListingError::NoJson,
        ),
    }
}

/// Appends the lines of the document that a text is.
///
/// # Errors
///
/// `NoJson` if it is none, `NoMemory` if memory is refused; some lines may follow what `out` had.
pub(crate) fn push_document_lines<'a>(
    out: &mut Vec<u8>,
    alloc: Global,
    text: &'a str,
    scratch: &'a mut Scratch,
) -> Result<(), ListingError>
    ensures ok { OnOk result (appended out.old.items (option_map document_lines (document text.now)) ≡ Some out.new.items) }
    ensures no_json { result ≡ Err ListingError.NoJson → document text.now ≡ None }
{
    let mut reader = Reader::new(text, scratch)?;
    let Some(first) = reader.next() else {
        return Err(ListingError::NoJson);
    };
    push_document(out, alloc, &mut reader, &first)?;
    if reader.next().is_some() {
        return Err(ListingError::NoJson);
    }
    Ok(())
}
