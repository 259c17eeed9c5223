//! The lines of a text.
ghost use Rattle.std.specs.Prelude.{◌≡◌, Some, None, Err, IfOk, OnOk, option_map};
ghost use Rattle.std.specs.List.{list_all};
ghost use Rattle.json.specs.Word.{is_space};
ghost use Rattle.prt_import.specs.IpJson.Documents.{documents, is_blank, is_json};
ghost use Rattle.prt_import.specs.IpJson.Listing.{listing};
ghost use Rattle.prt_import.specs.IpJson.Steps.{appended, part_lines};

use super::cut::{next_part, opens};
use super::fault::ListingError;
use super::reading::push_document_lines;
use json::Scratch;
use std::alloc::Global;

/// Checks whether a byte is white space of JSON.
fn is_space(byte: u8) -> bool
    ensures { result ≡ is_space byte }
{
    matches!(byte, b' ' | b'\t' | b'\n' | b'\r')
}

/// Checks whether a text is white space.
fn is_blank(text: &[u8]) -> bool
    ensures { result ≡ is_blank text.now }
{
    text.iter().all(|byte| is_space(*byte))
}

/// Checks whether a text is to be read as JSON: the first byte that is no white space opens an array or an object.
///
/// No line that `ip` prints of a rule or of a route begins so.
pub fn is_json(text: &[u8]) -> bool
    ensures { result ≡ is_json text.now }
{
    for byte in text {
        if !is_space(*byte) {
            return opens(*byte);
        }
    }
    false
}

/// Appends the lines of a part, if it is a document or white space.
fn push_part(
    out: &mut Vec<u8>,
    alloc: Global,
    part: &[u8],
    scratch: &mut Scratch,
) -> Result<(), ListingError>
    ensures ok { OnOk result (appended out.old.items (part_lines part.now) ≡ Some out.new.items) }
    ensures no_json { result ≡ Err ListingError.NoJson → part_lines part.now ≡ None }
{
    if is_blank(part) {
        return Ok(());
    }
    match std::str::from_utf8(part) {
        Ok(text) => push_document_lines(out, alloc, text, scratch),
        Err(_) => Err(ListingError::NoJson),
    }
}

/// Builds the lines that `ip -4 route show table all` and `ip -4 rule` print, of what they print with `-j`, also with `-p`:
/// JSON documents, one after the other. Each value of an array has a line, and so has any other document, with a newline.
///
/// An object that begins with a `priority` is a rule, and any other is a route. Its members are written in their order, so a
/// route begins with its type or its destination. Each next hop of a route has a line that begins with a tab and `nexthop`.
/// What `ip` names otherwise in its JSON gets the word of its lines, as `via` for `gateway`; any other member is written
/// with its name. Nothing is left out, except empty `flags`, `metrics` and `nexthops`. What is no word, as a text with
/// white space, is written as `{} {}`, which no line has. So is what no line has, as null for a member with a value.
///
/// The lines have the words that `ip` prints, except for metrics and `expires`: of these the JSON has no `lock` and no units.
///
/// # Errors
///
/// `NoJson`, `NoMemory`.
pub fn listing_of(alloc: Global, text: &[u8]) -> Result<Vec<u8>, ListingError>
    ensures ok { IfOk result (λ lines. option_map listing (documents text.now) ≡ Some lines.items) }
    ensures no_json { result ≡ Err ListingError.NoJson → documents text.now ≡ None }
{
    let mut scratch = Scratch::new(alloc);
    let mut lines = Vec::new(alloc);
    let mut rest = text;
    while let Some((part, after)) = next_part(rest) {
        push_part(&mut lines, alloc, part, &mut scratch)?;
        rest = after;
    }
    Ok(lines)
}
