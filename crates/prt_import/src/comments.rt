//! The comments of a script, which say what was left out of it.
ghost use Rattle.std.specs.Prelude.{◌≡◌, ◌++◌, drop, flat_map, IfOk, map, OnOk, take};
ghost use Rattle.prt_command.specs.Reading.{words};
ghost use Rattle.prt_import.specs.Comments.{comment, comments, concerns, count_body, count_comment, is_left_out, kernel_routes, left_out, may_be_for};
ghost use Rattle.prt_import.specs.Comments.{remark_body, remark_comment, shown_byte, spaced_words};
ghost use Rattle.prt_import.specs.Keys.{destination_of};
ghost use Rattle.prt_import.specs.Told.{remark_of};

use crate::draft::push_line;
use crate::keys::destination_of;
use crate::lines::next_line;
use crate::omitted_line::OmittedLine;
use prt_addr::{Addr, read_prefix};
use prt_command::{is, next_word};
use prt_listing::{Part, Value, push_part, push_text};
use std::alloc::{AllocError, Global};

/// What a comment begins with.
const START: &[u8] = b"# left out:";

/// How many bytes of a line a comment shows at most.
const LONGEST_SHOWN: usize = 900;

/// How many bytes a comment has at most after its beginning, so that the lines of a script have room for it.
const LONGEST_BODY: usize = 1000;

/// Collects the words of a line, each after a space.
fn spaced_words(alloc: Global, line: &[u8]) -> Result<Vec<u8>, AllocError>
    ensures { IfOk result (λ made. made.items ≡ spaced_words (words line.now)) }
{
    let mut made = Vec::new(alloc);
    let mut rest = line;
    while let Some((word, after)) = next_word(rest) {
        push_text(&mut made, " ")?;
        made.extend_from_slice(word)?;
        rest = after;
    }
    Ok(made)
}

/// Builds what the comment for a line says: its words, and why it is left out.
fn remark_body(alloc: Global, left: &OmittedLine) -> Result<Vec<u8>, AllocError>
    ensures { IfOk result (λ made. made.items ≡ remark_body (remark_of left.now)) }
{
    let mut made = spaced_words(alloc, &left.text)?;
    made.truncate(LONGEST_SHOWN);
    push_text(&mut made, ": ")?;
    push_text(&mut made, left.reason.words())?;
    Ok(made)
}

/// Returns the first bytes of a text, as many as this.
fn first_bytes(count: usize, text: &[u8]) -> &[u8]
    ensures { result.now ≡ take count text.now }
{
    &text[..count.min(text.len())]
}

/// Returns what follows the beginning of a comment in a line.
fn after_start(line: &[u8]) -> &[u8]
    ensures { result.now ≡ drop 11 line.now }
{
    &line[START.len().min(line.len())..]
}

/// Chooses what is shown for a byte.
fn shown_byte(byte: u8) -> u8
    ensures { result ≡ shown_byte byte }
{
    if byte == b'\t' {
        b' '
    } else if byte > 31 && byte < 127 {
        byte
    } else {
        b'?'
    }
}

/// Appends what is shown for bytes.
fn push_shown(out: &mut Vec<u8>, bytes: &[u8]) -> Result<(), AllocError>
    ensures { OnOk result (out.new.items ≡ out.old.items ++ map shown_byte bytes.now) }
{
    for byte in bytes {
        out.extend_from_slice(&[shown_byte(*byte)])?;
    }
    Ok(())
}

/// Makes a comment that says this, without a newline.
fn comment(alloc: Global, body: &[u8]) -> Result<Vec<u8>, AllocError>
    ensures { IfOk result (λ made. made.items ≡ comment body.now) }
{
    let mut made = Vec::new(alloc);
    push_text(&mut made, "# left out:")?;
    push_shown(&mut made, first_bytes(LONGEST_BODY, body))?;
    Ok(made)
}

/// Appends the comment for a line, unless the kernel makes its route itself.
fn push_remark(out: &mut Vec<u8>, alloc: Global, left: &OmittedLine) -> Result<(), AllocError>
    ensures { OnOk result (out.new.items ≡ out.old.items ++ remark_comment (remark_of left.now)) }
{
    if left.is_kernel_made() {
        return Ok(());
    }
    let body = remark_body(alloc, left)?;
    push_line(out, &comment(alloc, &body)?)
}

/// Counts the lines that are left out since the kernel makes their routes itself, for the addresses of its interfaces.
pub fn kernel_routes(left: &[OmittedLine]) -> usize
    ensures { result ≡ kernel_routes left.now }
{
    left.iter().filter(|line| line.is_kernel_made()).count()
}

/// Builds what the comment that counts the routes of the kernel says.
fn count_body(alloc: Global, count: usize) -> Result<Vec<u8>, AllocError>
    ensures { IfOk result (λ made. made.items ≡ count_body count) }
{
    let mut made = Vec::new(alloc);
    push_text(&mut made, " routes that the kernel makes itself: ")?;
    push_part(&mut made, &Part::Alone(Value::Number(count as u64)))?;
    Ok(made)
}

/// Appends the comment that counts the routes of the kernel, if there are some.
fn push_count(out: &mut Vec<u8>, alloc: Global, count: usize) -> Result<(), AllocError>
    ensures { OnOk result (out.new.items ≡ out.old.items ++ count_comment count) }
{
    if count == 0 {
        return Ok(());
    }
    let body = count_body(alloc, count)?;
    push_line(out, &comment(alloc, &body)?)
}

/// Appends the comment for each of the lines, unless the kernel makes its route itself.
fn push_remarks(out: &mut Vec<u8>, alloc: Global, left: &[OmittedLine]) -> Result<(), AllocError>
    ensures { OnOk result (out.new.items ≡ out.old.items ++ flat_map remark_comment (map remark_of left.now)) }
{
    for line in left {
        push_remark(out, alloc, line)?;
    }
    Ok(())
}

/// Appends the comments for the lines that are left out: one for each, but a count of the routes that the kernel makes
/// itself.
#[tactic(auto, using(crate::proofs::Counting::same_count))]
pub(crate) fn push_comments(
    out: &mut Vec<u8>,
    alloc: Global,
    left: &[OmittedLine],
) -> Result<(), AllocError>
    ensures { OnOk result (out.new.items ≡ out.old.items ++ comments (map remark_of left.now)) }
{
    push_remarks(out, alloc, left)?;
    push_count(out, alloc, kernel_routes(left))
}

/// Checks whether a line of a script is a comment that says what was left out.
fn is_left_out(line: &[u8]) -> bool
    ensures { result ≡ is_left_out line.now }
{
    is(START, first_bytes(START.len(), line))
}

/// Checks whether what a comment says after its beginning may be about this destination: it is not about a route for others.
fn may_be_for(destination: Addr, text: &[u8]) -> bool
    ensures { result ≡ may_be_for destination (destination_of (words text.now)) }
{
    let Some(word) = destination_of(text) else {
        return true;
    };
    match read_prefix(word) {
        Ok(prefix) => prefix.contains(destination),
        Err(_) => true,
    }
}

/// Checks whether a line of a script is a comment that says what was left out, perhaps for this destination.
fn concerns(destination: Option<Addr>, line: &[u8]) -> bool
    ensures { result ≡ concerns destination line.now }
{
    match destination {
        Some(addr) => is_left_out(line) && may_be_for(addr, after_start(line)),
        None => is_left_out(line),
    }
}

/// Collects the lines of a script that say what was left out of it when it was made of a listing, each with a newline. With a
/// destination these are the ones that could have decided what becomes of a packet to it: those about a rule, about a route
/// for this destination, and about the routes that the kernel makes itself.
///
/// # Errors
///
/// Memory is refused.
pub fn left_out(
    alloc: Global,
    script: &[u8],
    destination: Option<Addr>,
) -> Result<Vec<u8>, AllocError>
    ensures { IfOk result (λ lines. lines.items ≡ left_out destination script.now) }
{
    let mut lines = Vec::new(alloc);
    let mut rest = script;
    while let Some((line, after)) = next_line(rest) {
        if concerns(destination, line) {
            push_line(&mut lines, line)?;
        }
        rest = after;
    }
    Ok(lines)
}
