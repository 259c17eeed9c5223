//! What is shown of what a server says of itself.
ghost use Rattle.std.specs.Prelude.{◌≡◌, ◌==◌, ◌++◌, IfOk, MatchOption, None, OnOk, Some, flat_map, map, position, true};
ghost use Rattle.std.specs.Char.{is_ascii_digit};
ghost use Rattle.std.specs.List.{list_all};
ghost use Rattle.prt_import.specs.Lines.{lines_of};
ghost use Rattle.prt_questions.specs.StatusText.{figure_line, figure_text, figures_text, is_closed, is_digits, is_number, json_value, line_byte};
ghost use Rattle.prt_questions.specs.StatusText.{member, metric, parts_at, sample, shown_byte, status_text, string_byte, string_text};

use prt_args::StatusForm;
use prt_import::next_line;
use std::alloc::{AllocError, Global};

/// What the line of a closed server begins with.
const CLOSED_LINE: &[u8] = b"state closed";

/// What the name of each metric begins with.
const PREFIX: &[u8] = b"prt_";

/// Finds the first byte that is this one.
fn place_of(text: &[u8], byte: u8) -> Option<usize>
    ensures { result ≡ position (λ b. b == byte) text.now }
{
    text.iter().position(|it| *it == byte)
}

/// Splits a text at the first byte that is this one.
fn split_at(text: &[u8], byte: u8) -> Option<(&[u8], &[u8])>
    ensures { MatchOption result (parts_at byte text.now ≡ None) (λ parts. parts_at byte text.now ≡ Some (parts.0.now, parts.1.now)) }
{
    match place_of(text, byte) {
        Some(at) => Some((&text[..at], &text[at + 1..])),
        None => None,
    }
}

/// Checks whether a text has no byte but digits.
fn has_only_digits(text: &[u8]) -> bool
    ensures { result ≡ list_all is_ascii_digit text.now }
{
    text.iter().all(|byte| byte.is_ascii_digit())
}

/// Checks whether a text is one digit or more, and nothing else.
fn is_digits(text: &[u8]) -> bool
    ensures { result ≡ is_digits text.now }
{
    !text.is_empty() && has_only_digits(text)
}

/// Checks whether a value is a number, which may have decimals. A version with two dots is none.
fn is_number(value: &[u8]) -> bool
    ensures { result ≡ is_number value.now }
{
    match split_at(value, b'.') {
        Some((whole, decimals)) => is_digits(whole) && is_digits(decimals),
        None => is_digits(value),
    }
}

/// Chooses what is shown of a byte of a name to a person.
fn line_byte(byte: u8) -> u8
    ensures { result ≡ line_byte byte }
{
    if byte == b'_' { b' ' } else { byte }
}

/// Appends the name of a figure for a person.
fn push_name(out: &mut Vec<u8>, name: &[u8]) -> Result<(), AllocError>
    ensures { OnOk result (out.new.items ≡ out.old.items ++ map line_byte name.now) }
{
    for byte in name {
        out.extend_from_slice(&[line_byte(*byte)])?;
    }
    Ok(())
}

/// Appends a figure as a line for a person.
fn push_line(out: &mut Vec<u8>, name: &[u8], value: &[u8]) -> Result<(), AllocError>
    ensures { OnOk result (out.new.items ≡ out.old.items ++ figure_line name.now value.now) }
{
    push_name(out, name)?;
    out.extend_from_slice(b": ")?;
    out.extend_from_slice(value)?;
    out.extend_from_slice(b"\n")
}

/// Appends a sample of a metric.
fn push_sample(out: &mut Vec<u8>, name: &[u8], value: &[u8]) -> Result<(), AllocError>
    ensures { OnOk result (out.new.items ≡ out.old.items ++ sample name.now value.now) }
{
    out.extend_from_slice(PREFIX)?;
    out.extend_from_slice(name)?;
    out.extend_from_slice(b" ")?;
    out.extend_from_slice(value)?;
    out.extend_from_slice(b"\n")
}

/// Appends a figure as a metric, if it is a number. Whether the server is open is one too.
fn push_metric(out: &mut Vec<u8>, name: &[u8], value: &[u8]) -> Result<(), AllocError>
    ensures { OnOk result (out.new.items ≡ out.old.items ++ metric name.now value.now) }
{
    if name == b"state".as_slice() {
        if value == b"open".as_slice() {
            return push_sample(out, b"open", b"1");
        }
        return push_sample(out, b"open", b"0");
    }
    if is_number(value) {
        return push_sample(out, name, value);
    }
    Ok(())
}

/// Chooses what is shown of a byte: what isn't printable could be a command to the terminal.
fn shown_byte(byte: u8) -> u8
    ensures { result ≡ shown_byte byte }
{
    if b' ' <= byte && byte <= b'~' {
        byte
    } else {
        b'?'
    }
}

/// Appends a byte of a string of JSON.
fn push_string_byte(out: &mut Vec<u8>, byte: u8) -> Result<(), AllocError>
    ensures { OnOk result (out.new.items ≡ out.old.items ++ string_byte byte) }
{
    if byte == b'"' || byte == b'\\' {
        out.extend_from_slice(&[b'\\', byte])
    } else {
        out.extend_from_slice(&[shown_byte(byte)])
    }
}

/// Appends the bytes of a string of JSON.
fn push_string_bytes(out: &mut Vec<u8>, text: &[u8]) -> Result<(), AllocError>
    ensures { OnOk result (out.new.items ≡ out.old.items ++ flat_map string_byte text.now) }
{
    for byte in text {
        push_string_byte(out, *byte)?;
    }
    Ok(())
}

/// Appends a string of JSON.
fn push_string(out: &mut Vec<u8>, text: &[u8]) -> Result<(), AllocError>
    ensures { OnOk result (out.new.items ≡ out.old.items ++ string_text text.now) }
{
    out.extend_from_slice(b"\"")?;
    push_string_bytes(out, text)?;
    out.extend_from_slice(b"\"")
}

/// Appends a value of JSON.
fn push_value(out: &mut Vec<u8>, value: &[u8]) -> Result<(), AllocError>
    ensures { OnOk result (out.new.items ≡ out.old.items ++ json_value value.now) }
{
    if is_number(value) {
        return out.extend_from_slice(value);
    }
    if value == b"-".as_slice() {
        return out.extend_from_slice(b"null");
    }
    push_string(out, value)
}

/// Appends a figure as a member of an object of JSON.
fn push_member(out: &mut Vec<u8>, name: &[u8], value: &[u8]) -> Result<(), AllocError>
    ensures { OnOk result (out.new.items ≡ out.old.items ++ member name.now value.now) }
{
    out.extend_from_slice(b"\"")?;
    out.extend_from_slice(name)?;
    out.extend_from_slice(b"\":")?;
    push_value(out, value)
}

/// Appends a figure in a form. In JSON a comma parts it from the one before.
fn push_figure(
    out: &mut Vec<u8>,
    form: StatusForm,
    is_first: bool,
    name: &[u8],
    value: &[u8],
) -> Result<(), AllocError>
    ensures { OnOk result (out.new.items ≡ out.old.items ++ figure_text form is_first name.now value.now) }
{
    match form {
        StatusForm::Lines => push_line(out, name, value),
        StatusForm::Metrics => push_metric(out, name, value),
        StatusForm::Json => {
            if !is_first {
                out.extend_from_slice(b",")?;
            }
            push_member(out, name, value)
        }
    }
}

/// Appends the figures of a text in a form: each line that has a space is one.
fn push_figures(out: &mut Vec<u8>, form: StatusForm, said: &[u8]) -> Result<(), AllocError>
    ensures { OnOk result (out.new.items ≡ out.old.items ++ figures_text form true (lines_of said.now)) }
{
    let mut is_first = true;
    let mut rest = said;
    while let Some((line, after)) = next_line(rest) {
        rest = after;
        if let Some((name, value)) = split_at(line, b' ') {
            push_figure(out, form, is_first, name, value)?;
            is_first = false;
        }
    }
    Ok(())
}

/// Formats what a server said of itself.
pub(crate) fn status_text(
    alloc: Global,
    said: &[u8],
    form: StatusForm,
) -> Result<Vec<u8>, AllocError>
    ensures { IfOk result (λ text. text.items ≡ status_text form said.now) }
{
    let mut out = Vec::new(alloc);
    if let StatusForm::Json = form {
        out.extend_from_slice(b"{")?;
        push_figures(&mut out, form, said)?;
        out.extend_from_slice(b"}\n")?;
    } else {
        push_figures(&mut out, form, said)?;
    }
    Ok(out)
}

/// Checks whether a server said that it takes no command any more.
pub(crate) fn is_closed(said: &[u8]) -> bool
    ensures { result ≡ is_closed said.now }
{
    let mut rest = said;
    while let Some((line, after)) = next_line(rest) {
        if line.starts_with(CLOSED_LINE) {
            return true;
        }
        rest = after;
    }
    false
}
