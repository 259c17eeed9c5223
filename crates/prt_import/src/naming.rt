//! Names of tables in place of their numbers, in a text that prt prints.
ghost use Rattle.std.specs.Prelude.{◌≡◌, ◌<◌, ◌++◌, [], ◌∷◌, IfOk, MatchOption, OnOk, length, option_map, position};
ghost use Rattle.std.specs.List.{flat_map};
ghost use Rattle.prt_addr.specs.Decimal.{at_most, decimal_value};
ghost use Rattle.prt_addr.specs.Word.{is_one_of};
ghost use Rattle.prt_import.specs.Naming.{escaped, is_separator, last_word, name_of, name_text, pieces, shown, table_words, with_names};
ghost use Rattle.prt_import.specs.TableNames.{names_of};

use crate::names::Names;
use prt_addr::read_number;
use prt_command::is;
use std::alloc::{AllocError, Global};

/// How a text is written.
#[derive(Clone, Copy, Debug, PartialEq, Eq)]
pub enum Text {
    /// Lines of words: a listing, a script or an explanation.
    Lines,
    /// JSON (RFC 8259).
    Json,
}

/// A piece of a text.
#[derive(Clone, Copy)]
struct Cut<'a> {
    piece: &'a [u8],
    /// The byte that ends it.
    separator: u8,
    /// The text after that.
    rest: &'a [u8],
}

impl Text {
    /// Checks whether the byte separates pieces.
    fn is_separator(self, byte: u8) -> bool
        ensures { result ≡ is_separator self byte }
    {
        match self {
            Text::Lines => byte == b' ' || byte == b'\t' || byte == b'\n' || byte == b':',
            Text::Json => byte == b'"' || byte == b':',
        }
    }

    /// Checks whether a table follows the word.
    fn is_table_word(self, word: &[u8]) -> bool
        ensures { result ≡ is_one_of word.now (table_words self) }
    {
        match self {
            Text::Lines => is(word, b"table") || is(word, b"lookup"),
            Text::Json => is(word, b"table"),
        }
    }
}

/// Finds the first separator.
fn first_separator(form: Text, text: &[u8]) -> Option<usize>
    ensures { result ≡ position (is_separator form) text.now }
{
    text.iter().position(|byte| form.is_separator(*byte))
}

/// Takes the first piece of a text, if a separator ends it.
fn next_piece(form: Text, text: &[u8]) -> Option<Cut<'_>>
    ensures { MatchOption result (pieces form text.now ≡ record { word = text.now; ended = [] } ∷ [])
        (λ cut. (pieces form text.now ≡ record { word = cut.piece.now; ended = cut.separator ∷ [] } ∷ pieces form cut.rest.now)
        × (length cut.rest.now < length text.now)) }
{
    let at = first_separator(form, text)?;
    Some(Cut {
        piece: &text[..at],
        separator: text[at],
        rest: &text[at + 1..],
    })
}

/// Returns the last piece of a line that is not empty, after one more.
fn last_word<'a>(before: &'a [u8], cut: &Cut<'a>) -> &'a [u8]
    ensures { result.now ≡ last_word before.now (record { word = cut.now.piece.now; ended = cut.now.separator ∷ [] }) }
{
    if cut.separator == b'\n' {
        b""
    } else if cut.piece.is_empty() {
        before
    } else {
        cut.piece
    }
}

/// Reads a number in decimal digits.
fn decimal_number(word: &[u8]) -> Option<u32>
    ensures { result ≡ at_most 4294967295 (decimal_value word.now) }
{
    match word {
        [b'0', b'x' | b'X', ..] => None,
        _ => read_number(word).ok(),
    }
}

/// Finds the name of the table whose number the word is.
fn name_of<'a>(names: &'a Names, word: &[u8]) -> Option<&'a [u8]>
    ensures { option_map (λ name. name.now) result ≡ name_of (names_of names.now) word.now }
{
    names.last(decimal_number(word)?)
}

/// Appends a byte of a name in JSON.
fn push_escaped(out: &mut Vec<u8>, byte: u8) -> Result<(), AllocError>
    ensures { OnOk result (out.new.items ≡ out.old.items ++ escaped byte) }
{
    if byte == b'"' || byte == b'\\' {
        out.extend_from_slice(&[b'\\', byte])
    } else {
        out.extend_from_slice(&[byte])
    }
}

/// Appends the bytes of a name in JSON.
fn push_all_escaped(out: &mut Vec<u8>, name: &[u8]) -> Result<(), AllocError>
    ensures { OnOk result (out.new.items ≡ out.old.items ++ flat_map escaped name.now) }
{
    for byte in name {
        push_escaped(out, *byte)?;
    }
    Ok(())
}

/// Appends a name.
fn push_name(out: &mut Vec<u8>, form: Text, name: &[u8]) -> Result<(), AllocError>
    ensures { OnOk result (out.new.items ≡ out.old.items ++ name_text form name.now) }
{
    match form {
        Text::Lines => out.extend_from_slice(name),
        Text::Json => push_all_escaped(out, name),
    }
}

/// Appends a piece that comes after this word, or the name of the table that it is.
fn push_piece(
    out: &mut Vec<u8>,
    names: &Names,
    form: Text,
    before: &[u8],
    piece: &[u8],
) -> Result<(), AllocError>
    ensures { OnOk result (out.new.items ≡ out.old.items ++ shown form (names_of names.now) before.now piece.now) }
{
    if !form.is_table_word(before) {
        return out.extend_from_slice(piece);
    }
    match name_of(names, piece) {
        Some(name) => push_name(out, form, name),
        None => out.extend_from_slice(piece),
    }
}

/// Copies a text that prt printed, with the name of each table in place of its number, if the table has a name. All else
/// stays as it was.
///
/// Of several names of one number it is the one that was read last, as iproute2 shows it.
///
/// # Errors
///
/// Memory is refused.
pub fn with_names(
    alloc: Global,
    names: &Names,
    form: Text,
    text: &[u8],
) -> Result<Vec<u8>, AllocError>
    ensures { IfOk result (λ named. named.items ≡ with_names form (names_of names.now) text.now) }
{
    let mut out = Vec::with_capacity(alloc, text.len())?;
    let mut before: &[u8] = b"";
    let mut rest = text;
    while let Some(cut) = next_piece(form, rest) {
        push_piece(&mut out, names, form, before, cut.piece)?;
        out.push(cut.separator)?;
        before = last_word(before, &cut);
        rest = cut.rest;
    }
    push_piece(&mut out, names, form, before, rest)?;
    Ok(out)
}
