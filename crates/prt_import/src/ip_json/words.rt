//! Texts and words of a line.
ghost use Rattle.std.specs.Prelude.{◌≡◌, ◌++◌, OnOk, bytes_eq};
ghost use Rattle.std.specs.List.{list_all};
ghost use Rattle.prt_import.specs.IpJson.Words.{is_word, is_word_byte, own_label, word};

use prt_listing::push_text;
use std::alloc::AllocError;

/// What is written for a value that no line has: two words, so that one of them is where an item begins.
pub(crate) const UNSAID: &str = "{} {}";

/// The same, for the next words of a line.
pub(crate) const UNSAID_NEXT: &str = " {} {}";

/// A line of it.
pub(crate) const UNSAID_LINE: &str = "{} {}\n";

/// Checks whether a name is this text.
pub(crate) fn is(name: &str, text: &str) -> bool
    ensures { result ≡ bytes_eq text.now name.now }
{
    text == name
}

/// Checks whether a byte may be in a word: no white space and no control byte.
fn is_word_byte(byte: u8) -> bool
    ensures { result ≡ is_word_byte byte }
{
    byte > 32 && byte != 127
}

/// Checks whether all bytes may be in a word.
fn has_word_bytes(bytes: &[u8]) -> bool
    ensures { result ≡ list_all is_word_byte bytes.now }
{
    bytes.iter().all(|byte| is_word_byte(*byte))
}

/// Checks whether a text is one word.
fn is_word(text: &str) -> bool
    ensures { result ≡ is_word text.now }
{
    !text.is_empty() && has_word_bytes(text.as_bytes())
}

/// Appends a text that is a word, or `UNSAID`.
pub(crate) fn push_word(out: &mut Vec<u8>, text: &str) -> Result<(), AllocError>
    ensures { OnOk result (out.new.items ≡ out.old.items ++ word text.now) }
{
    push_text(out, if is_word(text) { text } else { UNSAID })
}

/// Appends a space and such a word.
pub(crate) fn push_next_word(out: &mut Vec<u8>, text: &str) -> Result<(), AllocError>
    ensures { OnOk result (out.new.items ≡ out.old.items ++ own_label text.now) }
{
    push_text(out, " ")?;
    push_word(out, text)
}
