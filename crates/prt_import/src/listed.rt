//! Texts that are not the listing that is read.
ghost use Rattle.std.specs.Prelude.{◌≡◌, None, Some, IfErr, OnOk};
ghost use Rattle.std.specs.List.{list_all, list_any};
ghost use Rattle.prt_addr.specs.Word.{is_one_of};
ghost use Rattle.prt_command.specs.Reading.{words};
ghost use Rattle.prt_import.specs.Lines.{lines_of};
ghost use Rattle.prt_import.specs.Listed.{any_has, begins, destination_sign, detailed_protocols, ends_with, form_fault, has, has_colon, is_address};
ghost use Rattle.prt_import.specs.Listed.{is_address_byte, is_numeric_item, is_number, line_sign, lines_sign, listing_fault, numbered_protocols};
ghost use Rattle.prt_import.specs.Listed.{numbered_scopes, numbered_tables, pair_sign, preferences, route_sign, rule_sign, sign_after};
ghost use Rattle.prt_import.specs.Listed.{tells_protocol};
ghost use Rattle.prt_import.specs.Script.{is_rule};

use crate::known::Object;
use crate::lines::next_line;
use crate::rule::{are_digits, priority_of};
use crate::step::{is_dropping_type, is_other_type};
use prt_command::{is, next_word};
use std::fmt;

/// Why a text is not taken as what `ip -4 rule` and `ip -4 route show table all` print.
///
/// Not every other form can be known by its text. Rules of IPv6 without addresses look like those of IPv4. With `-o` and `-d`
/// the text of some routes and rules is the same as without. Of busybox it is known that it prints neither `not` nor `proto`,
/// and a space at the end of a rule: iproute2 before 4.17 had the space too, so a listing of rules alone that has none
/// of the two words is refused though it may be iproute2's.
#[derive(Clone, Copy, Debug, PartialEq, Eq)]
pub enum NoListing {
    /// No line has a word.
    Empty,
    /// The last line has no newline, so the end of the text may be missing.
    Cut,
    /// No line begins as that of a rule or of a route.
    NoLine,
    /// A rule or a route of IPv6.
    OtherFamily,
    /// `ip -N`: a type, a table, a scope or a protocol by its number, though it has a name.
    Numeric,
    /// `ip -o`: a route with its next hops on one line.
    OneLine,
    /// `ip -d`: the type of a route that is `unicast`, or the protocol of a rule that has none of its own.
    Details,
    /// The `ip` of busybox, which does not print `not`: a rule would be kept inverted.
    Busybox,
}

impl NoListing {
    /// Says it in a few words.
    fn words(&self) -> &'static str {
        match self {
            NoListing::Empty => "the listing is empty",
            NoListing::Cut => "the last line has no newline: the end of the listing may be missing",
            NoListing::NoLine => "no line is a rule or a route of `ip`",
            NoListing::OtherFamily =>
                "rules or routes of IPv6: list those of IPv4 alone, by `ip -4`",
            NoListing::Numeric => "this is printed by `ip -N`: list without -N",
            NoListing::OneLine => "this is printed by `ip -o`: list without -o",
            NoListing::Details => "this is printed by `ip -d`: list without -d",
            NoListing::Busybox => {
                "this may be printed by busybox, which leaves out `not`: list with the `ip` of iproute2"
            }
        }
    }
}

impl fmt::Display for NoListing {
    fn fmt<W: fmt::Write>(&self, f: &mut fmt::Formatter<W>) -> fmt::Result {
        f.write_str(self.words())
    }
}

/// What a line may have.
#[derive(Clone, Copy)]
enum Feature {
    HasWord,
    /// Its first word begins a rule or a route.
    Begins,
    /// It is a rule's, and ends with a space.
    EndsWithSpace,
    /// One of the words that busybox never prints.
    HasProtocol,
}

/// Checks whether an address of IPv6 may be in the word.
fn has_colon(word: &[u8]) -> bool
    ensures { result ≡ has_colon word.now }
{
    word.contains(&b':')
}

/// Checks whether the word is decimal digits.
fn is_number(word: &[u8]) -> bool
    ensures { result ≡ is_number word.now }
{
    !word.is_empty() && are_digits(word)
}

/// Checks whether the byte may be in an address or a prefix of IPv4.
fn is_address_byte(byte: u8) -> bool
    ensures { result ≡ is_address_byte byte }
{
    byte.is_ascii_digit() || byte == b'.' || byte == b'/'
}

/// Checks whether each byte may be in an address or a prefix of IPv4.
fn are_address_bytes(word: &[u8]) -> bool
    ensures { result ≡ list_all is_address_byte word.now }
{
    word.iter().all(|byte| is_address_byte(*byte))
}

/// Checks whether the word is written as an address or a prefix of IPv4.
fn is_address(word: &[u8]) -> bool
    ensures { result ≡ is_address word.now }
{
    !word.is_empty() && are_address_bytes(word)
}

/// Checks whether the word is the number of a table that has a name on each host.
fn is_numbered_table(word: &[u8]) -> bool
    ensures { result ≡ is_one_of word.now numbered_tables }
{
    is(word, b"253") || is(word, b"254") || is(word, b"255")
}

/// Checks whether a value of a route is written as a number, though it has a name on each host.
fn is_numeric_item(before: &[u8], word: &[u8]) -> bool
    ensures { result ≡ is_numeric_item before.now word.now }
{
    (is(before, b"table") && is_numbered_table(word))
        || (is(before, b"scope") && (is(word, b"253") || is(word, b"254")))
        || (is(before, b"proto") && (is(word, b"2") || is(word, b"4")))
}

/// Finds the sign of another form in a word of a rule and the one before it.
fn rule_sign(before: &[u8], word: &[u8]) -> Option<NoListing>
    ensures { result ≡ rule_sign before.now word.now }
{
    if is(before, b"lookup") && is_numbered_table(word) {
        Some(NoListing::Numeric)
    } else if is(before, b"proto") && (is(word, b"kernel") || is(word, b"unspec")) {
        Some(NoListing::Details)
    } else if (is(before, b"from") || is(before, b"to")) && has_colon(word) {
        Some(NoListing::OtherFamily)
    } else {
        None
    }
}

/// Checks whether the word is a preference of a route of IPv6.
fn is_preference(word: &[u8]) -> bool
    ensures { result ≡ is_one_of word.now preferences }
{
    is(word, b"low") || is(word, b"medium") || is(word, b"high")
}

/// Finds the sign of another form in a word of a route and the one before it.
fn route_sign(before: &[u8], word: &[u8]) -> Option<NoListing>
    ensures { result ≡ route_sign before.now word.now }
{
    if is_numeric_item(before, word) {
        Some(NoListing::Numeric)
    } else if is(word, b"\\") && !is(before, b"dev") {
        Some(NoListing::OneLine)
    } else if (is(before, b"via") && has_colon(word))
        || (is(before, b"pref") && is_preference(word))
    {
        Some(NoListing::OtherFamily)
    } else {
        None
    }
}

/// Finds the sign of another form in two words.
fn pair_sign(object: Object, before: &[u8], word: &[u8]) -> Option<NoListing>
    ensures { result ≡ pair_sign object before.now word.now }
{
    match object {
        Object::Rule => rule_sign(before, word),
        Object::Route => route_sign(before, word),
    }
}

/// Finds the first sign of another form in a text, after this word.
fn sign_after(object: Object, before: &[u8], text: &[u8]) -> Option<NoListing>
    ensures { result ≡ sign_after object before.now (words text.now) }
{
    let mut before = before;
    let mut rest = text;
    while let Some((word, after)) = next_word(rest) {
        let sign = pair_sign(object, before, word);
        if sign.is_some() {
            return sign;
        }
        before = word;
        rest = after;
    }
    None
}

/// Finds the sign of another form in the word that begins a route's line.
fn destination_sign(word: &[u8]) -> Option<NoListing>
    ensures { result ≡ destination_sign word.now }
{
    if is_number(word) {
        Some(NoListing::Numeric)
    } else if is(word, b"unicast") {
        Some(NoListing::Details)
    } else if has_colon(word) {
        Some(NoListing::OtherFamily)
    } else {
        None
    }
}

/// Finds the first sign of another form in a line.
fn line_sign(line: &[u8]) -> Option<NoListing>
    ensures { result ≡ line_sign (words line.now) }
{
    let (word, items) = next_word(line)?;
    if priority_of(word).is_some() {
        return sign_after(Object::Rule, word, items);
    }
    match destination_sign(word) {
        Some(sign) => Some(sign),
        None => sign_after(Object::Route, word, items),
    }
}

/// Finds the first sign of another form in the lines of a text.
fn lines_sign(text: &[u8]) -> Option<NoListing>
    ensures { result ≡ lines_sign (lines_of text.now) }
{
    let mut rest = text;
    while let Some((line, after)) = next_line(rest) {
        let sign = line_sign(line);
        if sign.is_some() {
            return sign;
        }
        rest = after;
    }
    None
}

/// Checks whether a text ends with the byte.
fn ends_with(byte: u8, text: &[u8]) -> bool
    ensures { result ≡ ends_with byte text.now }
{
    match text.last() {
        Some(last) => *last == byte,
        None => false,
    }
}

/// Checks whether a line begins a rule.
fn is_rule(line: &[u8]) -> bool
    ensures { result ≡ is_rule (words line.now) }
{
    match next_word(line) {
        Some((word, _)) => priority_of(word).is_some(),
        None => false,
    }
}

/// Checks whether a line begins as that of a rule or of a route.
fn begins(line: &[u8]) -> bool
    ensures { result ≡ begins (words line.now) }
{
    let Some((word, _)) = next_word(line) else {
        return false;
    };
    priority_of(word).is_some()
        || is_dropping_type(word)
        || is_other_type(word)
        || is(word, b"default")
        || is_address(word)
}

/// Checks whether the line has a word that busybox never prints.
fn has_protocol(line: &[u8]) -> bool
    ensures { result ≡ list_any tells_protocol (words line.now) }
{
    let mut rest = line;
    while let Some((word, after)) = next_word(rest) {
        if is(word, b"proto") || is(word, b"not") {
            return true;
        }
        rest = after;
    }
    false
}

impl Feature {
    /// Checks whether a line has it.
    fn is_of(self, line: &[u8]) -> bool
        ensures { result ≡ has self line.now }
    {
        match self {
            Feature::HasWord => next_word(line).is_some(),
            Feature::Begins => begins(line),
            Feature::EndsWithSpace => is_rule(line) && ends_with(b' ', line),
            Feature::HasProtocol => has_protocol(line),
        }
    }

    /// Checks whether some line of a text has it.
    fn is_in(self, text: &[u8]) -> bool
        ensures { result ≡ any_has self (lines_of text.now) }
    {
        let mut rest = text;
        while let Some((line, after)) = next_line(rest) {
            if self.is_of(line) {
                return true;
            }
            rest = after;
        }
        false
    }
}

/// Finds why the lines of a text are of no form that is read, if no single line shows it.
fn form_fault(text: &[u8]) -> Option<NoListing>
    ensures { result ≡ form_fault (lines_of text.now) }
{
    if Feature::EndsWithSpace.is_in(text) && !Feature::HasProtocol.is_in(text) {
        Some(NoListing::Busybox)
    } else if Feature::Begins.is_in(text) {
        None
    } else {
        Some(NoListing::NoLine)
    }
}

/// Finds why a text is not taken as what `ip -4 rule` and `ip -4 route show table all` print.
fn listing_fault(text: &[u8]) -> Option<NoListing>
    ensures { result ≡ listing_fault text.now }
{
    if !Feature::HasWord.is_in(text) {
        return Some(NoListing::Empty);
    }
    if !ends_with(b'\n', text) {
        return Some(NoListing::Cut);
    }
    match lines_sign(text) {
        Some(sign) => Some(sign),
        None => form_fault(text),
    }
}

/// Checks whether a text may be taken as what `ip -4 rule` and `ip -4 route show table all` print: as a whole, of IPv4
/// alone, without options that change its words.
///
/// # Errors
///
/// Why it may not.
pub fn check_listing(text: &[u8]) -> Result<(), NoListing>
    ensures ok { OnOk result (listing_fault text.now ≡ None) }
    ensures err { IfErr result (λ fault. listing_fault text.now ≡ Some fault) }
{
    match listing_fault(text) {
        Some(fault) => Err(fault),
        None => Ok(()),
    }
}
