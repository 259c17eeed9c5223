//! The line that adds the rule of a line of `ip rule`.
ghost use Rattle.std.specs.Prelude.{◌≡◌, ◌==◌, IfErr, IfOk, Ok, option_map, position};
ghost use Rattle.std.specs.Char.{is_ascii_digit};
ghost use Rattle.std.specs.List.{list_all};
ghost use Rattle.prt_command.specs.Reading.{reading, words};
ghost use Rattle.prt_import.specs.Fault.{IsWhy};
ghost use Rattle.prt_import.specs.NewLines.{added_rule, checked, priority_of, rule_line, rule_text};
ghost use Rattle.prt_import.specs.TableNames.{known_names};

use crate::fault::Fault;
use crate::known::Object;
use crate::names::HostNames;
use crate::reason::Reason;
use crate::step::Place;
use crate::translate::push_words;
use prt_command::{Command, NewRule, Refusal, Request, read_line};
use prt_listing::push_text;
use std::alloc::Global;

/// Finds the first colon.
fn first_colon(word: &[u8]) -> Option<usize>
    ensures { result ≡ position (λ b. b == 58) word.now }
{
    word.iter().position(|byte| *byte == b':')
}

/// Checks whether each byte is a digit.
pub(crate) fn are_digits(word: &[u8]) -> bool
    ensures { result ≡ list_all is_ascii_digit word.now }
{
    word.iter().all(|byte| byte.is_ascii_digit())
}

/// Takes the priority of a word that begins a rule's line: `32766:`.
pub(crate) fn priority_of(word: &[u8]) -> Option<&[u8]>
    ensures { option_map (λ digits. digits.now) result ≡ priority_of word.now }
{
    let end = first_colon(word)?;
    let digits = &word[..end];
    if end > 0 && (end + 1 == word.len() && are_digits(digits)) {
        Some(digits)
    } else {
        None
    }
}

/// Reads a line as one that adds a rule.
fn added_rule(line: &[u8]) -> Result<NewRule, Refusal>
    ensures { result ≡ added_rule (reading line.now) }
{
    match read_line(line)? {
        Some(Request::Command(Command::RuleAdd(rule))) => Ok(rule),
        // A line that begins with `rule add` asks for nothing else.
        _ => Err(Refusal::UnknownVerb),
    }
}

/// Reads a line that adds a rule, and has no comment.
fn checked_rule(line: &[u8]) -> Result<NewRule, Reason>
    ensures { result ≡ checked added_rule line.now }
{
    if line.contains(&b'#') {
        return Err(Reason::Comment);
    }
    match added_rule(line) {
        Ok(rule) => Ok(rule),
        Err(refusal) => Err(Reason::Refused(refusal)),
    }
}

/// Puts together the line that adds a rule of this priority with these items.
fn rule_text(
    alloc: Global,
    names: &HostNames,
    priority: &[u8],
    items: &[u8],
) -> Result<Vec<u8>, Fault>
    ensures ok { IfOk result (λ line. rule_text (known_names names.now) priority.now (words items.now) ≡ Ok line.items) }
    ensures err { IfErr result (λ fault. IsWhy (rule_text (known_names names.now) priority.now (words items.now)) fault) }
{
    let mut line = Vec::new(alloc);
    push_text(&mut line, "rule add priority ")?;
    line.extend_from_slice(priority)?;
    push_words(&mut line, names, Object::Rule, Place::Item, items)?;
    Ok(line)
}

/// Makes the line that adds a rule of this priority with these items. It asks for that.
///
/// # Errors
///
/// `Left` if there is no such line, `NoMemory` if memory is refused.
pub(crate) fn rule_line(
    alloc: Global,
    names: &HostNames,
    priority: &[u8],
    items: &[u8],
) -> Result<Vec<u8>, Fault>
    ensures ok { IfOk result (λ line. rule_line (known_names names.now) priority.now (words items.now) ≡ Ok line.items) }
    ensures err { IfErr result (λ fault. IsWhy (rule_line (known_names names.now) priority.now (words items.now)) fault) }
{
    let line = rule_text(alloc, names, priority, items)?;
    match checked_rule(&line) {
        Ok(_) => Ok(line),
        Err(reason) => Err(Fault::Left(reason)),
    }
}
