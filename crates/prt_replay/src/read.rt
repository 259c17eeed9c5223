//! The event of a line.
ghost use Rattle.std.specs.Prelude.{◌≡◌, ◌⊎◌, ◌++◌, Err, IfErr, MatchResult, Ok, OnOk, codes};
ghost use Rattle.prt_refusals.specs.declared.refusal.Refusal.TheVariants.{NoMemory};
ghost use Rattle.prt_command.specs.Reading.{words};
ghost use Rattle.prt_replay.specs.ReadSteps.{IsAdded};
ghost use Rattle.prt_replay.specs.ReadEvents.{at_end, command, commands, event_of, fate, line_event, line_request, lone_fate, lone_looker, look};
ghost use Rattle.prt_replay.specs.ReadEvents.{looker, packet, value_word};

use crate::words::{EventWord, event_word};
use crate::{Commands, Event, Fate, LookerNumber};
use prt_addr::read_number;
use prt_command::{Command, Packet, Query, Request, is, line_text, next_word, read_text};
use prt_refusals::Refusal;
use std::alloc::Global;

/// Takes a value, which has to be there: its word, and the text after it.
fn value_word(text: &[u8]) -> Result<(&[u8], &[u8]), Refusal>
    ensures { MatchResult result
        (λ next. value_word (words text.now) ≡ Ok (next.0.now, words next.1.now))
        (λ e. value_word (words text.now) ≡ Err e) }
{
    next_word(text).ok_or(Refusal::MissingValue)
}

/// Returns this if no word comes after it.
fn at_end<T: Drop>(value: T, text: &[u8]) -> Result<T, Refusal>
    ensures { result ≡ at_end value (words text.now) }
{
    match next_word(text) {
        None => Ok(value),
        Some(_) => Err(Refusal::UnknownWord),
    }
}

/// Reads the number of a looker.
fn read_looker(word: &[u8]) -> Result<LookerNumber, Refusal>
    ensures { result ≡ looker word.now }
{
    let number = read_number(word)?;
    LookerNumber::new(number).ok_or(Refusal::BadNumber)
}

/// Reads the number of a looker and nothing after it.
fn read_lone_looker(text: &[u8]) -> Result<LookerNumber, Refusal>
    ensures { result ≡ lone_looker (words text.now) }
{
    let (word, rest) = value_word(text)?;
    at_end(read_looker(word)?, rest)
}

/// Reads `kept` or `lost`.
fn read_fate(word: &[u8]) -> Result<Fate, Refusal>
    ensures { result ≡ fate word.now }
{
    if is(word, b"kept") {
        Ok(Fate::Kept)
    } else if is(word, b"lost") {
        Ok(Fate::Lost)
    } else {
        Err(Refusal::UnknownWord)
    }
}

/// Reads `kept` or `lost` and nothing after it.
fn read_lone_fate(text: &[u8]) -> Result<Fate, Refusal>
    ensures { result ≡ lone_fate (words text.now) }
{
    let (word, rest) = value_word(text)?;
    at_end(read_fate(word)?, rest)
}

/// Reads what a text asks for as a line of the command language.
fn read_request(text: &[u8]) -> Result<Request, Refusal>
    ensures { result ≡ line_request (words text.now) }
{
    match read_text(text) {
        Ok(Some(request)) => Ok(request),
        Ok(None) => Err(Refusal::MissingDestination),
        Err(refusal) => Err(refusal),
    }
}

/// Reads a command.
fn read_command(text: &[u8]) -> Result<Command, Refusal>
    ensures { result ≡ command (words text.now) }
{
    match read_request(text) {
        Ok(Request::Command(command)) => Ok(command),
        Ok(Request::Query(_)) => Err(Refusal::UnknownVerb),
        Err(refusal) => Err(refusal),
    }
}

/// Reads the packet of `route get`.
fn read_packet(text: &[u8]) -> Result<Packet, Refusal>
    ensures { result ≡ packet (words text.now) }
{
    match read_request(text) {
        Ok(Request::Query(Query::Get(packet))) => Ok(packet),
        Ok(_) => Err(Refusal::UnknownVerb),
        Err(refusal) => Err(refusal),
    }
}

/// Reads a looker, and the packet that it asks about.
fn read_look(text: &[u8]) -> Result<(LookerNumber, Packet), Refusal>
    ensures { result ≡ look (words text.now) }
{
    let (word, rest) = value_word(text)?;
    let looker = read_looker(word)?;
    let packet = read_packet(rest)?;
    Ok((looker, packet))
}

/// Reads a command as the event that submits it.
fn read_submit(text: &[u8]) -> Result<Event, Refusal>
    ensures { result ≡ event_of EventWord.Submit (words text.now) }
{
    match read_command(text) {
        Ok(command) => Ok(Event::Submit(command)),
        Err(refusal) => Err(refusal),
    }
}

/// Adds the command of a line to others.
fn add_command(them: &mut Vec<Command>, line: &[u8]) -> Result<(), Refusal>
    ensures { MatchResult result
        (λ _. IsAdded them.old.items (words line.now) them.new.items)
        (λ e. (command (words line.now) ≡ Err e) ⊎ (e ≡ NoMemory)) }
{
    match read_command(line) {
        Ok(command) => them.extend_from_slice(&[command])?,
        Err(refusal) => return Err(refusal),
    }
    Ok(())
}

/// Adds a word to a line, and a space.
fn add_word(line: &mut Vec<u8>, word: &[u8]) -> Result<(), Refusal>
    ensures line { OnOk result (line.new.items ≡ line.old.items ++ (word.now ++ codes " ")) }
    ensures reason { IfErr result (λ e. e ≡ NoMemory) }
{
    line.extend_from_slice(word)?;
    line.extend_from_slice(b" ")?;
    Ok(())
}

/// Reads commands that are in one line, with a word `;` between each and the next.
fn read_commands(alloc: Global, text: &[u8]) -> Result<Vec<Command>, Refusal>
    ensures { MatchResult result
        (λ them. commands (words text.now) ≡ Ok them.items)
        (λ e. (commands (words text.now) ≡ Err e) ⊎ (e ≡ NoMemory)) }
{
    let mut them = Vec::new(alloc);
    // The words of the command at hand, by themselves.
    let mut line = Vec::new(alloc);
    let mut rest = text;
    'words: while let Some((word, after)) = next_word(rest) {
        if is(word, b";") {
            if let Err(refusal) = add_command(&mut them, line.as_slice()) {
                return Err(refusal);
            }
            line.clear();
        } else {
            add_word(&mut line, word)?;
        }
        rest = after;
    }
    match add_command(&mut them, line.as_slice()) {
        Ok(()) => Ok(them),
        Err(refusal) => Err(refusal),
    }
}

/// Reads commands as the event that submits them together.
fn read_submit_all(alloc: Global, text: &[u8]) -> Result<Event, Refusal>
    ensures { (result ≡ event_of EventWord.SubmitAll (words text.now)) ⊎ (result ≡ Err NoMemory) }
{
    match read_commands(alloc, text) {
        Ok(commands) => Ok(Event::SubmitAll(Commands::new(commands))),
        Err(refusal) => Err(refusal),
    }
}

/// Reads the event that this word begins.
fn read_event(alloc: Global, first: EventWord, text: &[u8]) -> Result<Event, Refusal>
    ensures { (result ≡ event_of first (words text.now)) ⊎ (result ≡ Err NoMemory) }
{
    match first {
        EventWord::Submit => read_submit(text),
        EventWord::SubmitAll => read_submit_all(alloc, text),
        EventWord::Call => at_end(Event::Call, text),
        EventWord::Fail => read_lone_fate(text).map(Event::Fail),
        EventWord::Publish => at_end(Event::Publish, text),
        EventWord::PublishFail => at_end(Event::PublishFail, text),
        EventWord::Note => at_end(Event::Note, text),
        EventWord::Ack => at_end(Event::Ack, text),
        EventWord::Online => read_lone_looker(text).map(Event::Online),
        EventWord::Fetch => read_lone_looker(text).map(Event::Fetch),
        EventWord::Announce => read_lone_looker(text).map(Event::Announce),
        EventWord::Offline => read_lone_looker(text).map(Event::Offline),
        EventWord::Look => {
            let (looker, packet) = read_look(text)?;
            Ok(Event::Look(looker, packet))
        }
        EventWord::Reclaim => at_end(Event::Reclaim, text),
        EventWord::Stop => read_lone_fate(text).map(Event::Stop),
        EventWord::Reopen => at_end(Event::Reopen, text),
    }
}

/// Reads the event of a line; None if the line is blank or a comment.
///
/// # Errors
///
/// The first fault of the line, or `NoMemory`.
#[tactic(auto, unfolding(crate::specs::ReadEvents::line_event))]
pub(crate) fn read_event_line(alloc: Global, line: &[u8]) -> Result<Option<Event>, Refusal>
    ensures { (result ≡ line_event line.now) ⊎ (result ≡ Err NoMemory) }
{
    let text = line_text(line)?;
    match next_word(text) {
        None => Ok(None),
        Some((word, rest)) => {
            let first = event_word(word).ok_or(Refusal::UnknownWord)?;
            match read_event(alloc, first, rest) {
                Ok(event) => Ok(Some(event)),
                Err(refusal) => Err(refusal),
            }
        }
    }
}
