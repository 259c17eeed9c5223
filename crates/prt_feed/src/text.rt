//! The text of a feed.
ghost use Rattle.std.specs.Prelude.{◌≡◌, ◌++◌, IfErr, IfOk, IfSome, OnOk, codes, decimal};
ghost use Rattle.prt_dump.specs.PutBack.{IsPlainState, IsWhyNot, StateFits};
ghost use Rattle.prt_feed.specs.Feed.{change_line, opening_text};
ghost use Rattle.prt_feed.specs.Following.{HasLine};
ghost use Rattle.prt_spelling.specs.Fits.{CommandFits};

use itoa::Buffer;
use prt_command::Command;
use prt_dump::{DumpError, dump_text};
use prt_spelling::{is_spelled, push_line};
use prt_version::Version;
use std::alloc::{AllocError, Global};

/// Appends a number in decimal digits.
fn push_number(out: &mut Vec<u8>, number: u64) -> Result<(), AllocError>
    ensures { OnOk result (out.new.items ≡ out.old.items ++ decimal number) }
{
    let mut digits = Buffer::new();
    out.extend_from_slice(digits.format(number).as_bytes())
}

/// Puts the first line and the last one of an opening round the lines of a dump.
fn with_ends(alloc: Global, number: u64, dump: &[u8]) -> Result<Vec<u8>, AllocError>
    ensures { IfOk result (λ text. text.items ≡ codes "state " ++ decimal number ++ codes "\n" ++ dump.now ++ codes "now\n") }
{
    let mut text = Vec::new(alloc);
    text.extend_from_slice(b"state ")?;
    push_number(&mut text, number)?;
    text.extend_from_slice(b"\n")?;
    text.extend_from_slice(dump)?;
    text.extend_from_slice(b"now\n")?;
    Ok(text)
}

/// Builds the text with which a feed begins: `state` and the number of the version, the lines of its dump, and `now`.
///
/// # Errors
///
/// Those of [`dump_text`]: `Rule` or `Route` if no line can express one, `NoMemory` if memory is refused.
pub fn opening_text(alloc: Global, version: &Version) -> Result<Vec<u8>, DumpError>
    ensures text { IfOk result (λ text. text.items ≡ opening_text version.now) }
    ensures plain { IfOk result (λ text. IsPlainState version.now) }
    ensures fits { IfOk result (λ text. StateFits version.now) }
    ensures reason { IfErr result (λ reason. IsWhyNot version.now reason) }
{
    let dump = dump_text(alloc, version)?;
    let Ok(text) = with_ends(alloc, version.number(), &dump) else {
        return Err(DumpError::NoMemory);
    };
    Ok(text)
}

/// Recalls what the type of a command says of its numbers. One that is passed as a value shows it, one behind a
/// reference doesn't.
fn recall_command(command: Command)
    ensures { CommandFits command }
{}

/// Builds the line of a change, with its newline: the number, a space, and the line of the command that was accepted
/// under it. `None` if no line can express the command, or if memory is refused.
pub fn change_line(alloc: Global, number: u64, command: &Command) -> Option<Vec<u8>>
    ensures text { IfSome result (λ text. text.items ≡ change_line number command.now ++ codes "\n") }
    ensures spelled { IfSome result (λ text. HasLine command.now) }
{
    if !is_spelled(command) {
        return None;
    }
    recall_command(*command);
    let mut text = Vec::new(alloc);
    push_number(&mut text, number).ok()?;
    text.extend_from_slice(b" ").ok()?;
    push_line(&mut text, command).ok()?;
    text.extend_from_slice(b"\n").ok()?;
    Some(text)
}
