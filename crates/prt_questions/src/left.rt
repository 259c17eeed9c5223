//! What is reported of lines that are left out.
ghost use Rattle.std.specs.Prelude.{◌≡◌, ◌≢◌, ◌⊎◌, false};
ghost use Rattle.std.specs.List.{list_all};
ghost use Rattle.prt_questions.specs.Asking.{destination_of};
ghost use Rattle.prt_questions.specs.LeftOut.{AreKernels, is_kernels};

use crate::asking::REFUSED;
use crate::reading::is_newline;
use prt_addr::Addr;
use prt_args::DONE;
use prt_ask::Question;
use prt_command::Query;
use prt_import::{OmittedLine, Reason, left_out};
use prt_machine::tell;
use std::alloc::{AllocError, Global};
use std::io::Write;

/// What a comment begins with that says what was left out of a script.
const COMMENT: &[u8] = b"# left out:";

/// What such a comment goes on with if it is about those that the kernel makes itself.
const KERNELS: &[u8] = b"routes that the kernel makes itself";

/// Makes the message of a line that is left out, or of what is left out of one, with the name of its file if it has one.
fn left_message(
    alloc: Global,
    file: Option<&str>,
    left: &OmittedLine,
) -> Result<String, AllocError> {
    match file {
        Some(file) => format!(in alloc; "prt: {file}: {left}\n"),
        None => format!(in alloc; "prt: {left}\n"),
    }
}

/// Checks whether the kernel makes a line itself.
pub(crate) fn is_kernels(line: &OmittedLine) -> bool
    ensures { result ≡ is_kernels line.now }
{
    matches!(line.reason, Reason::Kernel)
}

/// Checks whether the kernel makes each of the lines itself.
fn are_kernels(left: &[OmittedLine]) -> bool
    ensures { result ≡ list_all is_kernels left.now }
{
    left.iter().all(|line| is_kernels(line))
}

/// Reports what was left out, except what the kernel makes itself.
fn tell_others<E: Write>(alloc: Global, file: Option<&str>, left: &[OmittedLine], errors: &mut E) {
    for line in left {
        if !is_kernels(line) {
            tell(left_message(alloc, file, line), errors);
        }
    }
}

/// Reports what was left out of a file, and returns the exit status for it. What the kernel makes itself isn't reported.
pub(crate) fn tell_left<E: Write>(
    alloc: Global,
    file: Option<&str>,
    left: &[OmittedLine],
    errors: &mut E,
) -> u8
    ensures status { (result ≡ DONE) ⊎ (result ≡ REFUSED) }
    ensures kernels { result ≡ DONE → AreKernels left.now }
    ensures others { result ≡ REFUSED → list_all is_kernels left.now ≡ false }
{
    tell_others(alloc, file, left, errors);
    if are_kernels(left) { DONE } else { REFUSED }
}

/// Reports which commands that were made of a listing are refused, and returns the exit status for it.
pub(crate) fn tell_refused<E: Write>(alloc: Global, refused: &[OmittedLine], errors: &mut E) -> u8
    ensures status { (result ≡ DONE) ⊎ (result ≡ REFUSED) }
    ensures kernels { result ≡ DONE → AreKernels refused.now }
{
    for line in refused {
        tell(refused_message(alloc, line), errors);
    }
    if are_kernels(refused) { DONE } else { REFUSED }
}

/// Returns the exit status for what was done, or if that is `DONE`, the one for what was left out before.
pub(crate) fn or_left(done: u8, left: u8) -> u8
    ensures { ((done ≡ DONE) × (result ≡ left)) ⊎ ((done ≢ DONE) × (result ≡ done)) }
{
    if done == DONE { left } else { done }
}

/// Returns the destination of the packet of the question, if it has one.
fn destination_of(question: &Question<'_>) -> Option<Addr>
    ensures { result ≡ destination_of question.now }
{
    match question {
        Question::Query(Query::Get(packet), _) | Question::Explain(packet, _) => Some(packet.dst),
        _ => None,
    }
}

/// Appends bytes to a message. What can't be printed is shown as `?`.
fn push_shown(message: &mut String, bytes: &[u8]) -> Result<(), AllocError> {
    for byte in bytes {
        let is_shown = *byte >= b' ' && *byte <= b'~';
        message.push(char::from(if is_shown { *byte } else { b'?' }))?;
    }
    Ok(())
}

/// Makes the message of a comment that says what was left out of a script.
fn comment_message(alloc: Global, script: &str, said: &[u8]) -> Result<String, AllocError> {
    let mut message = format!(in alloc; "prt: {script}: the script left out: ")?;
    push_shown(&mut message, said)?;
    message.push('\n')?;
    Ok(message)
}

/// Makes the message of a command that was made of a listing and is refused. The listing has it as a line of another number.
fn refused_message(alloc: Global, refused: &OmittedLine) -> Result<String, AllocError> {
    let reason = refused.reason;
    let mut message = format!(in alloc; "prt: left out: {reason}: ")?;
    push_shown(&mut message, refused.text.trim_ascii())?;
    message.push('\n')?;
    Ok(message)
}

/// Reports what these comments of a script say that was left out of it, except routes that the kernel makes itself if these are
/// expected.
fn tell_comments<E: Write>(
    alloc: Global,
    name: &str,
    comments: &[u8],
    are_kernels_expected: bool,
    errors: &mut E,
) {
    for comment in comments.split(is_newline) {
        let Some(said) = comment.strip_prefix(COMMENT) else {
            continue;
        };
        let said = said.trim_ascii();
        if !(are_kernels_expected && said.starts_with(KERNELS)) {
            tell(comment_message(alloc, name, said), errors);
        }
    }
}

/// Reports what the comments of a script say that was left out of it when it was made of a listing. Of a packet that is asked
/// about this is what could have decided on it.
pub(crate) fn tell_left_out<E: Write>(
    alloc: Global,
    name: &str,
    script: &[u8],
    question: &Question<'_>,
    errors: &mut E,
) {
    if let Ok(comments) = left_out(alloc, script, destination_of(question)) {
        tell_comments(alloc, name, &comments, false, errors);
    }
}

/// Reports the same of a script about whose packets all is asked: any of it could decide on one. That the kernel makes some
/// routes itself isn't news then.
pub(crate) fn tell_all_left_out<E: Write>(
    alloc: Global,
    name: &str,
    script: &[u8],
    errors: &mut E,
) {
    if let Ok(comments) = left_out(alloc, script, None) {
        tell_comments(alloc, name, &comments, true, errors);
    }
}
