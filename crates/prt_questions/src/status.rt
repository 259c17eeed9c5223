//! How a server does.
ghost use Rattle.std.specs.Prelude.{◌≡◌, ◌⊎◌, IfOk, List, false, true, ℕ};
ghost use Rattle.std.specs.Io.KnownBytes.{Appends};
ghost use Rattle.prt_args.specs.declared.server_place.ServerPlace.TheVariants.{Folder};
ghost use Rattle.prt_questions.specs.Asking.{IsCutOff};
ghost use Rattle.prt_questions.specs.Sources.{IsReport};
ghost use Rattle.prt_questions.specs.StatusText.{is_closed, status_text};

use crate::asking::write_text;
use crate::figures::{is_closed, status_text};
use crate::reading::{last_line, report_no_memory};
use crate::remote::{ServerError, read_status};
use prt_args::{DONE, FAULT, StatusArgs};
use prt_machine::{LocalNet, Socket, tell};
use prt_program::cause_message;
use std::alloc::Global;
use std::fmt;
use std::io::Write;

/// The exit status if the server takes no command any more.
pub const CLOSED: u8 = 4;

/// The socket of the status in the folder of a server.
#[derive(Clone, Copy)]
struct StatusSocket<'a>(&'a str);

impl<'a> fmt::Display for StatusSocket<'a> {
    fn fmt<W: fmt::Write>(&self, f: &mut fmt::Formatter<W>) -> fmt::Result {
        write!(f, "{}/{}", self.0, Socket::Status.name())
    }
}

/// Reads all of what a server says of itself at the socket for that in its folder.
///
/// # Errors
///
/// `NoAnswer` if it isn't whole. Otherwise what befell the connection.
fn read_whole_status<N: LocalNet>(
    rt: &N,
    alloc: Global,
    folder: &str,
) -> Result<Vec<u8>, ServerError>
    ensures { IfOk result (λ said. IsReport N.reaches N.Stream.remaining rt.now (Folder folder.entry) said.items) }
{
    let said = read_status(rt, alloc, folder)?;
    if is_whole(&said) {
        Ok(said)
    } else {
        Err(ServerError::NoAnswer)
    }
}

/// Checks whether all of a status came: it ends with the line of the state.
fn is_whole(said: &[u8]) -> bool {
    match last_line(said) {
        Some(last) => last.starts_with(b"state "),
        None => false,
    }
}

/// Prints how a server does, and returns the exit status: 4 if the server takes no command any more, and 3 if it doesn't
/// answer or the status can't be written. No database is touched.
pub(crate) fn show_status<N: LocalNet, W: Write, E: Write>(
    rt: &N,
    alloc: Global,
    inspecting: &StatusArgs<'_>,
    output: &mut W,
    errors: &mut E,
) -> u8
    ensures status { (result ≡ DONE) ⊎ ((result ≡ CLOSED) ⊎ (result ≡ FAULT)) }
    ensures whole { result ≡ DONE →
        (said : List ℕ) × IsReport N.reaches N.Stream.remaining rt.now (Folder inspecting.now.folder) said
        × Appends (W.contents output.old) (W.contents output.new) (status_text inspecting.now.form said) × (is_closed said ≡ false) }
    ensures closed { result ≡ CLOSED →
        (said : List ℕ) × IsReport N.reaches N.Stream.remaining rt.now (Folder inspecting.now.folder) said
        × Appends (W.contents output.old) (W.contents output.new) (status_text inspecting.now.form said) × (is_closed said ≡ true) }
    ensures part { (W.contents output.new ≡ W.contents output.old)
        ⊎ ((said : List ℕ) × IsReport N.reaches N.Stream.remaining rt.now (Folder inspecting.now.folder) said
        × IsCutOff (status_text inspecting.now.form said) (W.contents output.old) (W.contents output.new)) }
{
    let folder = inspecting.folder;
    let said = match read_whole_status(rt, alloc, folder) {
        Ok(said) => said,
        Err(reason) => {
            tell(cause_message(alloc, &StatusSocket(folder), &reason), errors);
            return FAULT;
        }
    };
    let Ok(text) = status_text(alloc, &said, inspecting.form) else {
        return report_no_memory(output, errors);
    };
    let written = write_text(text, output);
    if written == DONE && is_closed(&said) {
        return CLOSED;
    }
    written
}
