//! The tables of a source, read once for a question about all packets.
ghost use Rattle.std.specs.Prelude.{◌≡◌, ◌⊎◌, IfErr, IfOk, List, OnOk, ℕ};
ghost use Rattle.prt_import.specs.Accepted.{IsExecuted};
ghost use Rattle.prt_import.specs.declared.accepted.Accepted.{Accepted as AcceptedOf};
ghost use Rattle.prt_questions.specs.Analyses.{HaveTables, IsNotRead};
ghost use Rattle.prt_questions.specs.Asking.{IsAskedAt, IsNotOpened};
ghost use Rattle.prt_questions.specs.LeftOut.{AreKernels};
ghost use Rattle.prt_questions.specs.Sources.{AreTold, HasLeft, IsFileOf, IsRead, path_of, rest_after, rest_by, sources_of};

use crate::asking::{REFUSED, run_over_new};
use crate::left::{tell_all_left_out, tell_left};
use crate::reading::{read_whole, report_no_memory};
use crate::remote::read_tables;
use prt_args::{DONE, FAULT, STANDARD_INPUT, ServerPlace, Source};
use prt_machine::{
    DatabaseFiles, DatabaseOpener, Host, LocalNet, Streams, Wanted, close_at, open_desk,
    report_unopened, tell,
};
use prt_program::cause_message;
use prt_version::Version;
use std::alloc::Global;
use std::io::Write;

/// The tables of a source.
#[derive(Drop)]
pub(crate) struct Tables {
    pub(crate) version: Version,
    /// The exit status for what was left out of them: `REFUSED` if a line of their script was refused, otherwise `DONE`.
    pub(crate) left: u8,
}

/// Reads the tables of the database at a path, which is opened and closed.
///
/// # Errors
///
/// The exit status: there is no such database, it can't be opened, or memory is refused. Standard error has the cause.
fn database_tables<H: Host>(
    databases: &mut DatabaseFiles<'_, H>,
    alloc: Global,
    path: &str,
    output: &mut H::Output,
    errors: &mut H::Errors,
) -> Result<Tables, u8>
    ensures read { IfOk result (λ tables.
        IsAskedAt H.Store.Store H.Opener.DatabaseOpener databases.old.opener databases.new.opener path.now (λ state. tables.version ≡ state)) }
    ensures there { OnOk result (H.Opener.is_there databases.old.opener path.now) }
    ensures unread { IfErr result (λ status.
        IsNotOpened H.Store.Store H.Opener.DatabaseOpener databases.old.opener databases.new.opener Wanted.Ours path.now
        ⊎ IsAskedAt H.Store.Store H.Opener.DatabaseOpener databases.old.opener databases.new.opener path.now (λ state. Unit {0})) }
    ensures left { IfOk result (λ tables. (tables.left ≡ DONE) ⊎ (tables.left ≡ REFUSED)) }
    ensures fault { IfErr result (λ status. status ≡ FAULT) }
    ensures unwritten { H.Output.contents output.new ≡ H.Output.contents output.old }
{
    let rt = databases.rt;
    let opened = open_desk(&mut databases.opener, rt, alloc, path, Wanted::Ours);
    let desk = match opened {
        Ok(desk) => desk,
        Err(refused) => return Err(report_unopened(alloc, path, refused, output, errors)),
    };
    let shared = desk.version().share();
    close_at(&mut databases.opener, alloc, path, desk.end(), errors);
    match shared {
        Ok(version) => Ok(Tables {
            version,
            left: DONE,
        }),
        Err(_) => Err(report_no_memory(output, errors)),
    }
}

/// Reads the tables of the server whose feed is at a place.
///
/// # Errors
///
/// The exit status: the server doesn't send its tables. Standard error has the cause.
fn server_tables<N: LocalNet, E: Write>(
    rt: &N,
    alloc: Global,
    place: &ServerPlace<'_>,
    errors: &mut E,
) -> Result<Tables, u8>
    ensures told { IfOk result (λ tables. AreTold N.reaches N.Stream.remaining rt.now place.now tables.version) }
    ensures left { IfOk result (λ tables. (tables.left ≡ DONE) ⊎ (tables.left ≡ REFUSED)) }
    ensures fault { IfErr result (λ status. status ≡ FAULT) }
{
    match read_tables(rt, alloc, place) {
        Ok(version) => Ok(Tables {
            version,
            left: DONE,
        }),
        Err(reason) => {
            tell(cause_message(alloc, place, &reason), errors);
            Err(FAULT)
        }
    }
}

/// Reads the tables that a script makes of a new database, and reports its refused lines, and what was left out of it.
///
/// # Errors
///
/// The exit status: the script can't be read, or memory is refused. Standard error has the cause.
fn script_tables<H: Streams>(
    files: &H::Files,
    alloc: Global,
    file: Option<&str>,
    input: &mut H::Input,
    output: &mut H::Output,
    errors: &mut H::Errors,
) -> Result<Tables, u8>
    ensures read { IfOk result (λ tables.
        (made : AcceptedOf) × (text : List ℕ)
        × IsRead (IsFileOf H.Files.opens H.Files.Opened.remaining files.now) (H.Input.remaining input.old) (path_of file.entry) text
        × IsExecuted made text × (tables.left ≡ DONE → AreKernels made.left.items) × (tables.version ≡ made.version)) }
    ensures rest { OnOk result (HasLeft (rest_after (path_of file.entry)) (H.Input.remaining input.old) (H.Input.remaining input.new)) }
    ensures left { IfOk result (λ tables. (tables.left ≡ DONE) ⊎ (tables.left ≡ REFUSED)) }
    ensures fault { IfErr result (λ status. status ≡ FAULT) }
    ensures unwritten { H.Output.contents output.new ≡ H.Output.contents output.old }
{
    let script = read_whole::<H, _>(files, alloc, file, input, output, errors)?;
    let made = run_over_new(alloc, &script, output, errors)?;
    let left = tell_left(alloc, file, &made.left, errors);
    tell_all_left_out(alloc, file.unwrap_or(STANDARD_INPUT), &script, errors);
    Ok(Tables {
        version: made.version,
        left,
    })
}

/// Reads the tables of a source. A database is opened and closed, and of a server or a script none is touched.
///
/// # Errors
///
/// The exit status: there are no such tables, they can't be read, or memory is refused. Standard error has the cause.
pub(crate) fn tables_at<H: Host>(
    databases: &mut DatabaseFiles<'_, H>,
    alloc: Global,
    source: &Source<'_>,
    input: &mut H::Input,
    output: &mut H::Output,
    errors: &mut H::Errors,
) -> Result<Tables, u8>
    ensures read { IfOk result (λ tables.
        HaveTables H.Store.Store H.Opener.DatabaseOpener
        (sources_of H.Files.opens H.Files.Opened.remaining databases.old.files.now H.Net.reaches H.Net.Stream.remaining databases.old.rt
        (H.Input.remaining input.old)) databases.old.opener databases.new.opener source.now tables.left tables.version) }
    ensures rest { OnOk result (HasLeft (rest_by source.now) (H.Input.remaining input.old) (H.Input.remaining input.new)) }
    ensures unread { IfErr result (λ status.
        IsNotRead H.Store.Store H.Opener.DatabaseOpener
        (sources_of H.Files.opens H.Files.Opened.remaining databases.old.files.now H.Net.reaches H.Net.Stream.remaining databases.old.rt
        (H.Input.remaining input.old)) databases.old.opener databases.new.opener source.now) }
    ensures left { IfOk result (λ tables. (tables.left ≡ DONE) ⊎ (tables.left ≡ REFUSED)) }
    ensures fault { IfErr result (λ status. status ≡ FAULT) }
    ensures unwritten { H.Output.contents output.new ≡ H.Output.contents output.old }
{
    match source {
        Source::Database(path) => database_tables(databases, alloc, path, output, errors),
        Source::Server(place) => server_tables(&databases.rt, alloc, place, errors),
        Source::Script(file) => {
            script_tables::<H>(databases.files, alloc, *file, input, output, errors)
        }
    }
}
