//! `prt apply` over a database: gives it the tables that a script describes.
ghost use Rattle.std.specs.Prelude.{◌≡◌, ◌⊎◌, All, IfErr, IfOk, OnOk, false, true};
ghost use Rattle.prt_command.specs.Storable.{IsStorable};
ghost use Rattle.prt_diff.specs.Apply.Brings.{AreAlike};
ghost use Rattle.prt_diff.specs.Apply.Plan.{plan};
ghost use Rattle.prt_published.specs.Line.{line_state};
ghost use Rattle.prt_publisher.specs.Standing.{IsQuiet};
ghost use Rattle.prt_publisher.specs.declared.phase.Phase.TheVariants.{Ready};
ghost use Rattle.prt_questions.specs.Applying.{AreStoredTogether, HasApplied, HasAppliedAtMost, IsMadeAt, IsMadeAtMost, IsPrinted, IsPrintedAtMost};
ghost use Rattle.prt_questions.specs.Applying.{IsScript, wanted_by};
ghost use Rattle.prt_questions.specs.Sources.{IsFileOf, IsRead, path_of, sources_of};
ghost use Rattle.prt_version.specs.Accepted.{IsAccepted};
ghost use Rattle.prt_version.specs.Change.{fold};

use crate::apply_remote::apply_to_server;
use crate::asking::{REFUSED, run_over_new, write_text};
use crate::left::tell_left;
use crate::planning::{Planned, plan_changes, report_unplanned};
use crate::reading::read_whole;
use prt_args::{ApplyArgs, DONE, FAULT, Fault, Target, report};
use prt_command::Command;
use prt_grace::Domain;
use prt_import::Accepted;
use prt_machine::{
    DatabaseFiles, DatabaseOpener, Host, Streams, Wanted, close_at, open_publisher,
    report_unopened, tell,
};
use prt_program::{Refusal, cause_message};
use prt_publisher::Publisher;
use prt_version::Version;
use sqlite::Alter;
use std::alloc::Global;
use std::io::Write;
use std::sync::Wait;

/// What is done with a plan.
#[derive(Clone, Copy)]
pub(crate) struct Manner {
    /// Whether the changes are only printed.
    pub(crate) is_dry_run: bool,
    /// Whether it is shown first which packets they send another way.
    pub(crate) shows_impact: bool,
}

/// To make changes and print them, and nothing else.
pub(crate) const PLAIN: Manner = Manner {
    is_dry_run: false,
    shows_impact: false,
};

/// Has all changes of a plan stored in one transaction, unless there is none.
///
/// # Errors
///
/// Those of `Publisher::submit_all`: all of them are stored or none, and none if they are refused.
fn submit<S: Alter + Drop, H: Wait>(
    rt: &H,
    publisher: &mut Publisher<S>,
    domain: &Domain,
    commands: &[Command],
) -> Result<(), Refusal>
    requires ready { publisher.old.phase ≡ Ready }
    requires storable { All IsStorable commands.now }
    ensures quiet { IsQuiet publisher.new.phase }
    ensures file { publisher.new.ours_first ≡ publisher.old.ours_first }
    ensures made { OnOk result ((publisher.new.phase ≡ Ready) × IsAccepted (line_state publisher.old.line) commands.now
        × (line_state publisher.new.line ≡ fold (line_state publisher.old.line) commands.now)) }
    ensures together { OnOk result (AreStoredTogether S.Store publisher.old commands.now publisher.new) }
{
    if commands.is_empty() {
        return Ok(());
    }
    if let Err(reason) = publisher.submit_all(rt, domain, commands) {
        return Err(reason);
    }
    Ok(())
}

/// Reports why changes were not made, and returns the exit status for it.
fn report_unmade<S: Alter + Drop, W: Write, E: Write>(
    alloc: Global,
    path: &str,
    publisher: &Publisher<S>,
    reason: Refusal,
    output: &mut W,
    errors: &mut E,
) -> u8
    ensures status { result ≡ FAULT }
    ensures unwritten { W.contents output.new ≡ W.contents output.old }
{
    let status = report(&Fault::Opening(reason), output, errors);
    if let Some(error) = publisher.failure() {
        tell(cause_message(alloc, &path, &error), errors);
    }
    status
}

/// Makes the tables of a publisher those that are wanted, and prints how. Returns the exit status.
fn apply_to_publisher<H: Host>(
    rt: &H::Net,
    alloc: Global,
    path: &str,
    publisher: &mut Publisher<H::Store>,
    domain: &Domain,
    wanted: &Version,
    manner: Manner,
    output: &mut H::Output,
    errors: &mut H::Errors,
) -> u8
    requires { publisher.old.phase ≡ Ready }
    ensures status { (result ≡ DONE) ⊎ (result ≡ FAULT) }
    ensures quiet { IsQuiet publisher.new.phase }
    ensures file { publisher.new.ours_first ≡ publisher.old.ours_first }
    ensures dry { manner.is_dry_run ≡ true → publisher.new ≡ publisher.old }
    ensures made { result ≡ DONE → manner.is_dry_run ≡ false → (publisher.new.phase ≡ Ready) × AreAlike (line_state publisher.new.line) wanted.now }
    ensures together { result ≡ DONE → manner.is_dry_run ≡ false →
        AreStoredTogether H.Store.Store publisher.old (plan (line_state publisher.old.line) wanted.now) publisher.new }
    ensures whole { result ≡ DONE →
        IsPrinted manner.shows_impact (line_state publisher.old.line) wanted.now (H.Output.contents output.old) (H.Output.contents output.new) }
    ensures part { IsPrintedAtMost manner.shows_impact (line_state publisher.old.line) wanted.now (H.Output.contents output.old)
        (H.Output.contents output.new) }
{
    let found = publisher.published();
    let Planned { commands, text } = match plan_changes(alloc, found, wanted, manner.shows_impact) {
        Ok(planned) => planned,
        Err(reason) => return report_unplanned(alloc, &path, reason, output, errors),
    };
    if !manner.is_dry_run {
        if let Err(reason) = submit(rt, publisher, domain, commands.as_slice()) {
            return report_unmade(alloc, path, publisher, reason, output, errors);
        }
    }
    write_text(text, output)
}

/// Chooses which database is opened: changes that are only printed make none.
fn wanted_by(manner: Manner) -> Wanted
    ensures { result ≡ wanted_by manner.is_dry_run }
{
    if manner.is_dry_run {
        Wanted::Ours
    } else {
        Wanted::Any
    }
}

/// Makes the tables of the database at a path those that are wanted, in one transaction, and prints how. It is created if it
/// is missing, unless changes are only printed. Returns the exit status.
pub(crate) fn apply_to_database<H: Host>(
    databases: &mut DatabaseFiles<'_, H>,
    alloc: Global,
    path: &str,
    wanted: &Version,
    manner: Manner,
    output: &mut H::Output,
    errors: &mut H::Errors,
) -> u8
    ensures status { (result ≡ DONE) ⊎ (result ≡ FAULT) }
    ensures whole { result ≡ DONE →
        IsMadeAt H.Store.Store H.Opener.DatabaseOpener databases.old.opener databases.new.opener (H.Output.contents output.old)
        (H.Output.contents output.new) path.now manner.shows_impact manner.is_dry_run wanted.now }
    ensures at_most { IsMadeAtMost H.Store.Store H.Opener.DatabaseOpener databases.old.opener databases.new.opener
        (H.Output.contents output.old) (H.Output.contents output.new) path.now manner.shows_impact manner.is_dry_run wanted.now }
{
    let rt = databases.rt;
    let opened = open_publisher(&mut databases.opener, alloc, path, wanted_by(manner));
    let (mut publisher, domain) = match opened {
        Ok(made) => made,
        Err(refused) => return report_unopened(alloc, path, refused, output, errors),
    };
    let status = apply_to_publisher::<H>(
        &rt,
        alloc,
        path,
        &mut publisher,
        &domain,
        wanted,
        manner,
        output,
        errors,
    );
    let last = publisher.end(&rt);
    close_at(&mut databases.opener, alloc, path, last, errors);
    status
}

/// Reads a script, and makes what it makes of a new database.
///
/// # Errors
///
/// The exit status: it can't be read, a line is refused, or memory is. Standard error has the cause.
fn read_script<H: Streams>(
    files: &H::Files,
    alloc: Global,
    file: Option<&str>,
    input: &mut H::Input,
    output: &mut H::Output,
    errors: &mut H::Errors,
) -> Result<Accepted, u8>
    ensures script { IfOk result (IsScript
        (IsRead (IsFileOf H.Files.opens H.Files.Opened.remaining files.now) (H.Input.remaining input.old) (path_of file.entry))) }
    ensures fault { IfErr result (λ status. (status ≡ REFUSED) ⊎ (status ≡ FAULT)) }
    ensures unwritten { H.Output.contents output.new ≡ H.Output.contents output.old }
{
    let script = read_whole::<H, _>(files, alloc, file, input, output, errors)?;
    let made = run_over_new(alloc, &script, output, errors)?;
    if tell_left(alloc, file, &made.left, errors) == DONE {
        Ok(made)
    } else {
        Err(REFUSED)
    }
}

/// Makes the tables of a target what a script makes of a new database, prints the changes and their number, and returns the
/// exit status.
///
/// The status is 0 if the tables are so, also if nothing was to be changed. It is 1 if a line of the script is refused, which
/// standard error names: nothing is changed then. It is 3 for a fault of reading, of opening, of the store, of the server, of
/// memory or of the writer. If the changes can't be printed, they were made nevertheless.
pub(crate) fn apply<H: Host>(
    databases: &mut DatabaseFiles<'_, H>,
    alloc: Global,
    applying: &ApplyArgs<'_>,
    input: &mut H::Input,
    output: &mut H::Output,
    errors: &mut H::Errors,
) -> u8
    ensures status { (result ≡ DONE) ⊎ ((result ≡ REFUSED) ⊎ (result ≡ FAULT)) }
    ensures whole { result ≡ DONE →
        HasApplied H.Store.Store H.Opener.DatabaseOpener
        (sources_of H.Files.opens H.Files.Opened.remaining databases.old.files.now H.Net.reaches H.Net.Stream.remaining databases.old.rt
        (H.Input.remaining input.old)) databases.old.opener databases.new.opener (H.Output.contents output.old)
        (H.Output.contents output.new) applying.now }
    ensures at_most { HasAppliedAtMost H.Store.Store H.Opener.DatabaseOpener
        (sources_of H.Files.opens H.Files.Opened.remaining databases.old.files.now H.Net.reaches H.Net.Stream.remaining databases.old.rt
        (H.Input.remaining input.old)) databases.old.opener databases.new.opener (H.Output.contents output.old)
        (H.Output.contents output.new) applying.now }
{
    let read = read_script::<H>(databases.files, alloc, applying.file, input, output, errors);
    let made = match read {
        Ok(made) => made,
        Err(status) => return status,
    };
    let manner = Manner {
        is_dry_run: applying.is_dry_run,
        shows_impact: applying.has_impact,
    };
    let wanted = &made.version;
    match &applying.target {
        Target::Database(path) => {
            apply_to_database(databases, alloc, path, wanted, manner, output, errors)
        }
        Target::Server(ends) => {
            apply_to_server(&databases.rt, alloc, ends, wanted, manner, output, errors)
        }
    }
}
