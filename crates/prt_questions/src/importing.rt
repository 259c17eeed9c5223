//! What `ip` prints, as a script, and what differs from it.
ghost use Rattle.std.specs.Prelude.{◌≡◌, ◌⊎◌, IfErr, IfOk, OnOk, [], true};
ghost use Rattle.std.specs.List.{list_any};
ghost use Rattle.prt_questions.specs.Asking.{AreKept, AreLinesOf, HasCompared, HasComparedAtMost, IsAskedOf, IsFenced, IsListing, IsMadeOf};
ghost use Rattle.prt_questions.specs.Asking.{IsNotAsked, IsShown, IsShownAtMost, IsWholeAnswer, IsWholeFenced, adds, is_any_known, named_answer};
ghost use Rattle.prt_questions.specs.LeftOut.{is_kernels};
ghost use Rattle.prt_questions.specs.Sources.{HasLeft, IsFileOf, IsRead, path_of, rest_after, sources_of};
ghost use Rattle.prt_questions.specs.Importing.{HasImported, HasImportedAtMost, IsImported, IsImportedAtMost};
ghost use Rattle.prt_import.specs.Imported.{IsImportOf};
ghost use Rattle.prt_import.specs.Lines.{lines_of};
ghost use Rattle.prt_import.specs.TableNames.{KnownNames};
ghost use Rattle.prt_args.specs.declared.asking.Shown.TheVariants as shows;

use crate::applying::{PLAIN, apply_to_database};
use crate::asking::{REFUSED, ask_source, write_text};
use crate::fencing::fence_beside;
use crate::impact_of_diff::diff_with_impact;
use crate::inquiry::Inquiry;
use crate::left::{is_kernels, or_left, tell_left, tell_refused};
use crate::reading::{host_names, read_whole, report_no_memory, report_unread};
use prt_args::{DONE, DiffArgs, FAULT, Form, ImportArgs, Labels, Reach, Shown, Source};
use prt_ask::{Comparison, Question};
use prt_diff::Fence;
use prt_import::ip_json::{ListingError, is_json, listing_of};
use prt_import::{
    Accepted, Imported, Names, OmittedLine, accept, check_listing, import, next_line,
};
use prt_machine::{DatabaseFiles, Host, Streams};
use prt_program::{ReadFiles, Refusal};
use prt_version::Version;
use std::alloc::Global;
use std::io::Write;

/// The escape character, which no line of `ip` has unless it prints colours.
const ESCAPE: u8 = 27;

/// Why a listing with colours isn't read: no word of it would be known.
const COLOURS: &str = "the listing has colours: take one of `ip -c=never`";

/// Why a listing isn't read of which nothing is known: tables like it would be empty.
const NONE_KNOWN: &str = "no line of the listing is a route or a rule that can be kept";

/// Returns the lines of what `ip` printed, also if that is the JSON of `ip -j`.
fn lines_of(alloc: Global, text: Vec<u8>) -> Result<Vec<u8>, ListingError>
    ensures { IfOk result (λ lines. AreLinesOf text.items lines.items) }
{
    if is_json(&text) {
        listing_of(alloc, &text)
    } else {
        Ok(text)
    }
}

/// Makes a script of lines, by the names that iproute2 has.
fn script_of<F: ReadFiles>(files: &F, alloc: Global, lines: &[u8]) -> Result<Imported, Refusal>
    ensures { IfOk result (λ imported. (names : KnownNames) × IsImportOf imported names lines.now) }
{
    let names = host_names(files, alloc)?;
    import(alloc, &names, lines)
}

/// Makes what a new database accepts of lines that `ip` prints, and reports what can't be kept of them. Returns the exit
/// status for what was reported, too, and the lines that can't be kept.
///
/// # Errors
///
/// `NoMemory` alone.
fn keep_lines<F: ReadFiles, E: Write>(
    files: &F,
    alloc: Global,
    lines: &[u8],
    errors: &mut E,
) -> Result<(Accepted, u8, Vec<OmittedLine>), Refusal>
    ensures made { IfOk result (λ read. IsMadeOf lines.now read.2.items read.0) }
    ensures status { IfOk result (λ read. (read.1 ≡ DONE) ⊎ (read.1 ≡ REFUSED)) }
    ensures kept { IfOk result (λ read. read.1 ≡ DONE → AreKept read.2.items read.0) }
{
    let imported = match script_of(files, alloc, lines) {
        Ok(imported) => imported,
        Err(refusal) => return Err(refusal),
    };
    let accepted = match accept(alloc, &imported.script) {
        Ok(accepted) => accepted,
        Err(refusal) => return Err(refusal),
    };
    let _kept = tell_left(alloc, None, &imported.notes, errors);
    let left = tell_left(alloc, None, &imported.left, errors);
    let refused = tell_refused(alloc, &accepted.left, errors);
    Ok((accepted, or_left(left, refused), imported.left))
}

/// Checks whether `ip` printed lines for a terminal: with an escape character before each change of the colour.
fn has_colours(lines: &[u8]) -> bool {
    lines.contains(&ESCAPE)
}

/// Checks whether a line of a script adds a rule or a route.
fn adds(line: &[u8]) -> bool
    ensures { result ≡ adds line.now }
{
    line.starts_with(b"rule add ") || line.starts_with(b"route add ")
}

/// Checks whether some line of a script adds a rule or a route.
fn adds_any(script: &[u8]) -> bool
    ensures { result ≡ list_any adds (lines_of script.now) }
{
    let mut rest = script;
    while let Some((line, after)) = next_line(rest) {
        if adds(line) {
            return true;
        }
        rest = after;
    }
    false
}

/// Checks whether the kernel makes one of the lines itself.
fn is_any_kernels(left: &[OmittedLine]) -> bool
    ensures { result ≡ list_any is_kernels left.now }
{
    left.iter().any(|line| is_kernels(line))
}

/// Checks whether some line of a listing is known: a rule or a route of it is kept, or the kernel makes one itself.
fn is_any_known(left: &[OmittedLine], accepted: &Accepted) -> bool
    ensures { result ≡ is_any_known left.now accepted.now }
{
    adds_any(&accepted.script) || is_any_kernels(left)
}

/// Reads what `ip` printed, of a file or of the input, as `keep_lines` does.
///
/// # Errors
///
/// The exit status, if it can't be read, isn't a whole listing of IPv4, no line of it is known, or memory is refused.
pub(crate) fn read_listing<H: Streams>(
    files: &H::Files,
    alloc: Global,
    file: Option<&str>,
    input: &mut H::Input,
    output: &mut H::Output,
    errors: &mut H::Errors,
) -> Result<(Accepted, u8, Vec<OmittedLine>), u8>
    ensures made { IfOk result (λ read.
        IsListing (IsRead (IsFileOf H.Files.opens H.Files.Opened.remaining files.now) (H.Input.remaining input.old)
        (path_of file.entry)) read.2.items read.0) }
    ensures status { IfOk result (λ read. (read.1 ≡ DONE) ⊎ (read.1 ≡ REFUSED)) }
    ensures kept { IfOk result (λ read. read.1 ≡ DONE → AreKept read.2.items read.0) }
    ensures left { OnOk result (HasLeft (rest_after (path_of file.entry)) (H.Input.remaining input.old) (H.Input.remaining input.new)) }
    ensures fault { IfErr result (λ status. status ≡ FAULT) }
    ensures unwritten { H.Output.contents output.new ≡ H.Output.contents output.old }
{
    let text = read_whole::<H, _>(files, alloc, file, input, output, errors)?;
    let lines = match lines_of(alloc, text) {
        Ok(lines) => lines,
        Err(ListingError::NoMemory) => return Err(report_no_memory(output, errors)),
        Err(reason) => return Err(report_unread(alloc, file, &reason, output, errors)),
    };
    if has_colours(&lines) {
        return Err(report_unread(alloc, file, &COLOURS, output, errors));
    }
    if let Err(reason) = check_listing(&lines) {
        return Err(report_unread(alloc, file, &reason, output, errors));
    }
    let Ok(read) = keep_lines(files, alloc, &lines, errors) else {
        return Err(report_no_memory(output, errors));
    };
    if !is_any_known(&read.2, &read.0) {
        return Err(report_unread(alloc, file, &NONE_KNOWN, output, errors));
    }
    Ok(read)
}

/// The tables that a listing makes, and what of them is compared.
#[derive(Drop)]
pub(crate) struct Fenced {
    pub(crate) found: Version,
    /// It has nothing that is in the place of a line that can't be kept.
    pub(crate) fence: Fence,
    /// The exit status for what was reported of those lines.
    pub(crate) left: u8,
}

/// Reads what `ip` printed, as `read_listing` does, and makes the fence that words name.
///
/// # Errors
///
/// The exit status, as of `read_listing`.
pub(crate) fn read_fenced<H: Streams>(
    files: &H::Files,
    alloc: Global,
    file: Option<&str>,
    reach: &Reach,
    input: &mut H::Input,
    output: &mut H::Output,
    errors: &mut H::Errors,
) -> Result<Fenced, u8>
    ensures made { IfOk result (λ listing.
        IsFenced (IsRead (IsFileOf H.Files.opens H.Files.Opened.remaining files.now) (H.Input.remaining input.old)
        (path_of file.entry)) reach.now listing.found listing.fence) }
    ensures status { IfOk result (λ listing. (listing.left ≡ DONE) ⊎ (listing.left ≡ REFUSED)) }
    ensures kept { IfOk result (λ listing. listing.left ≡ DONE →
        IsWholeFenced (IsRead (IsFileOf H.Files.opens H.Files.Opened.remaining files.now) (H.Input.remaining input.old)
        (path_of file.entry)) reach.now listing.found listing.fence) }
    ensures left { OnOk result (HasLeft (rest_after (path_of file.entry)) (H.Input.remaining input.old) (H.Input.remaining input.new)) }
    ensures fault { IfErr result (λ status. status ≡ FAULT) }
    ensures unwritten { H.Output.contents output.new ≡ H.Output.contents output.old }
{
    let read = read_listing::<H>(files, alloc, file, input, output, errors);
    let (accepted, left, unread) = match read {
        Ok(read) => read,
        Err(status) => return Err(status),
    };
    let found = accepted.version;
    match fence_beside(files, alloc, reach, &unread) {
        Ok(fence) => Ok(Fenced { found, fence, left }),
        Err(_) => Err(report_no_memory(output, errors)),
    }
}

/// Prints a script, or makes the tables of the database at a path those that it makes. Returns the exit status.
fn print_or_make<H: Host>(
    databases: &mut DatabaseFiles<'_, H>,
    alloc: Global,
    database: Option<&str>,
    accepted: Accepted,
    output: &mut H::Output,
    errors: &mut H::Errors,
) -> u8
    ensures status { (result ≡ DONE) ⊎ (result ≡ FAULT) }
    ensures whole { result ≡ DONE →
        IsImported H.Store.Store H.Opener.DatabaseOpener databases.old.opener databases.new.opener (H.Output.contents output.old)
        (H.Output.contents output.new) (path_of database.entry) accepted }
    ensures at_most { IsImportedAtMost H.Store.Store H.Opener.DatabaseOpener databases.old.opener databases.new.opener
        (H.Output.contents output.old) (H.Output.contents output.new) (path_of database.entry) accepted }
{
    match database {
        Some(path) => {
            let wanted = &accepted.version;
            apply_to_database(databases, alloc, path, wanted, PLAIN, output, errors)
        }
        None => write_text(accepted.script, output),
    }
}

/// Prints the script of what `ip` printed, or makes the tables of a database those that it makes, as `apply` does. Returns the
/// exit status.
///
/// The status is 1 if a line can't be kept, which standard error names, unless the kernel makes it itself. It is 3 if the
/// listing can't be read, for want of memory, and for a fault of opening or of the store. It is also 3 if the script or the
/// changes can't be written.
pub(crate) fn import_listing<H: Host>(
    databases: &mut DatabaseFiles<'_, H>,
    alloc: Global,
    importing: &ImportArgs<'_>,
    input: &mut H::Input,
    output: &mut H::Output,
    errors: &mut H::Errors,
) -> u8
    ensures status { (result ≡ DONE) ⊎ ((result ≡ REFUSED) ⊎ (result ≡ FAULT)) }
    ensures whole { result ≡ DONE →
        HasImported H.Store.Store H.Opener.DatabaseOpener
        (sources_of H.Files.opens H.Files.Opened.remaining databases.old.files.now H.Net.reaches H.Net.Stream.remaining databases.old.rt
        (H.Input.remaining input.old)) databases.old.opener databases.new.opener (H.Output.contents output.old)
        (H.Output.contents output.new) (path_of importing.now.file) (path_of importing.now.database) }
    ensures at_most { HasImportedAtMost H.Store.Store H.Opener.DatabaseOpener
        (sources_of H.Files.opens H.Files.Opened.remaining databases.old.files.now H.Net.reaches H.Net.Stream.remaining databases.old.rt
        (H.Input.remaining input.old)) databases.old.opener databases.new.opener (H.Output.contents output.old)
        (H.Output.contents output.new) (path_of importing.now.file) (path_of importing.now.database) }
{
    let read = read_listing::<H>(
        databases.files,
        alloc,
        importing.file,
        input,
        output,
        errors,
    );
    let (accepted, left, _) = match read {
        Ok(read) => read,
        Err(status) => return status,
    };
    let made = print_or_make(
        databases,
        alloc,
        importing.database,
        accepted,
        output,
        errors,
    );
    or_left(made, left)
}

/// Finds what differs at a source, prints nothing of it, and returns the exit status: 1 if anything differs.
fn compare<H: Host>(
    databases: &mut DatabaseFiles<'_, H>,
    alloc: Global,
    source: &Source<'_>,
    inquiry: &Inquiry<'_>,
    input: &mut H::Input,
    errors: &mut H::Errors,
) -> u8
    ensures status { (result ≡ DONE) ⊎ ((result ≡ REFUSED) ⊎ (result ≡ FAULT)) }
    ensures same { result ≡ DONE →
        IsAskedOf H.Store.Store H.Opener.DatabaseOpener
        (sources_of H.Files.opens H.Files.Opened.remaining databases.old.files.now H.Net.reaches H.Net.Stream.remaining databases.old.rt
        (H.Input.remaining input.old)) databases.old.opener databases.new.opener source.now
        (λ state. (named_answer inquiry.now state ≡ []) × IsWholeAnswer inquiry.now.question state) }
    ensures part { IsNotAsked H.Store.Store H.Opener.DatabaseOpener databases.old.opener databases.new.opener source.now
        ⊎ IsAskedOf H.Store.Store H.Opener.DatabaseOpener
        (sources_of H.Files.opens H.Files.Opened.remaining databases.old.files.now H.Net.reaches H.Net.Stream.remaining databases.old.rt
        (H.Input.remaining input.old)) databases.old.opener databases.new.opener source.now (λ state. Unit {0}) }
{
    let mut lines: Vec<u8> = Vec::new(alloc);
    let asked = ask_source(databases, alloc, source, inquiry, input, &mut lines, errors);
    if asked != DONE {
        return asked;
    }
    if lines.as_slice().is_empty() {
        DONE
    } else {
        REFUSED
    }
}

/// Shows how what was found differs from the tables at a source: the lines, or before them which packets they send another way,
/// or whether anything differs at all. It returns the exit status.
fn show_difference<H: Host>(
    databases: &mut DatabaseFiles<'_, H>,
    alloc: Global,
    diffing: &DiffArgs<'_>,
    comparison: &Comparison<'_>,
    input: &mut H::Input,
    output: &mut H::Output,
    errors: &mut H::Errors,
) -> u8
    ensures status { (result ≡ DONE) ⊎ ((result ≡ REFUSED) ⊎ (result ≡ FAULT)) }
    ensures whole { result ≡ DONE →
        IsShown H.Store.Store H.Opener.DatabaseOpener
        (sources_of H.Files.opens H.Files.Opened.remaining databases.old.files.now H.Net.reaches H.Net.Stream.remaining databases.old.rt
        (H.Input.remaining input.old)) databases.old.opener databases.new.opener (H.Output.contents output.old)
        (H.Output.contents output.new) comparison.now.fence.now comparison.now.found.now diffing.now.shown diffing.now.source }
    ensures at_most { IsShownAtMost H.Store.Store H.Opener.DatabaseOpener
        (sources_of H.Files.opens H.Files.Opened.remaining databases.old.files.now H.Net.reaches H.Net.Stream.remaining databases.old.rt
        (H.Input.remaining input.old)) databases.old.opener databases.new.opener (H.Output.contents output.old)
        (H.Output.contents output.new) comparison.now.fence.now comparison.now.found.now diffing.now.shown diffing.now.source }
{
    let inquiry = Inquiry {
        question: Question::Diff(*comparison),
        form: Form::Lines,
        labels: Labels::Numbers,
        names: &Names::new(alloc),
    };
    let source = &diffing.source;
    match diffing.shown {
        Shown::Lines => ask_source(databases, alloc, source, &inquiry, input, output, errors),
        Shown::Impact => {
            diff_with_impact(databases, alloc, source, comparison, input, output, errors)
        }
        Shown::Status => compare(databases, alloc, source, &inquiry, input, errors),
    }
}

/// Prints the lines that bring what `ip` printed to the tables at a source, within a fence, and returns the exit status.
/// Before them it may say which packets they send another way, as comments. Or it shows only whether anything differs.
///
/// What is in the place of a line that can't be kept is left alone. The status is 1 if anything differs of which the status
/// alone is shown, and if a rule is left that should go. It is also 1 if a line can't be kept, as of `import_listing`. It is
/// 3 as of `ask` and `import_listing`.
pub(crate) fn diff<H: Host>(
    databases: &mut DatabaseFiles<'_, H>,
    alloc: Global,
    diffing: &DiffArgs<'_>,
    input: &mut H::Input,
    output: &mut H::Output,
    errors: &mut H::Errors,
) -> u8
    ensures status { (result ≡ DONE) ⊎ ((result ≡ REFUSED) ⊎ (result ≡ FAULT)) }
    ensures whole { result ≡ DONE →
        HasCompared H.Store.Store H.Opener.DatabaseOpener
        (sources_of H.Files.opens H.Files.Opened.remaining databases.old.files.now H.Net.reaches H.Net.Stream.remaining databases.old.rt
        (H.Input.remaining input.old)) databases.old.opener databases.new.opener (H.Output.contents output.old)
        (H.Output.contents output.new) (path_of diffing.now.file) diffing.now.reach diffing.now.shown diffing.now.source }
    ensures at_most { HasComparedAtMost H.Store.Store H.Opener.DatabaseOpener
        (sources_of H.Files.opens H.Files.Opened.remaining databases.old.files.now H.Net.reaches H.Net.Stream.remaining databases.old.rt
        (H.Input.remaining input.old)) databases.old.opener databases.new.opener (H.Output.contents output.old)
        (H.Output.contents output.new) (path_of diffing.now.file) diffing.now.reach diffing.now.shown diffing.now.source }
{
    let (files, file, reach) = (databases.files, diffing.file, &diffing.reach);
    let listing = match read_fenced::<H>(files, alloc, file, reach, input, output, errors) {
        Ok(listing) => listing,
        Err(status) => return status,
    };
    let comparison = Comparison {
        fence: &listing.fence,
        found: &listing.found,
    };
    let shown = show_difference(
        databases,
        alloc,
        diffing,
        &comparison,
        input,
        output,
        errors,
    );
    or_left(shown, listing.left)
}
