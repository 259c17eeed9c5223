//! Whether claims about all packets hold.
ghost use Rattle.std.specs.Prelude.{◌≡◌, ◌⊎◌, ◌++◌, [], IfOk, OnOk, true, ◌≢◌, false};
ghost use Rattle.std.specs.Io.KnownBytes.{Appends};
ghost use Rattle.prt_questions.specs.Analyses.{IsAsserted, IsAssertedAtMost, IsFoundAtMost, IsFoundOf, IsUnreadable, breach_lines, breaches_text};
ghost use Rattle.prt_questions.specs.Asking.{IsCutOff};
ghost use Rattle.prt_questions.specs.Sources.{Gives, IsFileOf, IsRead, after, path_of, rest_by, sources_of};

use crate::asking::{REFUSED, write_text};
use crate::impact::report_undivided;
use crate::reading::{is_newline, read_whole, report_no_memory};
use crate::tables::{Tables, tables_at};
use prt_analyses::claims::{
    BadClaim, BadLine, Breach, Checked, ClaimFault, bad_word, check_claims, push_breach_line,
};
use prt_args::{AssertArgs, DONE, FAULT, STANDARD_INPUT};
use prt_explain::explanation_text;
use prt_machine::{DatabaseFiles, Host, Streams, tell};
use prt_program::{Refusal, complaint, shown_text};
use prt_version::Version;
use std::alloc::{AllocError, Global};
use std::io::Write;

/// The exit status if a claim can't be read.
pub const UNREADABLE: u8 = 2;

/// Makes the text of why a line is no claim, with the word that is wrong and the line.
fn reason_text(alloc: Global, line: &[u8], reason: &BadClaim) -> Result<String, AllocError> {
    match reason.fault {
        ClaimFault::NoOutcome => {
            let text = shown_text(alloc, line)?;
            format!(in alloc; "an outcome is missing: {text}")
        }
        ClaimFault::Refused(refusal) => complaint(alloc, refusal, bad_word(line, reason), line),
    }
}

/// Makes the message of a line that is no claim.
fn bad_message(
    alloc: Global,
    file: &str,
    line: &[u8],
    bad: &BadLine,
) -> Result<String, AllocError> {
    let number = bad.number;
    let reason = reason_text(alloc, line, &bad.reason)?;
    format!(in alloc; "prt: {file}:{number}: {reason}\n")
}

/// Reports each line of a text that is no claim. They come in the order of the text.
fn report_bad<E: Write>(alloc: Global, file: &str, text: &[u8], bad: &[BadLine], errors: &mut E) {
    let mut rest = bad;
    let mut number: u64 = 0;
    for line in text.split(is_newline) {
        number = number.saturating_add(1);
        let Some((first, others)) = rest.split_first() else {
            return;
        };
        if first.number == number {
            tell(bad_message(alloc, file, line, first), errors);
            rest = others;
        }
    }
}

/// Appends a packet for which a claim doesn't hold, and why it gets its answer, if that is to be explained.
fn push_lines(
    out: &mut Vec<u8>,
    version: &Version,
    is_explained: bool,
    breach: &Breach,
) -> Result<(), Refusal>
    ensures { OnOk result (out.new.items ≡ out.old.items ++ breach_lines is_explained version.now breach.now) }
{
    push_breach_line(out, version, breach)?;
    if is_explained {
        explanation_text(out, version, &breach.packet)?;
    }
    Ok(())
}

/// Appends the lines of each claim that doesn't hold.
fn push_all(
    out: &mut Vec<u8>,
    version: &Version,
    is_explained: bool,
    breaches: &[Breach],
) -> Result<(), Refusal>
    ensures { OnOk result (out.new.items ≡ out.old.items ++ breaches_text is_explained version.now breaches.now) }
{
    for breach in breaches {
        push_lines(out, version, is_explained, breach)?;
    }
    Ok(())
}

/// Makes the text of the claims that don't hold.
fn text_of(
    alloc: Global,
    version: &Version,
    is_explained: bool,
    breaches: &[Breach],
) -> Result<Vec<u8>, Refusal>
    ensures { IfOk result (λ text. text.items ≡ breaches_text is_explained version.now breaches.now) }
{
    let mut text = Vec::new(alloc);
    push_all(&mut text, version, is_explained, breaches)?;
    Ok(text)
}

/// Checks whether each line is a claim, or none at all.
fn is_readable(checked: &Checked) -> bool
    ensures readable { result ≡ true → checked.now.bad.items ≡ [] }
    ensures unreadable { result ≡ false → checked.now.bad.items ≢ [] }
{
    checked.bad.is_empty()
}

/// Checks whether all claims hold.
fn holds(checked: &Checked) -> bool
    ensures { result ≡ true → checked.now.breaches.items ≡ [] }
{
    checked.breaches.is_empty()
}

/// Writes the claims that don't hold over tables. The exit status is `REFUSED` if there is one, otherwise that for what was left
/// out of the tables.
fn write_breaches<W: Write, E: Write>(
    alloc: Global,
    tables: &Tables,
    is_explained: bool,
    checked: &Checked,
    output: &mut W,
    errors: &mut E,
) -> u8
    requires { (tables.now.left ≡ DONE) ⊎ (tables.now.left ≡ REFUSED) }
    ensures status { (result ≡ DONE) ⊎ ((result ≡ REFUSED) ⊎ (result ≡ FAULT)) }
    ensures whole { (result ≡ DONE) ⊎ (result ≡ REFUSED) →
        Appends (W.contents output.old) (W.contents output.new) (breaches_text is_explained tables.now.version checked.now.breaches.items) }
    ensures hold { result ≡ DONE → checked.now.breaches.items ≡ [] }
    ensures left { result ≡ DONE → tables.now.left ≡ DONE }
    ensures part { IsCutOff (breaches_text is_explained tables.now.version checked.now.breaches.items) (W.contents output.old) (W.contents output.new) }
{
    let Ok(shown) = text_of(alloc, &tables.version, is_explained, &checked.breaches) else {
        return report_no_memory(output, errors);
    };
    let written = write_text(shown, output);
    if written != DONE {
        return written;
    }
    if holds(checked) { tables.left } else { REFUSED }
}

/// Checks the claims of a file over tables, and writes each that doesn't hold with a packet. The exit status is `REFUSED` if
/// there is one, and `UNREADABLE` if a line is no claim, which standard error names: then nothing is written.
fn assert_over<H: Streams>(
    files: &H::Files,
    alloc: Global,
    tables: &Tables,
    asserting: &AssertArgs<'_>,
    input: &mut H::Input,
    output: &mut H::Output,
    errors: &mut H::Errors,
) -> u8
    requires { (tables.now.left ≡ DONE) ⊎ (tables.now.left ≡ REFUSED) }
    ensures status { (result ≡ DONE) ⊎ ((result ≡ REFUSED) ⊎ ((result ≡ UNREADABLE) ⊎ (result ≡ FAULT))) }
    ensures found { (result ≡ DONE) ⊎ (result ≡ REFUSED) →
        IsAsserted (IsRead (IsFileOf H.Files.opens H.Files.Opened.remaining files.now) (H.Input.remaining input.old)
        (path_of asserting.now.file)) (H.Output.contents output.old) (H.Output.contents output.new) asserting.now result tables.now.version }
    ensures unreadable { result ≡ UNREADABLE →
        IsUnreadable (IsRead (IsFileOf H.Files.opens H.Files.Opened.remaining files.now) (H.Input.remaining input.old)
        (path_of asserting.now.file)) (H.Output.contents output.old) (H.Output.contents output.new) tables.now.version }
    ensures at_most { IsAssertedAtMost
        (IsRead (IsFileOf H.Files.opens H.Files.Opened.remaining files.now) (H.Input.remaining input.old) (path_of asserting.now.file))
        (H.Output.contents output.old) (H.Output.contents output.new) asserting.now tables.now.version }
    ensures left { result ≡ DONE → tables.now.left ≡ DONE }
{
    let text = match read_whole::<H, _>(files, alloc, asserting.file, input, output, errors) {
        Ok(text) => text,
        Err(status) => return status,
    };
    let checked = match check_claims(alloc, &tables.version, &text) {
        Ok(checked) => checked,
        Err(reason) => return report_undivided(alloc, reason, output, errors),
    };
    if !is_readable(&checked) {
        let file = asserting.file.unwrap_or(STANDARD_INPUT);
        report_bad(alloc, file, &text, &checked.bad, errors);
        return UNREADABLE;
    }
    write_breaches(
        alloc,
        tables,
        asserting.is_explained,
        &checked,
        output,
        errors,
    )
}

/// Checks claims about all packets over the tables at a source, and returns the exit status.
///
/// The status is 0 if all hold. It is 1 if one doesn't, which is written with a packet that shows it, or if a line of the
/// script is refused. It is 2 if a claim can't be read, and 3 as of `ask`, and if the rules divide packets into too many
/// kinds. No rule and no route changes.
pub(crate) fn assert_claims<H: Host>(
    databases: &mut DatabaseFiles<'_, H>,
    alloc: Global,
    asserting: &AssertArgs<'_>,
    input: &mut H::Input,
    output: &mut H::Output,
    errors: &mut H::Errors,
) -> u8
    ensures status { (result ≡ DONE) ⊎ ((result ≡ REFUSED) ⊎ ((result ≡ UNREADABLE) ⊎ (result ≡ FAULT))) }
    ensures found { (result ≡ DONE) ⊎ (result ≡ REFUSED) →
        IsFoundOf H.Store.Store H.Opener.DatabaseOpener
        (sources_of H.Files.opens H.Files.Opened.remaining databases.old.files.now H.Net.reaches H.Net.Stream.remaining databases.old.rt
        (H.Input.remaining input.old)) databases.old.opener databases.new.opener asserting.now.source result
        (IsAsserted (Gives (after (rest_by asserting.now.source)
        (sources_of H.Files.opens H.Files.Opened.remaining databases.old.files.now H.Net.reaches H.Net.Stream.remaining databases.old.rt
        (H.Input.remaining input.old))) (path_of asserting.now.file)) (H.Output.contents output.old)
        (H.Output.contents output.new) asserting.now result) }
    ensures unreadable { result ≡ UNREADABLE →
        IsFoundOf H.Store.Store H.Opener.DatabaseOpener
        (sources_of H.Files.opens H.Files.Opened.remaining databases.old.files.now H.Net.reaches H.Net.Stream.remaining databases.old.rt
        (H.Input.remaining input.old)) databases.old.opener databases.new.opener asserting.now.source UNREADABLE
        (IsUnreadable (Gives (after (rest_by asserting.now.source)
        (sources_of H.Files.opens H.Files.Opened.remaining databases.old.files.now H.Net.reaches H.Net.Stream.remaining databases.old.rt
        (H.Input.remaining input.old))) (path_of asserting.now.file)) (H.Output.contents output.old) (H.Output.contents output.new)) }
    ensures at_most { IsFoundAtMost H.Store.Store H.Opener.DatabaseOpener
        (sources_of H.Files.opens H.Files.Opened.remaining databases.old.files.now H.Net.reaches H.Net.Stream.remaining databases.old.rt
        (H.Input.remaining input.old)) databases.old.opener databases.new.opener (H.Output.contents output.old)
        (H.Output.contents output.new) asserting.now.source
        (IsAssertedAtMost (Gives (after (rest_by asserting.now.source)
        (sources_of H.Files.opens H.Files.Opened.remaining databases.old.files.now H.Net.reaches H.Net.Stream.remaining databases.old.rt
        (H.Input.remaining input.old))) (path_of asserting.now.file)) (H.Output.contents output.old) (H.Output.contents output.new) asserting.now) }
{
    let (files, source) = (databases.files, &asserting.source);
    let tables = match tables_at(databases, alloc, source, input, output, errors) {
        Ok(tables) => tables,
        Err(status) => return status,
    };
    assert_over::<H>(files, alloc, &tables, asserting, input, output, errors)
}
