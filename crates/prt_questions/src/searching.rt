//! Rules and routes that no packet needs.
ghost use Rattle.std.specs.Prelude.{◌≡◌, ◌⊎◌, [], IfOk, true};
ghost use Rattle.prt_analyses.specs.Unused.Text.{unused_text};
ghost use Rattle.prt_questions.specs.Analyses.{IsFoundAtMost, IsFoundOf, IsSearched, IsSearchedAtMost};
ghost use Rattle.prt_questions.specs.Sources.{sources_of};

use crate::asking::{REFUSED, write_text};
use crate::impact::report_undivided;
use crate::reading::report_no_memory;
use crate::tables::{Tables, tables_at};
use prt_analyses::unused::{Unused, unused, unused_text};
use prt_args::{DONE, FAULT, Source};
use prt_machine::{DatabaseFiles, Host};
use prt_program::Refusal;
use std::alloc::Global;
use std::io::Write;

/// Makes the text of unused rules and routes.
fn text_of(alloc: Global, found: &Unused) -> Result<Vec<u8>, Refusal>
    ensures { IfOk result (λ text. text.items ≡ unused_text found.now) }
{
    let mut text = Vec::new(alloc);
    match unused_text(&mut text, found) {
        Ok(()) => Ok(text),
        Err(_) => Err(Refusal::NoMemory),
    }
}

/// Checks whether nothing is unused.
fn is_nothing(found: &Unused) -> bool
    ensures { result ≡ true → (found.now.rules.items ≡ []) × (found.now.routes.items ≡ []) }
{
    found.rules.is_empty() && found.routes.is_empty()
}

/// Writes the unused rules and routes of tables. The exit status is `REFUSED` if there are any.
fn search_over<W: Write, E: Write>(
    alloc: Global,
    tables: &Tables,
    output: &mut W,
    errors: &mut E,
) -> u8
    requires { (tables.now.left ≡ DONE) ⊎ (tables.now.left ≡ REFUSED) }
    ensures status { (result ≡ DONE) ⊎ ((result ≡ REFUSED) ⊎ (result ≡ FAULT)) }
    ensures found { (result ≡ DONE) ⊎ (result ≡ REFUSED) → IsSearched (W.contents output.old) (W.contents output.new) result tables.now.version }
    ensures at_most { IsSearchedAtMost (W.contents output.old) (W.contents output.new) tables.now.version }
    ensures left { result ≡ DONE → tables.now.left ≡ DONE }
{
    let found = match unused(alloc, &tables.version) {
        Ok(found) => found,
        Err(reason) => return report_undivided(alloc, reason, output, errors),
    };
    let Ok(text) = text_of(alloc, &found) else {
        return report_no_memory(output, errors);
    };
    let written = write_text(text, output);
    if written != DONE {
        return written;
    }
    if is_nothing(&found) {
        tables.left
    } else {
        REFUSED
    }
}

/// Writes the rules at a source that decide no packet, and the routes that no packet gets, and returns the exit status.
///
/// The status is 0 if there are none, and 1 if there are any or a line of the script is refused. It is 3 as of `ask`, and if
/// the rules divide packets into too many kinds. No rule and no route changes.
pub(crate) fn search<H: Host>(
    databases: &mut DatabaseFiles<'_, H>,
    alloc: Global,
    source: &Source<'_>,
    input: &mut H::Input,
    output: &mut H::Output,
    errors: &mut H::Errors,
) -> u8
    ensures status { (result ≡ DONE) ⊎ ((result ≡ REFUSED) ⊎ (result ≡ FAULT)) }
    ensures found { (result ≡ DONE) ⊎ (result ≡ REFUSED) →
        IsFoundOf H.Store.Store H.Opener.DatabaseOpener
        (sources_of H.Files.opens H.Files.Opened.remaining databases.old.files.now H.Net.reaches H.Net.Stream.remaining databases.old.rt
        (H.Input.remaining input.old)) databases.old.opener databases.new.opener source.now result
        (IsSearched (H.Output.contents output.old) (H.Output.contents output.new) result) }
    ensures at_most { IsFoundAtMost H.Store.Store H.Opener.DatabaseOpener
        (sources_of H.Files.opens H.Files.Opened.remaining databases.old.files.now H.Net.reaches H.Net.Stream.remaining databases.old.rt
        (H.Input.remaining input.old)) databases.old.opener databases.new.opener (H.Output.contents output.old)
        (H.Output.contents output.new) source.now (IsSearchedAtMost (H.Output.contents output.old) (H.Output.contents output.new)) }
{
    let tables = match tables_at(databases, alloc, source, input, output, errors) {
        Ok(tables) => tables,
        Err(status) => return status,
    };
    search_over(alloc, &tables, output, errors)
}
