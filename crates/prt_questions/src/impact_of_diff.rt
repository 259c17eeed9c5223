//! The packets that a difference sends another way.
ghost use Rattle.std.specs.Prelude.{◌≡◌, ◌⊎◌, ◌++◌, IfOk, List, OnOk, ℕ};
ghost use Rattle.std.specs.Io.KnownBytes.{Appends};
ghost use Rattle.prt_questions.specs.Analyses.{IsNotRead};
ghost use Rattle.prt_questions.specs.Asking.{IsAskedOf, IsCutOff, IsWholeChange, IsWithImpact, IsWithImpactOf, comment_of, comments_of};
ghost use Rattle.prt_questions.specs.Sources.{sources_of};

use crate::asking::{REFUSED, report_none, write_made};
use crate::impact::report_undivided;
use crate::tables::tables_at;
use prt_args::{DONE, FAULT, Source};
use prt_ask::{Answered, Comparison, Question, answer};
use prt_impact::{Group, impact, push_group_line};
use prt_import::accept_over;
use prt_machine::{DatabaseFiles, Host};
use prt_partition::Sameness;
use prt_program::Refusal;
use prt_version::Version;
use std::alloc::{AllocError, Global};
use std::io::Write;

/// Appends a comment with the line of a group.
fn push_comment(out: &mut Vec<u8>, group: &Group) -> Result<(), AllocError>
    ensures { OnOk result (out.new.items ≡ out.old.items ++ comment_of group.now) }
{
    out.extend_from_slice(b"# ")?;
    push_group_line(out, group)
}

/// Appends a comment for each group of packets.
pub(crate) fn push_comments(out: &mut Vec<u8>, groups: &[Group]) -> Result<(), AllocError>
    ensures { OnOk result (out.new.items ≡ out.old.items ++ comments_of groups.now) }
{
    for group in groups {
        push_comment(out, group)?;
    }
    Ok(())
}

/// Puts the lines of groups before others, as comments.
pub(crate) fn with_comments(
    alloc: Global,
    groups: &[Group],
    lines: &[u8],
) -> Result<Vec<u8>, AllocError>
    ensures { IfOk result (λ text. text.items ≡ comments_of groups.now ++ lines.now) }
{
    let mut text = Vec::new(alloc);
    push_comments(&mut text, groups)?;
    text.extend_from_slice(lines)?;
    Ok(text)
}

/// Makes the text of a difference: the packets that its lines send another way, as comments, and then the lines.
///
/// # Errors
///
/// As of `impact`.
fn with_impact(alloc: Global, found: &Version, lines: &[u8]) -> Result<Vec<u8>, Refusal>
    ensures { IfOk result (λ text. IsWithImpactOf found.now lines.now text.items) }
{
    let made = accept_over(alloc, found, lines)?;
    let groups = impact(alloc, found, &made.version, Sameness::Outcomes)?;
    Ok(with_comments(alloc, &groups, lines)?)
}

/// Compares what was found with tables within a fence, and writes the packets that the difference sends another way, and
/// its lines. It returns the exit status, as of `write_made`.
fn write_difference<W: Write, E: Write>(
    alloc: Global,
    place: &str,
    comparison: &Comparison<'_>,
    wanted: &Version,
    output: &mut W,
    errors: &mut E,
) -> u8
    ensures status { (result ≡ DONE) ⊎ ((result ≡ REFUSED) ⊎ (result ≡ FAULT)) }
    ensures whole { result ≡ DONE →
        (text : List ℕ) × IsWithImpact comparison.now.fence.now comparison.now.found.now wanted.now text
        × Appends (W.contents output.old) (W.contents output.new) text × IsWholeChange comparison.now.fence.now comparison.now.found.now wanted.now }
    ensures part { (W.contents output.new ≡ W.contents output.old)
        ⊎ ((text : List ℕ) × IsWithImpact comparison.now.fence.now comparison.now.found.now wanted.now text
        × IsCutOff text (W.contents output.old) (W.contents output.new)) }
{
    let Answered { text, notes } = match answer(alloc, wanted, &Question::Diff(*comparison)) {
        Ok(made) => made,
        Err(reason) => return report_none(alloc, &place, reason, output, errors),
    };
    match with_impact(alloc, comparison.found, &text) {
        Ok(text) => write_made(Answered { text, notes }, output, errors),
        Err(reason) => report_undivided(alloc, reason, output, errors),
    }
}

/// Writes the lines that bring what was found to the tables at a source, after the packets that they send another way. It
/// returns the exit status.
pub(crate) fn diff_with_impact<H: Host>(
    databases: &mut DatabaseFiles<'_, H>,
    alloc: Global,
    source: &Source<'_>,
    comparison: &Comparison<'_>,
    input: &mut H::Input,
    output: &mut H::Output,
    errors: &mut H::Errors,
) -> u8
    ensures status { (result ≡ DONE) ⊎ ((result ≡ REFUSED) ⊎ (result ≡ FAULT)) }
    ensures whole { result ≡ DONE →
        IsAskedOf H.Store.Store H.Opener.DatabaseOpener
        (sources_of H.Files.opens H.Files.Opened.remaining databases.old.files.now H.Net.reaches H.Net.Stream.remaining databases.old.rt
        (H.Input.remaining input.old)) databases.old.opener databases.new.opener source.now
        (λ state. (text : List ℕ) × IsWithImpact comparison.now.fence.now comparison.now.found.now state text
        × Appends (H.Output.contents output.old) (H.Output.contents output.new) text
        × IsWholeChange comparison.now.fence.now comparison.now.found.now state) }
    ensures at_most { ((H.Output.contents output.new ≡ H.Output.contents output.old)
        × IsNotRead H.Store.Store H.Opener.DatabaseOpener
        (sources_of H.Files.opens H.Files.Opened.remaining databases.old.files.now H.Net.reaches H.Net.Stream.remaining databases.old.rt
        (H.Input.remaining input.old)) databases.old.opener databases.new.opener source.now)
        ⊎ IsAskedOf H.Store.Store H.Opener.DatabaseOpener
        (sources_of H.Files.opens H.Files.Opened.remaining databases.old.files.now H.Net.reaches H.Net.Stream.remaining databases.old.rt
        (H.Input.remaining input.old)) databases.old.opener databases.new.opener source.now
        (λ state. (text : List ℕ) × IsWithImpact comparison.now.fence.now comparison.now.found.now state text
        × IsCutOff text (H.Output.contents output.old) (H.Output.contents output.new)) }
{
    let tables = match tables_at(databases, alloc, source, input, output, errors) {
        Ok(tables) => tables,
        Err(status) => return status,
    };
    write_difference(
        alloc,
        "the tables",
        comparison,
        &tables.version,
        output,
        errors,
    )
}
