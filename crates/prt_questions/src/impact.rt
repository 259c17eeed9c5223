//! Which packets a script sends another way.
ghost use Rattle.std.specs.Prelude.{◌≡◌, ◌≢◌, ◌⊎◌, IfOk, List, [], false, true};
ghost use Rattle.prt_refusals.specs.declared.on_refusal.OnRefusal.TheVariants.{Stop};
ghost use Rattle.prt_impact.specs.Groups.{AreGroups};
ghost use Rattle.prt_impact.specs.declared.group.Group.{Group as GroupOf};
ghost use Rattle.std.specs.Io.KnownBytes.{Appends};
ghost use Rattle.prt_questions.specs.Analyses.{IsFoundAtMost, IsFoundOf, IsRehearsed, IsRehearsedAtMost, impact_text, sameness_of};
ghost use Rattle.prt_questions.specs.Asking.{IsCutOff};
ghost use Rattle.prt_questions.specs.Sources.{Gives, IsFileOf, IsRead, after, path_of, rest_by, sources_of};

use crate::asking::{REFUSED, write_text};
use crate::left::{or_left, tell_left};
use crate::reading::{read_whole, report_no_memory};
use crate::tables::{Tables, tables_at};
use prt_args::{DONE, Exactness, FAULT, Form, ImpactArgs};
use prt_impact::{Group, impact, impact_json, impact_text};
use prt_import::accept_over;
use prt_machine::{DatabaseFiles, Host, Streams, tell};
use prt_partition::{MOST_BOXES, Sameness};
use prt_program::Refusal;
use prt_refusals::OnRefusal;
use prt_version::Version;
use std::alloc::Global;
use std::io::Write;

/// Chooses which verdicts count as the same.
fn sameness_of(exactness: Exactness) -> Sameness
    ensures { result ≡ sameness_of exactness }
{
    match exactness {
        Exactness::Outcomes => Sameness::Outcomes,
        Exactness::Verdicts => Sameness::Verdicts,
    }
}

/// Reports why packets can't be divided: the rules are too many for it, or memory is refused. It returns the exit status.
pub(crate) fn report_undivided<W: Write, E: Write>(
    alloc: Global,
    reason: Refusal,
    output: &mut W,
    errors: &mut E,
) -> u8
    ensures status { result ≡ FAULT }
    ensures unwritten { W.contents output.new ≡ W.contents output.old }
{
    let Refusal::Full = reason else {
        return report_no_memory(output, errors);
    };
    let message = format!(in alloc;
        "prt: the rules divide packets into more than {MOST_BOXES} kinds\n"
    );
    tell(message, errors);
    FAULT
}

/// Makes the text of groups of packets.
fn text_of(alloc: Global, form: Form, groups: &[Group]) -> Result<Vec<u8>, Refusal>
    ensures { IfOk result (λ text. text.items ≡ impact_text form groups.now) }
{
    let mut text = Vec::new(alloc);
    let pushed = match form {
        Form::Lines => impact_text(&mut text, groups),
        Form::Json => impact_json(&mut text, groups),
    };
    match pushed {
        Ok(()) => Ok(text),
        Err(_) => Err(Refusal::NoMemory),
    }
}

/// Compares tables with those after a change, and writes which packets go another way. The exit status is `REFUSED` if any
/// does.
fn write_impact<W: Write, E: Write>(
    alloc: Global,
    before: &Version,
    after: &Version,
    rehearsing: &ImpactArgs<'_>,
    output: &mut W,
    errors: &mut E,
) -> u8
    ensures status { (result ≡ DONE) ⊎ ((result ≡ REFUSED) ⊎ (result ≡ FAULT)) }
    ensures whole { (result ≡ DONE) ⊎ (result ≡ REFUSED) →
        (groups : List GroupOf) × AreGroups (sameness_of rehearsing.now.exactness) before.now after.now groups
        × Appends (W.contents output.old) (W.contents output.new) (impact_text rehearsing.now.form groups) × (result ≡ DONE → groups ≡ []) }
    ensures part { (W.contents output.new ≡ W.contents output.old)
        ⊎ ((groups : List GroupOf) × AreGroups (sameness_of rehearsing.now.exactness) before.now after.now groups
        × IsCutOff (impact_text rehearsing.now.form groups) (W.contents output.old) (W.contents output.new)) }
{
    let groups = match impact(alloc, before, after, sameness_of(rehearsing.exactness)) {
        Ok(groups) => groups,
        Err(reason) => return report_undivided(alloc, reason, output, errors),
    };
    let Ok(text) = text_of(alloc, rehearsing.form, &groups) else {
        return report_no_memory(output, errors);
    };
    let written = write_text(text, output);
    if written == DONE && !groups.is_empty() {
        return REFUSED;
    }
    written
}

/// Checks whether refused lines stop a rehearsal.
fn is_stopped(left: u8, on_refusal: OnRefusal) -> bool
    ensures stops { result ≡ true → (left ≢ DONE) × (on_refusal ≡ Stop) }
    ensures goes_on { result ≡ false → on_refusal ≡ Stop → left ≡ DONE }
{
    left != DONE && matches!(on_refusal, OnRefusal::Stop)
}

/// Executes a script over tables, reports its refused lines, and writes which packets go another way after it. If a refused
/// line stops that, nothing is written.
fn rehearse_over<H: Streams>(
    files: &H::Files,
    alloc: Global,
    tables: &Tables,
    rehearsing: &ImpactArgs<'_>,
    input: &mut H::Input,
    output: &mut H::Output,
    errors: &mut H::Errors,
) -> u8
    requires { (tables.now.left ≡ DONE) ⊎ (tables.now.left ≡ REFUSED) }
    ensures status { (result ≡ DONE) ⊎ ((result ≡ REFUSED) ⊎ (result ≡ FAULT)) }
    ensures found { (result ≡ DONE) ⊎ (result ≡ REFUSED) →
        IsRehearsed (IsRead (IsFileOf H.Files.opens H.Files.Opened.remaining files.now) (H.Input.remaining input.old)
        (path_of rehearsing.now.file)) (H.Output.contents output.old) (H.Output.contents output.new) rehearsing.now result tables.now.version }
    ensures at_most { IsRehearsedAtMost
        (IsRead (IsFileOf H.Files.opens H.Files.Opened.remaining files.now) (H.Input.remaining input.old) (path_of rehearsing.now.file))
        (H.Output.contents output.old) (H.Output.contents output.new) rehearsing.now tables.now.version }
    ensures left { result ≡ DONE → tables.now.left ≡ DONE }
{
    let script = match read_whole::<H, _>(files, alloc, rehearsing.file, input, output, errors) {
        Ok(script) => script,
        Err(status) => return status,
    };
    let Ok(made) = accept_over(alloc, &tables.version, &script) else {
        return report_no_memory(output, errors);
    };
    let left = tell_left(alloc, rehearsing.file, &made.left, errors);
    if is_stopped(left, rehearsing.on_refusal) {
        return REFUSED;
    }
    let before = &tables.version;
    let shown = write_impact(alloc, before, &made.version, rehearsing, output, errors);
    or_left(shown, or_left(left, tables.left))
}

/// Writes which packets get another answer once a script was executed over the tables at a source. Returns the exit status.
///
/// The status is 0 if none does, and 1 if any does or a line is refused, which standard error names. After a refused line
/// nothing is compared, unless the words say to go on. The status is 3 as of `ask`, and if the rules divide packets into
/// too many kinds. No rule and no route changes.
pub(crate) fn rehearse<H: Host>(
    databases: &mut DatabaseFiles<'_, H>,
    alloc: Global,
    rehearsing: &ImpactArgs<'_>,
    input: &mut H::Input,
    output: &mut H::Output,
    errors: &mut H::Errors,
) -> u8
    ensures status { (result ≡ DONE) ⊎ ((result ≡ REFUSED) ⊎ (result ≡ FAULT)) }
    ensures found { (result ≡ DONE) ⊎ (result ≡ REFUSED) →
        IsFoundOf H.Store.Store H.Opener.DatabaseOpener
        (sources_of H.Files.opens H.Files.Opened.remaining databases.old.files.now H.Net.reaches H.Net.Stream.remaining databases.old.rt
        (H.Input.remaining input.old)) databases.old.opener databases.new.opener rehearsing.now.source result
        (IsRehearsed (Gives (after (rest_by rehearsing.now.source)
        (sources_of H.Files.opens H.Files.Opened.remaining databases.old.files.now H.Net.reaches H.Net.Stream.remaining databases.old.rt
        (H.Input.remaining input.old))) (path_of rehearsing.now.file)) (H.Output.contents output.old)
        (H.Output.contents output.new) rehearsing.now result) }
    ensures at_most { IsFoundAtMost H.Store.Store H.Opener.DatabaseOpener
        (sources_of H.Files.opens H.Files.Opened.remaining databases.old.files.now H.Net.reaches H.Net.Stream.remaining databases.old.rt
        (H.Input.remaining input.old)) databases.old.opener databases.new.opener (H.Output.contents output.old)
        (H.Output.contents output.new) rehearsing.now.source
        (IsRehearsedAtMost (Gives (after (rest_by rehearsing.now.source)
        (sources_of H.Files.opens H.Files.Opened.remaining databases.old.files.now H.Net.reaches H.Net.Stream.remaining databases.old.rt
        (H.Input.remaining input.old))) (path_of rehearsing.now.file)) (H.Output.contents output.old) (H.Output.contents output.new) rehearsing.now) }
{
    let (files, source) = (databases.files, &rehearsing.source);
    let tables = match tables_at(databases, alloc, source, input, output, errors) {
        Ok(tables) => tables,
        Err(status) => return status,
    };
    rehearse_over::<H>(files, alloc, &tables, rehearsing, input, output, errors)
}
