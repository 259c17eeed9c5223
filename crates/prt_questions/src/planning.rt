//! The changes that make tables others, and what is printed of them.
ghost use Rattle.std.specs.Prelude.{◌≡◌, ◌++◌, All, IfOk, OnOk, codes, decimal, true};
ghost use Rattle.prt_command.specs.Storable.{IsStorable};
ghost use Rattle.prt_diff.specs.Apply.Plan.{plan};
ghost use Rattle.prt_questions.specs.Applying.{IsPlanText, made_text};
ghost use Rattle.prt_version.specs.Sound.{IsSound};

use crate::impact::report_undivided;
use crate::impact_of_diff::with_comments;
use crate::reading::report_no_memory;
use itoa::Buffer;
use prt_args::FAULT;
use prt_command::Command;
use prt_diff::apply::{is_storable, plan};
use prt_diff::{LineError, commands_text};
use prt_impact::impact;
use prt_machine::tell;
use prt_partition::Sameness;
use prt_program::{Refusal, cause_message};
use prt_version::Version;
use std::alloc::{AllocError, Global};
use std::fmt::Display;
use std::io::Write;

/// Changes, and what is printed of them.
#[derive(Drop)]
pub(crate) struct Planned {
    pub(crate) commands: Vec<Command>,
    pub(crate) text: Vec<u8>,
}

/// Why there is no plan.
pub(crate) enum PlanError {
    /// The rules divide packets into too many kinds, or memory is refused.
    Undivided(Refusal),
    /// No line can express a rule or a route, or no table may hold it.
    NoLine,
    NoMemory,
}

impl From<AllocError> for PlanError {
    fn from(_: AllocError) -> PlanError {
        PlanError::NoMemory
    }
}

/// Appends how many changes there are.
fn push_count(out: &mut Vec<u8>, count: usize) -> Result<(), AllocError>
    ensures { OnOk result (out.new.items ≡ out.old.items ++ codes "changes " ++ decimal count ++ codes "\n") }
{
    let mut digits = Buffer::new();
    out.extend_from_slice(b"changes ")?;
    out.extend_from_slice(digits.format(count).as_bytes())?;
    out.extend_from_slice(b"\n")
}

/// Formats the lines of commands, and how many there are.
fn lines_of(alloc: Global, commands: &[Command]) -> Result<Vec<u8>, PlanError>
    ensures { IfOk result (λ text. text.items ≡ made_text commands.now) }
{
    let mut text = match commands_text(alloc, commands) {
        Ok(text) => text,
        Err(LineError::NoLine(_)) => return Err(PlanError::NoLine),
        Err(LineError::NoMemory) => return Err(PlanError::NoMemory),
    };
    push_count(&mut text, commands.len())?;
    Ok(text)
}

/// Puts the packets that go another way before these lines, as comments.
///
/// # Errors
///
/// As of `impact`.
fn with_impact(
    alloc: Global,
    found: &Version,
    wanted: &Version,
    lines: &[u8],
) -> Result<Vec<u8>, PlanError>
    ensures { IfOk result (λ text. lines.now ≡ made_text (plan found.now wanted.now) → IsPlanText true found.now wanted.now text.items) }
{
    let groups = match impact(alloc, found, wanted, Sameness::Outcomes) {
        Ok(groups) => groups,
        Err(reason) => return Err(PlanError::Undivided(reason)),
    };
    Ok(with_comments(alloc, &groups, lines)?)
}

/// Plans the changes that make tables those that are wanted.
///
/// # Errors
///
/// Why there is no plan, or no text of it.
pub(crate) fn plan_changes(
    alloc: Global,
    found: &Version,
    wanted: &Version,
    shows_impact: bool,
) -> Result<Planned, PlanError>
    ensures commands { IfOk result (λ planned. planned.commands.items ≡ plan found.now wanted.now) }
    ensures storable { IfOk result (λ planned. All IsStorable planned.commands.items) }
    ensures text { IfOk result (λ planned. IsPlanText shows_impact found.now wanted.now planned.text.items) }
    ensures sound { IsSound found.now × IsSound wanted.now }
{
    // Each version's contract says that it is sound.
    let _numbers = (found.number(), wanted.number());
    if !is_storable(wanted)? {
        return Err(PlanError::NoLine);
    }
    let commands = plan(alloc, found, wanted)?;
    let lines = lines_of(alloc, &commands)?;
    let text = if shows_impact {
        with_impact(alloc, found, wanted, &lines)?
    } else {
        lines
    };
    Ok(Planned { commands, text })
}

/// Reports why there is no plan for the tables at a place, and returns the exit status for it.
pub(crate) fn report_unplanned<P: Display, W: Write, E: Write>(
    alloc: Global,
    place: &P,
    reason: PlanError,
    output: &mut W,
    errors: &mut E,
) -> u8
    ensures status { result ≡ FAULT }
    ensures unwritten { W.contents output.new ≡ W.contents output.old }
{
    match reason {
        PlanError::Undivided(reason) => report_undivided(alloc, reason, output, errors),
        PlanError::NoMemory => report_no_memory(output, errors),
        PlanError::NoLine => {
            tell(
                cause_message(
                    alloc,
                    place,
                    &"a change has a name that no command can give",
                ),
                errors,
            );
            FAULT
        }
    }
}
