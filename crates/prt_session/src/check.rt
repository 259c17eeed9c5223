//! Checks of an input: what a session would refuse of its lines, with nothing executed.
ghost use Rattle.prt_session.specs.Check.{ChecksLines};

use crate::executor::Executor;
use crate::form::Form;
use crate::session::run_session;
use prt_command::Request;
use prt_refusals::OnRefusal;
use prt_replies::{Observer, Reply, ScriptEnd};
use std::io::{Read, Write};

/// Takes each request, and does nothing.
#[derive(Clone, Copy)]
struct Idle;

impl Executor for Idle {
    ghost use Rattle.std.specs.Prelude.{⊤};
    ghost use Rattle.prt_session.specs.Check.{NothingBefalls, nothing_turn};

    ghost Desk = { ⊤ };

    ghost Mishap = { ⊥ };

    ghost turn = { nothing_turn };

    ghost may = { NothingBefalls };

    ghost stands = { λ _ _. ⊤ };

    ghost keeps = { λ _ _. ⊤ };

    ghost keeps_over_all = { record { reflexive = λ _. tt; transitive = λ _ _ _ _ _. tt } };

    ghost fits = { λ _. ⊤ };

    fn execute(&mut self, _request: &Request) -> Reply {
        Reply::Silent
    }

    fn pass(&mut self) {}
}

/// Reads the lines of an input as a session under `OnRefusal::GoOn` does, executes none of them, and writes each refusal
/// after the number of its line, from 1: `LINE: error C NAME`.
///
/// What a line is, which lines are too long or too many, and where the reading ends, is as in `run_session`. A fault of
/// the reader is written as the refusal of the line that it cuts off. After a fault of the writer a part of the refusals
/// is written, and no more is read.
pub fn check_lines<R: Read, W: Write, O: Observer>(
    reader: &mut R,
    writer: &mut W,
    observer: &mut O,
) -> ScriptEnd
    ensures { ChecksLines (R.remaining reader.old) (R.remaining reader.new) (W.contents writer.old) (W.contents writer.new) result }
{
    run_session(
        &mut Idle,
        reader,
        writer,
        Form::Numbered,
        OnRefusal::GoOn,
        observer,
    )
}
