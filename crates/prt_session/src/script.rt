ghost use Rattle.prt_session.specs.Desk.{Befalls, request_turn};
ghost use Rattle.prt_session.specs.Run.{RunIs};
ghost use Rattle.prt_session.specs.Stands.{Explained, StandsForSome};

use crate::desk::Desk;
use crate::executor::Executor;
use crate::form::Form;
use crate::session::run_session;
use prt_command::Request;
use prt_refusals::OnRefusal;
use prt_replies::{Observer, Reply, ScriptEnd, Text};
use std::alloc::Global;
use std::io::{Read, Write};

/// A desk that executes the requests of a script.
#[derive(Drop)]
struct AtDesk<'d, D: Desk> {
    desk: &'d mut D,
    /// Where answers take memory from.
    alloc: Global,
}

impl<'d, D: Desk> Executor for AtDesk<'d, D> {
    ghost use Rattle.std.specs.Prelude.{◌≡◌, ⊤};
    ghost use Rattle.prt_session.specs.Desk.{Befalls, DeskState, Mishap, request_turn};
    ghost use Rattle.prt_session.specs.Preorder.{at_part};

    ghost Desk = { DeskState };

    ghost Mishap = { Mishap };

    ghost turn = { request_turn };

    ghost may = { Befalls D.may };

    ghost stands = { λ at state. D.stands at.desk.now state };

    ghost keeps = { λ old new. (new.desk.ghost_name ≡ old.desk.ghost_name) × D.keeps old.desk.now new.desk.now };

    ghost keeps_over_all = { at_part (λ at. at.desk.ghost_name) (λ at. at.desk.now) D.keeps_over_all };

    ghost fits = { λ _. ⊤ };

    fn execute(&mut self, request: &Request) -> Reply {
        match request {
            Request::Command(command) => match self.desk.command(command) {
                Ok(number) => Reply::Accepted(number),
                Err(refusal) => Reply::Refused(refusal),
            },
            Request::Query(query) => {
                let mut text = Vec::new(self.alloc);
                match self.desk.answer(query, &mut text) {
                    Ok(()) => Reply::Answered(Text::new(text)),
                    Err(refusal) => Reply::Refused(refusal),
                }
            }
        }
    }

    fn pass(&mut self) {}
}

/// Runs a script over a desk, as `run_session` does with any executor.
///
/// Only an answer takes memory of `alloc`; if there is none, its query alone is refused.
pub fn run_script<D: Desk, R: Read, W: Write, O: Observer>(
    alloc: Global,
    desk: &mut D,
    reader: &mut R,
    writer: &mut W,
    mode: OnRefusal,
    observer: &mut O,
) -> ScriptEnd
    ensures run { Explained D.stands desk.old desk.new (λ before after. RunIs request_turn (Befalls D.may) mode before after
        (R.remaining reader.old) (R.remaining reader.new) (W.contents writer.old) (W.contents writer.new) result) }
    ensures left { StandsForSome D.stands desk.old → StandsForSome D.stands desk.new }
    ensures keeps { D.keeps desk.old desk.new }
{
    let mut at = AtDesk {
        desk: &mut *desk,
        alloc,
    };
    run_session(&mut at, reader, writer, Form::Plain, mode, observer)
}
