//! The executor that reads an atomic file: it collects commands, and executes none.
ghost use Rattle.std.specs.Prelude.{◌≡◌, [], MatchOption};
ghost use Rattle.prt_command.specs.declared.request.Query.{Query};
ghost use Rattle.prt_command.specs.declared.request.Request.TheVariants as requests;

use crate::executor::Executor;
use crate::limits::MOST_TOGETHER;
use prt_command::{Command, Refusal, Request};
use prt_replies::Reply;
use std::alloc::Global;

/// Returns the command that is asked for, unless it is a query.
fn command_of(request: &Request) -> Option<&Command>
    ensures { MatchOption result ((query : Query) × (request.now ≡ requests.Query query)) (λ command. request.now ≡ requests.Command command.now) }
{
    match request {
        Request::Command(command) => Some(command),
        Request::Query(_) => None,
    }
}

/// The commands that were read so far.
#[derive(Drop)]
pub(crate) struct Collector {
    pub(crate) commands: Vec<Command>,
}

impl Collector {
    /// Makes one without a command.
    pub(crate) fn new(alloc: Global) -> Collector
        ensures { result.commands.items ≡ [] }
    {
        Collector {
            commands: Vec::new(alloc),
        }
    }
}

impl Executor for Collector {
    ghost use Rattle.std.specs.Prelude.{◌≡◌, List, ⊤};
    ghost use Rattle.prt_command.specs.declared.request.Command.{Command};
    ghost use Rattle.prt_session.specs.Atomic.{CollectMay, collect_turn};
    ghost use Rattle.prt_session.specs.Desk.{Mishap};
    ghost use Rattle.prt_session.specs.Steps.{AreSubmittable};

    ghost Desk = { List Command };

    ghost Mishap = { Mishap };

    ghost turn = { collect_turn };

    ghost may = { CollectMay };

    ghost stands = { λ collector commands. commands ≡ collector.commands.items };

    ghost keeps = { λ _ _. ⊤ };

    ghost keeps_over_all = { record { reflexive = λ _. tt; transitive = λ _ _ _ _ _. tt } };

    ghost fits = { λ collector. AreSubmittable collector.commands.items };

    fn execute(&mut self, request: &Request) -> Reply {
        let Some(command) = command_of(request) else {
            return Reply::Refused(Refusal::UnknownVerb);
        };
        if self.commands.len() >= MOST_TOGETHER {
            return Reply::Refused(Refusal::TooManyCommands);
        }
        match self.commands.push(*command) {
            Ok(()) => Reply::Silent,
            Err(_) => Reply::Refused(Refusal::NoMemory),
        }
    }

    fn pass(&mut self) {}
}
