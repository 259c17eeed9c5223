//! Commands that wait to be submitted, and their answers.
ghost use Rattle.std.specs.Prelude.{◌≡◌, IfSome};
ghost use Rattle.prt_command.specs.Storable.{IsStorable};
ghost use Rattle.prt_service.specs.Service.{IsAnswer};

use crate::ServiceBrand;
use crossbeam_channel::Sender;
use prt_command::{Command, Refusal};
use prt_publisher::Receipt;
use std::alloc::Global;
use std::marker::{Model, PhantomData};
use std::sync::Wait;

/// What became of a command that was submitted to the named front. Contracts see it as the command.
#[derive(Drop)]
pub(crate) struct Answer<J: ServiceBrand> {
    command: Command,
    result: Result<Receipt, Refusal>,
    of: PhantomData<J>,
}

impl<J: ServiceBrand> Model for Answer<J> {
    ghost use Rattle.prt_command.specs.declared.request.Command as requests;
    ghost use Rattle.prt_service.specs.Service.{IsAnswer};

    ghost Value = { requests.Command };

    ghost view = { λ answer. answer.command };

    ghost invariant = { λ answer. IsAnswer J.book J.base answer.command answer.result };
}

impl<J: ServiceBrand> Answer<J> {
    /// Returns what became of this command. `None` if the answer is to another one.
    pub(crate) fn for_command(self, command: &Command) -> Option<Result<Receipt, Refusal>>
        ensures { IfSome result (IsAnswer J.book J.base command.now) }
    {
        let Answer {
            command: submitted,
            result: became,
            of: _,
        } = self;
        if submitted == *command {
            Some(became)
        } else {
            None
        }
    }
}

/// A command that waits, and where its answer goes. One that is let go without an answer was not submitted. Contracts see
/// it as the command.
#[derive(Drop)]
pub(crate) struct QueuedCommand<J: ServiceBrand> {
    command: Command,
    reply_to: Sender<Answer<J>, Global>,
}

impl<J: ServiceBrand> Model for QueuedCommand<J> {
    ghost use Rattle.prt_command.specs.Storable.{IsStorable};
    ghost use Rattle.prt_command.specs.declared.request.Command as requests;

    ghost Value = { requests.Command };

    ghost view = { λ waiting. waiting.command };

    ghost invariant = { λ waiting. IsStorable waiting.command };
}

impl<J: ServiceBrand> QueuedCommand<J> {
    pub(crate) fn new(command: &Command, reply_to: Sender<Answer<J>, Global>) -> QueuedCommand<J>
        requires { IsStorable command.now }
        ensures { result ≡ command.now }
    {
        QueuedCommand {
            command: *command,
            reply_to,
        }
    }

    /// Returns the command.
    pub(crate) fn command(&self) -> &Command
        ensures value { result.now ≡ self.now }
        ensures storable { IsStorable result.now }
    {
        &self.command
    }

    /// Answers the one that waits for the command.
    pub(crate) fn answer<H: Wait>(self, rt: &H, became: Result<Receipt, Refusal>)
        requires { IsAnswer J.book J.base self became }
    {
        let answer = Answer {
            command: self.command,
            result: became,
            of: PhantomData,
        };
        // There is room, since a command is answered once, and the one that waits keeps the other end.
        let _sent = self.reply_to.send(rt, answer).is_ok();
    }
}
