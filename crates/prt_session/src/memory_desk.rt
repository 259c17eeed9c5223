ghost use Rattle.std.specs.Prelude.{◌≡◌, ◌⊎◌, None, Some, IfErr, IfOk};
ghost use Rattle.prt_refusals.specs.declared.refusal.Refusal.TheVariants.{NoMemory};
ghost use Rattle.prt_session.specs.Desk.{Befalls, IsNoMemory, request_turn, settled};
ghost use Rattle.prt_session.specs.Run.{RunIs};
ghost use Rattle.prt_session.specs.Steps.{CommandGives, CommandsGive};
ghost use Rattle.prt_version.specs.Change.{refusal};
ghost use Rattle.prt_version.specs.State.{opening_state};

use crate::desk::Desk;
use crate::script::run_script;
use prt_command::{Command, Query, Refusal};
use prt_listing::query_text;
use prt_refusals::OnRefusal;
use prt_replies::{Observer, ScriptEnd};
use prt_version::Version;
use std::alloc::Global;
use std::io::{Read, Write};
use std::marker::Model;

/// A desk over one version of the tables, which it keeps in memory alone.
#[derive(Drop)]
pub struct MemoryDesk {
    version: Version,
}

impl Model for MemoryDesk {
    ghost use Rattle.prt_version.specs.State.{State};

    ghost Value = { State };

    ghost view = { λ desk. desk.version };
}

impl MemoryDesk {
    /// Makes a desk over the opening rules and no routes, which has accepted no command.
    ///
    /// # Errors
    ///
    /// `NoMemory`.
    pub fn opening(alloc: Global) -> Result<MemoryDesk, Refusal>
        ensures opening { IfOk result (λ desk. settled desk ≡ settled opening_state) }
        ensures memory { IfErr result (λ e. e ≡ NoMemory) }
    {
        let version = Version::opening(alloc)?;
        Ok(MemoryDesk { version })
    }

    /// Runs a script over this desk, as `run_script` does: only want of memory can befall its requests.
    pub fn run_script<R: Read, W: Write, O: Observer>(
        &mut self,
        alloc: Global,
        reader: &mut R,
        writer: &mut W,
        mode: OnRefusal,
        observer: &mut O,
    ) -> ScriptEnd
        ensures { RunIs request_turn (Befalls IsNoMemory) mode (settled self.old) (settled self.new) (R.remaining reader.old) (R.remaining reader.new)
            (W.contents writer.old) (W.contents writer.new) result }
    {
        run_script(alloc, self, reader, writer, mode, observer)
    }
}

impl Desk for MemoryDesk {
    ghost use Rattle.std.specs.Prelude.{◌≡◌, ⊤};
    ghost use Rattle.prt_session.specs.Desk.{IsNoMemory, settled};

    ghost stands = { λ desk state. state ≡ settled desk };

    ghost may = { IsNoMemory };

    ghost keeps = { λ _ _. ⊤ };

    ghost keeps_over_all = { record { reflexive = λ _. tt; transitive = λ _ _ _ _ _. tt } };

    /// An `Err` is what the command is refused for or, if it is refused for nothing, want of memory. It leaves the
    /// desk as it was.
    fn command(&mut self, command: &Command) -> Result<u64, Refusal>
        ensures turn { CommandGives IsNoMemory (settled self.old) command.now result (settled self.new) }
        ensures reason { IfErr result (λ e. (refusal self.old command.now ≡ Some e) ⊎ ((refusal self.old command.now ≡ None) × (e ≡ NoMemory))) }
    {
        let change = match self.version.check(command) {
            Ok(change) => change,
            Err(reason) => return Err(reason),
        };
        self.version = self.version.next(&change)?;
        Ok(self.version.number())
    }

    /// As of `command`: an `Err` is what the first command is refused for that is refused, or want of memory, and it
    /// leaves the desk as it was.
    fn commands(&mut self, commands: &Vec<Command>) -> Result<u64, Refusal>
        ensures turn { CommandsGive IsNoMemory (settled self.old) commands.now.items result (settled self.new) }
    {
        let (_, version) = self.version.after_all(commands.as_slice())?;
        self.version = version;
        Ok(self.version.number())
    }

    fn answer(&mut self, query: &Query, out: &mut Vec<u8>) -> Result<(), Refusal> {
        query_text(out, &self.version, query)
    }
}
