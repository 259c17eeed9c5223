ghost use Rattle.std.specs.Prelude.{◌++◌, IfErr, OnErr, OnOk};

use crate::limits::MOST_TOGETHER;
use prt_command::{Command, Query, Refusal};

/// Where commands go, and what answers queries.
pub trait Desk {
    ghost use Rattle.std.specs.Prelude.{◌≡◌, ◌≤◌, length};
    ghost use Rattle.std.specs.List.{All};
    ghost use Rattle.prt_command.specs.Storable.{IsStorable};
    ghost use Rattle.prt_listing.specs.QueryText.{query_text};
    ghost use Rattle.prt_session.specs.Desk.{DeskState, Mishap, no_memory};
    ghost use Rattle.prt_session.specs.Preorder.{IsPreorder};
    ghost use Rattle.prt_session.specs.Stands.{Explained, StandsForSome};
    ghost use Rattle.prt_session.specs.Steps.{CommandGives, CommandsGive};

    /// The states that the desk may represent: more than one if it can't be known which is stored.
    ghost stands: { Self → DeskState → Type 0 };

    /// What may befall a request.
    ghost may: { Mishap → Type 0 };

    /// What every request leaves as it was.
    ghost keeps: { Self → Self → Type 0 };

    /// Checks, stores and publishes a command, whose routes and rules may be stored; returns the number of commands ever
    /// accepted.
    ///
    /// # Errors
    ///
    /// Why the command is refused; after a failed commit or publication the desk is closed, and else as it was.
    fn command(&mut self, command: &Command) -> Result<u64, Refusal>
        requires { IsStorable command.now }
        ensures turn { Explained stands self.old self.new (λ before after. CommandGives may before command.now result after) }
        ensures left { StandsForSome stands self.old → StandsForSome stands self.new }
        ensures keeps { keeps self.old self.new };

    /// Checks, stores and publishes commands together or not at all: 1 to `MOST_TOGETHER` of them, whose routes and rules
    /// may be stored. Returns the number of the last, and each has a number of its own.
    ///
    /// # Errors
    ///
    /// `Closed`, or why the first command is refused that is refused after those before it, which leaves the desk as it
    /// was. So does `NoMemory`, which may come first unless the desk is closed, and `Busy`. A failed call of the store or
    /// a failed publication leaves the desk closed, with all of the commands stored or none.
    fn commands(&mut self, commands: &Vec<Command>) -> Result<u64, Refusal>
        requires some { 1 ≤ length commands.now.items }
        requires most { length commands.now.items ≤ MOST_TOGETHER }
        requires storable { All IsStorable commands.now.items }
        ensures turn { Explained stands self.old self.new (λ before after. CommandsGive may before commands.now.items result after) }
        ensures left { StandsForSome stands self.old → StandsForSome stands self.new }
        ensures keeps { keeps self.old self.new };

    /// Appends the lines of the answer to `out`, and leaves the desk as it was. A closed desk answers too.
    ///
    /// # Errors
    ///
    /// `NoMemory`, which leaves `out` as it was.
    fn answer(&mut self, query: &Query, out: &mut Vec<u8>) -> Result<(), Refusal>
        ensures turn { Explained stands self.old self.new (λ before after. (after ≡ before)
            × OnOk result (out.new.items ≡ out.old.items ++ query_text before.published query.now)) }
        ensures left { StandsForSome stands self.old → StandsForSome stands self.new }
        ensures keeps { keeps self.old self.new }
        ensures err { IfErr result (λ e. (e ≡ Refusal.NoMemory) × may no_memory) }
        ensures unchanged { OnErr result (out.new.items ≡ out.old.items) };

    /// This holds over any number of requests.
    ghost keeps_over_all: { IsPreorder keeps };
}
