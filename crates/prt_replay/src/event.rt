ghost use Rattle.std.specs.Prelude.{◌≡◌, ◌<◌};
ghost use Rattle.std.specs.Option.{SomeIff};

use prt_command::{Command, Packet};
use prt_grace::PLACES;
use std::marker::Model;

/// The number of a looker: 0 to 63.
#[derive(Clone, Copy)]
pub struct LookerNumber {
    number: u8,
}

impl Model for LookerNumber {
    ghost use Rattle.std.specs.Prelude.{ℕ, ◌<◌};

    ghost Value = { ℕ };

    ghost view = { λ looker. looker.number };

    ghost invariant = { λ looker. looker.number < 64 };

    ghost inverse = { λ number. record { number = number } };
}

impl LookerNumber {
    /// Returns the looker of this number, if one may have it.
    pub fn new(number: u32) -> Option<LookerNumber>
        ensures { SomeIff result (number < 64) number }
    {
        if number as usize >= PLACES {
            return None;
        }
        Some(LookerNumber {
            number: number as u8,
        })
    }

    /// Returns the number, 0 to 63.
    pub fn get(self) -> u8
        ensures value { result ≡ self }
        ensures low { result < 64 }
    {
        self.number
    }
}

/// Commands that are submitted together.
#[derive(Drop)]
pub struct Commands {
    commands: Vec<Command>,
}

impl Model for Commands {
    ghost use Rattle.std.specs.Prelude.{List};
    ghost use Rattle.prt_command.specs.declared.request.Command.{Command};

    ghost Value = { List Command };

    ghost view = { λ them. them.commands.items };
}

impl Commands {
    /// Takes these commands.
    pub fn new(commands: Vec<Command>) -> Commands
        ensures { result ≡ commands.items }
    {
        Commands { commands }
    }

    /// Returns the commands, in order.
    pub fn as_slice(&self) -> &[Command]
        ensures { result.now ≡ self.now }
    {
        self.commands.as_slice()
    }
}

/// What a failure or a stop makes of a transaction whose commit it cuts short.
#[derive(Clone, Copy)]
pub enum Fate {
    /// What it wrote is durable.
    Kept,
    /// Nothing of it is there.
    Lost,
}

/// One atomic step of publisher, store, lookers and registry.
#[derive(Drop)]
pub enum Event {
    /// A command is checked and prepared.
    Submit(Command),
    /// Commands are checked and prepared together: those of a file.
    SubmitAll(Commands),
    /// The next store call succeeds.
    Call,
    /// The next store call fails.
    Fail(Fate),
    /// The committed version is published.
    Publish,
    /// The publication is refused.
    PublishFail,
    /// The registry notes the published version.
    Note,
    /// The commands are acknowledged, each with its own number.
    Ack,
    /// A looker announces the noted version.
    Online(LookerNumber),
    /// A looker takes hold of the published version.
    Fetch(LookerNumber),
    /// A looker announces the version that it holds.
    Announce(LookerNumber),
    /// A looker lets go of its version and goes offline.
    Offline(LookerNumber),
    /// A looker queries the version that it holds for what becomes of a packet.
    Look(LookerNumber, Packet),
    /// The versions that no looker can hold any more are given up.
    Reclaim,
    /// Everything stops.
    Stop(Fate),
    /// The database is opened again.
    Reopen,
}
