//! The durable desk: its commands are acknowledged once they are committed and published.
ghost use Rattle.std.specs.Prelude.{◌≡◌, ◌≤◌, ◌++◌, IfErr, OnErr, OnOk, false, length};
ghost use Rattle.std.specs.List.{All};
ghost use Rattle.sqlite.specs.Held.{state};
ghost use Rattle.sqlite.specs.State.{HasCleanDisk};
ghost use Rattle.prt_publisher.specs.Remains.{Remains};
ghost use Rattle.prt_publisher.specs.StoreDesk.{IsKept, is_shut, published};
ghost use Rattle.prt_publisher.specs.Standing.{IsQuiet};
ghost use Rattle.prt_store.specs.Exits.{IsKnown};
ghost use Rattle.prt_version.specs.State.{State};

use crate::publisher::Publisher;
use prt_grace::Domain;
use prt_listing::query_text;
use prt_session::{Command, Desk, MOST_TOGETHER, Query, Refusal};
use prt_version::Version;
use sqlite::{Alter, Connection, Error};
use std::alloc::Global;
use std::marker::Model;
use std::sync::Wait;

/// A desk over a publisher and its domain. It keeps the handle `H`, with which its calls wait.
///
/// A command is checked, committed, published and noted, and only then acknowledged. After a failed commit or
/// publication the desk is closed: it refuses each command, and goes on answering queries from the version that was
/// published last. End it by `end`: the drop of the publisher's front frees no memory.
#[derive(Drop)]
pub struct StoreDesk<S: Alter + Drop, H: Drop> {
    publisher: Publisher<S>,
    domain: Domain,
    pub(crate) rt: H,
}

impl<S: Alter + Drop, H: Drop> Model for StoreDesk<S, H> {
    ghost use Rattle.sqlite.specs.Held.{Held, held_code};
    ghost use Rattle.prt_publisher.specs.Standing.{IsQuiet, Standing, standing_code};

    ghost Value = { Standing (Held S) };

    ghost coded = { standing_code (held_code S.code) };

    ghost view = { λ desk. desk.publisher };

    ghost invariant = { λ desk. IsQuiet desk.publisher.phase };
}

impl<S: Alter + Drop, H: Drop> StoreDesk<S, H> {
    /// Makes a desk over a publisher with no command under way, and its domain.
    pub fn new(rt: H, publisher: Publisher<S>, domain: Domain) -> StoreDesk<S, H>
        requires { IsQuiet publisher.phase }
        ensures { result ≡ publisher }
    {
        StoreDesk {
            publisher,
            domain,
            rt,
        }
    }

    /// Returns the library's error of the commit that closed it, if one did.
    pub fn failure(&self) -> Option<Error> {
        self.publisher.failure()
    }

    /// Returns the version that was published last.
    pub fn version(&self) -> &Version
        ensures { result.now ≡ published self.now }
    {
        self.publisher.published()
    }

    /// Returns the connection, with its tables as they are. It waits for nobody, as `Publisher::release`.
    pub fn release(self) -> Connection<S>
        ensures tables { result ≡ self.tables }
        ensures kept { IsKept S.Store self }
    {
        self.publisher.release()
    }
}

impl<S: Alter + Drop, H: Wait + Drop> StoreDesk<S, H> {
    /// Ends the publisher's front, which waits for readers that are inside, and returns the connection, with its tables
    /// as they are.
    pub fn end(self) -> Connection<S>
        ensures tables { result ≡ self.tables }
        ensures kept { IsKept S.Store self }
    {
        self.publisher.end(&self.rt)
    }
}

impl<S: Alter + Drop, H: Wait + Drop> Desk for StoreDesk<S, H> {
    ghost use Rattle.prt_command.specs.Storable.{IsStorable};
    ghost use Rattle.prt_publisher.specs.Remains.{Remains, remains_over_all};
    ghost use Rattle.prt_publisher.specs.StoreDesk.{IsStoreMishap, LeavesEither, StandsFor};
    ghost use Rattle.prt_listing.specs.QueryText.{query_text};
    ghost use Rattle.prt_publisher.specs.Exits.{HasCommitted, HaveCommitted};
    ghost use Rattle.prt_session.specs.Stands.{Explained, StandsForSome};
    ghost use Rattle.prt_session.specs.Steps.{CommandGives, CommandsGive};
    ghost use Rattle.prt_store.specs.Exits.{IsKnown, MayLeave};
    ghost use Rattle.prt_version.specs.Change.{apply, fold};

    ghost stands = { StandsFor S.Store };

    ghost may = { IsStoreMishap };

    ghost keeps = { Remains S.Store };

    ghost keeps_over_all = { remains_over_all _ };

    fn command(&mut self, command: &Command) -> Result<u64, Refusal>
        requires { IsStorable command.now }
        ensures turn { Explained (StandsFor S.Store) self.old self.new (λ before after. CommandGives IsStoreMishap before command.now result after) }
        ensures left { StandsForSome (StandsFor S.Store) self.old → StandsForSome (StandsFor S.Store) self.new }
        ensures keeps { Remains S.Store self.old self.new }
        ensures ran { HasCleanDisk (state S.Store self.new.tables) → OnOk result (HasCommitted S.Store self.old command.now self.new.tables) }
        ensures leaves { is_shut self.old ≡ false → IsKnown S.Store self.new.ours_first self.new.tables → (left : State) →
            MayLeave S.Store self.new.tables left →
            LeavesEither result (published self.old) (apply (published self.old) command.now) left }
    {
        let receipt = match self.publisher.submit(&self.rt, &self.domain, command) {
            Ok(receipt) => receipt,
            Err(reason) => return Err(reason),
        };
        let number = receipt.number();
        Ok(number)
    }

    fn commands(&mut self, commands: &Vec<Command>) -> Result<u64, Refusal>
        requires some { 1 ≤ length commands.now.items }
        requires most { length commands.now.items ≤ MOST_TOGETHER }
        requires storable { All IsStorable commands.now.items }
        ensures turn { Explained (StandsFor S.Store) self.old self.new (λ before after. CommandsGive IsStoreMishap before commands.now.items result after) }
        ensures left { StandsForSome (StandsFor S.Store) self.old → StandsForSome (StandsFor S.Store) self.new }
        ensures keeps { Remains S.Store self.old self.new }
        ensures ran { HasCleanDisk (state S.Store self.new.tables) → OnOk result (HaveCommitted S.Store self.old commands.now.items self.new.tables) }
        ensures leaves { is_shut self.old ≡ false → IsKnown S.Store self.new.ours_first self.new.tables → (left : State) →
            MayLeave S.Store self.new.tables left →
            LeavesEither result (published self.old) (fold (published self.old) commands.now.items) left }
    {
        let all = commands.as_slice();
        let receipt = match self.publisher.submit_all(&self.rt, &self.domain, all) {
            Ok(receipt) => receipt,
            Err(refusal) => return Err(refusal),
        };
        let last = receipt.number();
        Ok(last)
    }

    fn answer(&mut self, query: &Query, out: &mut Vec<u8>) -> Result<(), Refusal>
        ensures same { self.new ≡ self.old }
        ensures ok { OnOk result (out.new.items ≡ out.old.items ++ query_text (published self.old) query.now) }
        ensures err { IfErr result (λ e. e ≡ Refusal.NoMemory) }
        ensures unchanged { OnErr result (out.new.items ≡ out.old.items) }
    {
        query_text(out, self.publisher.published(), query)
    }
}
