//! The databases of a machine, as the program opens them.

use crate::cause::Cause;
use crate::database_opener::{DatabaseOpener, Wanted};
use crate::host::Host;
use crate::opening::open_desk;
use prt_program::{Databases, Refusal};
use prt_publisher::StoreDesk;
use std::alloc::Global;

/// The databases of a host, each over a durable desk.
#[derive(Drop)]
pub struct DatabaseFiles<'a, H: Host> {
    /// What opens and closes their files.
    pub opener: H::Opener,
    /// Where scripts and listings are read.
    pub files: &'a H::Files,
    /// What desks wait with, and servers are reached by.
    pub rt: H::Net,
}

impl<'a, H: Host> Databases for DatabaseFiles<'a, H> {
    ghost use Rattle.prt_publisher.specs.StoreDesk.{IsKept, LeavesFound};
    ghost use Rattle.prt_machine.specs.Closing.{LeavesNoneOpen};
    ghost use Rattle.prt_publisher.specs.Openings.{OpensOne};
    ghost use Rattle.prt_machine.specs.declared.database_opener.Wanted.TheVariants.{Any};
    ghost use Rattle.prt_version.specs.Sound.{IsSound};

    type Opened = StoreDesk<H::Store, H::Net>;

    type Error = Cause;

    // Which bytes a path has is not known. An opening says what it made of the connection to them.
    ghost holds = { λ _ _ opened. IsSound opened };

    ghost opens = { λ old new path desk. OpensOne H.Store.Store (H.Opener.opens Any old.opener new.opener path) desk };

    ghost closed = { λ old new desk. IsKept H.Store.Store desk × H.Opener.closes old.opener new.opener desk.tables };

    ghost refuses = { λ old new path reason. LeavesNoneOpen H.Store.Store H.Opener.DatabaseOpener Any reason old.opener new.opener path };

    ghost leaves = { LeavesFound H.Store.Store };

    fn open(
        &mut self,
        alloc: Global,
        path: &str,
    ) -> Result<Self::Opened, (Refusal, Option<Cause>)> {
        open_desk(&mut self.opener, self.rt, alloc, path, Wanted::Any)
    }

    fn failure(&self, desk: &Self::Opened) -> Option<Cause> {
        desk.failure().map(Cause::Library)
    }

    fn close(&mut self, desk: Self::Opened) -> Result<(), Cause> {
        match self.opener.close(desk.end()) {
            Ok(()) => Ok(()),
            Err(error) => Err(Cause::Library(error)),
        }
    }
}
