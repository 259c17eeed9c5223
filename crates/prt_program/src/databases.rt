//! Databases that are opened by their paths.
ghost use Rattle.std.specs.Prelude.{IfErr, IfOk};
ghost use Rattle.prt_refusals.specs.Opening.{IsOpenRefusal};
ghost use Rattle.prt_session.specs.Open.{IsOpenOn};
ghost use Rattle.prt_version.specs.State.{State};

use prt_session::{Desk, Refusal};
use std::alloc::Global;
use std::fmt::Display;

/// Opens databases.
pub trait Databases {
    ghost use Rattle.std.specs.Prelude.{◌≡◌, List, ℕ};
    ghost use Rattle.prt_refusals.specs.declared.refusal.Refusal.{Refusal};
    ghost use Rattle.prt_session.specs.Desk.{DeskState};
    ghost use Rattle.prt_version.specs.State.{State};

    /// A desk over an open database.
    type Opened: Desk + Drop;

    /// The error of a file that could not be opened, written or closed.
    type Error: Display + Drop;

    /// The states that the database at a path may hold.
    ghost holds: { Self → List ℕ → State → Type 0 };

    /// What an opening of the database at a path makes of the databases, if it returns this desk.
    ghost opens: { Self → Self → List ℕ → Self.Opened → Type 0 };

    /// What the closing of this desk makes of the databases.
    ghost closed: { Self → Self → Self.Opened → Type 0 };

    /// What a refused opening makes of the databases, for this reason. None is open then.
    ghost refuses: { Self → Self → List ℕ → Refusal → Type 0 };

    /// The states that a later opening may find of this desk, as it is handed to its closing or as a crash left it then:
    /// as far as its file is known.
    ghost leaves: { Self.Opened → State → Type 0 };

    /// Opens the database at a path, and makes it if there is none. With a refusal comes the error of the file, if
    /// that could not be opened.
    ///
    /// # Errors
    ///
    /// `OpenFailed`, `Damaged` if it holds no state, or `NoMemory`; then no database is open.
    fn open(
        &mut self,
        alloc: Global,
        path: &str,
    ) -> Result<Self::Opened, (Refusal, Option<Self::Error>)>
        ensures opened { IfOk result (λ desk. (opened : State) × holds self.old path.now opened × IsOpenOn Self.Opened.stands desk opened) }
        ensures opens { IfOk result (λ desk. opens self.old self.new path.now desk) }
        ensures reason { IfErr result (λ refused. IsOpenRefusal refused.0) }
        ensures refused { IfErr result (λ refused. refuses self.old self.new path.now refused.0) };

    /// Returns the error that failed a commit of an open database, if one failed: it is closed to commands since then.
    fn failure(&self, desk: &Self::Opened) -> Option<Self::Error>;

    /// Closes a database, so that its file alone has all of it. A later opening finds stored what the desk represents.
    ///
    /// # Errors
    ///
    /// Why its log could not be moved into the file. Nothing that was acknowledged is lost then: it is in the log.
    fn close(&mut self, desk: Self::Opened) -> Result<(), Self::Error>
        ensures closed { closed self.old self.new desk }
        ensures left { (found : State) → leaves desk found → (after : DeskState) × Self.Opened.stands desk after × (after.stored ≡ found) };
}
