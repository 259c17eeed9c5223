//! Laws of the store, which no program calls.

ghost use Rattle.sqlite.specs.Effect.{Database};
ghost use Rattle.prt_store.specs.Adopted.{Adopts, AdoptsPart};
ghost use Rattle.prt_store.specs.Stops.{LeavesAState, LeavesAllOrNone};

use sqlite::Alter;

/// An opening that was stopped is gone on with: the next one leaves what it would have left.
pub fn openings_go_on()
    ensures { (before between after : Database) → AdoptsPart before between → Adopts between after → Adopts before after }
{}

/// Whichever of its calls a commit is stopped in, a crash finds the rows as they were, or those of the next state. The
/// latter it finds only if the commit was stopped in the call that commits. Of several changes the next state is the
/// one after all of them.
pub fn stops_leave_a_state<S: Alter>()
    ensures one { LeavesAState S.Store }
    ensures several { LeavesAllOrNone S.Store }
{}
