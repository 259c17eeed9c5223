//! Laws of the definitions, which no program calls.
ghost use Rattle.prt_refusals.specs.declared.on_refusal.OnRefusal.{OnRefusal};
ghost use Rattle.prt_version.specs.Accepted.{IsAccepted};
ghost use Rattle.prt_version.specs.Change.{fold};
ghost use Rattle.prt_version.specs.Sound.{IsSound};
ghost use Rattle.prt_version.specs.State.{State, opening_state};
ghost use Rattle.prt_dump.specs.Dump.{dump_commands};
ghost use Rattle.prt_dump.specs.PutBack.{IsPlainState, IsPutBack, IsSameButForIds, StateFits, dump_text, session_of};

/// The commands of a dump are each accepted over a new database. They make the same routes and, except for ids, the same
/// rules.
pub fn dump_remakes()
    ensures accepted { (state : State) → IsSound state → IsAccepted opening_state (dump_commands state) }
    ensures same { (state : State) → IsSound state → IsSameButForIds (fold opening_state (dump_commands state)) state }
{}

/// A session over the lines of a dump, whatever it does after refused lines, accepts each of them, and lists the same.
pub fn dump_is_put_back()
    ensures { (state : State) (mode : OnRefusal) → IsSound state → StateFits state → IsPlainState state → IsPutBack state (session_of mode (dump_text state)) }
{}
