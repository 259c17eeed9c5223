//! Laws of the definitions, which no program calls.
ghost use Rattle.std.specs.Prelude.{◌≡◌, ◌+◌, ◌<◌, ◌≤◌, ◌++◌, ℕ, List, length, true};
ghost use Rattle.std.specs.List.{AllByRecursion as Each};
ghost use Rattle.prt_version.specs.Change.{fold};
ghost use Rattle.prt_version.specs.State.{opening_state};
ghost use Rattle.prt_replay.specs.Durability.{Grows, IsAcknowledged, IsAnswered, IsDurable, IsRetained, is_acknowledged, last_opening};
ghost use Rattle.prt_replay.specs.World.{outcomes_from, published_version, reopened, run_from, start};
ghost use Rattle.prt_replay.specs.declared.event.Event.{Event};

/// Says what holds after every list of events, whatever their order:
///
/// * what is durable is a prefix of the accepted commands, which lacks at most the command, or the commands of the
///   file, that were accepted last, and the disk is the state after it; what is published is durable; of what is
///   published all is noted, or all but those (`durable`);
/// * an opening yields the state after the accepted commands that are durable (`reopened`);
/// * each acknowledged command is durable, under its number (`acknowledged`);
/// * since the last opening each accepted command but those accepted last is acknowledged (`all_but_last`);
/// * each answer is that of the state of its number, which is durable (`answered`);
/// * the version that a looker holds is kept, and the looker has announced that number or a lower one (`retained`);
/// * what was acknowledged and answered, and what is durable, stays so whatever comes (`grows`).
pub fn every_run()
    ensures durable { (events : List Event) → IsDurable (run_from start events) }
    ensures reopened { (events : List Event) →
        published_version (reopened (run_from start events)) ≡ fold opening_state (reopened (run_from start events)).accepted }
    ensures acknowledged { (events : List Event) → Each (IsAcknowledged (run_from start events)) (run_from start events).acks }
    ensures all_but_last { (events : List Event) (number : ℕ) → last_opening 0 (outcomes_from start events) < number →
        number + length (run_from start events).last ≤ length (run_from start events).accepted → is_acknowledged (run_from start events).acks number ≡ true }
    ensures answered { (events : List Event) → Each (IsAnswered (run_from start events)) (run_from start events).answers }
    ensures retained { (events : List Event) → Each (IsRetained (run_from start events)) (run_from start events).lookers }
    ensures grows { (events more : List Event) → Grows (run_from start events) (run_from start (events ++ more)) }
{}
