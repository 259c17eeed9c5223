//! Laws of the definitions, which no program calls.
ghost use Rattle.prt_laws.specs.Desks.{DeskHasRoom, DeskHoldsAll, FileIsRun, ListIsSteps, ReopenedDesk, ScriptIsRun, SessionsHold, TurnIsSteps};
ghost use Rattle.prt_laws.specs.Lookers.{EveryLookersEvent};
ghost use Rattle.prt_laws.specs.Registries.{EveryEventKeepsRegistry, RoomIsRoom};
ghost use Rattle.prt_laws.specs.Runs.{EveryRunGoesOn, EveryRunLeaves, EveryRunStands, EveryStopLeaves};
ghost use Rattle.prt_laws.specs.Works.{FileEnds, RefusedFileDoesNothing, RunIsWork, RunsHold, StopIsWork};

use sqlite::Alter;

/// After each list of exits of a publisher's calls, whatever lookers do between them, and wherever it is stopped and
/// adopted again:
///
/// * the publisher and the registry stand for the world of the list's events, which has acknowledged each receipt and
///   nothing else (`stands`);
/// * on a new file, whatever a crash leaves encodes a prefix of the accepted commands. It lacks at most the command, or
///   the commands of the file, that were accepted last. It has each command of a receipt under its number, and the
///   version by which each answer was given, also of one that was given while a call was under way (`leaves`);
/// * that holds of what a stop within a store call leaves, too (`stopped`);
/// * whichever file is left at an exit and adopted, the list goes on (`goes_on`). After a call that was cut short it goes
///   on by `calls::adopt` (`stopped`).
///
/// A failed commit leaves open whether its commands are durable, all of them or none: what is found later shows which fate
/// it had.
///
/// Premises:
///
/// * the calls of each lock come in some order;
/// * a call that doesn't return leaves what its failing exit leaves; of the steps of a commit `IsCutShort` says it;
/// * the disk returns what was written, and our tables are the first of the file (`IsKnown`);
/// * the connection that is adopted shows what was left;
/// * what lies behind the domain's lock is the registry of the list.
pub fn every_run_of_calls<S: Alter>()
    ensures stands { EveryRunStands S.Store }
    ensures leaves { EveryRunLeaves S.Store }
    ensures stopped { EveryStopLeaves S.Store }
    ensures goes_on { EveryRunGoesOn S.Store }
{}

/// Each turn of a command at a desk, whatever befalls it, is the world's events: they show its reply, lead to a world of
/// the desk that it leaves, and acknowledge the command if the reply does (`turn`). So is each turn of commands that
/// are made together or not at all: each of them is acknowledged under its own number, or none (`list`). In such a
/// world what is stored holds all that was acknowledged (`holds`).
pub fn turn_is_steps()
    ensures turn { TurnIsSteps }
    ensures list { ListIsSteps }
    ensures holds { DeskHoldsAll }
{}

/// The lines of a script, whatever befalls each, are lists of events. A command has those of its turn, and they show its
/// reply. A `route get` is a lookup, which shows the answer that its reply reports. Other queries are answered from the
/// published version, without an event. The lists lead to a world of the desk that the script leaves, and acknowledge
/// what the replies do (`run`).
///
/// So is an atomic file: if its reading was refused, or it has no command, that is no event; otherwise it has those of
/// its commands together, and they show its replies (`file`).
///
/// No looker is online between lines, so that world has room for each command: a refusal as busy is no event (`room`). A
/// desk whose stored state is opened again is such a world too, stopped and reopened (`reopened`).
///
/// So what any number of scripts and atomic files on one database leave holds each command that a reply acknowledged,
/// under the number that the reply reports, and the version of each answer to a `route get` (`sessions`).
pub fn script_is_run()
    ensures run { ScriptIsRun }
    ensures file { FileIsRun }
    ensures room { DeskHasRoom }
    ensures reopened { ReopenedDesk }
    ensures sessions { SessionsHold }
{}

/// A session that the program ran over a database is a script or an atomic file of `script_is_run` (`run`). So is a script
/// that was stopped, also if its last command was stored and not answered (`stopped`). What is found after any number
/// of runs on a new database, each of which began with what was found of the one before, holds each command that was
/// answered `ok`, and the version of each answer to a `route get` (`hold`).
pub fn runs_are_works()
    ensures run { RunIsWork }
    ensures stopped { StopIsWork }
    ensures hold { RunsHold }
{}

/// The reading of an atomic file ends: it takes at most 1,000,000 lines of 65,537 bytes each, and one byte more (`ends`).
/// If a line was refused, or the reader failed, nothing is submitted (`nothing`).
pub fn atomic_file_ends()
    ensures ends { FileEnds }
    ensures nothing { RefusedFileDoesNothing }
{}

/// Whatever a looker does, or a reclaim: a publisher and its registry stand for the world after it.
pub fn lookers_events<S: Alter>()
    ensures { EveryLookersEvent S.Store }
{}

/// A registry of grace periods has room exactly if the world has, and stands for the world after each event.
pub fn registry_follows()
    ensures room { RoomIsRoom }
    ensures events { EveryEventKeepsRegistry }
{}
