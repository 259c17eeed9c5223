//! Lists of events that are played.
ghost use Rattle.std.specs.Prelude.{◌≡◌, IfErr, IfOk};
ghost use Rattle.prt_refusals.specs.declared.refusal.Refusal.TheVariants.{NoMemory};
ghost use Rattle.prt_replay.specs.Machine.{machine_outcomes};
ghost use Rattle.prt_replay.specs.World.{outcomes_from, start};

use crate::machine::Machine;
use crate::{Event, Refusal, Trace};
use std::alloc::Global;

/// Plays these events on a machine, and returns the outcome of each.
fn play_on(alloc: Global, machine: &mut Machine, events: &[Event]) -> Result<Trace, Refusal>
    ensures value { IfOk result (λ trace. trace ≡ machine_outcomes machine.old events.now) }
    ensures reason { IfErr result (λ reason. reason ≡ NoMemory) }
{
    let mut trace = Trace::new(alloc);
    for event in events {
        match machine.step(alloc, event) {
            Ok(outcome) => trace.push(outcome)?,
            Err(_) => return Err(Refusal::NoMemory),
        }
    }
    Ok(trace)
}

/// Plays these events from a new database with no looker online, and returns the outcome of each.
///
/// It keeps real versions and the real registry, and in the place of a disk the version that is durable.
///
/// # Errors
///
/// `NoMemory` alone.
pub fn play_events(alloc: Global, events: &[Event]) -> Result<Trace, Refusal>
    ensures value { IfOk result (λ trace. trace ≡ outcomes_from start events.now) }
    ensures reason { IfErr result (λ reason. reason ≡ NoMemory) }
{
    let mut machine = Machine::new(alloc)?;
    play_on(alloc, &mut machine, events)
}
