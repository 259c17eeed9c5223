//! Compiled tables: what becomes of the packets of one source, interface and mark, for each destination.
ghost use Rattle.std.specs.Prelude.{◌≡◌, IfErr, IfOk, None, Some};
ghost use Rattle.std.specs.List.{slice_get};
ghost use Rattle.prt_refusals.specs.declared.refusal.Refusal.TheVariants.{NoMemory};
ghost use Rattle.prt_c.specs.Fibs.{AreAllIn, AreNumbered, IsAnswerOf, IsCompiled, IsNewTable, IsNumbered, IsOutcomeOf, IsShared, IsUncompiled};
ghost use Rattle.prt_c.specs.Fibs.{PutsTable, WritesOutcome, held_table};
ghost use Rattle.prt_c.specs.States.{held_state};

use crate::answer::{AnswerC, write_answer};
use crate::fib_held::FibHeld;
use crate::fib_owner::FibOwner;
use crate::held::Held;
use crate::many::smaller;
use crate::outcome::{OutcomeC, write_outcome};
use crate::packet::{PacketC, packet_by, read_interface};
use crate::parts::Parts;
use crate::status::{DONE, EMPTY};
use prt_fib::Fib;
use prt_route::{Addr, Dev};
use prt_version::owners::{first_owner, share};
use prt_version::{Refusal, Version};
use std::alloc::Global;
use std::mem::replace;
use std::sync::Arc;

/// Boxes an owner, and holds it.
fn hold(alloc: Global, fib: Arc<Fib>) -> Result<FibHeld, Refusal>
    ensures value { IfOk result (λ held. held.home ≡ Some (record { fib = fib })) }
    ensures reason { IfErr result (λ reason. reason ≡ NoMemory) }
{
    Ok(FibHeld::of_parts(Parts::of(Box::new(alloc, FibOwner { fib })?)))
}

/// Compiles the table of the packets that C describes, and holds it.
fn compile(alloc: Global, version: &Version, packet: &PacketC) -> Result<FibHeld, Refusal>
    ensures value { IfOk result (λ held. IsCompiled version.now packet.now (held_table held.home)) }
    ensures reason { IfErr result (λ reason. IsUncompiled version.now packet.now reason) }
{
    let mut looked_up = packet_by(packet, Dev::loopback());
    read_interface(&packet.interface, &mut looked_up.iif)?;
    let fib = Fib::new(alloc, version, &looked_up)?;
    hold(alloc, first_owner(alloc, fib)?)
}

/// Lets an owner go; the last one of a table frees it.
fn release(held: FibHeld) {
    if let Some(parts) = held.into_parts() {
        drop(parts.into_box());
    }
}

/// Puts what was made in the place of what is held, which is released, and returns the status.
fn put(held: &mut FibHeld, made: Result<FibHeld, Refusal>) -> u32
    ensures { PutsTable held.old.home made held.new.home result }
{
    match made {
        Ok(next) => {
            release(replace(held, next));
            DONE
        }
        Err(reason) => reason.code(),
    }
}

/// Compiles the table of the packets of one source, interface and mark in the version that is held. The destination of
/// `packet` doesn't matter.
///
/// Returns 0, and what `fib` held is released. Otherwise `fib` holds what it did: it returns 13 if the packet's interface has no such name,
/// 23 if the packet has more than 65,536 outcomes, 26 if memory is refused, or 100 if `version` holds nothing. `version`
/// holds the same afterwards.
#[unsafe(no_mangle)]
pub extern "C" fn prt_fib_new(
    alloc: Global,
    version: &mut Held,
    packet: &PacketC,
    fib: &mut FibHeld,
) -> u32
    ensures same { version.new.home ≡ version.old.home }
    ensures made { IsNewTable (held_state version.old.home) packet.now fib.old.home fib.new.home result }
{
    let Some(parts) = replace(version, Held::empty(alloc)).into_parts() else {
        return EMPTY;
    };
    let owner = parts.into_box();
    let made = compile(alloc, &owner.version, packet);
    *version = Held::of_parts(Parts::of(owner));
    put(fib, made)
}

/// Finds the number of what becomes of packets to a destination. It takes no memory, and waits for nothing.
///
/// Returns 0, or 100 if `fib` holds nothing; `number` is then as it was. `fib` holds the same afterwards.
#[unsafe(no_mangle)]
pub extern "C" fn prt_fib_find(
    alloc: Global,
    fib: &mut FibHeld,
    destination: u32,
    number: &mut u16,
) -> u32
    ensures same { fib.new.home ≡ fib.old.home }
    ensures found { IsNumbered (held_table fib.old.home) destination number.old number.new result }
{
    let Some(parts) = replace(fib, FibHeld::empty(alloc)).into_parts() else {
        return EMPTY;
    };
    let owner = parts.into_box();
    *number = owner.fib.number(Addr(destination));
    *fib = FibHeld::of_parts(Parts::of(owner));
    DONE
}

/// Finds the numbers of destinations, one after the other, as many as there are numbers to be written.
fn number_all(fib: &Fib, destinations: &[u32], numbers: &mut [u16]) -> usize
    ensures { AreAllIn fib.now destinations.now numbers.old numbers.new result }
{
    let room = smaller(destinations.len(), numbers.len());
    for place in 0..room {
        numbers[place] = fib.number(Addr(destinations[place]));
    }
    room
}

/// Finds the numbers of destinations, one after the other, as many as there are destinations and numbers.
///
/// It takes no memory, and waits for nothing. `count` is how many were found. Each of `numbers` before it is that of the
/// destination at its place, and the others are as they were. `fib` holds the same afterwards.
///
/// Returns 0, or 100 if `fib` holds nothing, and all is as it was.
#[unsafe(no_mangle)]
pub extern "C" fn prt_fib_find_many(
    alloc: Global,
    fib: &mut FibHeld,
    destinations: &[u32],
    numbers: &mut [u16],
    count: &mut usize,
) -> u32
    ensures same { fib.new.home ≡ fib.old.home }
    ensures found { AreNumbered (held_table fib.old.home) destinations.now numbers.old numbers.new count.old count.new result }
{
    let Some(parts) = replace(fib, FibHeld::empty(alloc)).into_parts() else {
        return EMPTY;
    };
    let owner = parts.into_box();
    *count = number_all(&owner.fib, destinations, numbers);
    *fib = FibHeld::of_parts(Parts::of(owner));
    DONE
}

/// Writes the outcome of a number, and returns the status.
fn tell_outcome(fib: &Fib, number: u16, outcome: &mut OutcomeC) -> u32
    ensures { WritesOutcome (slice_get fib.now.outcomes number) outcome.old outcome.new result }
{
    let outcomes = fib.outcomes();
    let place = usize::from(number);
    if place < outcomes.len() {
        write_outcome(&outcomes[place], outcome);
        DONE
    } else {
        Refusal::NoSuch.code()
    }
}

/// Writes the outcome of a number that the table has.
///
/// Returns 0, 22 if the table has no such number, or 100 if `fib` holds nothing; `outcome` is then as it was. `fib` holds the
/// same afterwards.
#[unsafe(no_mangle)]
pub extern "C" fn prt_fib_outcome(
    alloc: Global,
    fib: &mut FibHeld,
    number: u16,
    outcome: &mut OutcomeC,
) -> u32
    ensures same { fib.new.home ≡ fib.old.home }
    ensures outcome { IsOutcomeOf (held_table fib.old.home) number outcome.old outcome.new result }
{
    let Some(parts) = replace(fib, FibHeld::empty(alloc)).into_parts() else {
        return EMPTY;
    };
    let owner = parts.into_box();
    let told = tell_outcome(&owner.fib, number, outcome);
    *fib = FibHeld::of_parts(Parts::of(owner));
    told
}

/// Looks a packet to a destination up in the table's version, and writes the answer: which rule and which route decide.
///
/// Returns 0, or 100 if `fib` holds nothing; `answer` is then as it was. `fib` holds the same afterwards.
#[unsafe(no_mangle)]
pub extern "C" fn prt_fib_route(
    alloc: Global,
    fib: &mut FibHeld,
    destination: u32,
    answer: &mut AnswerC,
) -> u32
    ensures same { fib.new.home ≡ fib.old.home }
    ensures answer { IsAnswerOf (held_table fib.old.home) destination answer.old answer.new result }
{
    let Some(parts) = replace(fib, FibHeld::empty(alloc)).into_parts() else {
        return EMPTY;
    };
    let owner = parts.into_box();
    write_answer(&owner.fib.select(Addr(destination)), answer);
    *fib = FibHeld::of_parts(Parts::of(owner));
    DONE
}

/// Makes one owner more of a table, so that another thread can look packets up in it.
///
/// What `other` held is released. Returns 0, 26 if memory is refused, or 100 if `fib` holds nothing; `other` then holds what
/// it did. `fib` holds the same afterwards.
#[unsafe(no_mangle)]
pub extern "C" fn prt_fib_share(alloc: Global, fib: &mut FibHeld, other: &mut FibHeld) -> u32
    ensures same { fib.new.home ≡ fib.old.home }
    ensures owned { IsShared (held_table fib.old.home) other.old.home other.new.home result }
{
    let Some(parts) = replace(fib, FibHeld::empty(alloc)).into_parts() else {
        return EMPTY;
    };
    let owner = parts.into_box();
    let shared = share(&owner.fib);
    *fib = FibHeld::of_parts(Parts::of(owner));
    let held = match shared {
        Ok(other) => hold(alloc, other),
        Err(reason) => Err(reason),
    };
    put(other, held)
}

/// Releases a table, and leaves the holder empty. The last owner of a table frees it.
#[unsafe(no_mangle)]
pub extern "C" fn prt_fib_free(alloc: Global, fib: &mut FibHeld)
    ensures { fib.new.home ≡ None }
{
    release(replace(fib, FibHeld::empty(alloc)));
}
