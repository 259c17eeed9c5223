//! Policy tables: what becomes of every packet, by a compiled table for each class of packets.
ghost use Rattle.std.specs.Prelude.{◌≡◌, ◌⊎◌, Err, IfErr, IfOk, None, Ok, OnErr, OnOk, Some};
ghost use Rattle.prt_refusals.specs.declared.refusal.Refusal.TheVariants.{NoMemory};
ghost use Rattle.prt_fib.specs.Policy.{IsUnfit};
ghost use Rattle.prt_c.specs.Lookup.{held_answer, status, written};
ghost use Rattle.prt_c.specs.Many.{AreFound, AreLookedUp};
ghost use Rattle.prt_c.specs.Policies.{IsAfterLine, IsNewPolicy, IsSharedPolicy, PutsPolicy, held_outcome, held_policy, outcome_for};
ghost use Rattle.prt_c.specs.States.{held_state};

use crate::answer::AnswerC;
use crate::held::Held;
use crate::lookup::look_up;
use crate::many::{LookedUp, smaller};
use crate::outcome::{OutcomeC, write_outcome};
use crate::packet::{PacketC, packet_by, read_interface};
use crate::parts::Parts;
use crate::policy_held::PolicyHeld;
use crate::policy_line::advance;
use crate::policy_owner::PolicyOwner;
use crate::status::{DONE, EMPTY};
use prt_fib::PolicyFib;
use prt_route::Dev;
use prt_version::owners::{first_owner, share};
use prt_version::{Refusal, Version};
use std::alloc::Global;
use std::mem::replace;
use std::sync::Arc;

/// Boxes an owner, and holds it.
fn hold(alloc: Global, policy: Arc<PolicyFib>) -> Result<PolicyHeld, Refusal>
    ensures value { IfOk result (λ held. held.home ≡ Some (record { policy = policy })) }
    ensures reason { IfErr result (λ reason. reason ≡ NoMemory) }
{
    Ok(PolicyHeld::of_parts(Parts::of(Box::new(alloc, PolicyOwner { policy })?)))
}

/// Compiles the tables of all packets, and holds them.
fn compile(alloc: Global, version: &Version) -> Result<PolicyHeld, Refusal>
    ensures value { IfOk result (λ held. held_policy held.home ≡ Some version.now) }
    ensures reason { IfErr result (IsUnfit version.now) }
{
    let policy = PolicyFib::new(alloc, version)?;
    hold(alloc, first_owner(alloc, policy)?)
}

/// Lets an owner go; the last one of a policy table frees it.
fn release(held: PolicyHeld) {
    if let Some(parts) = held.into_parts() {
        drop(parts.into_box());
    }
}

/// Puts what was made in the place of what is held, which is released, and returns the status.
fn put(held: &mut PolicyHeld, made: Result<PolicyHeld, Refusal>) -> u32
    ensures { PutsPolicy held.old.home made held.new.home result }
{
    match made {
        Ok(next) => {
            release(replace(held, next));
            DONE
        }
        Err(reason) => reason.code(),
    }
}

/// Compiles what becomes of every packet in the version that is held.
///
/// Returns 0, and what `policy` held is released. Otherwise `policy` holds what it did: it returns 23 if the rules divide
/// packets into more than 64 classes or 100,000 boxes, or a class has more than 65,536 outcomes. It returns 26 if memory is
/// refused, or 100 if `version` holds nothing. `version` holds the same afterwards.
#[unsafe(no_mangle)]
pub extern "C" fn prt_policy_new(alloc: Global, version: &mut Held, policy: &mut PolicyHeld) -> u32
    ensures same { version.new.home ≡ version.old.home }
    ensures made { IsNewPolicy (held_state version.old.home) policy.old.home policy.new.home result }
{
    let Some(parts) = replace(version, Held::empty(alloc)).into_parts() else {
        return EMPTY;
    };
    let owner = parts.into_box();
    let made = compile(alloc, &owner.version);
    *version = Held::of_parts(Parts::of(owner));
    put(policy, made)
}

/// Executes a line of the command language, which comes without its newline: the holder then has the policy table of the
/// version after it. Other owners keep the table before it. A blank line, a comment and a question change nothing.
///
/// Returns 0, and `number` is the number of commands that were accepted so far. Otherwise what `policy` holds and `number`
/// are as they were. Then it returns what `prt_tables_line` does for the line, what `prt_policy_new` does for the version
/// after it, or 100 if `policy` holds nothing.
#[unsafe(no_mangle)]
pub extern "C" fn prt_policy_follow(
    alloc: Global,
    policy: &mut PolicyHeld,
    line: &[u8],
    number: &mut u64,
) -> u32
    ensures { IsAfterLine policy.old.home line.now policy.new.home number.old number.new result }
{
    let Some(parts) = replace(policy, PolicyHeld::empty(alloc)).into_parts() else {
        return EMPTY;
    };
    let mut owner = parts.into_box();
    let done = advance(alloc, &mut owner.policy, line);
    let count = owner.policy.version().number();
    *policy = PolicyHeld::of_parts(Parts::of(owner));
    match done {
        Ok(()) => {
            *number = count;
            DONE
        }
        Err(reason) => reason.code(),
    }
}

/// Finds what becomes of a packet, and writes it. It takes no memory.
///
/// # Errors
///
/// `BadName` if its interface has no such name; the outcome is then as it was.
fn find(policy: &PolicyFib, packet: &PacketC, outcome: &mut OutcomeC) -> Result<(), Refusal>
    ensures found { OnOk result (outcome_for policy.now packet.now ≡ Ok outcome.new) }
    ensures refused { IfErr result (λ reason. outcome_for policy.now packet.now ≡ Err reason) }
    ensures same { OnErr result (outcome.new ≡ outcome.old) }
{
    let mut looked_up = packet_by(packet, Dev::loopback());
    read_interface(&packet.interface, &mut looked_up.iif)?;
    write_outcome(policy.find(&looked_up), outcome);
    Ok(())
}

/// Finds what becomes of a packet.
///
/// It takes no memory, and waits for nothing. Returns 0, 13 if the packet's interface has no such name, or 100 if `policy`
/// holds nothing; `outcome` is then as it was. `policy` holds the same afterwards.
#[unsafe(no_mangle)]
pub extern "C" fn prt_policy_find(
    alloc: Global,
    policy: &mut PolicyHeld,
    packet: &PacketC,
    outcome: &mut OutcomeC,
) -> u32
    ensures same { policy.new.home ≡ policy.old.home }
    ensures status { result ≡ status (held_outcome (held_policy policy.old.home) packet.now) }
    ensures outcome { outcome.new ≡ written (held_outcome (held_policy policy.old.home) packet.now) outcome.old }
{
    let Some(parts) = replace(policy, PolicyHeld::empty(alloc)).into_parts() else {
        return EMPTY;
    };
    let owner = parts.into_box();
    let found = find(&owner.policy, packet, outcome);
    *policy = PolicyHeld::of_parts(Parts::of(owner));
    match found {
        Ok(()) => DONE,
        Err(reason) => reason.code(),
    }
}

/// Finds what becomes of packets, one after the other, as many as there is room for outcomes, up to the first that has none.
///
/// It takes no memory.
fn find_all(policy: &PolicyFib, packets: &[PacketC], outcomes: &mut [OutcomeC]) -> LookedUp
    ensures { AreLookedUp (outcome_for policy.now) packets.now outcomes.old outcomes.new result }
{
    let room = smaller(packets.len(), outcomes.len());
    for place in 0..room {
        match find(policy, &packets[place], &mut outcomes[place]) {
            Ok(()) => {}
            Err(reason) => {
                return LookedUp {
                    count: place,
                    refused: Some(reason),
                };
            }
        }
    }
    LookedUp {
        count: room,
        refused: None,
    }
}

/// Finds what becomes of packets, one after the other, up to the first that has a bad name. It finds as many outcomes as
/// there are packets and outcomes.
///
/// It takes no memory, and waits for nothing. `count` is how many were found. Each of `outcomes` before it is that of the
/// packet at its place, and the others are as they were. `policy` holds the same afterwards.
///
/// Returns 0, or 13 if the interface of the packet at `count` has no such name. If `policy` holds nothing it returns 100,
/// and all is as it was.
#[unsafe(no_mangle)]
pub extern "C" fn prt_policy_find_many(
    alloc: Global,
    policy: &mut PolicyHeld,
    packets: &[PacketC],
    outcomes: &mut [OutcomeC],
    count: &mut usize,
) -> u32
    ensures same { policy.new.home ≡ policy.old.home }
    ensures found { AreFound outcome_for (held_policy policy.old.home) packets.now outcomes.old outcomes.new count.old count.new result }
{
    let Some(parts) = replace(policy, PolicyHeld::empty(alloc)).into_parts() else {
        return EMPTY;
    };
    let owner = parts.into_box();
    let found = find_all(&owner.policy, packets, outcomes);
    *policy = PolicyHeld::of_parts(Parts::of(owner));
    *count = found.count;
    match found.refused {
        Some(reason) => reason.code(),
        None => DONE,
    }
}

/// Looks a packet up in the policy table's version, and writes the answer: which rule and which route decide.
///
/// It takes no memory, and waits for nothing. Returns 0, 13 if the packet's interface has no such name, or 100 if `policy`
/// holds nothing; the answer is then as it was. `policy` holds the same afterwards.
#[unsafe(no_mangle)]
pub extern "C" fn prt_policy_route(
    alloc: Global,
    policy: &mut PolicyHeld,
    packet: &PacketC,
    answer: &mut AnswerC,
) -> u32
    ensures same { policy.new.home ≡ policy.old.home }
    ensures status { result ≡ status (held_answer (held_policy policy.old.home) packet.now) }
    ensures answer { answer.new ≡ written (held_answer (held_policy policy.old.home) packet.now) answer.old }
{
    let Some(parts) = replace(policy, PolicyHeld::empty(alloc)).into_parts() else {
        return EMPTY;
    };
    let owner = parts.into_box();
    let looked_up = look_up(owner.policy.version(), packet, answer);
    *policy = PolicyHeld::of_parts(Parts::of(owner));
    match looked_up {
        Ok(()) => DONE,
        Err(reason) => reason.code(),
    }
}

/// Makes one owner more of a policy table, so that another thread can look packets up in it.
///
/// What `other` held is released. Returns 0, 26 if memory is refused, or 100 if `policy` holds nothing; `other` then holds
/// what it did. `policy` holds the same afterwards.
#[unsafe(no_mangle)]
pub extern "C" fn prt_policy_share(
    alloc: Global,
    policy: &mut PolicyHeld,
    other: &mut PolicyHeld,
) -> u32
    ensures same { policy.new.home ≡ policy.old.home }
    ensures owned { IsSharedPolicy (held_policy policy.old.home) other.old.home other.new.home result }
{
    let Some(parts) = replace(policy, PolicyHeld::empty(alloc)).into_parts() else {
        return EMPTY;
    };
    let owner = parts.into_box();
    let shared = share(&owner.policy);
    *policy = PolicyHeld::of_parts(Parts::of(owner));
    let held = match shared {
        Ok(other) => hold(alloc, other),
        Err(reason) => Err(reason),
    };
    put(other, held)
}

/// Releases a policy table, and leaves the holder empty. The last owner of a table frees it.
#[unsafe(no_mangle)]
pub extern "C" fn prt_policy_free(alloc: Global, policy: &mut PolicyHeld)
    ensures { policy.new.home ≡ None }
{
    release(replace(policy, PolicyHeld::empty(alloc)));
}
