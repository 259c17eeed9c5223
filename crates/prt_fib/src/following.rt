//! How a piece of a table follows a change of a route.
ghost use Rattle.std.specs.Prelude.{◌≡◌, ◌⊎◌, ◌+◌, ◌<◌, ◌≤◌, IfErr, IfOk, IfSome, OnOk, length, slice_index};
ghost use Rattle.std.specs.Arc.{arc_value};
ghost use Rattle.std.specs.List.Sorted.{IsStrictlyIncreasing};
ghost use Rattle.prt_refusals.specs.declared.refusal.Refusal.TheVariants.{Full, NoMemory};
ghost use Rattle.prt_partition.specs.Cuts.{end};
ghost use Rattle.prt_version.specs.Change.{put};
ghost use Rattle.prt_version.specs.State.{State};
ghost use Rattle.prt_fib.specs.Following.{AreDivided, AreRenumbered, IsSplit};
ghost use Rattle.prt_fib.specs.Pieces.{IsChangedAt, IsPiece, Keeps, Tells};

use crate::directory::count_below;
use crate::numbering::outcome_to;
use crate::outcomes::{Outcomes, number_among};
use crate::piece::Piece;
use prt_addr::Prefix;
use prt_refusals::Refusal;
use prt_route::RouteEdit;
use prt_rule::Packet;
use prt_version::{Change, Version};
use std::alloc::{AllocError, Global};
use std::sync::Arc;

/// Finds the prefix of the route that the edit puts or removes; `None` for a flush.
fn edited_prefix(edit: RouteEdit) -> Option<Prefix>
    ensures { IfSome result (λ prefix. (state : State) → IsChangedAt state (put state (Change.Route edit)) prefix) }
{
    match edit {
        RouteEdit::Put(route) => Some(route.prefix),
        RouteEdit::Remove(key) => Some(key.prefix),
        RouteEdit::Flush(_) => None,
    }
}

/// Finds the prefix of the one route that the change puts or removes; `None` for a change of rules and for a flush.
pub(crate) fn changed_prefix(change: Change) -> Option<Prefix>
    ensures { IfSome result (λ prefix. (state : State) → IsChangedAt state (put state change) prefix) }
{
    match change {
        Change::Route(edit) => edited_prefix(edit),
        Change::RouteAdd(route) => Some(route.prefix),
        Change::RulePut(_) | Change::RuleDrop(_) | Change::RuleFlush => None,
    }
}

/// Computes the first number after the addresses of the prefix.
pub(crate) fn end(prefix: &Prefix) -> u64
    ensures value { result ≡ end prefix.now }
    ensures after { prefix.now.bits < result }
{
    u64::from(prefix.bits()) + (1 << (32 - prefix.len()))
}

/// Puts a number of the piece among its starts, unless it is one of them, with the outcome that it had.
fn split(starts: &mut Vec<u32>, numbers: &mut Vec<u16>, base: u32, n: u64) -> Result<(), AllocError>
    requires rise { IsStrictlyIncreasing starts.old.items }
    requires some { 0 < length starts.old.items }
    requires from { slice_index starts.old.items 0 ≤ n }
    requires base { base ≤ 4278190080 }
    requires same { length numbers.old.items ≡ length starts.old.items }
    ensures { OnOk result (IsSplit base starts.old.items numbers.old.items n starts.new.items numbers.new.items) }
{
    if n >= u64::from(base) + 16_777_216 {
        return Ok(());
    }
    let count = count_below(starts, n);
    if count < starts.len() && u64::from(starts[count]) == n {
        return Ok(());
    }
    let number = numbers[count - 1];
    starts.insert(count, n as u32)?;
    numbers.insert(count, number)?;
    Ok(())
}

/// Copies starts, and leaves room for two more.
fn copied_starts(alloc: Global, starts: &[u32]) -> Result<Vec<u32>, AllocError>
    ensures { IfOk result (λ copy. copy.items ≡ starts.now) }
{
    let mut copy = Vec::with_capacity(alloc, starts.len() + 2)?;
    copy.extend_from_slice(starts)?;
    Ok(copy)
}

/// Copies numbers, and leaves room for two more.
fn copied_numbers(alloc: Global, numbers: &[u16]) -> Result<Vec<u16>, AllocError>
    ensures { IfOk result (λ copy. copy.items ≡ numbers.now) }
{
    let mut copy = Vec::with_capacity(alloc, numbers.len() + 2)?;
    copy.extend_from_slice(numbers)?;
    Ok(copy)
}

/// Ranges of destinations: where each begins, and its number.
#[derive(Drop)]
struct Ranges {
    starts: Vec<u32>,
    numbers: Vec<u16>,
}

/// Copies the starts and numbers of a piece, with these two numbers among the starts if they are of the piece.
fn divided(
    alloc: Global,
    piece: &Piece,
    base: u32,
    first: u64,
    end: u64,
) -> Result<Ranges, AllocError>
    requires piece { IsPiece base piece.now }
    requires base { base ≤ 4278190080 }
    requires first { base ≤ first }
    requires end { base ≤ end }
    ensures { IfOk result (λ made. AreDivided base piece.now.starts.items piece.now.numbers.items first end made.starts.items made.numbers.items) }
{
    let mut starts = copied_starts(alloc, &piece.starts)?;
    let mut numbers = copied_numbers(alloc, &piece.numbers)?;
    split(&mut starts, &mut numbers, base, end)?;
    split(&mut starts, &mut numbers, base, first)?;
    Ok(Ranges { starts, numbers })
}

/// Finds the numbers of the starts at these places once more, up to the last place and without it.
///
/// # Errors
///
/// `Full` if an outcome has no number and 16 bits count no more. `NoMemory`.
fn renumber(
    alloc: Global,
    version: &Version,
    packet: &Packet,
    starts: &[u32],
    first: usize,
    last: usize,
    numbers: &mut Vec<u16>,
    outcomes: &mut Arc<Outcomes>,
) -> Result<(), Refusal>
    requires same { length numbers.old.items ≡ length starts.now }
    requires order { first ≤ last }
    requires last { last ≤ length starts.now }
    ensures value { OnOk result (AreRenumbered version.now packet.now starts.now first last numbers.old.items numbers.new.items
        (arc_value outcomes.old) (arc_value outcomes.new)) }
    ensures reason { IfErr result (λ reason. (reason ≡ Full) ⊎ (reason ≡ NoMemory)) }
{
    for place in first..last {
        let outcome = outcome_to(version, packet, starts[place]);
        numbers[place] = number_among(alloc, outcomes, &outcome)?;
    }
    Ok(())
}

/// Makes the piece for the version after a change of a route, whose prefix is in the piece.
///
/// Only the starts in the prefix are looked up in the version.
///
/// # Errors
///
/// `Full` if an outcome has no number and 16 bits count no more. `NoMemory`.
pub(crate) fn piece_after(
    alloc: Global,
    piece: &Piece,
    base: u32,
    next: &Version,
    packet: &Packet,
    prefix: &Prefix,
    outcomes: &mut Arc<Outcomes>,
) -> Result<Piece, Refusal>
    requires piece { IsPiece base piece.now }
    requires base { base ≤ 4278190080 }
    requires first { base ≤ prefix.now.bits }
    requires end { end prefix.now ≤ base + 16777216 }
    ensures piece { IfOk result (IsPiece base) }
    ensures told { IfOk result (λ after. (state : State) → IsChangedAt state next.now prefix.now →
        Tells state packet.now (arc_value outcomes.old) base piece.now → Tells next.now packet.now (arc_value outcomes.new) base after) }
    ensures keeps { OnOk result (Keeps (arc_value outcomes.old) (arc_value outcomes.new)) }
    ensures reason { IfErr result (λ reason. (reason ≡ Full) ⊎ (reason ≡ NoMemory)) }
{
    let first = u64::from(prefix.bits());
    let end = end(prefix);
    let mut made = divided(alloc, piece, base, first, end)?;
    let from = count_below(&made.starts, first);
    let to = count_below(&made.starts, end);
    renumber(
        alloc,
        next,
        packet,
        &made.starts,
        from,
        to,
        &mut made.numbers,
        outcomes,
    )?;
    let after = Piece::of(alloc, made.starts, made.numbers, base)?;
    Ok(after)
}
