//! The fence that words name.
ghost use Rattle.std.specs.Prelude.{◌≡◌, IfOk, filter_map, map};
ghost use Rattle.prt_import.specs.TableNames.{known_names};
ghost use Rattle.prt_questions.specs.Fencing.{IsFenceOf, priority_in, range_at, range_of, unread_key, unread_priority};

use crate::left::is_kernels;
use crate::reading::host_names;
use prt_args::{NumberSpan, Reach};
use prt_diff::{Fence, NumberRange};
use prt_import::{HostNames, OmittedLine, route_key, rule_priority};
use prt_program::ReadFiles;
use prt_route::RouteKey;
use std::alloc::{AllocError, Global};

/// Collects the ranges of the numbers that are named.
fn ranges_of(alloc: Global, spans: &[NumberSpan]) -> Result<Vec<NumberRange>, AllocError>
    ensures { IfOk result (λ ranges. ranges.items ≡ map range_of spans.now) }
{
    let mut ranges = Vec::new(alloc);
    for span in spans {
        ranges.push(NumberRange {
            first: span.first,
            last: span.last,
        })?;
    }
    Ok(ranges)
}

/// Makes the range of a number alone.
fn range_at(number: u32) -> NumberRange
    ensures { result ≡ range_at number }
{
    NumberRange {
        first: number,
        last: number,
    }
}

/// Makes a range for each protocol that is named.
fn protocol_ranges(alloc: Global, protocols: &[u8]) -> Result<Vec<NumberRange>, AllocError>
    ensures { IfOk result (λ ranges. ranges.items ≡ map range_at protocols.now) }
{
    let mut ranges = Vec::new(alloc);
    for protocol in protocols {
        ranges.push(range_at(u32::from(*protocol)))?;
    }
    Ok(ranges)
}

/// Finds the priority of the rule that a line of a listing is about.
fn priority_in(line: &OmittedLine) -> Option<u32>
    ensures { result ≡ priority_in line.now }
{
    rule_priority(&line.text)
}

/// Finds the priority of the rule that can't be kept, unless the kernel makes the line itself.
fn unread_priority(line: &OmittedLine) -> Option<NumberRange>
    ensures { result ≡ unread_priority line.now }
{
    if is_kernels(line) {
        return None;
    }
    let priority = priority_in(line)?;
    Some(range_at(priority))
}

/// Finds the key of the route that can't be kept, unless the kernel makes the line itself.
fn unread_key(names: &HostNames, line: &OmittedLine) -> Option<RouteKey>
    ensures { result ≡ unread_key (known_names names.now) line.now }
{
    if is_kernels(line) {
        return None;
    }
    if priority_in(line).is_some() {
        return None;
    }
    route_key(names, &line.text)
}

/// Collects the priorities of the rules that can't be kept.
#[tactic(auto, using(crate::proofs::Picked::picks_none, crate::proofs::Picked::picks_some))]
fn unread_priorities(alloc: Global, unread: &[OmittedLine]) -> Result<Vec<NumberRange>, AllocError>
    ensures { IfOk result (λ ranges. ranges.items ≡ filter_map unread_priority unread.now) }
{
    let mut ranges = Vec::new(alloc);
    for line in unread {
        if let Some(priority) = unread_priority(line) {
            ranges.push(priority)?;
        }
    }
    Ok(ranges)
}

/// Collects the keys of the routes that can't be kept. A line of which neither a priority nor a key can be read has none that
/// is ours.
#[tactic(auto, using(crate::proofs::Picked::picks_none, crate::proofs::Picked::picks_some))]
fn unread_keys(
    alloc: Global,
    names: &HostNames,
    unread: &[OmittedLine],
) -> Result<Vec<RouteKey>, AllocError>
    ensures { IfOk result (λ keys. keys.items ≡ filter_map (unread_key (known_names names.now)) unread.now) }
{
    let mut keys = Vec::new(alloc);
    for line in unread {
        if let Some(key) = unread_key(names, line) {
            keys.push(key)?;
        }
    }
    Ok(keys)
}

/// Makes the fence that words name, without what is in the place of lines that can't be kept.
///
/// # Errors
///
/// Memory is refused.
pub(crate) fn fence_beside<F: ReadFiles>(
    files: &F,
    alloc: Global,
    reach: &Reach,
    unread: &[OmittedLine],
) -> Result<Fence, AllocError>
    ensures { IfOk result (IsFenceOf reach.now unread.now) }
{
    let names = host_names(files, alloc)?;
    Ok(Fence {
        all: reach.all,
        tables: ranges_of(alloc, &reach.tables)?,
        protocols: protocol_ranges(alloc, &reach.protocols)?,
        priorities: ranges_of(alloc, &reach.priorities)?,
        unread_priorities: unread_priorities(alloc, unread)?,
        unread_keys: unread_keys(alloc, &names, unread)?,
    })
}
