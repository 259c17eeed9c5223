//! The destinations at which two versions answer a packet differently.
ghost use Rattle.std.specs.Prelude.{◌≡◌, ◌≤◌, IfErr, IfOk, drop, length, map};
ghost use Rattle.std.specs.List.{dedup};
ghost use Rattle.std.specs.Option.{option_eq};
ghost use Rattle.prt_refusals.specs.declared.refusal.Refusal.TheVariants.{NoMemory};
ghost use Rattle.prt_partition.specs.Comparison.{CanCompare, after_of, before_of};
ghost use Rattle.prt_partition.specs.Differing.{IsDiffering};
ghost use Rattle.prt_partition.specs.Spans.{AreDifferences};
ghost use Rattle.prt_partition.specs.Steps.{contrast_from, differences_of, have_same, is_same_transition, last_before};

use crate::comparison::{Comparison, Transition};
use crate::differing::Differing;
use crate::sameness::{Sameness, is_same_verdict};
use crate::touching::{is_nothing, what_touches};
use prt_addr::Addr;
use prt_refusals::Refusal;
use prt_rule::Packet;
use prt_version::{Verdict, Version};
use std::alloc::{AllocError, Global};

/// What becomes of a packet before and after, from a destination on, unless that is the same.
#[derive(Clone, Copy)]
pub(crate) struct Contrast {
    first: Addr,
    transition: Option<Transition>,
}

/// Destinations with one verdict before and another one after.
#[derive(Clone, Copy)]
pub struct Difference {
    /// The first of the destinations.
    pub first: Addr,
    /// The last of them.
    pub last: Addr,
    /// What becomes of the packet to any of them before.
    pub was: Verdict,
    /// What becomes of it after.
    pub is: Verdict,
}

/// Finds what becomes of the packet before and after, from this destination on.
fn contrast_from(
    comparison: &Comparison<'_>,
    sameness: Sameness,
    packet: &Packet,
    first: u32,
) -> Contrast
    requires { CanCompare packet.now comparison.now }
    ensures { result ≡ contrast_from sameness (before_of comparison.now) (after_of comparison.now) packet.now first }
{
    Contrast {
        first: Addr(first),
        transition: comparison.transition_at(sameness, packet, first),
    }
}

/// Finds what becomes of the packet before and after, from each of these destinations on.
fn contrasts_from(
    alloc: Global,
    comparison: &Comparison<'_>,
    sameness: Sameness,
    packet: &Packet,
    starts: &[u32],
) -> Result<Vec<Contrast>, AllocError>
    requires { CanCompare packet.now comparison.now }
    ensures { IfOk result (λ contrasts.
        contrasts.items ≡ map (contrast_from sameness (before_of comparison.now) (after_of comparison.now) packet.now) starts.now) }
{
    starts
        .iter()
        .map(|first| contrast_from(comparison, sameness, packet, *first))
        .collect(alloc)
}

/// Checks whether both have the same verdicts before and after.
fn is_same_transition(transition: &Transition, other: &Transition) -> bool
    ensures { result ≡ is_same_transition transition.now other.now }
{
    is_same_verdict(&transition.was, &other.was) && is_same_verdict(&transition.is, &other.is)
}

/// Checks whether neither is there, or both have the same verdicts before and after.
fn are_same_transitions(transition: &Option<Transition>, other: &Option<Transition>) -> bool
    ensures { result ≡ option_eq is_same_transition transition.now other.now }
{
    match (transition, other) {
        (Some(transition), Some(other)) => is_same_transition(transition, other),
        (None, None) => true,
        _ => false,
    }
}

/// Merges each contrast with the one before it if both have the same verdicts.
fn join(contrasts: &mut Vec<Contrast>)
    ensures { contrasts.new.items ≡ dedup have_same contrasts.old.items }
{
    let same = |contrast: &mut Contrast, before: &mut Contrast| -> bool
        ensures { (result ≡ have_same contrast.entry.now before.entry.now) × ((contrast.exit.now ≡ contrast.entry.now) × (before.exit.now ≡ before.entry.now)) }
    { are_same_transitions(&contrast.transition, &before.transition) };
    contrasts.dedup_by(same);
}

/// Computes the last address before the contrast at this place begins.
fn last_before(contrasts: &[Contrast], place: usize) -> u32
    requires { place ≤ length contrasts.now }
    ensures { result ≡ last_before (drop place contrasts.now) }
{
    if place < contrasts.len() {
        contrasts[place].first.0.saturating_sub(1)
    } else {
        u32::MAX
    }
}

/// Collects the contrasts that differ, each with its last destination.
fn differences_of(alloc: Global, contrasts: &[Contrast]) -> Result<Vec<Difference>, AllocError>
    ensures { IfOk result (λ differences. differences.items ≡ differences_of contrasts.now) }
{
    let mut differences = Vec::new(alloc);
    for (i, contrast) in contrasts.iter().enumerate() {
        if let Some(Transition { was, is }) = contrast.transition {
            differences.push(Difference {
                first: contrast.first,
                last: Addr(last_before(contrasts, i + 1)),
                was,
                is,
            })?;
        }
    }
    Ok(differences)
}

/// Finds exactly the destinations at which the packet's verdict after isn't the same as the one before. They come in ranges
/// with one verdict before and one after. The packet's own destination doesn't matter.
///
/// `differing` is what [`what_differs`](crate::what_differs) finds for the two versions. Only destinations at which that can
/// change an answer are looked at.
///
/// # Errors
///
/// `NoMemory` alone.
pub fn changes(
    alloc: Global,
    before: &Version,
    after: &Version,
    differing: &Differing,
    sameness: Sameness,
    packet: &Packet,
) -> Result<Vec<Difference>, Refusal>
    requires { IsDiffering before.now after.now differing.now }
    ensures value { IfOk result (λ differences. AreDifferences sameness before.now after.now packet.now differences.items) }
    ensures reason { IfErr result (λ reason. reason ≡ NoMemory) }
{
    let touching = what_touches(alloc, differing, packet)?;
    if is_nothing(&touching) {
        return Ok(Vec::new(alloc));
    }
    let comparison = Comparison::new(alloc, before, after, touching, packet)?;
    let starts = &differing.starts;
    let mut contrasts = contrasts_from(alloc, &comparison, sameness, packet, starts)?;
    join(&mut contrasts);
    let differences = differences_of(alloc, &contrasts)?;
    Ok(differences)
}
