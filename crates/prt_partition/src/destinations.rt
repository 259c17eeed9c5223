//! The answers to a packet at all destinations.
ghost use Rattle.std.specs.Prelude.{◌≡◌, IfErr, IfOk, map};
ghost use Rattle.std.specs.List.{dedup};
ghost use Rattle.prt_refusals.specs.declared.refusal.Refusal.TheVariants.{NoMemory};
ghost use Rattle.prt_partition.specs.Spans.{AreSpans};
ghost use Rattle.prt_partition.specs.Steps.{says_same, span_from};

use crate::cuts::starts_of;
use crate::sameness::is_same_verdict;
use crate::touching::to;
use prt_addr::Addr;
use prt_refusals::Refusal;
use prt_rule::Packet;
use prt_version::{Verdict, Version};
use std::alloc::{AllocError, Global};

/// Destinations with one answer: from the first of them up to where the next span begins.
#[derive(Clone, Copy)]
pub struct Span {
    /// The first of the destinations.
    pub first: Addr,
    /// What becomes of the packet to any of them.
    pub verdict: Verdict,
}

/// Builds the span that begins at the address.
fn span_from(version: &Version, packet: &Packet, first: u32) -> Span
    ensures { result ≡ span_from version.now packet.now first }
{
    Span {
        first: Addr(first),
        verdict: version.select(&to(packet, first)).verdict,
    }
}

/// Builds the spans that begin at these addresses.
fn spans_from(
    alloc: Global,
    version: &Version,
    packet: &Packet,
    starts: &[u32],
) -> Result<Vec<Span>, AllocError>
    ensures { IfOk result (λ spans. spans.items ≡ map (span_from version.now packet.now) starts.now) }
{
    starts
        .iter()
        .map(|first| span_from(version, packet, *first))
        .collect(alloc)
}

/// Merges each span with the one before it if both have the same verdict.
fn join(spans: &mut Vec<Span>)
    ensures { spans.new.items ≡ dedup says_same spans.old.items }
{
    let same = |span: &mut Span, before: &mut Span| -> bool
        ensures { (result ≡ says_same span.entry.now before.entry.now) × ((span.exit.now ≡ span.entry.now) × (before.exit.now ≡ before.entry.now)) }
    { is_same_verdict(&span.verdict, &before.verdict) };
    spans.dedup_by(same);
}

/// Finds what becomes of the packet at each destination: spans of destinations with one verdict, in order, each as long as
/// it can be. The packet's own destination doesn't matter.
///
/// # Errors
///
/// `NoMemory` alone.
pub fn spans(alloc: Global, version: &Version, packet: &Packet) -> Result<Vec<Span>, Refusal>
    ensures value { IfOk result (λ spans. AreSpans version.now packet.now spans.items) }
    ensures reason { IfErr result (λ reason. reason ≡ NoMemory) }
{
    let starts = starts_of(alloc, version)?;
    let mut spans = spans_from(alloc, version, packet, &starts)?;
    join(&mut spans);
    Ok(spans)
}
