//! A directory of spans: where those of each slot of addresses are.
ghost use Rattle.std.specs.Prelude.{◌≡◌, ℕ, ◌<◌, ◌≤◌, ◌^◌, length, slice_index_or, IfOk};
ghost use Rattle.prt_trie.specs.Directory.{AreBefore, AreBounds, IsDirectory, slot_of};
ghost use Rattle.prt_trie.specs.Spans.{AreSpans};
ghost use Rattle.prt_trie.specs.declared.span.Span.{Span};

use crate::span::Span;
use prt_route::Route;
use std::alloc::{AllocError, Global};

/// How many bits of an address name its slot.
const SLOT_BITS: u32 = 8;

/// How many slots a directory has.
const SLOTS: usize = 1 << SLOT_BITS;

/// How many spans are searched with no directory.
const FEW: usize = 32;

/// Slots of 2^`shift` addresses each, from `base` on; the addresses before it are in the first slot too.
#[derive(Clone, Copy)]
pub(crate) struct Slots {
    base: u32,
    shift: u8,
}

impl Slots {
    /// Slots over the addresses at which rows begin.
    pub fn over(rows: &[Route]) -> Slots
        ensures { result.shift < 32 }
    {
        let (Some(first), Some(last)) = (rows.first(), rows.last()) else {
            return Slots { base: 0, shift: 0 };
        };
        let base = first.prefix.bits();
        let beyond = last.prefix.bits().saturating_sub(base);
        let bits = 32u32.saturating_sub(beyond.leading_zeros());
        Slots {
            base,
            shift: bits.saturating_sub(SLOT_BITS) as u8,
        }
    }

    /// The number of the slot in which the address lies.
    fn slot_of(&self, addr: u32) -> usize
        requires { self.now.shift < 32 }
        ensures { result ≡ slot_of self.now addr }
    {
        (addr.saturating_sub(self.base) >> self.shift) as usize
    }
}

/// The number of the first span from `from` on that begins in the slot or behind it.
fn first_in(spans: &[Span], from: usize, slots: Slots, slot: usize) -> usize
    requires shift { slots.shift < 32 }
    requires spans { AreSpans spans.now }
    requires from { from ≤ length spans.now }
    requires before { AreBefore spans.now slots from slot }
    ensures to { result ≤ length spans.now }
    ensures before { AreBefore spans.now slots result slot }
    ensures rest { (k : ℕ) (d : Span) → result ≤ k → k < length spans.now → slot ≤ slot_of slots (slice_index_or spans.now k d).first }
{
    let mut at = from;
    while at < spans.len() && slots.slot_of(spans[at].first) < slot {
        at += 1;
    }
    at
}

/// Where the spans of each slot begin. If they are few, or too many to be counted in 32 bits, there is no slot.
pub(crate) fn starts_of(alloc: Global, spans: &[Span], slots: Slots) -> Result<Vec<u32>, AllocError>
    requires shift { slots.shift < 32 }
    requires spans { AreSpans spans.now }
    ensures { IfOk result (λ starts. IsDirectory spans.now slots starts.items) }
{
    let mut starts = Vec::new(alloc);
    if spans.len() <= FEW || spans.len() > u32::MAX as usize {
        return Ok(starts);
    }
    starts.reserve_exact(SLOTS + 1)?;
    let mut at = 0;
    for slot in 0..SLOTS + 1 {
        at = first_in(spans, at, slots, slot);
        starts.push(at as u32)?;
    }
    Ok(starts)
}

/// From where to where the last span that begins at the address or below it is searched.
pub(crate) fn bounds_of(spans: &[Span], slots: Slots, starts: &[u32], addr: u32) -> (usize, usize)
    requires shift { slots.shift < 32 }
    requires spans { AreSpans spans.now }
    requires directory { IsDirectory spans.now slots starts.now }
    ensures { AreBounds spans.now addr result.0 result.1 }
{
    let slot = slots.slot_of(addr);
    if slot + 1 < starts.len() {
        (starts[slot] as usize, starts[slot + 1] as usize)
    } else {
        (0, spans.len())
    }
}
