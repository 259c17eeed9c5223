//! The spans of sorted rows, made in one pass over them.
ghost use Rattle.std.specs.Prelude.{◌≡◌, ℕ, ◌+◌, ◌-◌, ◌∷◌, [], ◌++◌, ◌<◌, ◌≤◌, ◌^◌, true, false, length, slice_index_or, IfOk, OnOk};
ghost use Rattle.std.specs.Bool.{OnFalse, OnTrue};
ghost use Rattle.prt_addr.specs.Prefix.{is_same_prefix};
ghost use Rattle.prt_route.specs.declared.route.Route.{Route};
ghost use Rattle.prt_trie.specs.Block.{size};
ghost use Rattle.prt_trie.specs.Heaviest.{nowhere};
ghost use Rattle.prt_trie.specs.Sweep.{AreDone, AreFrom, AreRests, AreTo, IsSweep};
ghost use Rattle.prt_trie.specs.Table.{IsTable};
ghost use Rattle.prt_trie.specs.declared.sweep.Rest.{Rest};

use crate::span::Span;
use prt_route::Route;
use std::alloc::{AllocError, Global};

/// The place where no row is.
const NOWHERE: u32 = u32::MAX;

/// A block of addresses that has begun, by its last address and the place of the best row whose prefix it is.
#[derive(Clone, Copy)]
pub(crate) struct Rest {
    last: u32,
    row: u32,
}

/// The spans of the addresses below `next`, and the blocks that go on from there, each within the one before it.
#[derive(Drop)]
pub(crate) struct Sweep {
    spans: Vec<Span>,
    rests: Vec<Rest>,
    next: u64,
}

/// The last of the addresses that begin with the first `len` bits of `first`.
fn last_of(first: u32, len: u8) -> u32
    requires len { len ≤ 32 }
    requires fits { first + size len ≤ 2 ^ 32 }
    ensures { result + 1 ≡ first + size len }
{
    (u64::from(first) + (1 << (32 - len)) - 1) as u32
}

/// Checks whether the row has the prefix of the one before it.
fn is_again(rows: &[Route], at: usize) -> bool
    requires { at < length rows.now }
    ensures yes { OnTrue result (0 < at) }
    ensures same { OnTrue result ((d : Route) → is_same_prefix (slice_index_or rows.now (at - 1) d).prefix (slice_index_or rows.now at d).prefix ≡ true) }
    ensures other { OnFalse result
        (0 < at → (d : Route) → is_same_prefix (slice_index_or rows.now (at - 1) d).prefix (slice_index_or rows.now at d).prefix ≡ false) }
{
    at > 0 && rows[at - 1].prefix == rows[at].prefix
}

impl Sweep {
    /// The block that began last.
    fn top(&self) -> Rest
        requires { 0 < length self.now.rests.items }
        ensures { (d : Rest) → result ≡ slice_index_or self.now.rests.items (length self.now.rests.items - 1) d }
    {
        self.rests[self.rests.len() - 1]
    }

    /// Puts the addresses from `next` up to `end` into a span.
    fn put(&mut self, row: u32, end: u64) -> Result<(), AllocError>
        requires { self.old.next < 2 ^ 32 }
        ensures spans { OnOk result (self.new.spans.items ≡ self.old.spans.items ++ record { first = self.old.next; row = row } ∷ []) }
        ensures rests { self.new.rests.items ≡ self.old.rests.items }
        ensures next { OnOk result (self.new.next ≡ end) }
    {
        let first = self.next as u32;
        self.spans.push(Span { first, row })?;
        self.next = end;
        Ok(())
    }

    /// Ends the block that began last, before which all other rows end or behind which they begin.
    fn close(&mut self, rows: &[Route], at: usize) -> Result<(), AllocError>
        requires table { IsTable rows.now }
        requires at { at ≤ length rows.now }
        requires sweep { IsSweep rows.now at self.old }
        requires some { 0 < length self.old.rests.items }
        requires past { (d : Rest) → AreFrom rows.now at ((slice_index_or self.old.rests.items (length self.old.rests.items - 1) d).last + 1) }
        ensures sweep { OnOk result (IsSweep rows.now at self.new) }
        ensures fewer { OnOk result (length self.new.rests.items + 1 ≡ length self.old.rests.items) }
    {
        let Some(top) = self.rests.pop() else {
            return Ok(());
        };
        self.put(top.row, u64::from(top.last) + 1)?;
        Ok(())
    }

    /// Ends the blocks that end before the row.
    fn close_before(&mut self, rows: &[Route], at: usize) -> Result<(), AllocError>
        requires table { IsTable rows.now }
        requires at { at < length rows.now }
        requires sweep { IsSweep rows.now at self.old }
        ensures sweep { OnOk result (IsSweep rows.now at self.new) }
        ensures to { (d : Route) → OnOk result (AreTo self.new.rests.items (slice_index_or rows.now at d).prefix.bits) }
    {
        let bits = rows[at].prefix.bits();
        while self.top().last < bits {
            self.close(rows, at)?;
        }
        Ok(())
    }

    /// Puts the addresses before the row into a span.
    fn reach(&mut self, rows: &[Route], at: usize) -> Result<(), AllocError>
        requires table { IsTable rows.now }
        requires at { at < length rows.now }
        requires sweep { IsSweep rows.now at self.old }
        requires to { (d : Route) → AreTo self.old.rests.items (slice_index_or rows.now at d).prefix.bits }
        ensures sweep { OnOk result (IsSweep rows.now at self.new) }
        ensures to { (d : Route) → OnOk result (AreTo self.new.rests.items (slice_index_or rows.now at d).prefix.bits) }
        ensures next { (d : Route) → OnOk result (self.new.next ≡ (slice_index_or rows.now at d).prefix.bits) }
    {
        let bits = u64::from(rows[at].prefix.bits());
        if self.next < bits {
            let top = self.top();
            self.put(top.row, bits)?;
        }
        Ok(())
    }

    /// Takes out the block that began last if nothing of it follows the address.
    fn trim(&mut self, rows: &[Route], at: usize, last: u32)
        requires rests { AreRests rows.now at self.old.rests.items self.old.next }
        requires some { 0 < length self.old.rests.items }
        requires from { self.old.next ≤ last + 1 }
        requires to { (d : Rest) → last ≤ (slice_index_or self.old.rests.items (length self.old.rests.items - 1) d).last }
        ensures rests { AreRests rows.now at self.new.rests.items (last + 1) }
        ensures spans { self.new.spans.items ≡ self.old.spans.items }
        ensures next { self.new.next ≡ self.old.next }
    {
        if self.top().last == last {
            self.rests.pop();
        }
    }

    /// Begins the row's block, in place of one that it is the whole rest of.
    fn begin(&mut self, rows: &[Route], at: usize) -> Result<(), AllocError>
        requires table { IsTable rows.now }
        requires fits { length rows.now ≤ nowhere }
        requires at { at < length rows.now }
        requires other { 0 < at → (d : Route) → is_same_prefix (slice_index_or rows.now (at - 1) d).prefix (slice_index_or rows.now at d).prefix ≡ false }
        requires sweep { IsSweep rows.now at self.old }
        requires to { (d : Route) → AreTo self.old.rests.items (slice_index_or rows.now at d).prefix.bits }
        requires next { (d : Route) → self.old.next ≡ (slice_index_or rows.now at d).prefix.bits }
        ensures { OnOk result (IsSweep rows.now (at + 1) self.new) }
    {
        let prefix = rows[at].prefix;
        let last = last_of(prefix.bits(), prefix.len());
        self.trim(rows, at, last);
        self.rests.push(Rest {
            last,
            row: at as u32,
        })?;
        Ok(())
    }

    /// Takes one row more.
    fn take(&mut self, rows: &[Route], at: usize) -> Result<(), AllocError>
        requires table { IsTable rows.now }
        requires fits { length rows.now ≤ nowhere }
        requires at { at < length rows.now }
        requires sweep { IsSweep rows.now at self.old }
        ensures { OnOk result (IsSweep rows.now (at + 1) self.new) }
    {
        if is_again(rows, at) {
            return Ok(());
        }
        self.close_before(rows, at)?;
        self.reach(rows, at)?;
        self.begin(rows, at)
    }

    /// Ends all blocks.
    fn finish(&mut self, rows: &[Route]) -> Result<(), AllocError>
        requires table { IsTable rows.now }
        requires sweep { IsSweep rows.now (length rows.now) self.old }
        ensures { OnOk result (AreDone rows.now self.new.spans.items (2 ^ 32)) }
    {
        while !self.rests.is_empty() {
            self.close(rows, rows.len())?;
        }
        Ok(())
    }
}

/// A sweep that has taken no row.
fn start(alloc: Global, rows: &[Route]) -> Result<Sweep, AllocError>
    requires table { IsTable rows.now }
    requires fits { length rows.now ≤ nowhere }
    ensures { IfOk result (λ sweep. IsSweep rows.now 0 sweep) }
{
    // Each row adds two spans at most: its own, and what is left of the block around it.
    let spans = Vec::with_capacity(alloc, 2 * rows.len() + 1)?;
    let mut rests = Vec::new(alloc);
    rests.push(Rest {
        last: u32::MAX,
        row: NOWHERE,
    })?;
    Ok(Sweep {
        spans,
        rests,
        next: 0,
    })
}

/// The spans of the rows.
pub(crate) fn spans_of(alloc: Global, rows: &[Route]) -> Result<Vec<Span>, AllocError>
    requires table { IsTable rows.now }
    requires fits { length rows.now ≤ nowhere }
    ensures { IfOk result (λ spans. AreDone rows.now spans.items (2 ^ 32)) }
{
    let mut sweep = start(alloc, rows)?;
    for at in 0..rows.len() {
        sweep.take(rows, at)?;
    }
    sweep.finish(rows)?;
    let Sweep {
        spans,
        rests: _,
        next: _,
    } = sweep;
    Ok(spans)
}
