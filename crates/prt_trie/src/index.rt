//! The index of a table's rows: the best of them for each address.
ghost use Rattle.std.specs.Prelude.{◌≡◌, IfErr, IfOk};
ghost use Rattle.std.specs.Option.{option_copied};
ghost use Rattle.prt_refusals.specs.declared.refusal.Refusal.TheVariants.{NoMemory};
ghost use Rattle.prt_trie.specs.Heaviest.{best_for};
ghost use Rattle.prt_trie.specs.Index.{IsIndex};
ghost use Rattle.prt_trie.specs.Table.{IsTable};

use crate::directory::{Slots, bounds_of, starts_of};
use crate::span::{Span, span_of};
use crate::sweep::spans_of;
use prt_route::{Addr, Refusal, Route};
use std::alloc::Global;

/// How many rows an index can have: a span names its row in 32 bits, and one number means no row.
const MOST_ROWS: usize = u32::MAX as usize;

/// Spans of addresses with one best row each, and where the spans of each slot of addresses begin.
#[derive(Drop)]
pub(crate) struct Index {
    spans: Vec<Span>,
    slots: Slots,
    starts: Vec<u32>,
}

impl Index {
    /// The index of the rows. More than `MOST_ROWS` are refused, as memory for them would be.
    pub fn build(alloc: Global, rows: &[Route]) -> Result<Index, Refusal>
        requires { IsTable rows.now }
        ensures value { IfOk result (λ index. IsIndex rows.now index) }
        ensures reason { IfErr result (λ reason. reason ≡ NoMemory) }
    {
        if rows.len() > MOST_ROWS {
            return Err(Refusal::NoMemory);
        }
        let spans = spans_of(alloc, rows)?;
        let slots = Slots::over(rows);
        let starts = starts_of(alloc, &spans, slots)?;
        Ok(Index {
            spans,
            slots,
            starts,
        })
    }

    /// The best of the rows for the address, if one contains it.
    pub fn find<'a>(&self, rows: &'a [Route], addr: Addr) -> Option<&'a Route>
        requires { IsIndex rows.now self.now }
        ensures { option_copied result ≡ best_for rows.now addr }
    {
        let (low, high) = bounds_of(&self.spans, self.slots, &self.starts, addr.0);
        let span = self.spans[span_of(&self.spans, addr.0, low, high)];
        rows.get(span.row as usize)
    }
}
