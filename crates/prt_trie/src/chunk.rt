//! A chunk of rows that have one prefix.
ghost use Rattle.std.specs.Prelude.{◌≡◌, ◌<◌, ◌≤◌, false, true, IfOk, find, length, slice_index_or, take};
ghost use Rattle.std.specs.List.{AllWithin, list_any};
ghost use Rattle.std.specs.Option.{option_copied};
ghost use Rattle.prt_addr.specs.Prefix.{is_same_prefix};
ghost use Rattle.prt_route.specs.Edit.{has_key};
ghost use Rattle.prt_route.specs.RouteChoice.{is_chosen, is_selected};
ghost use Rattle.prt_route.specs.declared.route.Route.{Route};
ghost use Rattle.prt_trie.specs.Chunks.{IsChunk};

use prt_route::{Prefix, Route, RouteChoice, RouteKey, Selector};
use std::alloc::{AllocError, Global};
use std::marker::Model;

/// The most rows of a chunk.
const MOST_OF_CHUNK: usize = 256;

/// Some rows of one prefix in the order of listings.
#[derive(Drop)]
pub(crate) struct Chunk {
    rows: Vec<Route>,
}

impl Model for Chunk {
    ghost use Rattle.std.specs.Prelude.{List};
    ghost use Rattle.prt_route.specs.declared.route.Route.{Route as Row};

    ghost Value = { List Row };

    ghost view = { λ chunk. chunk.rows.items };
}

/// Checks whether the row has the prefix.
fn has_prefix(row: &Route, prefix: &Prefix) -> bool
    ensures { result ≡ is_same_prefix prefix.now row.now.prefix }
{
    *prefix == row.prefix
}

/// Counts the rows from the first on that have the prefix, which is that of the first, up to twice the most of a chunk.
fn alike_len(rows: &[Route], prefix: &Prefix) -> usize
    requires { 0 < length rows.now }
    ensures some { 0 < result }
    ensures within { result ≤ length rows.now }
    ensures most { result ≤ 512 }
    ensures alike { AllWithin (λ row. is_same_prefix prefix.now row.prefix ≡ true) rows.now 1 result }
    ensures ends { result < 512 → result < length rows.now → (d : Route) → is_same_prefix prefix.now (slice_index_or rows.now result d).prefix ≡ false }
{
    let end = rows.len().min(2 * MOST_OF_CHUNK);
    for at in 1..end {
        if !has_prefix(&rows[at], prefix) {
            return at;
        }
    }
    end
}

/// Returns how many of the first rows become one chunk.
///
/// Where more rows of one prefix follow one another than a chunk takes, none of their chunks gets less than half of that.
pub(crate) fn chunk_len(rows: &[Route]) -> usize
    requires { 0 < length rows.now }
    ensures some { 0 < result }
    ensures within { result ≤ length rows.now }
    ensures chunk { IsChunk (take result rows.now) }
    ensures ends { result < 128 → result < length rows.now → (d : Route) →
        is_same_prefix (slice_index_or rows.now 0 d).prefix (slice_index_or rows.now result d).prefix ≡ false }
{
    let alike = alike_len(rows, &rows[0].prefix);
    if alike > MOST_OF_CHUNK {
        alike / 2
    } else {
        alike
    }
}

impl Chunk {
    /// Makes a chunk of copies of the rows.
    pub fn copy_of(alloc: Global, rows: &[Route]) -> Result<Chunk, AllocError>
        ensures { IfOk result (λ chunk. chunk ≡ rows.now) }
    {
        let rows = Vec::from_slice(alloc, rows)?;
        Ok(Chunk { rows })
    }

    /// Returns the rows in the order of listings.
    pub fn as_slice(&self) -> &[Route]
        ensures { result.now ≡ self.now }
    {
        self.rows.as_slice()
    }

    /// Returns the first row alone, if there is one.
    pub fn head(&self) -> &[Route]
        ensures { result.now ≡ take 1 self.now }
    {
        let rows = self.rows.as_slice();
        &rows[..rows.len().min(1)]
    }

    /// Checks whether one of the rows has the key.
    pub fn has_key(&self, key: &RouteKey) -> bool
        ensures { result ≡ has_key key.now self.now }
    {
        self.rows.iter().any(|row| row.key() == *key)
    }

    /// Checks whether the selector takes one of the rows.
    pub fn takes_any(&self, selector: &Selector) -> bool
        ensures { result ≡ list_any (is_selected selector.now) self.now }
    {
        self.rows.iter().any(|row| selector.takes(row))
    }

    /// Finds the first row that the choice takes. The rows of another prefix are not searched.
    pub fn first_chosen(&self, choice: &RouteChoice) -> Option<&Route>
        requires { IsChunk self.now }
        ensures { option_copied result ≡ find (is_chosen choice.now) self.now }
    {
        let rows = self.as_slice();
        if !has_prefix(&rows[0], &choice.prefix) {
            return None;
        }
        rows.iter().find(|row| choice.takes(row))
    }
}
