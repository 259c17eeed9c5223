//! The routes of one table in chunks, which those before and after an edit share.
ghost use Rattle.std.specs.Prelude.{◌≡◌, ℕ, ◌-◌, ◌<◌, ◌≤◌, ◌++◌, [], ◌∷◌, true, false, length, map, find, IfErr, IfOk, OnOk, IsPermutation};
ghost use Rattle.std.specs.Prelude.{option_map, slice_index_or};
ghost use Rattle.std.specs.Arc.{arc_value};
ghost use Rattle.std.specs.List.{list_any, AllByRecursion as Each};
ghost use Rattle.std.specs.Option.{option_copied};
ghost use Rattle.prt_refusals.specs.declared.refusal.Refusal.TheVariants.{NoMemory};
ghost use Rattle.prt_route.specs.Best.{best};
ghost use Rattle.prt_route.specs.Edit.{after_edit, has_key};
ghost use Rattle.prt_route.specs.Route.{key_of};
ghost use Rattle.prt_route.specs.RouteChoice.{chosen_route, is_chosen, is_selected};
ghost use Rattle.prt_route.specs.declared.route.Route.{Route};
ghost use Rattle.prt_trie.specs.Chunks.{AreChunks, IsChunk, IsOfKey, heads_of, is_key_after, is_key_before, rows_of_chunks};
ghost use Rattle.prt_trie.specs.Pieces.{IsOfTheirTable};
ghost use Rattle.prt_trie.specs.Table.{IsOfTable, IsTable};

use crate::chunk::{Chunk, chunk_len};
use crate::edit::rows_after;
use crate::leaf::Leaf;
use crate::listing::is_key_before;
use crate::route_rows::read_edit;
use prt_route::{Addr, Refusal, Route, RouteChoice, RouteEdit, RouteKey, Selector};
use std::alloc::{AllocError, Global};
use std::marker::Model;
use std::sync::Arc;

/// The routes of one table in the order of listings, in chunks with rows of one prefix each.
///
/// The first row of a chunk is the best of it for each address. So the best of these heads is the best of all.
#[derive(Drop)]
pub(crate) struct Chunks {
    chunks: Vec<Arc<Chunk>>,
    heads: Leaf,
    len: usize,
}

impl Model for Chunks {
    ghost use Rattle.std.specs.Prelude.{◌≡◌, length, List, map};
    ghost use Rattle.std.specs.Arc.{arc_value};
    ghost use Rattle.prt_trie.specs.Chunks.{AreChunks, heads_of, rows_of_chunks};
    ghost use Rattle.prt_route.specs.declared.route.Route.{Route as Row};

    ghost Value = { List Row };

    ghost view = { λ all. rows_of_chunks (map arc_value all.chunks.items) };

    ghost invariant = { λ all. AreChunks (map arc_value all.chunks.items) × (all.heads ≡ heads_of (map arc_value all.chunks.items))
        × (all.len ≡ length (rows_of_chunks (map arc_value all.chunks.items))) };
}

/// Puts a chunk of these rows behind those so far.
fn push_chunk(chunks: &mut Vec<Arc<Chunk>>, rows: &[Route]) -> Result<(), AllocError>
    ensures { OnOk result (map arc_value chunks.new.items ≡ map arc_value chunks.old.items ++ rows.now ∷ []) }
{
    let alloc = *chunks.allocator();
    let chunk = Arc::new(alloc, Chunk::copy_of(alloc, rows)?)?;
    chunks.push(chunk)?;
    Ok(())
}

/// Puts chunks of the rows, which are in the order of listings, behind those so far.
fn push_chunks(chunks: &mut Vec<Arc<Chunk>>, rows: &[Route]) -> Result<(), AllocError>
    ensures rows { OnOk result (rows_of_chunks (map arc_value chunks.new.items) ≡ rows_of_chunks (map arc_value chunks.old.items) ++ rows.now) }
    ensures each { OnOk result (Each IsChunk (map arc_value chunks.old.items) → Each IsChunk (map arc_value chunks.new.items)) }
{
    let mut rest = rows;
    'divide: while !rest.is_empty() {
        let (first, others) = rest.split_at(chunk_len(rest));
        push_chunk(chunks, first)?;
        rest = others;
    }
    Ok(())
}

/// Puts one more owner of each of the others behind the chunks so far.
fn push_shared(chunks: &mut Vec<Arc<Chunk>>, others: &[Arc<Chunk>]) -> Result<(), AllocError>
    ensures { OnOk result (map arc_value chunks.new.items ≡ map arc_value chunks.old.items ++ map arc_value others.now) }
{
    chunks.extend_with_clones(others)
}

/// Puts the rows of the chunks behind those so far.
fn push_rows(chunks: &[Arc<Chunk>], rows: &mut Vec<Route>) -> Result<(), AllocError>
    ensures { OnOk result (rows.new.items ≡ rows.old.items ++ rows_of_chunks (map arc_value chunks.now)) }
{
    for chunk in chunks {
        rows.extend_from_slice(chunk.as_slice())?;
    }
    Ok(())
}

/// Makes a copy of the first row of each chunk.
fn heads_of(alloc: Global, chunks: &[Arc<Chunk>]) -> Result<Vec<Route>, AllocError>
    ensures { IfOk result (λ heads. heads.items ≡ heads_of (map arc_value chunks.now)) }
{
    let mut heads = Vec::with_capacity(alloc, chunks.len())?;
    for chunk in chunks {
        heads.extend_from_slice(chunk.head())?;
    }
    Ok(heads)
}

/// Counts the heads before the first one that the key comes before.
fn place_of(heads: &[Route], key: &RouteKey) -> usize
    ensures within { result ≤ length heads.now }
    ensures before { (d : Route) → 0 < result → is_key_before key.now (slice_index_or heads.now (result - 1) d) ≡ false }
    ensures after { (d : Route) → result < length heads.now → is_key_before key.now (slice_index_or heads.now result d) ≡ true }
{
    for at in 0..heads.len() {
        if is_key_before(key, &heads[at]) {
            return at;
        }
    }
    heads.len()
}

/// Divides the chunks into those with rows before the key alone, the two at most that may have it or get it, and those with
/// rows after it alone.
fn around<'a>(
    chunks: &'a [Arc<Chunk>],
    heads: &[Route],
    key: &RouteKey,
) -> (&'a [Arc<Chunk>], &'a [Arc<Chunk>], &'a [Arc<Chunk>])
    requires chunks { AreChunks (map arc_value chunks.now) }
    requires heads { heads.now ≡ heads_of (map arc_value chunks.now) }
    ensures whole { map arc_value chunks.now ≡ map arc_value result.0.now ++ (map arc_value result.1.now ++ map arc_value result.2.now) }
    ensures before { Each (λ row. is_key_after key.now row ≡ true) (rows_of_chunks (map arc_value result.0.now)) }
    ensures after { Each (λ row. is_key_before key.now row ≡ true) (rows_of_chunks (map arc_value result.2.now)) }
{
    let place = place_of(heads, key);
    let (before, rest) = chunks.split_at(place.saturating_sub(1));
    let (near, after) = rest.split_at(usize::min(2, rest.len()));
    (before, near, after)
}

/// Makes chunks of the rows between those before and after, which are shared.
fn chunks_around(
    alloc: Global,
    before: &[Arc<Chunk>],
    rows: &[Route],
    after: &[Arc<Chunk>],
) -> Result<Vec<Arc<Chunk>>, AllocError>
    ensures rows { IfOk result (λ chunks.
        rows_of_chunks (map arc_value chunks.items)
        ≡ rows_of_chunks (map arc_value before.now) ++ (rows.now ++ rows_of_chunks (map arc_value after.now))) }
    ensures each { IfOk result (λ chunks. Each IsChunk (map arc_value before.now) → Each IsChunk (map arc_value after.now) →
        Each IsChunk (map arc_value chunks.items)) }
{
    let mut chunks = Vec::with_capacity(alloc, before.len())?;
    push_shared(&mut chunks, before)?;
    push_chunks(&mut chunks, rows)?;
    push_shared(&mut chunks, after)?;
    Ok(chunks)
}

/// Checks whether a row of one of the chunks has the key.
fn have_key(chunks: &[Arc<Chunk>], key: &RouteKey) -> bool
    ensures { result ≡ list_any (λ chunk. has_key key.now (arc_value chunk)) chunks.now }
{
    chunks.iter().any(|chunk| chunk.has_key(key))
}

/// Checks whether the selector takes a row of one of the chunks.
fn takes_one(chunks: &[Arc<Chunk>], selector: &Selector) -> bool
    ensures { result ≡ list_any (λ chunk. list_any (is_selected selector.now) (arc_value chunk)) chunks.now }
{
    chunks.iter().any(|chunk| chunk.takes_any(selector))
}

/// Finds the first row of the chunks that the choice takes.
fn first_chosen<'a>(chunks: &'a [Arc<Chunk>], choice: &RouteChoice) -> Option<&'a Route>
    requires { Each IsChunk (map arc_value chunks.now) }
    ensures { option_copied result ≡ find (is_chosen choice.now) (rows_of_chunks (map arc_value chunks.now)) }
{
    for chunk in chunks {
        if let Some(row) = chunk.first_chosen(choice) {
            return Some(row);
        }
    }
    None
}

impl Chunks {
    /// Takes the chunks, with an index of their heads.
    ///
    /// # Errors
    ///
    /// `NoMemory` alone.
    fn of(chunks: Vec<Arc<Chunk>>, len: usize) -> Result<Chunks, Refusal>
        requires chunks { AreChunks (map arc_value chunks.items) }
        requires len { len ≡ length (rows_of_chunks (map arc_value chunks.items)) }
        ensures value { IfOk result (λ all. all ≡ rows_of_chunks (map arc_value chunks.items)) }
        ensures reason { IfErr result (λ reason. reason ≡ NoMemory) }
    {
        let alloc = *chunks.allocator();
        let heads = Leaf::from_sorted(alloc, heads_of(alloc, chunks.as_slice())?)?;
        Ok(Chunks { chunks, heads, len })
    }

    /// Makes the chunks of the rows, which are in the order of listings.
    ///
    /// # Errors
    ///
    /// `NoMemory` alone.
    pub fn from_sorted(alloc: Global, rows: &[Route]) -> Result<Chunks, Refusal>
        requires { IsTable rows.now }
        ensures value { IfOk result (λ all. all ≡ rows.now) }
        ensures reason { IfErr result (λ reason. reason ≡ NoMemory) }
    {
        let mut chunks = Vec::new(alloc);
        push_chunks(&mut chunks, rows)?;
        Chunks::of(chunks, rows.len())
    }

    /// Makes a copy of the routes in the order of listings.
    pub fn rows(&self) -> Result<Vec<Route>, AllocError>
        ensures value { IfOk result (λ rows. rows.items ≡ self.now) }
        ensures table { IfOk result (λ rows. IsTable rows.items) }
    {
        let mut rows = Vec::with_capacity(*self.chunks.allocator(), self.len)?;
        push_rows(self.chunks.as_slice(), &mut rows)?;
        Ok(rows)
    }

    /// Returns how many routes there are.
    pub fn len(&self) -> usize
        ensures value { result ≡ length self.now }
        ensures table { IsTable self.now }
    {
        self.len
    }

    /// Puts the routes behind the rows so far, in any order.
    pub fn push_rows(&self, rows: &mut Vec<Route>) -> Result<(), AllocError>
        ensures { OnOk result (IsPermutation (rows.old.items ++ self.now) rows.new.items) }
    {
        push_rows(self.chunks.as_slice(), rows)
    }

    /// Checks whether the selector takes one of the routes.
    pub fn takes_any(&self, selector: &Selector) -> bool
        ensures { result ≡ list_any (is_selected selector.now) self.now }
    {
        takes_one(self.chunks.as_slice(), selector)
    }

    /// Finds the best route for the address, if one contains it. It takes no memory.
    pub fn find(&self, addr: Addr) -> Option<&Route>
        ensures { (table : ℕ) → IsOfTable table self.now → option_copied result ≡ best self.now table addr }
    {
        self.heads.find(addr)
    }

    /// Checks whether one of the routes has the key.
    pub fn holds(&self, key: &RouteKey) -> bool
        ensures { result ≡ has_key key.now self.now }
    {
        let (_before, near, _after) = around(self.chunks.as_slice(), self.heads.as_slice(), key);
        have_key(near, key)
    }

    /// Finds the route of lowest metric among those that the choice takes. It is the first of them.
    fn chosen(&self, choice: &RouteChoice) -> Option<&Route>
        ensures { option_copied result ≡ chosen_route choice.now self.now }
    {
        first_chosen(self.chunks.as_slice(), choice)
    }

    /// Finds the key of the route of lowest metric among those that the choice takes, if it takes one.
    pub fn choose(&self, choice: &RouteChoice) -> Option<RouteKey>
        ensures { result ≡ option_map key_of (chosen_route choice.now self.now) }
    {
        self.chosen(choice).map(|route| route.key())
    }

    /// Makes the chunks after an edit of the route with the key, and shares those that it leaves as they are.
    ///
    /// # Errors
    ///
    /// `NoMemory` alone.
    fn with_key(&self, key: &RouteKey, edit: &RouteEdit) -> Result<Chunks, Refusal>
        requires key { IsOfKey key.now edit.now }
        requires table { IsOfTheirTable edit.now self.now }
        ensures value { IfOk result (λ all. all ≡ after_edit edit.now self.now) }
        ensures reason { IfErr result (λ reason. reason ≡ NoMemory) }
    {
        read_edit(edit);
        let alloc = *self.chunks.allocator();
        let (before, near, after) = around(self.chunks.as_slice(), self.heads.as_slice(), key);
        let mut old = Vec::new(alloc);
        push_rows(near, &mut old)?;
        let new = rows_after(alloc, old.as_slice(), edit)?;
        let Some(len) = (self.len - old.len()).checked_add(new.len()) else {
            return Err(Refusal::NoMemory);
        };
        let chunks = chunks_around(alloc, before, new.as_slice(), after)?;
        Chunks::of(chunks, len)
    }

    /// Makes the chunks after the flush.
    ///
    /// # Errors
    ///
    /// `NoMemory` alone.
    fn flushed(&self, flush: &RouteEdit) -> Result<Chunks, Refusal>
        requires { IsOfTheirTable flush.now self.now }
        ensures value { IfOk result (λ all. all ≡ after_edit flush.now self.now) }
        ensures reason { IfErr result (λ reason. reason ≡ NoMemory) }
    {
        read_edit(flush);
        let alloc = *self.chunks.allocator();
        let rows = rows_after(alloc, self.rows()?.as_slice(), flush)?;
        Chunks::from_sorted(alloc, rows.as_slice())
    }

    /// Makes the chunks after the edit, of which these share those that it leaves as they are.
    ///
    /// # Errors
    ///
    /// `NoMemory` alone.
    pub fn with_change(&self, edit: &RouteEdit) -> Result<Chunks, Refusal>
        requires { IsOfTheirTable edit.now self.now }
        ensures value { IfOk result (λ all. all ≡ after_edit edit.now self.now) }
        ensures reason { IfErr result (λ reason. reason ≡ NoMemory) }
    {
        match edit {
            RouteEdit::Put(route) => self.with_key(&route.key(), edit),
            RouteEdit::Remove(key) => self.with_key(key, edit),
            RouteEdit::Flush(_) => self.flushed(edit),
        }
    }
}
