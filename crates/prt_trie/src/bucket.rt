//! Routes with one index, or in chunks.
ghost use Rattle.std.specs.Prelude.{◌≡◌, length, IfErr, IfOk};
ghost use Rattle.prt_refusals.specs.declared.refusal.Refusal.TheVariants.{NoMemory};
ghost use Rattle.prt_trie.specs.Table.{IsTable};

use crate::chunks::Chunks;
use crate::cut::Cut;
use crate::leaf::{LEAST_OF_SPLIT, Leaf, MOST_OF_LEAF};
use crate::piece::Piece;
use crate::route_rows::read_all;
use prt_route::{Addr, Refusal, Route, RouteChoice, RouteEdit, RouteKey, Selector};
use std::alloc::{AllocError, Global};
use std::marker::Model;

/// Some routes of one table, which no further octet divides: few of them with one index, and many in chunks.
///
/// Many are mostly routes of few prefixes that differ in their metrics.
#[derive(Drop)]
pub(crate) struct Bucket {
    layout: Layout,
}

/// The routes with one index, or in chunks that buckets before and after an edit share.
#[derive(Drop)]
enum Layout {
    Few(Leaf),
    Many(Chunks),
}

impl Model for Bucket {
    ghost use Rattle.std.specs.Prelude.{List};
    ghost use Rattle.prt_route.specs.declared.route.Route.{Route as Row};

    ghost Value = { List Row };

    ghost use Rattle.prt_trie.specs.Layout.{rows_of};

    ghost view = { λ bucket. rows_of bucket.layout };
}

impl Bucket {
    /// Makes the bucket of the chunks after an edit, which get one index again if they have few routes left.
    ///
    /// # Errors
    ///
    /// `NoMemory` alone.
    fn of_chunks(chunks: Chunks) -> Result<Bucket, Refusal>
        ensures value { IfOk result (λ bucket. bucket ≡ chunks) }
        ensures reason { IfErr result (λ reason. reason ≡ NoMemory) }
    {
        let layout = if chunks.len() < LEAST_OF_SPLIT {
            let rows = chunks.rows()?;
            Layout::Few(Leaf::from_sorted(*rows.allocator(), rows)?)
        } else {
            Layout::Many(chunks)
        };
        Ok(Bucket { layout })
    }

    /// Makes a copy of the routes in the order of listings.
    pub fn rows(&self) -> Result<Vec<Route>, AllocError>
        ensures value { IfOk result (λ rows. rows.items ≡ self.now) }
        ensures table { IfOk result (λ rows. IsTable rows.items) }
    {
        match &self.layout {
            Layout::Few(leaf) => leaf.rows(),
            Layout::Many(chunks) => chunks.rows(),
        }
    }

    /// Returns how many routes there are.
    pub fn count(&self) -> usize
        ensures value { result ≡ length self.now }
        ensures table { IsTable self.now }
    {
        match &self.layout {
            Layout::Few(leaf) => leaf.as_slice().len(),
            Layout::Many(chunks) => chunks.len(),
        }
    }
}

impl Piece for Bucket {
    ghost routes = { λ bucket. bucket };

    fn cut() -> Cut {
        Cut::ThirdOctet
    }

    fn from_sorted(alloc: Global, rows: Vec<Route>) -> Result<Bucket, Refusal> {
        let given = rows.as_slice();
        // Recalls what the types say of each row.
        read_all(given);
        let layout = if given.len() > MOST_OF_LEAF {
            Layout::Many(Chunks::from_sorted(alloc, given)?)
        } else {
            Layout::Few(Leaf::from_sorted(alloc, rows)?)
        };
        Ok(Bucket { layout })
    }

    fn with_change(&self, edit: &RouteEdit) -> Result<Bucket, Refusal> {
        match &self.layout {
            Layout::Few(leaf) => {
                let rows = leaf.rows_after(edit)?;
                Bucket::from_sorted(*rows.allocator(), rows)
            }
            Layout::Many(chunks) => Bucket::of_chunks(chunks.with_change(edit)?),
        }
    }

    fn len(&self) -> usize {
        self.count()
    }

    fn push_rows(&self, rows: &mut Vec<Route>) -> Result<(), AllocError> {
        match &self.layout {
            Layout::Few(leaf) => leaf.push_rows(rows),
            Layout::Many(chunks) => chunks.push_rows(rows),
        }
    }

    fn takes_any(&self, selector: &Selector) -> bool {
        match &self.layout {
            Layout::Few(leaf) => leaf.takes_any(selector),
            Layout::Many(chunks) => chunks.takes_any(selector),
        }
    }

    fn find(&self, addr: Addr) -> Option<&Route> {
        match &self.layout {
            Layout::Few(leaf) => leaf.find(addr),
            Layout::Many(chunks) => chunks.find(addr),
        }
    }

    fn holds(&self, key: &RouteKey) -> bool {
        match &self.layout {
            Layout::Few(leaf) => leaf.holds(key),
            Layout::Many(chunks) => chunks.holds(key),
        }
    }

    fn choose(&self, choice: &RouteChoice) -> Option<RouteKey> {
        match &self.layout {
            Layout::Few(leaf) => leaf.choose(choice),
            Layout::Many(chunks) => chunks.choose(choice),
        }
    }
}
