//! What the types of rows and edits say of their prefixes and metrics, and sorted copies of rows.
ghost use Rattle.std.specs.Prelude.{◌≡◌, ◌<◌, ◌^◌, All, IfOk, IsPermutation};
ghost use Rattle.std.specs.List.{IsDistinct};
ghost use Rattle.prt_addr.specs.Sound.{IsPrefix};
ghost use Rattle.prt_route.specs.declared.route.Route.{Route};
ghost use Rattle.prt_trie.specs.Table.{IsOfOneTable, IsRising, IsTable, has_same_key};

use crate::listing::sort_rows;
use prt_route::{Route, RouteEdit};
use std::alloc::{AllocError, Global};

/// Returns the metric of the row.
fn metric_of(row: &Route) -> u32
    ensures value { result ≡ row.now.metric }
    ensures fits { result < 2 ^ 32 }
{
    row.metric
}

/// Establishes of all rows what their types say of each that is read.
pub(crate) fn read_all(rows: &[Route])
    ensures prefixes { All (λ row. IsPrefix row.prefix) rows.now }
    ensures metrics { All (λ row. row.metric < 2 ^ 32) rows.now }
{
    for row in rows {
        let _bits = row.prefix.bits();
        let _metric = metric_of(row);
    }
}

/// Establishes of a route that is put what its type says of one that is read.
pub(crate) fn read_edit(edit: &RouteEdit)
    ensures prefix { (route : Route) → edit.now ≡ RouteEdit.Put route → IsPrefix route.prefix }
    ensures metric { (route : Route) → edit.now ≡ RouteEdit.Put route → route.metric < 2 ^ 32 }
{
    if let RouteEdit::Put(route) = edit {
        let _bits = route.prefix.bits();
        let _metric = metric_of(route);
    }
}

/// Recalls of the rows of one table, which are in the order of listings, what their types say of each.
#[tactic(auto, using(crate::proofs::Finds::table_from))]
pub(crate) fn recall_table(rows: &[Route])
    requires one_table { IsOfOneTable rows.now }
    requires rising { IsRising rows.now }
    ensures { IsTable rows.now }
{
    read_all(rows);
}

/// Makes a copy of the routes in the order of listings.
pub(crate) fn sorted_rows(alloc: Global, given: &[Route]) -> Result<Vec<Route>, AllocError>
    requires distinct { IsDistinct has_same_key given.now }
    requires one_table { IsOfOneTable given.now }
    ensures same { IfOk result (λ rows. IsPermutation given.now rows.items) }
    ensures table { IfOk result (λ rows. IsTable rows.items) }
{
    read_all(given);
    let mut rows = Vec::from_slice(alloc, given)?;
    sort_rows(&mut rows);
    Ok(rows)
}
