//! How much a version has.
ghost use Rattle.std.specs.Prelude.{◌≡◌, IfOk, length};
ghost use Rattle.prt_service.specs.Contents.{is_last, tables_of};

use prt_route::{Range, Route, Selector};
use prt_version::Version;
use std::alloc::AllocError;

/// How many routes a version has, and how many tables that have any.
#[derive(Clone, Copy)]
pub struct Contents {
    pub routes: usize,
    pub tables: usize,
}

/// Checks whether a table is the one that came last.
fn is_last(last: Option<u32>, table: u32) -> bool
    ensures { result ≡ is_last last table }
{
    match last {
        Some(last) => last == table,
        None => false,
    }
}

/// Counts the tables of routes that are listed table by table.
fn count_tables(routes: &[Route]) -> usize
    ensures { result ≡ tables_of routes.now }
{
    let mut tables = 0usize;
    let mut last = None;
    for route in routes {
        if !is_last(last, route.table) {
            tables += 1;
        }
        last = Some(route.table);
    }
    tables
}

/// Collects all routes of the version, table by table.
fn every_route(version: &Version) -> Result<Vec<Route>, AllocError>
    ensures { IfOk result (λ routes. routes.items ≡ version.now.routes) }
{
    let selector = Selector {
        table: None,
        range: Range::All,
        kind: None,
        proto: None,
        scope: None,
        dev: None,
    };
    let Ok(routes) = version.routes(&selector) else {
        return Err(AllocError);
    };
    Ok(routes)
}

/// Counts what a version has, by a copy of its routes.
///
/// # Errors
///
/// `AllocError`, if memory is refused for that.
pub fn contents_of(version: &Version) -> Result<Contents, AllocError>
    ensures routes { IfOk result (λ contents. contents.routes ≡ length version.now.routes) }
    ensures tables { IfOk result (λ contents. contents.tables ≡ tables_of version.now.routes) }
{
    let routes = every_route(version)?;
    Ok(Contents {
        routes: routes.len(),
        tables: count_tables(&routes),
    })
}
