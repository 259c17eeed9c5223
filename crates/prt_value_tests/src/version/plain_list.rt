//! A plain list of routes in the order of listings, which tables are compared with.

use prt_command::Route;
use prt_route::RouteKey;
use std::alloc::AllocError;
use std::slice;

/// Takes out the route of this key, if there is one.
pub fn drop_key(rows: &mut Vec<Route>, key: &RouteKey) {
    rows.retain(|row| row.key() != *key);
}

fn sort(rows: &mut Vec<Route>) {
    rows.sort_unstable_by_key(Route::listing_key);
}

/// Puts the route in its place, without the one that has its key.
pub fn put(rows: &mut Vec<Route>, new: &Route) -> Result<(), AllocError> {
    drop_key(rows, &new.key());
    rows.extend_from_slice(slice::from_ref(new))?;
    sort(rows);
    Ok(())
}
