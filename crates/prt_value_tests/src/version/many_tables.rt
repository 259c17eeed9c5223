//! Many tables, which versions keep in groups: what each version has, beside a plain list.

use super::plain_list::{drop_key, put};
use super::random::Random;
use super::script::version_with;
use super::tables::route;
use prt_command::{Command, Range, Route, RouteChoice, Selector};
use prt_version::Version;
use std::alloc::Global;
use std::process::Abort;
use std::test::Fail;

/// Selects the routes of this table, or of all.
fn routes_of(table: Option<u32>) -> Selector {
    Selector {
        table,
        range: Range::All,
        kind: None,
        proto: None,
        scope: None,
        dev: None,
    }
}

/// Makes a route of one of 400 tables, whose numbers lie apart.
fn random_route(random: &mut Random) -> Route {
    let roll = random.next();
    let mut new = route(0x0a000000, 8, roll % 2 + 1);
    new.table = (roll >> 8) % 400 * 9_001 + 1;
    new
}

/// Chooses the route by this one's key alone.
fn choice_of(route: &Route) -> RouteChoice {
    RouteChoice {
        table: route.table,
        prefix: route.prefix,
        metric: Some(route.metric),
        kind: None,
        via: None,
        dev: None,
        src: None,
        proto: None,
        scope: None,
    }
}

/// Compares the version's routes, and those of one table, with the plain list.
fn compare(rt: &impl Abort, version: &Version, rows: &[Route], table: u32) -> Result<(), Fail> {
    let all = version.routes(&routes_of(None))?;
    assert!(rt;
        all.as_slice() == rows,
        "{} routes in place of {}",
        all.len(),
        rows.len()
    );
    let mut own = version.routes(&routes_of(None))?;
    own.retain(|row| row.table == table);
    let listed = version.routes(&routes_of(Some(table)))?;
    assert!(rt; listed.as_slice() == own.as_slice(), "table {table}");
    let shared = version.shared_routes().shared_table(table);
    assert!(rt; shared.is_some() != own.is_empty(), "table {table}");
    Ok(())
}

/// Makes so many edits, one of `share` of them without a route, and compares each version with the list.
fn edit(
    rt: &impl Abort,
    version: Version,
    rows: &mut Vec<Route>,
    random: &mut Random,
    edits: u32,
    share: u32,
) -> Result<Version, Fail> {
    let mut version = version;
    for _ in 0..edits {
        let route = random_route(random);
        if random.next().checked_rem(share) != Some(0) {
            version = version_with(&version, &Command::RouteReplace(route))?;
            put(rows, &route)?;
        } else if let Ok(after) = version_with(&version, &Command::RouteDel(choice_of(&route))) {
            version = after;
            drop_key(rows, &route.key());
        }
        compare(rt, &version, rows, route.table)?;
    }
    Ok(version)
}

#[test]
fn many_tables(rt: HostRuntime) -> Result<(), Fail> {
    let mut random = Random(0x9fb21c651e98df25);
    let mut rows = Vec::new(rt.alloc());
    let version = Version::opening(rt.alloc())?;
    let version = edit(&rt, version, &mut rows, &mut random, 900, 8)?;
    assert!(rt; rows.len() > 300, "{} routes", rows.len());
    let version = edit(&rt, version, &mut rows, &mut random, 1_800, 1)?;
    assert!(rt; rows.len() < 60, "{} routes", rows.len());
    let version = edit(&rt, version, &mut rows, &mut random, 300, 8)?;
    let after = version_with(&version, &Command::RouteFlush(routes_of(None)))?;
    assert_eq!(rt; after.routes(&routes_of(None))?.len(), 0);
    Ok(())
}
