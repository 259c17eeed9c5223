//! The state that the tables encode, read.

ghost use Rattle.std.specs.Prelude.{IfOk, drop};
ghost use Rattle.prt_rows.specs.MetaRow.{IsCount};
ghost use Rattle.prt_rows.specs.RouteRow.{IsInRange, route_row};
ghost use Rattle.prt_rows.specs.RuleRow.{IsRule, rule_row};
ghost use Rattle.prt_rows.specs.Statements.{read_routes, read_rules, read_suppress};
ghost use Rattle.prt_rows.specs.SuppressRow.{IsLength, suppress_row};
ghost use Rattle.prt_store.specs.Loaded.{ReadsShown};
ghost use Rattle.prt_store.specs.Shown.{ShowsBadRows, ShowsCount, ShowsDamage, ShowsLengths, ShowsNoCount, ShowsRoutes, ShowsRules, ShowsState};

use crate::merging::merge;
use prt_refusals::Refusal;
use prt_route::Route;
use prt_rows::{RuleLength, count_of_rows, lengths_of_rows, routes_of_rows, rules_of_rows};
use prt_rule::Rule;
use prt_version::Version;
use sqlite::{Alter, Connection};
use std::alloc::Global;

/// Reads the count that the table `meta` encodes.
fn read_count<S: Alter>(conn: &mut Connection<S>) -> Result<u64, Refusal>
    ensures read { ReadsShown S.Store (ShowsCount S.Store conn.old) (ShowsNoCount S.Store conn.old) conn.old conn.new result }
    ensures fits { IfOk result IsCount }
{
    match conn.query_all("SELECT id, format, count FROM meta ORDER BY id", &[]) {
        Ok(rows) => match count_of_rows(rows.as_slice()) {
            Some(count) => Ok(count),
            None => Err(Refusal::Damaged),
        },
        Err(_) => Err(Refusal::OpenFailed),
    }
}

/// Reads the rules that the table `rule` encodes, with ids of at most `last`, without their lengths, in the order of
/// the ids.
fn read_rules<S: Alter>(
    alloc: Global,
    conn: &mut Connection<S>,
    last: u64,
) -> Result<Vec<Rule>, Refusal>
    ensures { ReadsShown S.Store (λ (rules : _). ShowsRules S.Store last conn.old rules.items)
        (ShowsBadRows S.Store conn.old read_rules rule_row (IsRule last) (λ row. row)) conn.old conn.new result }
{
    match conn.query_all(
        "SELECT id, priority, inverted, src_net, src_len, dst_net, dst_len, iif, mark, mask, act, tbl FROM rule ORDER BY id",
        &[],
    ) {
        Ok(rows) => rules_of_rows(alloc, rows.as_slice(), last),
        Err(_) => Err(Refusal::OpenFailed),
    }
}

/// Reads the lengths that the table `suppress` encodes, of rules with ids of at most `last`, in the order of the ids.
fn read_lengths<S: Alter>(
    alloc: Global,
    conn: &mut Connection<S>,
    last: u64,
) -> Result<Vec<RuleLength>, Refusal>
    ensures { ReadsShown S.Store (λ (lengths : _). ShowsLengths S.Store last conn.old lengths.items)
        (ShowsBadRows S.Store conn.old read_suppress suppress_row (IsLength last) (λ row. row)) conn.old conn.new result }
{
    match conn.query_all("SELECT rule, len FROM suppress ORDER BY rule", &[]) {
        Ok(rows) => lengths_of_rows(alloc, rows.as_slice(), last),
        Err(_) => Err(Refusal::OpenFailed),
    }
}

/// Reads the routes that the table `route` encodes.
fn read_routes<S: Alter>(alloc: Global, conn: &mut Connection<S>) -> Result<Vec<Route>, Refusal>
    ensures { ReadsShown S.Store (λ (routes : _). ShowsRoutes S.Store conn.old routes.items)
        (ShowsBadRows S.Store conn.old read_routes route_row IsInRange (drop 1)) conn.old conn.new result }
{
    match conn.query_all(
        "SELECT rowid, tbl, net, len, metric, kind, via, dev, src, proto, scope FROM route ORDER BY rowid",
        &[],
    ) {
        Ok(rows) => routes_of_rows(alloc, rows.as_slice()),
        Err(_) => Err(Refusal::OpenFailed),
    }
}

/// Loads the version that the tables encode: the one whose rows the statements that read them showed.
///
/// # Errors
///
/// `Damaged` only if the rows that were read encode none; `OpenFailed` if a store call fails; `NoMemory`.
pub(crate) fn load<S: Alter>(alloc: Global, conn: &mut Connection<S>) -> Result<Version, Refusal>
    ensures { ReadsShown S.Store (ShowsState S.Store conn.old) (ShowsDamage S.Store conn.old) conn.old conn.new result }
{
    let count = read_count(conn)?;
    let listed = read_rules(alloc, conn, count + 3)?;
    let lengths = read_lengths(alloc, conn, count + 3)?;
    let routes = read_routes(alloc, conn)?;
    let rules = merge(alloc, listed.as_slice(), lengths.as_slice())?;
    Version::from_rows(alloc, count, rules, routes)
}
