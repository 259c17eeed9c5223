//! The statements that write, each with its parameters.

ghost use Rattle.std.specs.Prelude.{◌≡◌, ◌≤◌, ◌<◌, ◌^◌, []};
ghost use Rattle.sqlite.specs.Held.{state};
ghost use Rattle.prt_rows.specs.Kept.{count_values, id_values, key_values};
ghost use Rattle.prt_rows.specs.RouteRow.{IsInRange, route_row};
ghost use Rattle.prt_rows.specs.RuleRow.{IsRule, rule_row};
ghost use Rattle.prt_rows.specs.Selecting.{IsSelector, selector_row};
ghost use Rattle.prt_rows.specs.Statements.{delete_route, delete_rule, flush_routes, flush_rules, insert_route, insert_rule, insert_suppress};
ghost use Rattle.prt_rows.specs.Statements.{put_route, set_count};
ghost use Rattle.prt_rows.specs.SuppressRow.{suppress_row};
ghost use Rattle.prt_store.specs.Lengths.{plain};
ghost use Rattle.prt_store.specs.Written.{CommitsNothing, RunsInside};

use prt_route::{Route, RouteKey, Selector};
use prt_rows::{RuleLength, length_values, route_values, rule_values, selector_values};
use prt_rule::Rule;
use sqlite::types::ValueRef;
use sqlite::{Alter, Error, Transaction, params};

/// Inserts a route. If its key is there, the statement is refused.
pub(crate) fn insert_route<S: Alter>(
    tx: &mut Transaction<'_, S>,
    route: &Route,
) -> Result<usize, Error>
    ensures same_reference { tx.new.conn.ghost_name ≡ tx.old.conn.ghost_name }
    ensures runs { RunsInside S.Store insert_route (route_row route.now) tx.old.conn.now tx.new.conn.now result }
    ensures survives { CommitsNothing S.Store tx.old.conn.now tx.new.conn.now }
    ensures typed { IsInRange route.now }
{
    tx.execute(
        "INSERT INTO route (tbl, net, len, metric, kind, via, dev, src, proto, scope) VALUES (?1, ?2, ?3, ?4, ?5, ?6, ?7, ?8, ?9, ?10)",
        &route_values(route),
    )
}

/// Puts a route in the place of the one that has its key, or beside the others.
pub(crate) fn put_route<S: Alter>(
    tx: &mut Transaction<'_, S>,
    route: &Route,
) -> Result<usize, Error>
    ensures same_reference { tx.new.conn.ghost_name ≡ tx.old.conn.ghost_name }
    ensures runs { RunsInside S.Store put_route (route_row route.now) tx.old.conn.now tx.new.conn.now result }
    ensures survives { CommitsNothing S.Store tx.old.conn.now tx.new.conn.now }
    ensures typed { IsInRange route.now }
{
    tx.execute(
        "INSERT INTO route (tbl, net, len, metric, kind, via, dev, src, proto, scope) VALUES (?1, ?2, ?3, ?4, ?5, ?6, ?7, ?8, ?9, ?10) ON CONFLICT (tbl, net, len, metric) DO UPDATE SET kind = ?5, via = ?6, dev = ?7, src = ?8, proto = ?9, scope = ?10",
        &route_values(route),
    )
}

/// Deletes the route that has this key.
pub(crate) fn delete_route<S: Alter>(
    tx: &mut Transaction<'_, S>,
    key: &RouteKey,
) -> Result<usize, Error>
    ensures same_reference { tx.new.conn.ghost_name ≡ tx.old.conn.ghost_name }
    ensures runs { RunsInside S.Store delete_route (key_values key.now) tx.old.conn.now tx.new.conn.now result }
    ensures survives { CommitsNothing S.Store tx.old.conn.now tx.new.conn.now }
{
    tx.execute(
        "DELETE FROM route WHERE tbl = ?1 AND net = ?2 AND len = ?3 AND metric = ?4",
        params![
            key.table,
            key.prefix.bits(),
            u32::from(key.prefix.len()),
            key.metric
        ],
    )
}

/// Deletes the routes that the selector takes.
pub(crate) fn flush_routes<S: Alter>(
    tx: &mut Transaction<'_, S>,
    selector: &Selector,
) -> Result<usize, Error>
    ensures same_reference { tx.new.conn.ghost_name ≡ tx.old.conn.ghost_name }
    ensures runs { RunsInside S.Store flush_routes (selector_row selector.now) tx.old.conn.now tx.new.conn.now result }
    ensures survives { CommitsNothing S.Store tx.old.conn.now tx.new.conn.now }
    ensures typed { IsSelector selector.now }
{
    tx.execute(
        "DELETE FROM route WHERE (?1 = -1 OR tbl = ?1) AND net >= ?2 AND net <= ?3 AND len >= ?4 AND len <= ?5 AND net + (4294967296 >> len) > ?6 AND (?7 = -1 OR kind = ?7) AND (?8 = -1 OR proto = ?8) AND (?9 = -1 OR scope = ?9) AND (?10 = '' OR dev = ?10)",
        &selector_values(selector),
    )
}

/// Inserts a rule, whose id is new, without its length.
pub(crate) fn insert_rule<S: Alter>(
    tx: &mut Transaction<'_, S>,
    rule: &Rule,
) -> Result<usize, Error>
    requires { rule.now.id < 2 ^ 63 }
    ensures same_reference { tx.new.conn.ghost_name ≡ tx.old.conn.ghost_name }
    ensures runs { RunsInside S.Store insert_rule (rule_row rule.now) tx.old.conn.now tx.new.conn.now result }
    ensures survives { CommitsNothing S.Store tx.old.conn.now tx.new.conn.now }
    ensures typed { 1 ≤ rule.now.id → IsRule rule.now.id (plain rule.now) }
{
    tx.execute(
        "INSERT INTO rule (id, priority, inverted, src_net, src_len, dst_net, dst_len, iif, mark, mask, act, tbl) VALUES (?1, ?2, ?3, ?4, ?5, ?6, ?7, ?8, ?9, ?10, ?11, ?12)",
        &rule_values(rule),
    )
}

/// Inserts the length up to which a rule suppresses prefixes.
pub(crate) fn insert_length<S: Alter>(
    tx: &mut Transaction<'_, S>,
    length: &RuleLength,
) -> Result<usize, Error>
    requires { length.now.rule < 2 ^ 63 }
    ensures same_reference { tx.new.conn.ghost_name ≡ tx.old.conn.ghost_name }
    ensures runs { RunsInside S.Store insert_suppress (suppress_row length.now) tx.old.conn.now tx.new.conn.now result }
    ensures survives { CommitsNothing S.Store tx.old.conn.now tx.new.conn.now }
{
    tx.execute(
        "INSERT INTO suppress (rule, len) VALUES (?1, ?2)",
        &length_values(length),
    )
}

/// Deletes the rule that has this id. Its length goes with it.
pub(crate) fn delete_rule<S: Alter>(tx: &mut Transaction<'_, S>, id: u64) -> Result<usize, Error>
    requires { id < 2 ^ 63 }
    ensures same_reference { tx.new.conn.ghost_name ≡ tx.old.conn.ghost_name }
    ensures runs { RunsInside S.Store delete_rule (id_values id) tx.old.conn.now tx.new.conn.now result }
    ensures survives { CommitsNothing S.Store tx.old.conn.now tx.new.conn.now }
{
    tx.execute("DELETE FROM rule WHERE id = ?1", params![id as i64])
}

/// Deletes the rules whose priority is not 0. Their lengths go with them.
pub(crate) fn flush_rules<S: Alter>(tx: &mut Transaction<'_, S>) -> Result<usize, Error>
    ensures same_reference { tx.new.conn.ghost_name ≡ tx.old.conn.ghost_name }
    ensures runs { RunsInside S.Store flush_rules [] tx.old.conn.now tx.new.conn.now result }
    ensures survives { CommitsNothing S.Store tx.old.conn.now tx.new.conn.now }
{
    tx.execute("DELETE FROM rule WHERE priority <> 0", &[])
}

/// Sets the count of accepted commands.
pub(crate) fn set_count<S: Alter>(tx: &mut Transaction<'_, S>, count: u64) -> Result<usize, Error>
    requires { count < 2 ^ 63 }
    ensures same_reference { tx.new.conn.ghost_name ≡ tx.old.conn.ghost_name }
    ensures runs { RunsInside S.Store set_count (count_values count) tx.old.conn.now tx.new.conn.now result }
    ensures survives { CommitsNothing S.Store tx.old.conn.now tx.new.conn.now }
{
    tx.execute("UPDATE meta SET count = ?1", params![count as i64])
}
