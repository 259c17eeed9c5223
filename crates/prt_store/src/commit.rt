//! Changes in one transaction.

ghost use Rattle.std.specs.Prelude.{◌≡◌, ◌↔◌, ◌≤◌, ◌<◌, ◌^◌, Err, IfErr, IsTrue, None, OnErr, OnOk};
ghost use Rattle.std.specs.List.{AllByRecursion as Each};
ghost use Rattle.sqlite.specs.Held.{state};
ghost use Rattle.sqlite.specs.State.{HasCleanDisk, Survives};
ghost use Rattle.prt_rows.specs.RuleRow.{IsRule, rule_row};
ghost use Rattle.prt_rows.specs.Statements.{insert_rule};
ghost use Rattle.prt_store.specs.Adopted.{IsSettled};
ghost use Rattle.prt_store.specs.Failures.{AllFailFor, FailsInside, RefusesOneOf, RefusesRows, RefusesWith};
ghost use Rattle.prt_store.specs.Lengths.{length_of, plain};
ghost use Rattle.prt_store.specs.Made.{MakesChanges, RunsWith, WritesAll, WritesRows};
ghost use Rattle.prt_store.specs.Openings.{HasDone, HasLeft, Works};
ghost use Rattle.prt_store.specs.Stops.{AllStoppedIn, MakesAllCalls};
ghost use Rattle.prt_store.specs.Written.{HasStorableIds, IsTyped};

use crate::statements::{
    delete_route, delete_rule, flush_routes, flush_rules, insert_length, insert_route, insert_rule,
    put_route, set_count,
};
use prt_refusals::StoreCall;
use prt_route::RouteEdit;
use prt_rows::RuleLength;
use prt_rule::Rule;
use prt_version::Change;
use sqlite::{Alter, Connection, Error, Transaction};

/// Inserts a rule and, if it suppresses prefixes, its length.
fn add_rule<S: Alter>(tx: &mut Transaction<'_, S>, rule: &Rule) -> Result<usize, Error>
    requires { rule.now.id < 2 ^ 63 }
    ensures same_reference { tx.new.conn.ghost_name ≡ tx.old.conn.ghost_name }
    ensures works { Works S.Store (RunsWith S.Store insert_rule (rule_row rule.now) (length_of rule.now)) tx.old.conn.now tx.new.conn.now result }
    ensures fails { FailsInside S.Store (RefusesWith S.Store insert_rule (rule_row rule.now) (length_of rule.now)) tx.old.conn.now tx.new.conn.now result }
    ensures typed { 1 ≤ rule.now.id → IsRule rule.now.id (plain rule.now) }
{
    let Some(len) = rule.suppress else {
        return insert_rule(tx, rule);
    };
    if let Err(error) = insert_rule(tx, rule) {
        return Err(error);
    }
    insert_length(tx, &RuleLength { rule: rule.id, len })
}

/// Puts a route, or deletes routes.
fn edit_routes<S: Alter>(tx: &mut Transaction<'_, S>, edit: &RouteEdit) -> Result<usize, Error>
    ensures same_reference { tx.new.conn.ghost_name ≡ tx.old.conn.ghost_name }
    ensures works { Works S.Store (WritesRows S.Store (Change.Route edit.now)) tx.old.conn.now tx.new.conn.now result }
    ensures fails { FailsInside S.Store (RefusesRows S.Store (Change.Route edit.now)) tx.old.conn.now tx.new.conn.now result }
    ensures typed { IsTyped (Change.Route edit.now) }
{
    match edit {
        RouteEdit::Put(route) => put_route(tx, route),
        RouteEdit::Remove(key) => delete_route(tx, key),
        RouteEdit::Flush(selector) => flush_routes(tx, selector),
    }
}

/// Writes the rows of the change.
fn write<S: Alter>(tx: &mut Transaction<'_, S>, change: &Change) -> Result<usize, Error>
    requires { HasStorableIds change.now }
    ensures same_reference { tx.new.conn.ghost_name ≡ tx.old.conn.ghost_name }
    ensures works { Works S.Store (WritesRows S.Store change.now) tx.old.conn.now tx.new.conn.now result }
    ensures fails { FailsInside S.Store (RefusesRows S.Store change.now) tx.old.conn.now tx.new.conn.now result }
    ensures typed { IsTyped change.now }
{
    match change {
        Change::Route(edit) => edit_routes(tx, edit),
        Change::RouteAdd(route) => insert_route(tx, route),
        Change::RulePut(rule) => add_rule(tx, rule),
        Change::RuleDrop(id) => delete_rule(tx, *id),
        Change::RuleFlush => flush_rules(tx),
    }
}

/// Writes the rows of each change in turn, up to the first that is refused.
fn write_all<S: Alter>(tx: &mut Transaction<'_, S>, changes: &[Change]) -> Result<usize, Error>
    requires { Each HasStorableIds changes.now }
    ensures same_reference { tx.new.conn.ghost_name ≡ tx.old.conn.ghost_name }
    ensures works { Works S.Store (WritesAll S.Store changes.now) tx.old.conn.now tx.new.conn.now result }
    ensures fails { FailsInside S.Store (RefusesOneOf S.Store changes.now) tx.old.conn.now tx.new.conn.now result }
    ensures typed { OnOk result (Each IsTyped changes.now) }
{
    match changes.split_first() {
        None => Ok(0),
        Some((first, rest)) => {
            if let Err(error) = write(tx, first) {
                return Err(error);
            }
            write_all(tx, rest)
        }
    }
}

/// Makes the changes and sets the count in one transaction: begin, a write for each, count, commit. Keeps the library's
/// error in `failure` if one of its calls fails.
///
/// # Errors
///
/// The call that failed. Nothing is changed then, unless the commit failed: all of them may have been made.
pub(crate) fn make_changes<S: Alter>(
    conn: &mut Connection<S>,
    changes: &[Change],
    number: u64,
    failure: &mut Option<Error>,
) -> Result<(), StoreCall>
    requires ids { Each HasStorableIds changes.now }
    requires number { number < 2 ^ 63 }
    ensures ok { HasCleanDisk (state S.Store conn.new) →
        OnOk result (Each IsTyped changes.now
        × HasDone S.Store (MakesChanges S.Store changes.now number) conn.old (state S.Store conn.new).committed × IsSettled S.Store conn.new) }
    ensures clean { HasCleanDisk (state S.Store conn.new) → OnOk result (HasCleanDisk (state S.Store conn.old)) }
    ensures begin { (result ≡ Err StoreCall.Begin) ↔ IsTrue conn.old.in_transaction }
    ensures not_begun { result ≡ Err StoreCall.Begin → conn.new ≡ conn.old }
    ensures mode { OnErr result (conn.new.in_transaction ≡ conn.old.in_transaction) }
    ensures err { HasCleanDisk (state S.Store conn.new) → IsTrue (state S.Store conn.new).is_open →
        OnErr result (((state S.Store conn.new).now ≡ (state S.Store conn.old).now)
        × ((state S.Store conn.new).committed ≡ (state S.Store conn.old).committed)) }
    ensures crash_err { IfErr result (λ call. Survives (state S.Store conn.old) (state S.Store conn.new)
        (λ trees. (call ≡ StoreCall.Commit) × Each IsTyped changes.now × HasLeft S.Store (MakesChanges S.Store changes.now number) conn.old trees)) }
    ensures calls { HasCleanDisk (state S.Store conn.new) → OnOk result (MakesAllCalls S.Store changes.now number conn.old conn.new) }
    ensures stopped { HasCleanDisk (state S.Store conn.new) → IfErr result (λ call. AllStoppedIn S.Store changes.now number conn.old call conn.new) }
    ensures unfailed { OnOk result (failure.new ≡ None) }
    ensures failure { IfErr result (λ call. AllFailFor S.Store changes.now number conn.old call conn.new failure.new) }
{
    *failure = None;
    if !conn.is_autocommit() {
        return Err(StoreCall::Begin);
    }
    let mut tx = conn.transaction();
    if let Err(error) = write_all(&mut tx, changes) {
        *failure = Some(error);
        return Err(StoreCall::Write);
    }
    if let Err(error) = set_count(&mut tx, number) {
        *failure = Some(error);
        return Err(StoreCall::Count);
    }
    if let Err(error) = tx.commit() {
        *failure = Some(error);
        return Err(StoreCall::Commit);
    }
    Ok(())
}
