//! The first row that encodes nothing, among the rows of the four tables.

ghost use Rattle.std.specs.Prelude.{IfSome};
ghost use Rattle.prt_reasons.specs.Explains.{Explains, NamesBadRow, NamesNoRow};
ghost use Rattle.prt_reasons.specs.Found.{HasBadRow};
ghost use Rattle.prt_reasons.specs.Spelling.{SpellsLength, SpellsRoute, SpellsRule};

use crate::cell::integer;
use crate::{DatabaseTable, Reason, RowFault, length_fault, meta_fault, route_fault, rule_fault};
use prt_rows::{count_of_rows, length_of_row, rule_of_row};
use prt_rule::{Rule, same};
use prt_version::{MOST_ROUTES, MOST_RULES};
use sqlite::Row;

/// The rows of the four tables, in the order of their rowids.
#[derive(Drop)]
pub(crate) struct AllRows {
    pub(crate) meta: Vec<Row>,
    pub(crate) rules: Vec<Row>,
    pub(crate) lengths: Vec<Row>,
    pub(crate) routes: Vec<Row>,
}

/// Finds the rowid and the fault of the first row of `rule` that encodes no rule with an id of 1 to `last`.
fn first_rule(rows: &[Row], last: u64) -> Option<(i64, RowFault)>
    ensures { IfSome result (λ found. HasBadRow (SpellsRule last) rows.now found.0) }
{
    for row in rows {
        if let (Some(id), Some(fault)) = (integer(row, 0), rule_fault(row, last)) {
            return Some((id, fault));
        }
    }
    None
}

/// Finds the rowid and fault of the first row of `suppress` that encodes no length of a rule with an id of 1 to `last`.
fn first_length(rows: &[Row], last: u64) -> Option<(i64, RowFault)>
    ensures { IfSome result (λ found. HasBadRow (SpellsLength last) rows.now found.0) }
{
    for row in rows {
        if let (Some(id), Some(fault)) = (integer(row, 0), length_fault(row, last)) {
            return Some((id, fault));
        }
    }
    None
}

/// Finds the rowid and the fault of the first row of `route` that encodes no route.
fn first_route(rows: &[Row]) -> Option<(i64, RowFault)>
    ensures { IfSome result (λ found. HasBadRow SpellsRoute rows.now found.0) }
{
    for row in rows {
        if let (Some(id), Some(fault)) = (integer(row, 0), route_fault(row)) {
            return Some((id, fault));
        }
    }
    None
}

/// Finds the length in the row of `suppress` of a rule, if it has one.
fn length_of(rows: &[Row], rule: u64, last: u64) -> Option<u8> {
    for row in rows {
        if let Some(length) = length_of_row(row, last) {
            if length.rule == rule {
                return Some(length.len);
            }
        }
    }
    None
}

/// Reads the rule that a row encodes, with its length.
fn whole_rule(row: &Row, lengths: &[Row], last: u64) -> Option<Rule> {
    let mut rule = rule_of_row(row, last)?;
    rule.suppress = length_of(lengths, rule.id, last);
    Some(rule)
}

/// Finds the rowid of the first of the rows that encodes this rule, except for the id.
fn first_same(rule: &Rule, rows: &[Row], lengths: &[Row], last: u64) -> Option<i64> {
    for row in rows {
        if let (Some(id), Some(other)) = (integer(row, 0), whole_rule(row, lengths, last)) {
            if same(rule, &other) {
                return Some(id);
            }
        }
    }
    None
}

/// Finds why a rule of this id can't coexist with those of the rows before it.
fn rule_reason(id: i64, rule: &Rule, before: &[Row], lengths: &[Row], last: u64) -> Option<Reason>
    ensures { IfSome result NamesNoRow }
{
    if !rule.is_storable() {
        return Some(Reason::Suppressing(id));
    }
    let other = first_same(rule, before, lengths, last)?;
    Some(Reason::SameRule(id, other))
}

/// Finds why the rule of a row can't coexist with those of the rows before it.
fn rule_beside(row: &Row, before: &[Row], lengths: &[Row], last: u64) -> Option<Reason>
    ensures { IfSome result NamesNoRow }
{
    match (integer(row, 0), whole_rule(row, lengths, last)) {
        (Some(id), Some(rule)) => rule_reason(id, &rule, before, lengths, last),
        _ => None,
    }
}

/// Finds why the rows, of which each encodes something, encode no rules together.
fn rules_together(rules: &[Row], lengths: &[Row], last: u64) -> Option<Reason>
    ensures { IfSome result NamesNoRow }
{
    for at in 0..rules.len() {
        let reason = rule_beside(&rules[at], &rules[..at], lengths, last);
        if reason.is_some() {
            return reason;
        }
    }
    None
}

/// Finds which table has more rows than there may be.
fn too_many(rules: usize, routes: usize) -> Option<Reason>
    ensures { IfSome result NamesNoRow }
{
    if rules > MOST_RULES {
        return Some(Reason::TooMany(DatabaseTable::Rule, rules, MOST_RULES));
    }
    if routes > MOST_ROUTES {
        return Some(Reason::TooMany(DatabaseTable::Route, routes, MOST_ROUTES));
    }
    None
}

/// Names the first row of `rule`, `suppress` or `route` that encodes nothing, if the greatest id is `last`.
fn first_row(rows: &AllRows, last: u64) -> Option<Reason>
    ensures { IfSome result (NamesBadRow rows.now last) }
{
    if let Some((id, fault)) = first_rule(rows.rules.as_slice(), last) {
        return Some(Reason::Row(DatabaseTable::Rule, id, fault));
    }
    if let Some((id, fault)) = first_length(rows.lengths.as_slice(), last) {
        return Some(Reason::Row(DatabaseTable::Suppress, id, fault));
    }
    if let Some((id, fault)) = first_route(rows.routes.as_slice()) {
        return Some(Reason::Row(DatabaseTable::Route, id, fault));
    }
    None
}

/// Finds why rows of which each encodes something encode no state together.
fn together(rules: &[Row], lengths: &[Row], routes: usize, last: u64) -> Option<Reason>
    ensures { IfSome result NamesNoRow }
{
    let reason = too_many(rules.len(), routes);
    if reason.is_some() {
        return reason;
    }
    rules_together(rules, lengths, last)
}

/// Finds why the rows of `rule`, `suppress` and `route` encode nothing, if the greatest id is `last`: the first row
/// that encodes nothing, or else what the rows are together.
fn reason_below(rows: &AllRows, last: u64) -> Option<Reason>
    ensures { IfSome result (NamesBadRow rows.now last) }
{
    let reason = first_row(rows, last);
    if reason.is_some() {
        return reason;
    }
    let routes = rows.routes.len();
    together(rows.rules.as_slice(), rows.lengths.as_slice(), routes, last)
}

/// Finds why the rows encode no state: the rows of `meta` that encode no count, or else the first row that encodes
/// nothing, or else what the rows are together.
pub(crate) fn reason_in(rows: &AllRows) -> Option<Reason>
    ensures { IfSome result (Explains rows.now) }
{
    match count_of_rows(rows.meta.as_slice()) {
        Some(count) => reason_below(rows, count + 3),
        None => Some(Reason::Meta(meta_fault(rows.meta.as_slice())?)),
    }
}
