//! Copies of rules with an edit made.
ghost use Rattle.std.specs.Prelude.{◌≡◌, ◌==◌, ◌≤◌, IfOk, OnOk, filter, length, not, position};
ghost use Rattle.std.specs.List.{insert};
ghost use Rattle.prt_addr.specs.Order.{insert_by};
ghost use Rattle.prt_rule.specs.Rule.{is_before};

use crate::Rule;
use prt_rule::is_before;
use std::alloc::{AllocError, Global};

/// Finds the place of the first rule that the new one comes before.
fn rule_after(rules: &[Rule], new: &Rule) -> Option<usize>
    ensures { result ≡ position (λ rule. is_before new.now rule) rules.now }
{
    rules.iter().position(|rule| is_before(new, rule))
}

/// Finds the place of a new rule in the order in which they are tried.
#[tactic(auto, using(crate::proofs::Places::rule_within))]
fn rule_place(rules: &[Rule], new: &Rule) -> usize
    ensures within { result ≤ length rules.now }
    ensures place { insert rules.now result new.now ≡ insert_by is_before new.now rules.now }
{
    rule_after(rules, new).unwrap_or(rules.len())
}

/// Inserts a rule in its place.
fn insert_rule(rows: &mut Vec<Rule>, new: &Rule) -> Result<(), AllocError>
    ensures { OnOk result (rows.new.items ≡ insert_by is_before new.now rows.old.items) }
{
    let place = rule_place(rows, new);
    rows.insert(place, *new)?;
    Ok(())
}

/// Makes a copy of the rules with the new one in its place.
pub(crate) fn with_rule(alloc: Global, rules: &[Rule], new: &Rule) -> Result<Vec<Rule>, AllocError>
    ensures { IfOk result (λ rows. rows.items ≡ insert_by is_before new.now rules.now) }
{
    let mut rows = Vec::with_capacity(alloc, rules.len() + 1)?;
    rows.extend_from_slice(rules)?;
    insert_rule(&mut rows, new)?;
    Ok(rows)
}

/// Makes a copy of the rules except the one that has this id.
pub(crate) fn without_rule(alloc: Global, rules: &[Rule], id: u64) -> Result<Vec<Rule>, AllocError>
    ensures { IfOk result (λ rows. rows.items ≡ filter (λ rule. not (rule.id == id)) rules.now) }
{
    let mut rows = Vec::from_slice(alloc, rules)?;
    rows.retain(|rule| rule.id != id);
    Ok(rows)
}

/// Makes a copy of the rules of priority 0.
pub(crate) fn flushed_rules(alloc: Global, rules: &[Rule]) -> Result<Vec<Rule>, AllocError>
    ensures { IfOk result (λ rows. rows.items ≡ filter (λ rule. rule.priority == 0) rules.now) }
{
    let mut rows = Vec::from_slice(alloc, rules)?;
    rows.retain(|rule| rule.priority == 0);
    Ok(rows)
}
