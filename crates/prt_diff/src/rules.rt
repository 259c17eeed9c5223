//! Which rules differ, and which rule a deletion takes.
ghost use Rattle.std.specs.Prelude.{◌≡◌, ◌==◌, ◌≤◌, IfOk, OnOk, filter, length, not, position};
ghost use Rattle.std.specs.List.{insert};
ghost use Rattle.prt_rule.specs.Sound.{IsInOrder};
ghost use Rattle.prt_version.specs.Change.{has_rule};
ghost use Rattle.prt_diff.specs.Fence.{rules_within};
ghost use Rattle.prt_diff.specs.Rules.{bars, bars_one, coming_rules, going_rules, has_lower_priority, is_first_taken, is_kept_rule, mark_bits};
ghost use Rattle.prt_diff.specs.Rules.{mask_bits, new_rules, rules_at, stays, takes, takes_number, takes_prefix, with_rule, without_rule};

use crate::fence::Fence;
use prt_addr::agrees_there;
use prt_route::Prefix;
use prt_rule::{Mark, Rule, same};
use std::alloc::{AllocError, Global};

/// Checks whether the prefix agrees with the one that is given: 0.0.0.0/0 names nothing.
fn takes_prefix(given: &Prefix, prefix: &Prefix) -> bool
    ensures { result ≡ takes_prefix given.now prefix.now }
{
    given.len() == 0 || given == prefix
}

/// Returns the mark, or 0.
fn mark_bits(mark: &Option<Mark>) -> u32
    ensures { result ≡ mark_bits mark.now }
{
    match mark {
        Some(mark) => mark.mark,
        None => 0,
    }
}

/// Returns the mask of the mark, or 0.
fn mask_bits(mark: &Option<Mark>) -> u32
    ensures { result ≡ mask_bits mark.now }
{
    match mark {
        Some(mark) => mark.mask,
        None => 0,
    }
}

/// Checks whether the number agrees with the one that is given: 0 names nothing.
fn takes_number(given: u32, number: u32) -> bool
    ensures { result ≡ takes_number given number }
{
    given == 0 || given == number
}

/// Checks whether the other rule agrees with the words that name this one. The kernel compares no `not`.
fn takes(rule: &Rule, other: &Rule) -> bool
    ensures { result ≡ takes rule.now other.now }
{
    rule.priority == other.priority
        && takes_prefix(&rule.from, &other.from)
        && takes_prefix(&rule.to, &other.to)
        && agrees_there(&rule.iif, &other.iif)
        && takes_number(mark_bits(&rule.mark), mark_bits(&other.mark))
        && takes_number(mask_bits(&rule.mark), mask_bits(&other.mark))
        && rule.action == other.action
        && agrees_there(&rule.suppress, &other.suppress)
}

/// Checks whether the kernel refuses the new rule beside the other one.
fn bars(new: &Rule, other: &Rule) -> bool
    ensures { result ≡ bars new.now other.now }
{
    new.priority == other.priority
        && takes_prefix(&new.from, &other.from)
        && takes_prefix(&new.to, &other.to)
        && new.iif == other.iif
        && mark_bits(&new.mark) == mark_bits(&other.mark)
        && mask_bits(&new.mark) == mask_bits(&other.mark)
        && new.action == other.action
        && new.suppress == other.suppress
}

/// Checks whether the kernel refuses one of the new rules beside this one.
fn bars_one(new: &[Rule], rule: &Rule) -> bool
    ensures { result ≡ bars_one new.now rule.now }
{
    new.iter().any(|one| bars(one, rule))
}

/// Checks whether the kernel takes this rule if its words are given: it is the first one that agrees.
pub(crate) fn is_first_taken(rule: &Rule, rules: &[Rule]) -> bool
    ensures { result ≡ is_first_taken rule.now rules.now }
{
    match rules {
        [other, others @ ..] => {
            if takes(rule, other) {
                same(other, rule)
            } else {
                is_first_taken(rule, others)
            }
        }
        [] => false,
    }
}

/// Checks whether one of the rules is the same except for its id.
pub(crate) fn has_rule(rule: &Rule, rules: &[Rule]) -> bool
    ensures { result ≡ has_rule rule.now rules.now }
{
    rules.iter().any(|other| same(other, rule))
}

/// Finds the rules of this priority. They lie side by side.
fn rules_at(rules: &[Rule], priority: u32) -> &[Rule]
    requires { IsInOrder rules.now }
    ensures { result.now ≡ rules_at priority rules.now }
{
    let rest = &rules[rules.partition_point(|rule| rule.priority < priority)..];
    &rest[..rest.partition_point(|rule| rule.priority <= priority)]
}

/// Checks whether the rule stays among those of its priority: the wanted ones up to it are found in that order.
fn stays(rule: &Rule, found: &[Rule], wanted: &[Rule]) -> bool
    ensures { result ≡ stays rule.now found.now wanted.now }
{
    let [other, found_rest @ ..] = found else {
        return false;
    };
    let [first, wanted_rest @ ..] = wanted else {
        return false;
    };
    if same(other, first) {
        same(first, rule) || stays(rule, found_rest, wanted_rest)
    } else {
        stays(rule, found_rest, wanted)
    }
}

/// Checks whether the rule stays.
fn is_kept_rule(found: &[Rule], wanted: &[Rule], rule: &Rule) -> bool
    requires found { IsInOrder found.now }
    requires wanted { IsInOrder wanted.now }
    ensures { result ≡ is_kept_rule found.now wanted.now rule.now }
{
    stays(
        rule,
        rules_at(found, rule.priority),
        rules_at(wanted, rule.priority),
    )
}

/// Collects those of the rules that may be changed.
fn rules_within(alloc: Global, fence: &Fence, rules: &[Rule]) -> Result<Vec<Rule>, AllocError>
    requires { IsInOrder rules.now }
    ensures within { IfOk result (λ within. within.items ≡ rules_within fence.now rules.now) }
    ensures order { IfOk result (λ within. IsInOrder within.items) }
{
    let mut within = Vec::new(alloc);
    for rule in rules {
        if fence.is_rule_within(rule) {
            within.push(*rule)?;
        }
    }
    Ok(within)
}

/// Collects the wanted rules that are not found, or have to move.
#[tactic(auto, unfolding(crate::specs::Rules::new_rules))]
fn new_rules(alloc: Global, found: &[Rule], wanted: &[Rule]) -> Result<Vec<Rule>, AllocError>
    requires found { IsInOrder found.now }
    requires wanted { IsInOrder wanted.now }
    ensures { IfOk result (λ rules. rules.items ≡ new_rules found.now wanted.now) }
{
    let mut rules = Vec::new(alloc);
    for rule in wanted {
        if !is_kept_rule(found, wanted, rule) {
            rules.push(*rule)?;
        }
    }
    Ok(rules)
}

/// Collects the rules that come or move.
pub(crate) fn coming_rules(
    alloc: Global,
    fence: &Fence,
    found: &[Rule],
    wanted: &[Rule],
) -> Result<Vec<Rule>, AllocError>
    requires found { IsInOrder found.now }
    requires wanted { IsInOrder wanted.now }
    ensures { IfOk result (λ rules. rules.items ≡ coming_rules fence.now found.now wanted.now) }
{
    let found_within = rules_within(alloc, fence, found)?;
    let wanted_within = rules_within(alloc, fence, wanted)?;
    new_rules(alloc, &found_within, &wanted_within)
}

/// Collects the rules that go.
pub(crate) fn going_rules(
    alloc: Global,
    fence: &Fence,
    found: &[Rule],
    wanted: &[Rule],
) -> Result<Vec<Rule>, AllocError>
    ensures { IfOk result (λ rules. rules.items ≡ going_rules fence.now found.now wanted.now) }
{
    let mut rules = Vec::new(alloc);
    for rule in found {
        if fence.is_rule_within(rule) && !has_rule(rule, wanted) {
            rules.push(*rule)?;
        }
    }
    Ok(rules)
}

/// Collects the rules that go and bar one that comes.
pub(crate) fn barring_rules(
    alloc: Global,
    coming: &[Rule],
    going: &[Rule],
) -> Result<Vec<Rule>, AllocError>
    ensures { IfOk result (λ rules. rules.items ≡ filter (bars_one coming.now) going.now) }
{
    let mut rules = Vec::new(alloc);
    for rule in going {
        if bars_one(coming, rule) {
            rules.push(*rule)?;
        }
    }
    Ok(rules)
}

/// Finds the place of the first rule of a higher priority number than the new one.
fn rule_after(rules: &[Rule], new: &Rule) -> Option<usize>
    ensures { result ≡ position (λ rule. has_lower_priority new.now rule) rules.now }
{
    rules.iter().position(|rule| new.priority < rule.priority)
}

/// Finds the place of a new rule, behind the others of its priority.
#[tactic(auto, using(crate::proofs::RulePlaces::rule_within))]
fn rule_place(rules: &[Rule], new: &Rule) -> usize
    ensures within { result ≤ length rules.now }
    ensures place { insert rules.now result new.now ≡ with_rule new.now rules.now }
{
    rule_after(rules, new).unwrap_or(rules.len())
}

/// Inserts the rule behind the others of its priority.
pub(crate) fn insert_rule(rules: &mut Vec<Rule>, new: &Rule) -> Result<(), AllocError>
    ensures { OnOk result (rules.new.items ≡ with_rule new.now rules.old.items) }
{
    let place = rule_place(rules, new);
    rules.insert(place, *new)?;
    Ok(())
}

/// Removes the rule that is the same except for its id.
pub(crate) fn remove_rule(rules: &mut Vec<Rule>, gone: &Rule)
    ensures { rules.new.items ≡ without_rule gone.now rules.old.items }
{
    rules.retain(|rule| !same(rule, gone));
}
