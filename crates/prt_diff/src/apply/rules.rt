//! Which rules are replaced, priority by priority.
ghost use Rattle.std.specs.Prelude.{◌≡◌, ◌++◌, OnOk, map, suc};
ghost use Rattle.prt_rule.specs.Sound.{IsInOrder};
ghost use Rattle.prt_diff.specs.Rules.{add_rule};
ghost use Rattle.prt_diff.specs.Apply.Rules.{are_same, choice_at, delete_first, replacing, rule_changes};
ghost use Rattle.prt_diff.specs.Apply.Walk.{lowest_priority, rules_below, rules_from};

use crate::commands::add_rule;
use prt_command::Command;
use prt_rule::{Rule, RuleChoice, same};
use std::alloc::AllocError;

/// Checks whether these are the same rules in the same order, except for ids.
fn are_same(rules: &[Rule], others: &[Rule]) -> bool
    ensures { result ≡ are_same rules.now others.now }
{
    let [rule, rest @ ..] = rules else {
        return others.is_empty();
    };
    let [other, others_rest @ ..] = others else {
        return false;
    };
    same(rule, other) && are_same(rest, others_rest)
}

/// Finds the lowest priority of the rules, or `None` if there are none.
fn lowest_priority(rules: &[Rule], others: &[Rule]) -> Option<u32>
    ensures { result ≡ lowest_priority rules.now others.now }
{
    match (rules.first(), others.first()) {
        (Some(rule), Some(other)) => Some(rule.priority.min(other.priority)),
        (Some(rule), None) => Some(rule.priority),
        (None, Some(other)) => Some(other.priority),
        (None, None) => None,
    }
}

/// Splits the rules behind those of this priority and lower ones.
fn split_behind(rules: &[Rule], priority: u32) -> (&[Rule], &[Rule])
    requires { IsInOrder rules.now }
    ensures front { result.0.now ≡ rules_below (suc priority) rules.now }
    ensures back { result.1.now ≡ rules_from (suc priority) rules.now }
{
    rules.split_at(rules.partition_point(|rule| rule.priority <= priority))
}

/// Chooses a rule by its priority alone.
fn choice_at(priority: u32) -> RuleChoice
    ensures { result ≡ choice_at priority }
{
    RuleChoice {
        priority: Some(priority),
        inverted: false,
        from: None,
        to: None,
        iif: None,
        mark: None,
        action: None,
        suppress: None,
    }
}

/// Builds the command that deletes the first rule of this one's priority.
fn delete_first(rule: &Rule) -> Command
    ensures { result ≡ delete_first rule.now }
{
    Command::RuleDel(choice_at(rule.priority))
}

/// Appends a command for each of the rules that deletes the first one of its priority.
fn push_deletions(commands: &mut Vec<Command>, rules: &[Rule]) -> Result<(), AllocError>
    ensures { OnOk result (commands.new.items ≡ commands.old.items ++ map delete_first rules.now) }
{
    for rule in rules {
        commands.extend_from_slice(&[delete_first(rule)])?;
    }
    Ok(())
}

/// Appends the commands that add the rules.
fn push_additions(commands: &mut Vec<Command>, rules: &[Rule]) -> Result<(), AllocError>
    ensures { OnOk result (commands.new.items ≡ commands.old.items ++ map add_rule rules.now) }
{
    for rule in rules {
        commands.extend_from_slice(&[add_rule(rule)])?;
    }
    Ok(())
}

/// Appends the commands that replace the rules of one priority, if they differ.
fn push_replacing(
    commands: &mut Vec<Command>,
    found: &[Rule],
    wanted: &[Rule],
) -> Result<(), AllocError>
    ensures { OnOk result (commands.new.items ≡ commands.old.items ++ replacing found.now wanted.now) }
{
    if are_same(found, wanted) {
        return Ok(());
    }
    push_deletions(commands, found)?;
    push_additions(commands, wanted)
}

/// Appends the commands that replace the rules of each priority at which they differ, in rising order.
pub(crate) fn push_rule_changes(
    commands: &mut Vec<Command>,
    found: &[Rule],
    wanted: &[Rule],
) -> Result<(), AllocError>
    requires found { IsInOrder found.now }
    requires wanted { IsInOrder wanted.now }
    ensures { OnOk result (commands.new.items ≡ commands.old.items ++ rule_changes found.now wanted.now) }
{
    let mut found_rest = found;
    let mut wanted_rest = wanted;
    while let Some(priority) = lowest_priority(found_rest, wanted_rest) {
        let (found_here, found_behind) = split_behind(found_rest, priority);
        let (wanted_here, wanted_behind) = split_behind(wanted_rest, priority);
        push_replacing(commands, found_here, wanted_here)?;
        found_rest = found_behind;
        wanted_rest = wanted_behind;
    }
    Ok(())
}
