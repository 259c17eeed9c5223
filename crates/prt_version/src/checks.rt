//! The change that a command asks for, and what one is refused for.
ghost use Rattle.std.specs.Prelude.{◌≡◌, find, option_map};
ghost use Rattle.prt_version.specs.Change.{change_of, has_rule, if_room, named_rule};

use crate::{Change, Command, MOST_ROUTES, MOST_RULES, NewRule, Refusal, Route, Rule, Version};
use prt_route::{RouteChoice, RouteEdit};
use prt_rule::{RuleChoice, same};

/// Checks whether one of the rules is equal to this one in all but the id.
fn has_rule(rules: &[Rule], new: &Rule) -> bool
    ensures { result ≡ has_rule new.now rules.now }
{
    rules.iter().any(|rule| same(rule, new))
}

/// Finds the first rule that the choice names.
fn named_rule<'a>(rules: &'a [Rule], choice: &RuleChoice) -> Option<&'a Rule>
    ensures { option_map (λ r. r.now) result ≡ named_rule choice.now rules.now }
{
    rules.iter().find(|rule| choice.agrees(rule))
}

/// Returns the change if there is room for one more.
fn if_room(count: usize, most: usize, change: Change) -> Result<Change, Refusal>
    ensures { result ≡ if_room count most change }
{
    if count < most {
        Ok(change)
    } else {
        Err(Refusal::Full)
    }
}

/// Finds the change for `add` of a route.
fn route_addition(version: &Version, route: &Route) -> Result<Change, Refusal>
    ensures { result ≡ change_of version.now (Command.RouteAdd route.now) }
{
    let routes = version.tables();
    if routes.holds(&route.key()) {
        return Err(Refusal::Exists);
    }
    if_room(routes.len(), MOST_ROUTES, Change::RouteAdd(*route))
}

/// Finds the change for `change` of a route.
fn route_change(version: &Version, route: &Route) -> Result<Change, Refusal>
    ensures { result ≡ change_of version.now (Command.RouteChange route.now) }
{
    if version.tables().holds(&route.key()) {
        Ok(Change::Route(RouteEdit::Put(*route)))
    } else {
        Err(Refusal::NoSuch)
    }
}

/// Finds the change for `replace` of a route.
fn route_replacement(version: &Version, route: &Route) -> Result<Change, Refusal>
    ensures { result ≡ change_of version.now (Command.RouteReplace route.now) }
{
    let routes = version.tables();
    let change = Change::Route(RouteEdit::Put(*route));
    if routes.holds(&route.key()) {
        return Ok(change);
    }
    if_room(routes.len(), MOST_ROUTES, change)
}

/// Finds the change for `del` of a route.
fn route_removal(version: &Version, choice: &RouteChoice) -> Result<Change, Refusal>
    ensures { result ≡ change_of version.now (Command.RouteDel choice.now) }
{
    match version.tables().choose(choice) {
        Some(key) => Ok(Change::Route(RouteEdit::Remove(key))),
        None => Err(Refusal::NoSuch),
    }
}

/// Finds the change for `add` of a rule.
fn rule_addition(version: &Version, new: &NewRule) -> Result<Change, Refusal>
    ensures { result ≡ change_of version.now (Command.RuleAdd new.now) }
{
    let rules = version.rules();
    let rule = version.rule_of(new);
    if has_rule(rules, &rule) {
        return Err(Refusal::Exists);
    }
    if_room(rules.len(), MOST_RULES, Change::RulePut(rule))
}

/// Finds the change for `del` of a rule.
fn rule_removal(version: &Version, choice: &RuleChoice) -> Result<Change, Refusal>
    ensures { result ≡ change_of version.now (Command.RuleDel choice.now) }
{
    match named_rule(version.rules(), choice) {
        Some(rule) => Ok(Change::RuleDrop(rule.id)),
        None => Err(Refusal::NoSuch),
    }
}

/// Finds the change that the command asks for, if what is there allows it.
pub(crate) fn change_of(version: &Version, command: &Command) -> Result<Change, Refusal>
    ensures { result ≡ change_of version.now command.now }
{
    match command {
        Command::RouteAdd(route) => route_addition(version, route),
        Command::RouteChange(route) => route_change(version, route),
        Command::RouteReplace(route) => route_replacement(version, route),
        Command::RouteDel(choice) => route_removal(version, choice),
        Command::RouteFlush(selector) => Ok(Change::Route(RouteEdit::Flush(*selector))),
        Command::RuleAdd(new) => rule_addition(version, new),
        Command::RuleDel(choice) => rule_removal(version, choice),
        Command::RuleFlush => Ok(Change::RuleFlush),
    }
}
