//! The commands that change rules and routes.
ghost use Rattle.std.specs.Prelude.{◌≡◌};
ghost use Rattle.prt_diff.specs.Routes.{choice_of, delete_route, named_metric, replace_route};
ghost use Rattle.prt_diff.specs.Rules.{add_rule, delete_rule, new_rule, whole_choice};

use prt_command::{Command, NewRule};
use prt_route::{Route, RouteChoice};
use prt_rule::{Rule, RuleChoice};

/// Chooses the rule by all that it has.
fn whole_choice(rule: &Rule) -> RuleChoice
    ensures { result ≡ whole_choice rule.now }
{
    RuleChoice {
        priority: Some(rule.priority),
        inverted: rule.inverted,
        from: Some(rule.from),
        to: Some(rule.to),
        iif: rule.iif,
        mark: rule.mark,
        action: Some(rule.action),
        suppress: rule.suppress,
    }
}

/// Builds the command that deletes the rule.
pub(crate) fn delete_rule(rule: &Rule) -> Command
    ensures { result ≡ delete_rule rule.now }
{
    Command::RuleDel(whole_choice(rule))
}

/// Converts the rule into one to be added.
fn new_rule(rule: &Rule) -> NewRule
    ensures { result ≡ new_rule rule.now }
{
    NewRule {
        priority: Some(rule.priority),
        inverted: rule.inverted,
        from: rule.from,
        to: rule.to,
        iif: rule.iif,
        mark: rule.mark,
        action: rule.action,
        suppress: rule.suppress,
    }
}

/// Builds the command that adds the rule.
pub(crate) fn add_rule(rule: &Rule) -> Command
    ensures { result ≡ add_rule rule.now }
{
    Command::RuleAdd(new_rule(rule))
}

/// Returns the metric as a line names it, or `None` if it is 0.
fn named_metric(metric: u32) -> Option<u32>
    ensures { result ≡ named_metric metric }
{
    if metric == 0 { None } else { Some(metric) }
}

/// Chooses the route of this one's key.
fn choice_of(route: &Route) -> RouteChoice
    ensures { result ≡ choice_of route.now }
{
    RouteChoice {
        table: route.table,
        prefix: route.prefix,
        metric: named_metric(route.metric),
        kind: None,
        via: None,
        dev: None,
        src: None,
        proto: None,
        scope: None,
    }
}

/// Builds the command that deletes the route of this one's key.
pub(crate) fn delete_route(route: &Route) -> Command
    ensures { result ≡ delete_route route.now }
{
    Command::RouteDel(choice_of(route))
}

/// Builds the command that puts the route in the place of the one of its key.
pub(crate) fn replace_route(route: &Route) -> Command
    ensures { result ≡ replace_route route.now }
{
    Command::RouteReplace(*route)
}
