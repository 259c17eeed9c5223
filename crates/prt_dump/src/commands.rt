//! The commands of a dump.
ghost use Rattle.std.specs.Prelude.{◌≡◌};
ghost use Rattle.prt_dump.specs.Dump.{add_route, add_rule, first_rule, new_rule};

use prt_command::{Command, NewRule};
use prt_route::Route;
use prt_rule::{Rule, RuleChoice};

/// Chooses the rule of the lowest priority.
pub(crate) fn first_rule() -> RuleChoice
    ensures { result ≡ first_rule }
{
    RuleChoice {
        priority: Some(0),
        inverted: false,
        from: None,
        to: None,
        iif: None,
        mark: None,
        action: None,
        suppress: None,
    }
}

/// Converts the rule into one to be added.
fn new_rule(rule: &Rule) -> NewRule
    ensures { result ≡ new_rule rule.now }
{
    NewRule {
        priority: Some(rule.priority),
        inverted: rule.inverted,
        from: rule.from,
        to: rule.to,
        iif: rule.iif,
        mark: rule.mark,
        action: rule.action,
        suppress: rule.suppress,
    }
}

/// Builds the command that adds the rule.
pub(crate) fn add_rule(rule: &Rule) -> Command
    ensures { result ≡ add_rule rule.now }
{
    Command::RuleAdd(new_rule(rule))
}

/// Builds the command that adds the route.
pub(crate) fn add_route(route: &Route) -> Command
    ensures { result ≡ add_route route.now }
{
    Command::RouteAdd(*route)
}
