//! What the types of commands say of the numbers of one that is read.
ghost use Rattle.prt_spelling.specs.Fits.{CommandFits, NewRuleFits, RouteChoiceFits, RouteFits, RuleChoiceFits, SelectorFits};

use prt_command::{Command, NewRule};
use prt_route::{Route, RouteChoice, Selector};
use prt_rule::RuleChoice;

// A value that is passed shows what its type says of its numbers, one behind a reference doesn't.

/// Recalls what the type of a route says of its numbers.
fn recall_route(route: Route)
    ensures { RouteFits route }
{}

/// Recalls what the type of a choice of routes says of its numbers.
fn recall_route_choice(choice: RouteChoice)
    ensures { RouteChoiceFits choice }
{}

/// Recalls what the type of a selector says of its numbers.
fn recall_selector(selector: Selector)
    ensures { SelectorFits selector }
{}

/// Recalls what the type of a new rule says of its numbers.
fn recall_new_rule(rule: NewRule)
    ensures { NewRuleFits rule }
{}

/// Recalls what the type of a choice of rules says of its numbers.
fn recall_rule_choice(choice: RuleChoice)
    ensures { RuleChoiceFits choice }
{}

/// Recalls what the type of the command says of its numbers.
pub fn recall_command(command: &Command)
    ensures { CommandFits command.now }
{
    match command {
        Command::RouteAdd(route) | Command::RouteChange(route) | Command::RouteReplace(route) => {
            recall_route(*route);
        }
        Command::RouteDel(choice) => recall_route_choice(*choice),
        Command::RouteFlush(selector) => recall_selector(*selector),
        Command::RuleAdd(rule) => recall_new_rule(*rule),
        Command::RuleDel(choice) => recall_rule_choice(*choice),
        Command::RuleFlush => (),
    }
}
