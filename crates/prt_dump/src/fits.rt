//! What the types of rules and routes say of the numbers of each that is read.
ghost use Rattle.std.specs.Prelude.{All};
ghost use Rattle.prt_spelling.specs.Fits.{CommandFits};
ghost use Rattle.prt_dump.specs.Dump.{add_route, add_rule};

use prt_route::Route;
use prt_rule::Rule;

/// Recalls what the type of a rule says of its numbers. A rule that is passed as a value shows it, one behind a reference
/// doesn't.
fn recall_rule(rule: Rule)
    ensures { CommandFits (add_rule rule) }
{}

/// Recalls what the type of a route says of its numbers.
fn recall_route(route: Route)
    ensures { CommandFits (add_route route) }
{}

/// Recalls what the type of each rule says of its numbers.
pub(crate) fn recall_rules(rules: &[Rule])
    ensures { All (λ rule. CommandFits (add_rule rule)) rules.now }
{
    for rule in rules {
        recall_rule(*rule);
    }
}

/// Recalls what the type of each route says of its numbers.
pub(crate) fn recall_routes(routes: &[Route])
    ensures { All (λ route. CommandFits (add_route route)) routes.now }
{
    for route in routes {
        recall_route(*route);
    }
}
