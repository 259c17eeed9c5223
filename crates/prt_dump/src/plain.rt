//! Which rules and routes a line can express.
ghost use Rattle.std.specs.Prelude.{◌≡◌, IfErr, None, OnOk, not, position};
ghost use Rattle.prt_spelling.specs.Spelled.{is_spelled};
ghost use Rattle.prt_dump.specs.Dump.{add_route, add_rule};
ghost use Rattle.prt_dump.specs.PutBack.{IsWhyNot};

use crate::commands::{add_route, add_rule};
use crate::refusal::DumpError;
use prt_route::Route;
use prt_rule::Rule;
use prt_spelling::is_spelled;

/// Checks whether a line can add the rule.
fn is_spelled_rule(rule: &Rule) -> bool
    ensures { result ≡ is_spelled (add_rule rule.now) }
{
    is_spelled(&add_rule(rule))
}

/// Checks whether a line can add the route.
fn is_spelled_route(route: &Route) -> bool
    ensures { result ≡ is_spelled (add_route route.now) }
{
    is_spelled(&add_route(route))
}

/// Finds the place of the first rule that no line can express.
fn first_unplain_rule(rules: &[Rule]) -> Option<usize>
    ensures { result ≡ position (λ rule. not (is_spelled (add_rule rule))) rules.now }
{
    rules.iter().position(|rule| !is_spelled_rule(rule))
}

/// Finds the place of the first route that no line can express.
fn first_unplain_route(routes: &[Route]) -> Option<usize>
    ensures { result ≡ position (λ route. not (is_spelled (add_route route))) routes.now }
{
    routes.iter().position(|route| !is_spelled_route(route))
}

/// Looks for a rule, and then for a route, that no line can express.
///
/// # Errors
///
/// `Rule` or `Route` with the place of the first one.
pub(crate) fn find_unplain(rules: &[Rule], routes: &[Route]) -> Result<(), DumpError>
    ensures plain { OnOk result ((position (λ rule. not (is_spelled (add_rule rule))) rules.now ≡ None)
        × (position (λ route. not (is_spelled (add_route route))) routes.now ≡ None)) }
    ensures reason { IfErr result (λ reason. IsWhyNot (record { count = 0; rules = rules.now; routes = routes.now }) reason) }
{
    match first_unplain_rule(rules) {
        Some(place) => Err(DumpError::Rule(place)),
        None => match first_unplain_route(routes) {
            Some(place) => Err(DumpError::Route(place)),
            None => Ok(()),
        },
    }
}
