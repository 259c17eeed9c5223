//! What a verdict means for a packet, and when two verdicts are the same.
ghost use Rattle.std.specs.Prelude.{◌≡◌};
ghost use Rattle.prt_partition.specs.Sameness.{are_same, is_same_outcome, is_same_route, is_same_verdict, kind_of, outcome_of};

use prt_route::{Addr, Dev, Kind, Route};
use prt_rule::Action;
use prt_version::Verdict;

/// What a verdict means for the packet, whichever rule and route it comes from.
#[derive(Clone, Copy, Debug, PartialEq, Eq)]
pub struct Outcome {
    /// The kind of the route, or what the rule does with the packet; `None` if no rule decides.
    pub kind: Option<Kind>,
    /// The gateway.
    pub via: Option<Addr>,
    /// The interface to send through.
    pub dev: Option<Dev>,
    /// The source address to prefer.
    pub src: Option<Addr>,
}

/// Which verdicts count as the same.
#[derive(Clone, Copy, Debug, PartialEq, Eq)]
pub enum Sameness {
    /// Those with one outcome: they can differ in the rule, and in the route's table, prefix, metric, protocol and scope.
    Outcomes,
    /// Those that are equal in every part.
    Verdicts,
}

/// Returns what an action other than a lookup does with a packet, as a kind of routes.
fn kind_of(action: Action) -> Option<Kind>
    ensures { result ≡ kind_of action }
{
    match action {
        Action::Blackhole => Some(Kind::Blackhole),
        Action::Unreachable => Some(Kind::Unreachable),
        Action::Prohibit => Some(Kind::Prohibit),
        Action::Lookup(_) => None,
    }
}

/// Returns what the verdict means for the packet.
pub fn outcome_of(verdict: &Verdict) -> Outcome
    ensures { result ≡ outcome_of verdict.now }
{
    match verdict {
        Verdict::Route(_, route) => Outcome {
            kind: Some(route.kind),
            via: route.via,
            dev: route.dev,
            src: route.src,
        },
        Verdict::RuleSays(_, action) => Outcome {
            kind: kind_of(*action),
            via: None,
            dev: None,
            src: None,
        },
        Verdict::NoRoute => Outcome {
            kind: None,
            via: None,
            dev: None,
            src: None,
        },
    }
}

/// Checks whether the outcomes are equal in every part.
fn is_same_outcome(outcome: &Outcome, other: &Outcome) -> bool
    ensures { result ≡ is_same_outcome outcome.now other.now }
{
    outcome.kind == other.kind
        && outcome.via == other.via
        && outcome.dev == other.dev
        && outcome.src == other.src
}

/// Checks whether the routes are equal in every part.
pub(crate) fn is_same_route(route: &Route, other: &Route) -> bool
    ensures { result ≡ is_same_route route.now other.now }
{
    route.key() == other.key()
        && route.kind == other.kind
        && route.via == other.via
        && route.dev == other.dev
        && route.src == other.src
        && route.proto == other.proto
        && route.scope == other.scope
}

/// Checks whether the verdicts are equal in every part.
pub fn is_same_verdict(verdict: &Verdict, other: &Verdict) -> bool
    ensures { result ≡ is_same_verdict verdict.now other.now }
{
    match (verdict, other) {
        (Verdict::Route(priority, route), Verdict::Route(other_priority, other)) => {
            priority == other_priority && is_same_route(route, other)
        }
        (Verdict::RuleSays(priority, action), Verdict::RuleSays(other_priority, other)) => {
            priority == other_priority && action == other
        }
        (Verdict::NoRoute, Verdict::NoRoute) => true,
        _ => false,
    }
}

/// Checks whether the verdicts count as the same.
pub(crate) fn are_same(sameness: Sameness, verdict: &Verdict, other: &Verdict) -> bool
    ensures { result ≡ are_same sameness verdict.now other.now }
{
    match sameness {
        Sameness::Outcomes => is_same_outcome(&outcome_of(verdict), &outcome_of(other)),
        Sameness::Verdicts => is_same_verdict(verdict, other),
    }
}
