//! Rules that decide no packet, routes that no packet gets, and what is reported of each.

use prt_route::Route;
use prt_rule::{Packet, Rule};
use prt_version::Verdict;

/// A packet, and what becomes of it.
#[derive(Clone, Copy)]
pub struct Example {
    /// The packet.
    pub packet: Packet,
    /// What becomes of it. It names the priority of the rule that decides, and the route, if there is one.
    pub verdict: Verdict,
}

/// What is reported of a rule that decides no packet.
#[derive(Clone, Copy)]
pub enum RuleReason {
    /// No packet matches it.
    MatchesNothing,
    /// It matches this packet. The verdict is what becomes of that.
    Matches(Example),
}

/// What is reported of a route that no packet gets.
#[derive(Clone, Copy)]
pub enum RouteReason {
    /// No rule looks up its table.
    NoRule,
    /// It is a throw route: a packet for which a lookup finds it goes on to the next rule.
    Throws,
    /// Rules look up its table, but none of them matches a packet to its prefix.
    Unmatched,
    /// A rule that looks up its table matches this packet, which is to its prefix. The verdict is what becomes of that.
    Reaches(Example),
}

/// A rule that decides no packet.
#[derive(Clone, Copy)]
pub struct UnusedRule {
    /// The rule.
    pub rule: Rule,
    /// What is reported of it.
    pub reason: RuleReason,
}

/// A route that no packet gets.
#[derive(Clone, Copy)]
pub struct UnusedRoute {
    /// The route.
    pub route: Route,
    /// What is reported of it.
    pub reason: RouteReason,
}

/// The rules that decide no packet, and the routes that no packet gets. Such a route can matter all the same: a throw route,
/// or one that a rule suppresses, ends the lookup in its table.
#[derive(Drop)]
pub struct Unused {
    /// The rules that decide no packet, in the order in which rules are tried.
    pub rules: Vec<UnusedRule>,
    /// The routes that no packet gets, in the order of listings.
    pub routes: Vec<UnusedRoute>,
}
