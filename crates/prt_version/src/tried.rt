//! Which rules are tried for packets: the others look up tables with no routes.
ghost use Rattle.std.specs.Prelude.{◌≡◌, ℕ, ◌<◌, ◌≤◌, List, length, slice_index_or, true};
ghost use Rattle.prt_route.specs.declared.route.Route.{Route};
ghost use Rattle.prt_version.specs.Tried.{AreTried, SaysNothing};

use crate::tables::Tables;
use crate::{Action, Rule};

/// The places of the rules that are tried, from one on and up to another.
#[derive(Clone, Copy)]
pub(crate) struct Tried {
    pub(crate) from: usize,
    pub(crate) to: usize,
}

/// Checks whether a rule looks up a table with no routes, and so says nothing of any packet.
#[tactic(auto, using(crate::proofs::Silent::says_nothing))]
fn looks_up_nothing(rule: &Rule, routes: &Tables) -> bool
    ensures { result ≡ true → SaysNothing rule.now routes.now }
{
    match rule.action {
        Action::Lookup(table) => routes.lacks(table),
        _ => false,
    }
}

/// Finds the place of the first rule that does not look up a table with no routes.
#[tactic(auto, using(crate::proofs::Silent::front_more))]
fn first_tried(rules: &[Rule], routes: &Tables) -> usize
    ensures within { result ≤ length rules.now }
    ensures silent { (k : ℕ) (d : Rule) → k < result → SaysNothing (slice_index_or rules.now k d) routes.now }
{
    let mut from = 0;
    while from < rules.len() && looks_up_nothing(&rules[from], routes) {
        from += 1;
    }
    from
}

/// Finds the place behind the last rule, from a place on, that does not look up a table with no routes.
#[tactic(auto, using(crate::proofs::Silent::end_more))]
fn last_tried(rules: &[Rule], from: usize, routes: &Tables) -> usize
    requires { from ≤ length rules.now }
    ensures from { from ≤ result }
    ensures within { result ≤ length rules.now }
    ensures silent { (k : ℕ) (d : Rule) → result ≤ k → k < length rules.now → SaysNothing (slice_index_or rules.now k d) routes.now }
{
    let mut to = rules.len();
    while to > from && looks_up_nothing(&rules[to - 1], routes) {
        to -= 1;
    }
    to
}

impl Tried {
    /// Tries all rules.
    pub(crate) fn all(rules: &[Rule]) -> Tried
        ensures { (routes : List Route) → AreTried rules.now routes result }
    {
        Tried {
            from: 0,
            to: rules.len(),
        }
    }

    /// Leaves out the first rules and the last that look up tables with no routes.
    pub(crate) fn among(rules: &[Rule], routes: &Tables) -> Tried
        ensures { AreTried rules.now routes.now result }
    {
        let from = first_tried(rules, routes);
        Tried {
            from,
            to: last_tried(rules, from, routes),
        }
    }
}
