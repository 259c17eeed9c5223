//! Rows of rules and routes that come in any order: whether they are those of a state, and in its order.
ghost use Rattle.std.specs.Prelude.{◌≡◌, ◌≤◌, ◌↔◌, IfErr, IfOk, IsPermutation, IsTrue};
ghost use Rattle.std.specs.Bool.{OnTrue};
ghost use Rattle.std.specs.List.{IsDistinct, list_all};
ghost use Rattle.prt_addr.specs.Rising.{IsRising};
ghost use Rattle.prt_refusals.specs.declared.refusal.Refusal.TheVariants.{Damaged};
ghost use Rattle.prt_route.specs.Route.{is_listed_before};
ghost use Rattle.prt_route.specs.Storable.{is_storable_route};
ghost use Rattle.prt_rule.specs.Sound.{IsInOrder};
ghost use Rattle.prt_rule.specs.Same.{is_same_rule};
ghost use Rattle.prt_trie.specs.Table.{has_same_key};
ghost use Rattle.prt_version.specs.Content.{action_pair, content_cmp, iif_cmp, mark_cmp, mark_pair, selector_cmp};
ghost use Rattle.prt_version.specs.Ordered.{AreRoutes, AreRules, has_same_id, is_rule_of};

use crate::{Action, MOST_COMMANDS, MOST_ROUTES, MOST_RULES, Refusal, Route, Rule};
use prt_rule::{Dev, Mark, Prefix};
use std::cmp::Ordering;

/// Checks whether the rule may be one of a database that accepted this many commands.
fn is_rule_of(number: u64, rule: &Rule) -> bool
    requires { number ≤ MOST_COMMANDS }
    ensures { result ≡ is_rule_of number rule.now }
{
    rule.id > 0 && rule.id <= number + 3 && rule.is_storable()
}

/// Checks whether each of the rules may be one of such a database.
fn are_rules_of(number: u64, rules: &[Rule]) -> bool
    requires { number ≤ MOST_COMMANDS }
    ensures { result ≡ list_all (is_rule_of number) rules.now }
{
    rules.iter().all(|rule| is_rule_of(number, rule))
}

/// Checks whether a database may hold each of the routes.
fn are_storable_routes(routes: &[Route]) -> bool
    ensures { result ≡ list_all is_storable_route routes.now }
{
    routes.iter().all(|route| route.is_storable())
}

/// What prefixes are sorted by: the address, then the length.
fn prefix_pair(prefix: &Prefix) -> (u32, u8)
    ensures { result ≡ (prefix.now.bits, prefix.now.len) }
{
    (prefix.bits(), prefix.len())
}

/// What actions are sorted by: lookups come first, by their tables.
fn action_pair(action: &Action) -> (u8, u32)
    ensures { result ≡ action_pair action.now }
{
    match action {
        Action::Lookup(table) => (0, *table),
        Action::Blackhole => (1, 0),
        Action::Unreachable => (2, 0),
        Action::Prohibit => (3, 0),
    }
}

/// What marks are sorted by: the value, then the mask.
fn mark_pair(mark: Mark) -> (u32, u32)
    ensures { result ≡ mark_pair mark }
{
    (mark.mark, mark.mask)
}

/// The order of rules by their interfaces.
fn iif_cmp(rule: &Rule, other: &Rule) -> Ordering
    ensures { result ≡ iif_cmp rule.now other.now }
{
    let iif = rule.iif.as_ref().map(Dev::as_bytes);
    iif.cmp(&other.iif.as_ref().map(Dev::as_bytes))
}

/// The order of rules by their marks.
fn mark_cmp(rule: &Rule, other: &Rule) -> Ordering
    ensures { result ≡ mark_cmp rule.now other.now }
{
    rule.mark.map(mark_pair).cmp(&other.mark.map(mark_pair))
}

/// The order of rules by what they select.
fn selector_cmp(rule: &Rule, other: &Rule) -> Ordering
    ensures { result ≡ selector_cmp rule.now other.now }
{
    prefix_pair(&rule.from)
        .cmp(&prefix_pair(&other.from))
        .then(prefix_pair(&rule.to).cmp(&prefix_pair(&other.to)))
        .then(iif_cmp(rule, other))
        .then(mark_cmp(rule, other))
}

/// An order of rules by all but the id, which brings equal ones together.
fn content_cmp(rule: &Rule, other: &Rule) -> Ordering
    ensures { result ≡ content_cmp rule.now other.now }
{
    (rule.priority.cmp(&other.priority))
        .then(rule.inverted.cmp(&other.inverted))
        .then(selector_cmp(rule, other))
        .then(action_pair(&rule.action).cmp(&action_pair(&other.action)))
        .then(rule.suppress.cmp(&other.suppress))
}

/// Checks whether no two of the rules are the same except for their ids. Sorts them by all but the id.
fn are_unlike(rules: &mut Vec<Rule>) -> bool
    ensures moved { IsPermutation rules.old.items rules.new.items }
    ensures value { IsTrue result ↔ IsDistinct is_same_rule rules.new.items }
{
    rules.sort_unstable_by(content_cmp);
    rules.is_sorted_by(|rule, next| content_cmp(rule, next).is_lt())
}

/// Checks whether no two of the rules have the same id. Sorts them by their ids.
fn have_distinct_ids(rules: &mut Vec<Rule>) -> bool
    ensures moved { IsPermutation rules.old.items rules.new.items }
    ensures value { IsTrue result ↔ IsDistinct has_same_id rules.new.items }
{
    rules.sort_unstable_by_key(|rule| rule.id);
    rules.is_sorted_by(|rule, next| rule.id < next.id)
}

/// Sorts rules of distinct ids into the order in which they are tried.
fn sort_rules(rules: &mut Vec<Rule>)
    requires { IsDistinct has_same_id rules.old.items }
    ensures moved { IsPermutation rules.old.items rules.new.items }
    ensures order { IsInOrder rules.new.items }
{
    rules.sort_unstable_by_key(|rule| (rule.priority, rule.id));
}

/// The rules in the order in which they are tried, if a database that accepted this many commands may have them.
///
/// # Errors
///
/// `Damaged` otherwise.
pub(crate) fn ordered_rules(number: u64, mut rules: Vec<Rule>) -> Result<Vec<Rule>, Refusal>
    requires { number ≤ MOST_COMMANDS }
    ensures same { IfOk result (λ ordered. IsPermutation rules.items ordered.items) }
    ensures value { IfOk result (λ ordered. AreRules number ordered.items × IsInOrder ordered.items) }
    ensures reason { IfErr result (λ reason. (reason ≡ Damaged) × (AreRules number rules.items → ⊥)) }
{
    if rules.len() > MOST_RULES || !are_rules_of(number, &rules) {
        return Err(Refusal::Damaged);
    }
    if !are_unlike(&mut rules) || !have_distinct_ids(&mut rules) {
        return Err(Refusal::Damaged);
    }
    sort_rules(&mut rules);
    Ok(rules)
}

/// Checks whether no two of the routes have the same key. Sorts them in the order of listings.
fn have_distinct_keys(routes: &mut Vec<Route>) -> bool
    ensures moved { IsPermutation routes.old.items routes.new.items }
    ensures value { IsTrue result ↔ IsDistinct has_same_key routes.new.items }
    ensures order { OnTrue result (IsRising is_listed_before routes.new.items) }
{
    routes.sort_unstable_by_key(Route::listing_key);
    routes.is_sorted_by(|route, next| route.listing_key() < next.listing_key())
}

/// The routes in the order of listings, if a database may have them.
///
/// # Errors
///
/// `Damaged` otherwise.
#[tactic(auto, using(crate::proofs::FromRows::passed_routes, crate::proofs::FromRows::same_keys))]
pub(crate) fn ordered_routes(mut routes: Vec<Route>) -> Result<Vec<Route>, Refusal>
    ensures same { IfOk result (λ ordered. IsPermutation routes.items ordered.items) }
    ensures value { IfOk result (λ ordered. AreRoutes ordered.items × IsRising is_listed_before ordered.items) }
    ensures reason { IfErr result (λ reason. (reason ≡ Damaged) × (AreRoutes routes.items → ⊥)) }
{
    if routes.len() > MOST_ROUTES || !are_storable_routes(&routes) {
        return Err(Refusal::Damaged);
    }
    if !have_distinct_keys(&mut routes) {
        return Err(Refusal::Damaged);
    }
    Ok(routes)
}
