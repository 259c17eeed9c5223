//! Which rules are the same.
ghost use Rattle.std.specs.Prelude.{◌≡◌};
ghost use Rattle.prt_rule.specs.Same.{is_same_rule, is_same_selector};

use crate::Rule;

/// Checks whether the rules are equal in all but their ids.
pub fn same(rule: &Rule, other: &Rule) -> bool
    ensures { result ≡ is_same_rule rule.now other.now }
{
    rule.priority == other.priority
        && rule.inverted == other.inverted
        && is_same_selector(rule, other)
        && rule.action == other.action
        && rule.suppress == other.suppress
}

/// Checks whether the rules select by the same sources, destinations, interface and mark.
fn is_same_selector(rule: &Rule, other: &Rule) -> bool
    ensures { result ≡ is_same_selector rule.now other.now }
{
    rule.from == other.from
        && rule.to == other.to
        && rule.iif == other.iif
        && rule.mark == other.mark
}
