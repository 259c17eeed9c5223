ghost use Rattle.std.specs.Prelude.{◌≡◌};
ghost use Rattle.prt_rule.specs.Rule.{auto_priority, is_before};
ghost use Rattle.prt_rule.specs.Sound.{IsInOrder};

use crate::Rule;

/// Checks whether the rule is tried before the other: by priority (`ip-rule(8)`), and among equal priorities by id.
pub fn is_before(rule: &Rule, other: &Rule) -> bool
    ensures { result ≡ is_before rule.now other.now }
{
    rule.priority < other.priority || rule.priority == other.priority && rule.id < other.id
}

/// Computes the priority of a rule that is added without one, to rules in the order in which they are tried.
///
/// It is one less than that of the second rule, but at least 0, and 0 if there is no second rule (`ip-rule(8)`).
pub fn auto_priority(rules: &[Rule]) -> u32
    requires { IsInOrder rules.now }
    ensures { result ≡ auto_priority rules.now }
{
    match rules {
        [_, second, ..] => second.priority.saturating_sub(1),
        _ => 0,
    }
}
