//! The lengths up to which rules suppress prefixes, merged into the rules.

ghost use Rattle.std.specs.Prelude.{◌≡◌, ◌≢◌, ◌⊎◌, [], IfErr, IfOk};
ghost use Rattle.prt_refusals.specs.declared.refusal.Refusal.TheVariants.{Damaged, NoMemory};
ghost use Rattle.prt_store.specs.Lengths.{left_over, merge_one, merged};

use prt_refusals::Refusal;
use prt_rows::RuleLength;
use prt_rule::Rule;
use std::alloc::Global;

/// Merges the rule with the first of the lengths, if that is its own, and returns it with the lengths that are left.
fn merge_one<'a>(rule: &Rule, lengths: &'a [RuleLength]) -> (Rule, &'a [RuleLength])
    ensures rule { result.0 ≡ (merge_one rule.now lengths.now).0 }
    ensures left { result.1.now ≡ (merge_one rule.now lengths.now).1 }
{
    let Some((first, rest)) = lengths.split_first() else {
        return (*rule, lengths);
    };
    if first.rule != rule.id {
        return (*rule, lengths);
    }
    let mut merged = *rule;
    merged.suppress = Some(first.len);
    (merged, rest)
}

/// Builds the rules, each with its own of the lengths. Rules and lengths rise by the ids of the rules.
///
/// # Errors
///
/// `Damaged` only if a length is left that is of none of the rules; `NoMemory`.
pub(crate) fn merge(
    alloc: Global,
    rules: &[Rule],
    lengths: &[RuleLength],
) -> Result<Vec<Rule>, Refusal>
    ensures ok { IfOk result (λ all. (all.items ≡ merged rules.now lengths.now) × (left_over rules.now lengths.now ≡ [])) }
    ensures err { IfErr result (λ reason. ((reason ≡ Damaged) × (left_over rules.now lengths.now ≢ [])) ⊎ (reason ≡ NoMemory)) }
{
    let mut all = Vec::new(alloc);
    let mut left = lengths;
    for rule in rules {
        let (own, rest) = merge_one(rule, left);
        all.push(own)?;
        left = rest;
    }
    if left.is_empty() {
        Ok(all)
    } else {
        Err(Refusal::Damaged)
    }
}
