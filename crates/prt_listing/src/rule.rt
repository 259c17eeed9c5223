ghost use Rattle.std.specs.Prelude.{◌≡◌, ◌++◌, IsOkUnless, OnErr, OnOk, codes, decimal, map, option_map};
ghost use Rattle.prt_refusals.specs.declared.refusal.Refusal.TheVariants.{NoMemory};
ghost use Rattle.prt_listing.specs.Keeps.{Keeps};
ghost use Rattle.prt_listing.specs.Parts.{part};
ghost use Rattle.prt_listing.specs.RuleText.{action_text, mark_part, not_part, rule_parts, rule_text, to_part};
ghost use Rattle.prt_listing.specs.Steps.{part_of, part_text};

use crate::part::{Part, Value, dev_part, is_everything, prefix_or, table_value};
use crate::push::{push_number, push_parts, push_text, whole_or_nothing};
use prt_addr::Prefix;
use prt_refusals::Refusal;
use prt_rule::{Action, Mark, Rule};
use std::alloc::AllocError;

/// Returns the word of an inverted rule.
pub fn not_part(inverted: bool) -> Option<Part>
    ensures { part_of result ≡ not_part inverted }
{
    if inverted {
        Some(Part::Alone(Value::Text("not")))
    } else {
        None
    }
}

/// Returns the destinations, unless they are all.
fn to_part(to: &Prefix) -> Option<Part>
    ensures { part_of result ≡ to_part to.now }
{
    if is_everything(to) {
        None
    } else {
        Some(Part::Named("to", Value::Prefix(*to)))
    }
}

/// Returns the mark, if there is one.
pub fn mark_part(mark: Option<Mark>) -> Option<Part>
    ensures { part_of result ≡ mark_part mark }
{
    mark.map(|mark| Part::Named("fwmark", Value::Mark(mark)))
}

/// Says what an action does.
pub fn action_part(action: Action) -> Part
    ensures { part_text result ≡ action_text action }
{
    match action {
        Action::Lookup(table) => Part::Named("lookup", table_value(table)),
        Action::Blackhole => Part::Alone(Value::Text("blackhole")),
        Action::Unreachable => Part::Alone(Value::Text("unreachable")),
        Action::Prohibit => Part::Alone(Value::Text("prohibit")),
    }
}

/// Returns the length up to which prefixes are suppressed, if some are.
pub fn suppress_part(suppress: Option<u8>) -> Option<Part>
    ensures { part_of result ≡ part (codes "suppress_prefixlength") (option_map decimal suppress) }
{
    suppress.map(|len| Part::Named("suppress_prefixlength", Value::Number(u64::from(len))))
}

/// Builds the parts of a rule after its priority, in their order.
fn rule_parts(rule: &Rule) -> [Option<Part>; 7]
    ensures { map part_of result ≡ rule_parts rule.now }
{
    [
        not_part(rule.inverted),
        Some(Part::Named("from", prefix_or("all", &rule.from))),
        to_part(&rule.to),
        mark_part(rule.mark),
        dev_part("iif", rule.iif),
        Some(action_part(rule.action)),
        suppress_part(rule.suppress),
    ]
}

/// Appends a rule.
///
/// # Errors
///
/// Memory is refused; a part of the text may follow what `out` had.
pub(crate) fn push_rule(out: &mut Vec<u8>, rule: &Rule) -> Result<(), AllocError>
    ensures ok { OnOk result (out.new.items ≡ out.old.items ++ rule_text rule.now) }
    ensures err { OnErr result (Keeps out.old.items out.new.items) }
{
    push_number(out, u64::from(rule.priority))?;
    push_text(out, ":\t")?;
    push_parts(out, &rule_parts(rule))
}

/// Appends a rule in the form of `ip-rule(8)`, without what is implied.
///
/// # Errors
///
/// `NoMemory` if memory is refused; `out` is as it was.
pub fn rule_text(out: &mut Vec<u8>, rule: &Rule) -> Result<(), Refusal>
    ensures ok { OnOk result (out.new.items ≡ out.old.items ++ rule_text rule.now) }
    ensures err { OnErr result (out.new.items ≡ out.old.items) }
    ensures reason { IsOkUnless result NoMemory }
{
    let len = out.len();
    let pushed = push_rule(out, rule);
    whole_or_nothing(out, len, pushed)
}
