//! The fields of a rule, as `ip -j rule show` names them.
ghost use Rattle.std.specs.Prelude.{◌≡◌, codes};
ghost use Rattle.prt_json.specs.Fields.{number_field, text_field};
ghost use Rattle.prt_json.specs.RuleJson.{action_field, dst_field, failure, fwmark_field, fwmask_field, not_field, rule_fields, shown_len};
ghost use Rattle.prt_json.specs.RuleJson.{shown_mark, src_field};
ghost use Rattle.prt_json.specs.Steps.{member_of, members_of};

use crate::field::{Field, Value, dev_field, table_value};
use prt_addr::{Addr, Prefix};
use prt_listing::is_everything;
use prt_rule::{Action, Mark, Rule};

/// Makes the field of an inverted rule.
fn not_field(inverted: bool) -> Option<Field>
    ensures { member_of result ≡ not_field inverted }
{
    if inverted {
        Some(Field("not", Value::Null))
    } else {
        None
    }
}

/// Makes the field of the sources: `all` for 0.0.0.0/0, else their first address.
fn src_field(from: &Prefix) -> Option<Field>
    ensures { member_of result ≡ src_field from.now }
{
    if is_everything(from) {
        Some(Field("src", Value::Name("all")))
    } else {
        Some(Field("src", Value::Addr(Addr(from.bits()))))
    }
}

/// Makes the field of the destinations' first address, except for 0.0.0.0/0.
fn dst_field(to: &Prefix) -> Option<Field>
    ensures { member_of result ≡ dst_field to.now }
{
    if is_everything(to) {
        return None;
    }
    Some(Field("dst", Value::Addr(Addr(to.bits()))))
}

/// Makes the field of the length of a prefix, except for that of one address and of 0.0.0.0/0.
fn len_field(name: &'static str, prefix: &Prefix) -> Option<Field>
    ensures { member_of result ≡ number_field name.now (shown_len prefix.now) }
{
    if is_everything(prefix) || prefix.len() == 32 {
        return None;
    }
    Some(Field(name, Value::Number(u64::from(prefix.len()))))
}

/// Returns the mark, except for 0/0.
fn shown_mark(mark: Option<Mark>) -> Option<Mark>
    ensures { result ≡ shown_mark mark }
{
    match mark {
        Some(Mark { mark: 0, mask: 0 }) => None,
        _ => mark,
    }
}

/// Makes the field of the mark, if it is shown.
fn fwmark_field(mark: Option<Mark>) -> Option<Field>
    ensures { member_of result ≡ fwmark_field mark }
{
    match shown_mark(mark) {
        Some(mark) => Some(Field("fwmark", Value::Hexadecimal(mark.mark))),
        None => None,
    }
}

/// Makes the field of the mask, unless every bit counts.
fn fwmask_field(mark: Option<Mark>) -> Option<Field>
    ensures { member_of result ≡ fwmask_field mark }
{
    match shown_mark(mark) {
        Some(mark) if mark.mask != u32::MAX => Some(Field("fwmask", Value::Hexadecimal(mark.mask))),
        _ => None,
    }
}

/// Makes a field of the word for a failure action; one that looks up a table has none.
pub(crate) fn failure_field(name: &'static str, action: Action) -> Option<Field>
    ensures { member_of result ≡ text_field name.now (failure action) }
{
    match action {
        Action::Lookup(_) => None,
        Action::Blackhole => Some(Field(name, Value::Name("blackhole"))),
        Action::Unreachable => Some(Field(name, Value::Name("unreachable"))),
        Action::Prohibit => Some(Field(name, Value::Name("prohibit"))),
    }
}

/// Makes the field of the table that is looked up, or of the failure action.
fn action_field(action: Action) -> Option<Field>
    ensures { member_of result ≡ action_field action }
{
    match action {
        Action::Lookup(table) => Some(Field("table", table_value(table))),
        _ => failure_field("action", action),
    }
}

/// Makes the field of the length up to which prefixes are suppressed, if some are.
fn suppress_field(suppress: Option<u8>) -> Option<Field>
    ensures { member_of result ≡ number_field (codes "suppress_prefixlen") suppress }
{
    match suppress {
        Some(len) => Some(Field("suppress_prefixlen", Value::Number(u64::from(len)))),
        None => None,
    }
}

/// Builds the fields of a rule in their order.
pub(crate) fn rule_fields(rule: &Rule) -> [Option<Field>; 11]
    ensures { members_of result ≡ rule_fields rule.now }
{
    [
        Some(Field("priority", Value::Number(u64::from(rule.priority)))),
        not_field(rule.inverted),
        src_field(&rule.from),
        len_field("srclen", &rule.from),
        dst_field(&rule.to),
        len_field("dstlen", &rule.to),
        fwmark_field(rule.mark),
        fwmask_field(rule.mark),
        dev_field("iif", rule.iif),
        action_field(rule.action),
        suppress_field(rule.suppress),
    ]
}
