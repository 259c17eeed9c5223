//! The line of a value.
ghost use Rattle.std.specs.Prelude.{◌≡◌, ◌++◌, OnOk, option_map};
ghost use Rattle.json.specs.Value.{members_view, value_view};
ghost use Rattle.prt_import.specs.IpJson.Listing.{line, line_text, object_text, priority};

use super::member::push_members;
use super::naming::Naming;
use super::words::{UNSAID, is};
use json::Value;
use prt_listing::push_text;
use std::alloc::AllocError;

/// Returns the priority of a rule, if this member is one.
fn priority<'a>(name: &str, value: &Value<'a>) -> Option<&'a str>
    ensures { option_map (λ s. s.now) result ≡ priority name.now (value_view value.now) }
{
    match value {
        Value::Number(digits) if is(name, "priority") => Some(*digits),
        _ => None,
    }
}

/// Appends the line of an object, without its newline: of a rule, if it begins with a priority, and else of a route.
fn push_object(out: &mut Vec<u8>, members: &[(&str, Value<'_>)]) -> Result<(), AllocError>
    ensures { OnOk result (out.new.items ≡ out.old.items ++ object_text (members_view members.now)) }
{
    if members.is_empty() {
        return Ok(());
    }
    let Some(digits) = priority(members[0].0, &members[0].1) else {
        return push_members(out, Naming::Route, None, members);
    };
    push_text(out, digits)?;
    push_text(out, ":")?;
    push_members(out, Naming::Rule, Some(""), &members[1..])
}

/// Appends the line of a value, without its newline.
fn push_line_text(out: &mut Vec<u8>, value: &Value<'_>) -> Result<(), AllocError>
    ensures { OnOk result (out.new.items ≡ out.old.items ++ line_text (value_view value.now)) }
{
    match value {
        Value::Object(members) => push_object(out, members),
        _ => push_text(out, UNSAID),
    }
}

/// Appends the line of a value.
///
/// # Errors
///
/// Memory is refused; a part of the line may follow what `out` had.
pub(crate) fn push_line(out: &mut Vec<u8>, value: &Value<'_>) -> Result<(), AllocError>
    ensures { OnOk result (out.new.items ≡ out.old.items ++ line (value_view value.now)) }
{
    push_line_text(out, value)?;
    push_text(out, "\n")
}
