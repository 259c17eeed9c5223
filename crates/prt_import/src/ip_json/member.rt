//! Members and values of a line.
ghost use Rattle.std.specs.Prelude.{◌≡◌, ◌++◌, OnOk, option_map};
ghost use Rattle.json.specs.Value.{items_view, members_view, value_view};
ghost use Rattle.prt_import.specs.IpJson.Listing.{item_text, items_text, joinable, member_text, members_text, truth};

use super::naming::{Naming, push_label, push_null, push_opening};
use super::words::{UNSAID_NEXT, push_next_word, push_word};
use json::Value;
use prt_listing::push_text;
use std::alloc::AllocError;

/// Appends a truth value, after a space.
fn push_truth(out: &mut Vec<u8>, is_true: bool) -> Result<(), AllocError>
    ensures { OnOk result (out.new.items ≡ out.old.items ++ truth is_true) }
{
    push_text(out, if is_true { " true" } else { " false" })
}

/// Returns the name of a member to whose value the next one may be joined, or the empty text.
fn joinable<'n>(name: &'n str, value: &Value<'_>) -> &'n str
    ensures { result.now ≡ joinable name.now (value_view value.now) }
{
    match value {
        Value::Number(_) | Value::String(_) => name,
        _ => "",
    }
}

/// Appends a member that follows one of this name, or that begins a line.
#[cycle(member)]
fn push_member(
    out: &mut Vec<u8>,
    naming: Naming,
    previous: Option<&str>,
    name: &str,
    value: &Value<'_>,
) -> Result<(), AllocError>
    ensures { OnOk result (out.new.items ≡ out.old.items ++ member_text naming (option_map (λ s. s.now) previous.entry) name.now (value_view value.now)) }
{
    match value {
        Value::Null => push_null(out, naming, name),
        Value::Bool(is_true) => {
            push_label(out, naming, name)?;
            push_truth(out, *is_true)
        }
        Value::Number(text) => {
            push_opening(out, naming, previous, name)?;
            push_text(out, text)
        }
        Value::String(text) => {
            push_opening(out, naming, previous, name)?;
            push_word(out, text)
        }
        Value::Array(items) => {
            push_label(out, naming, name)?;
            push_items(out, naming.inside(name), naming.item_start(name), items)?;
            push_text(out, naming.item_end(name))
        }
        Value::Object(members) => {
            push_label(out, naming, name)?;
            push_members(out, naming.inside(name), Some(""), members)?;
            push_text(out, naming.item_end(name))
        }
    }
}

/// Appends members, the first of which follows one of this name or begins a line.
///
/// # Errors
///
/// Memory is refused; some of them may follow what `out` had.
#[cycle(member)]
pub(crate) fn push_members(
    out: &mut Vec<u8>,
    naming: Naming,
    previous: Option<&str>,
    members: &[(&str, Value<'_>)],
) -> Result<(), AllocError>
    ensures { OnOk result (out.new.items ≡ out.old.items ++ members_text naming (option_map (λ s. s.now) previous.entry) (members_view members.now)) }
{
    let mut last = previous;
    for member in members {
        push_member(out, naming, last, member.0, &member.1)?;
        last = Some(joinable(member.0, &member.1));
    }
    Ok(())
}

/// Appends a value of an array.
#[cycle(member)]
fn push_item(out: &mut Vec<u8>, naming: Naming, value: &Value<'_>) -> Result<(), AllocError>
    ensures { OnOk result (out.new.items ≡ out.old.items ++ item_text naming (value_view value.now)) }
{
    match value {
        Value::Null => push_text(out, UNSAID_NEXT),
        Value::Bool(is_true) => push_truth(out, *is_true),
        Value::Number(text) => {
            push_text(out, " ")?;
            push_text(out, text)
        }
        Value::String(text) => push_next_word(out, text),
        Value::Array(items) => {
            push_items(out, naming, "", items)?;
            push_text(out, UNSAID_NEXT)
        }
        Value::Object(members) => push_members(out, naming, Some(""), members),
    }
}

/// Appends the values of an array, each after this text.
#[cycle(member)]
fn push_items(
    out: &mut Vec<u8>,
    naming: Naming,
    start: &str,
    items: &[Value<'_>],
) -> Result<(), AllocError>
    ensures { OnOk result (out.new.items ≡ out.old.items ++ items_text naming start.now (items_view items.now)) }
{
    for item in items {
        push_text(out, start)?;
        push_item(out, naming, item)?;
    }
    Ok(())
}
