//! Values, fields and objects, written token by token.
ghost use Rattle.std.specs.Prelude.{◌≡◌, ◌∷◌, ◌++◌, OnOk};
ghost use Rattle.std.specs.Str.Lossy.{utf8_lossy};
ghost use Rattle.prt_listing.specs.Steps.{part_text};
ghost use Rattle.json.specs.Json.{array, no_items, string};
ghost use Rattle.json.specs.Token.{key as key_token};
ghost use Rattle.json.specs.Tree.{json_tokens};
ghost use Rattle.prt_json.specs.Fields.{object_of};
ghost use Rattle.prt_json.specs.RuleJson.{hexadecimal};
ghost use Rattle.prt_json.specs.Steps.{fields_tokens, members_of, value_json};

use crate::field::{Field, Value};
use json::Writer;
use prt_addr::{addr_text, prefix_text};
use prt_listing::{Part, push_part};
use std::alloc::{AllocError, Global};

/// Writes an array without values.
fn push_empty(out: &mut Writer) -> Result<(), AllocError>
    ensures ok { OnOk result (out.new.tokens ≡ out.old.tokens ++ json_tokens (array no_items)) }
    ensures before { out.new.before ≡ out.old.before }
{
    out.begin_array()?;
    out.end_array()
}

/// Writes a number in hexadecimal digits, as a string.
fn push_hexadecimal(out: &mut Writer, alloc: Global, number: u32) -> Result<(), AllocError>
    ensures ok { OnOk result (out.new.tokens ≡ out.old.tokens ++ json_tokens (string (hexadecimal number))) }
    ensures before { out.new.before ≡ out.old.before }
{
    if number == 0 {
        return out.string("0");
    }
    let text = format!(in alloc; "0x{number:x}")?;
    out.string(text.as_str())
}

/// Writes bytes as a string. U+FFFD is written for what is no UTF-8 in them.
fn push_lossy(out: &mut Writer, alloc: Global, bytes: &[u8]) -> Result<(), AllocError>
    ensures ok { OnOk result (out.new.tokens ≡ out.old.tokens ++ json_tokens (string (utf8_lossy bytes.now))) }
    ensures before { out.new.before ≡ out.old.before }
{
    let text = String::from_utf8_lossy(alloc, bytes)?;
    out.string(text.as_str())
}

/// Writes a part of a text, as a string.
fn push_part_text(out: &mut Writer, alloc: Global, part: &Part) -> Result<(), AllocError>
    ensures ok { OnOk result (out.new.tokens ≡ out.old.tokens ++ json_tokens (string (utf8_lossy (part_text part.now)))) }
    ensures before { out.new.before ≡ out.old.before }
{
    let mut text = Vec::new(alloc);
    push_part(&mut text, part)?;
    push_lossy(out, alloc, &text)
}

/// Writes a value.
fn push_value(out: &mut Writer, alloc: Global, value: &Value) -> Result<(), AllocError>
    ensures ok { OnOk result (out.new.tokens ≡ out.old.tokens ++ json_tokens (value_json value.now)) }
    ensures before { out.new.before ≡ out.old.before }
{
    match value {
        Value::Null => out.null(),
        Value::Empty => push_empty(out),
        Value::Truth(is_true) => out.boolean(*is_true),
        Value::Number(number) => out.u64(*number),
        Value::Name(name) => out.string(name),
        Value::Digits(number) => out.quoted_u64(u64::from(*number)),
        Value::Hexadecimal(number) => push_hexadecimal(out, alloc, *number),
        Value::Addr(addr) => out.string(addr_text(*addr).as_str()),
        Value::Prefix(prefix) => out.string(prefix_text(prefix).as_str()),
        Value::Dev(dev) => push_lossy(out, alloc, dev.as_bytes()),
        Value::Part(part) => push_part_text(out, alloc, part),
    }
}

/// Writes a field.
fn push_field(out: &mut Writer, alloc: Global, field: &Field) -> Result<(), AllocError>
    ensures ok { OnOk result (out.new.tokens ≡ out.old.tokens ++ key_token field.now.0.now ∷ json_tokens (value_json field.now.1)) }
    ensures before { out.new.before ≡ out.old.before }
{
    out.key(field.0)?;
    push_value(out, alloc, &field.1)
}

/// Writes the fields that are there.
pub(crate) fn push_fields(
    out: &mut Writer,
    alloc: Global,
    fields: &[Option<Field>],
) -> Result<(), AllocError>
    ensures ok { OnOk result (out.new.tokens ≡ out.old.tokens ++ fields_tokens (members_of fields.now)) }
    ensures before { out.new.before ≡ out.old.before }
{
    for field in fields {
        if let Some(field) = field {
            push_field(out, alloc, field)?;
        }
    }
    Ok(())
}

/// Writes the object of the fields that are there.
pub(crate) fn push_object(
    out: &mut Writer,
    alloc: Global,
    fields: &[Option<Field>],
) -> Result<(), AllocError>
    ensures ok { OnOk result (out.new.tokens ≡ out.old.tokens ++ json_tokens (object_of (members_of fields.now))) }
    ensures before { out.new.before ≡ out.old.before }
{
    out.begin_object()?;
    push_fields(out, alloc, fields)?;
    out.end_object()
}
