ghost use Rattle.std.specs.Prelude.{◌≡◌, ◌++◌, ◌↔◌, IsOk, IsOkUnless, OnErr, OnOk, decimal, map, take};
ghost use Rattle.prt_refusals.specs.declared.refusal.Refusal.TheVariants.{NoMemory};
ghost use Rattle.prt_listing.specs.Keeps.{Keeps};
ghost use Rattle.prt_listing.specs.Parts.{hex_text, mark_text, spaced};
ghost use Rattle.prt_listing.specs.Steps.{part_of, part_text, value_text};

use crate::hexadecimal::{MOST_DIGITS, write_hexadecimal};
use crate::part::{Part, Value};
use itoa::Buffer;
use prt_addr::{addr_text, prefix_text};
use prt_refusals::Refusal;
use prt_rule::Mark;
use std::alloc::AllocError;

/// Appends a text.
///
/// # Errors
///
/// Memory is refused; a part of the text may follow what `out` had.
pub fn push_text(out: &mut Vec<u8>, text: &str) -> Result<(), AllocError>
    ensures ok { OnOk result (out.new.items ≡ out.old.items ++ text.now) }
    ensures err { OnErr result (Keeps out.old.items out.new.items) }
{
    out.extend_from_slice(text.as_bytes())
}

/// Appends a number in decimal digits.
///
/// # Errors
///
/// Memory is refused; a part of the text may follow what `out` had.
pub(crate) fn push_number(out: &mut Vec<u8>, number: u64) -> Result<(), AllocError>
    ensures ok { OnOk result (out.new.items ≡ out.old.items ++ decimal number) }
    ensures err { OnErr result (Keeps out.old.items out.new.items) }
{
    push_text(out, Buffer::new().format(number))
}

/// Appends `0x` and a number in hexadecimal digits.
fn push_hexadecimal(out: &mut Vec<u8>, number: u32) -> Result<(), AllocError>
    ensures ok { OnOk result (out.new.items ≡ out.old.items ++ hex_text number) }
    ensures err { OnErr result (Keeps out.old.items out.new.items) }
{
    let mut digits = [b'0'; MOST_DIGITS];
    let start = write_hexadecimal(number, &mut digits);
    push_text(out, "0x")?;
    out.extend_from_slice(&digits[start..])
}

/// Appends a mark and, if not every bit of it counts, its mask.
fn push_mark(out: &mut Vec<u8>, mark: Mark) -> Result<(), AllocError>
    ensures ok { OnOk result (out.new.items ≡ out.old.items ++ mark_text mark) }
    ensures err { OnErr result (Keeps out.old.items out.new.items) }
{
    push_hexadecimal(out, mark.mark)?;
    if mark.mask != u32::MAX {
        push_text(out, "/")?;
        push_hexadecimal(out, mark.mask)?;
    }
    Ok(())
}

/// Appends a value.
fn push_value(out: &mut Vec<u8>, value: &Value) -> Result<(), AllocError>
    ensures ok { OnOk result (out.new.items ≡ out.old.items ++ value_text value.now) }
    ensures err { OnErr result (Keeps out.old.items out.new.items) }
{
    match value {
        Value::Text(text) => push_text(out, text),
        Value::Number(number) => push_number(out, *number),
        Value::Mark(mark) => push_mark(out, *mark),
        Value::Addr(addr) => push_text(out, addr_text(*addr).as_str()),
        Value::Prefix(prefix) => push_text(out, prefix_text(prefix).as_str()),
        Value::Dev(dev) => out.extend_from_slice(dev.as_bytes()),
    }
}

/// Appends a part.
///
/// # Errors
///
/// Memory is refused; a piece of the part may follow what `out` had.
pub fn push_part(out: &mut Vec<u8>, part: &Part) -> Result<(), AllocError>
    ensures ok { OnOk result (out.new.items ≡ out.old.items ++ part_text part.now) }
    ensures err { OnErr result (Keeps out.old.items out.new.items) }
{
    match part {
        Part::Alone(value) => push_value(out, value),
        Part::Named(word, value) => {
            push_text(out, word)?;
            push_text(out, " ")?;
            push_value(out, value)
        }
    }
}

/// Appends the parts that are there, with a space between each two.
///
/// # Errors
///
/// Memory is refused; a part of the text may follow what `out` had.
pub(crate) fn push_parts(out: &mut Vec<u8>, parts: &[Option<Part>]) -> Result<(), AllocError>
    ensures ok { OnOk result (out.new.items ≡ out.old.items ++ spaced (map part_of parts.now)) }
    ensures err { OnErr result (Keeps out.old.items out.new.items) }
{
    let mut gap: &[u8] = b"";
    for part in parts {
        if let Some(part) = part {
            out.extend_from_slice(gap)?;
            push_part(out, part)?;
            gap = b" ";
        }
    }
    Ok(())
}

/// Passes on how appending a text to the first `len` bytes went, and takes back what there is of it if it failed.
///
/// # Errors
///
/// `NoMemory` if it failed; the first `len` bytes are left.
pub(crate) fn whole_or_nothing(
    out: &mut Vec<u8>,
    len: usize,
    pushed: Result<(), AllocError>,
) -> Result<(), Refusal>
    ensures variant { IsOk result ↔ IsOk pushed }
    ensures ok { OnOk result (out.new.items ≡ out.old.items) }
    ensures err { OnErr result (out.new.items ≡ take len out.old.items) }
    ensures reason { IsOkUnless result NoMemory }
{
    if pushed.is_err() {
        out.truncate(len);
        return Err(Refusal::NoMemory);
    }
    Ok(())
}
