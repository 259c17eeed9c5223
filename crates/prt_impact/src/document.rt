//! Groups as JSON.
ghost use Rattle.std.specs.Prelude.{◌≡◌, ◌++◌, ◌∷◌, [], Some, IfOk, OnOk, codes, map};
ghost use Rattle.std.specs.Str.Lossy.{utf8_lossy};
ghost use Rattle.json.specs.Tree.{json_tokens};
ghost use Rattle.prt_json.specs.Appends.{Appends};
ghost use Rattle.prt_json.specs.Fields.{ReadsBack, dev_field, json_line};
ghost use Rattle.prt_json.specs.Steps.{fields_tokens, values_tokens};
ghost use Rattle.prt_impact.specs.GroupsJson.{group_fields, group_json, groups_json, shown_from, shown_fwmark, shown_fwmark_not, shown_iif};
ghost use Rattle.prt_impact.specs.Text.{blocks_text, range_text, verdict_text};

use crate::group::{AddrRange, Group, InterfaceSet};
use crate::mark_set::MarkSet;
use crate::words::{is_every_mark, is_everything, push_blocks, push_range, push_verdict};
use json::Writer;
use prt_listing::push_text;
use prt_refusals::Refusal;
use prt_rule::Mark;
use prt_version::Verdict;
use std::alloc::{AllocError, Global};

/// Writes a field with a text. U+FFFD takes the place of what is no UTF-8 in it.
fn push_field(
    out: &mut Writer,
    alloc: Global,
    name: &'static str,
    text: &[u8],
) -> Result<(), AllocError>
    ensures ok { OnOk result (out.new.tokens ≡ out.old.tokens ++ fields_tokens (dev_field name.now (Some text.now) ∷ [])) }
    ensures before { out.new.before ≡ out.old.before }
{
    out.key(name)?;
    let text = String::from_utf8_lossy(alloc, text)?;
    out.string(text.as_str())
}

/// Writes the field of a range.
fn push_range_field(
    out: &mut Writer,
    alloc: Global,
    name: &'static str,
    range: &AddrRange,
) -> Result<(), AllocError>
    ensures ok { OnOk result (out.new.tokens ≡ out.old.tokens ++ fields_tokens (dev_field name.now (Some (range_text range.now)) ∷ [])) }
    ensures before { out.new.before ≡ out.old.before }
{
    let mut text = Vec::new(alloc);
    push_range(&mut text, range)?;
    push_field(out, alloc, name, &text)
}

/// Writes the field of the sources, unless they are all.
fn push_from_field(out: &mut Writer, alloc: Global, range: &AddrRange) -> Result<(), AllocError>
    ensures ok { OnOk result (out.new.tokens ≡ out.old.tokens ++ fields_tokens (dev_field (codes "from") (shown_from range.now) ∷ [])) }
    ensures before { out.new.before ≡ out.old.before }
{
    if is_everything(range) {
        return Ok(());
    }
    push_range_field(out, alloc, "from", range)
}

/// Writes the field of the interfaces, unless they are all.
fn push_iif_field(
    out: &mut Writer,
    alloc: Global,
    interfaces: &InterfaceSet,
) -> Result<(), AllocError>
    ensures ok { OnOk result (out.new.tokens ≡ out.old.tokens ++ fields_tokens (dev_field (codes "iif") (shown_iif interfaces.now) ∷ [])) }
    ensures before { out.new.before ≡ out.old.before }
{
    match interfaces {
        InterfaceSet::Named(name) => push_field(out, alloc, "iif", name.as_bytes()),
        InterfaceSet::AllOthers => push_field(out, alloc, "iif", "any other".as_bytes()),
        InterfaceSet::All => Ok(()),
    }
}

/// Writes the field of blocks of marks.
fn push_blocks_field(
    out: &mut Writer,
    alloc: Global,
    name: &'static str,
    blocks: &[Mark],
) -> Result<(), AllocError>
    ensures ok { OnOk result (out.new.tokens ≡ out.old.tokens ++ fields_tokens (dev_field name.now (Some (blocks_text blocks.now)) ∷ [])) }
    ensures before { out.new.before ≡ out.old.before }
{
    let mut text = Vec::new(alloc);
    push_blocks(&mut text, blocks)?;
    push_field(out, alloc, name, &text)
}

/// Writes the field of the marks, unless they are all but those of some blocks.
fn push_fwmark_field(out: &mut Writer, alloc: Global, marks: &MarkSet) -> Result<(), AllocError>
    ensures ok { OnOk result (out.new.tokens ≡ out.old.tokens ++ fields_tokens (dev_field (codes "fwmark") (shown_fwmark marks.now) ∷ [])) }
    ensures before { out.new.before ≡ out.old.before }
{
    if marks.inverted {
        return Ok(());
    }
    push_blocks_field(out, alloc, "fwmark", marks.blocks.as_slice())
}

/// Writes the field of the marks that the group doesn't have, if it has all others and they are not all.
fn push_fwmark_not_field(out: &mut Writer, alloc: Global, marks: &MarkSet) -> Result<(), AllocError>
    ensures ok { OnOk result (out.new.tokens ≡ out.old.tokens ++ fields_tokens (dev_field (codes "fwmark_not") (shown_fwmark_not marks.now) ∷ [])) }
    ensures before { out.new.before ≡ out.old.before }
{
    if !marks.inverted || is_every_mark(marks) {
        return Ok(());
    }
    push_blocks_field(out, alloc, "fwmark_not", marks.blocks.as_slice())
}

/// Writes the field of what becomes of packets.
fn push_verdict_field(
    out: &mut Writer,
    alloc: Global,
    name: &'static str,
    verdict: &Verdict,
) -> Result<(), AllocError>
    ensures ok { OnOk result (out.new.tokens ≡ out.old.tokens ++ fields_tokens (dev_field name.now (Some (verdict_text verdict.now)) ∷ [])) }
    ensures before { out.new.before ≡ out.old.before }
{
    let mut text = Vec::new(alloc);
    push_verdict(&mut text, verdict)?;
    push_field(out, alloc, name, &text)
}

/// Writes the fields of a group.
fn push_fields(out: &mut Writer, alloc: Global, group: &Group) -> Result<(), AllocError>
    ensures ok { OnOk result (out.new.tokens ≡ out.old.tokens ++ fields_tokens (group_fields group.now)) }
    ensures before { out.new.before ≡ out.old.before }
{
    push_range_field(out, alloc, "to", &group.to)?;
    push_from_field(out, alloc, &group.from)?;
    push_iif_field(out, alloc, &group.interfaces)?;
    push_fwmark_field(out, alloc, &group.marks)?;
    push_fwmark_not_field(out, alloc, &group.marks)?;
    push_verdict_field(out, alloc, "was", &group.was)?;
    push_verdict_field(out, alloc, "is", &group.is)
}

/// Writes the object of a group.
fn push_group(out: &mut Writer, alloc: Global, group: &Group) -> Result<(), AllocError>
    ensures ok { OnOk result (out.new.tokens ≡ out.old.tokens ++ json_tokens (group_json group.now)) }
    ensures before { out.new.before ≡ out.old.before }
{
    out.begin_object()?;
    push_fields(out, alloc, group)?;
    out.end_object()
}

/// Writes the object of each group.
fn push_each(out: &mut Writer, alloc: Global, groups: &[Group]) -> Result<(), AllocError>
    ensures ok { OnOk result (out.new.tokens ≡ out.old.tokens ++ values_tokens (map group_json groups.now)) }
    ensures before { out.new.before ≡ out.old.before }
{
    for group in groups {
        push_group(out, alloc, group)?;
    }
    Ok(())
}

/// Writes the array of the groups.
fn push_array(out: &mut Writer, alloc: Global, groups: &[Group]) -> Result<(), AllocError>
    ensures ok { OnOk result (out.new.tokens ≡ out.old.tokens ++ json_tokens (groups_json groups.now)) }
    ensures before { out.new.before ≡ out.old.before }
{
    out.begin_array()?;
    push_each(out, alloc, groups)?;
    out.end_array()
}

/// Makes the text of the array of the groups, and a newline.
fn document(alloc: Global, groups: &[Group]) -> Result<Vec<u8>, AllocError>
    ensures text { IfOk result (λ text. text.items ≡ json_line (groups_json groups.now)) }
    ensures reads_back { IfOk result (λ text. ReadsBack (groups_json groups.now)) }
{
    let mut writer = Writer::new(Vec::new(alloc));
    push_array(&mut writer, alloc, groups)?;
    let mut text = writer.into_inner();
    push_text(&mut text, "\n")?;
    Ok(text)
}

/// Appends the groups as JSON: an array of objects, and a newline.
///
/// An object has `to`, the destinations, and `was` and `is`, what becomes of the packets before and after. It has `from`,
/// `iif` and `fwmark` unless they hold all. If the group has all marks but some, it has `fwmark_not` in place of `fwmark`,
/// with the marks that it doesn't have. All of them are strings, in the words of [`impact_text`](crate::impact_text).
///
/// # Errors
///
/// `NoMemory` if memory is refused; `out` is as it was.
pub fn impact_json(out: &mut Vec<u8>, groups: &[Group]) -> Result<(), Refusal>
    ensures { Appends result out.old.items out.new.items (groups_json groups.now) }
{
    let text = document(*out.allocator(), groups)?;
    out.extend_from_slice(&text)?;
    Ok(())
}
