//! The words of groups.
ghost use Rattle.std.specs.Prelude.{◌≡◌, ◌++◌, OnOk, codes};
ghost use Rattle.prt_listing.specs.AnswerText.{rule_part};
ghost use Rattle.prt_listing.specs.Parts.{mark_text, table_text};
ghost use Rattle.prt_listing.specs.RouteText.{route_text};
ghost use Rattle.prt_listing.specs.RuleText.{action_text};
ghost use Rattle.prt_listing.specs.declared.route.TablePart.TheVariants.{LeftOut};
ghost use Rattle.prt_impact.specs.Text.{blocks_text, from_text, fwmark_text, iif_text, is_all_of, is_every_mark, is_everything, more_text};
ghost use Rattle.prt_impact.specs.Text.{packets_text, prefix_of, range_text, verdict_text};

use crate::group::{AddrRange, Group, InterfaceSet};
use crate::mark_set::MarkSet;
use prt_addr::{Prefix, addr_text, prefix_text};
use prt_listing::{Part, TablePart, Value, push_part, push_text, route_text, table_value};
use prt_rule::{Action, Mark};
use prt_version::{Route, Verdict};
use std::alloc::AllocError;

/// Checks whether the prefix has exactly the addresses of the range.
fn is_all_of(range: &AddrRange, prefix: &Prefix) -> bool
    ensures { result ≡ is_all_of range.now prefix.now }
{
    let end = u64::from(prefix.bits()) + (1 << (32 - prefix.len()));
    prefix.bits() == range.first.0 && end == u64::from(range.last.0) + 1
}

/// Finds the prefix that has exactly the addresses of the range, if there is one.
fn prefix_of(range: &AddrRange) -> Option<Prefix>
    ensures { result ≡ prefix_of range.now }
{
    for len in 0..33 {
        let prefix = Prefix::masked(range.first.0, len);
        if is_all_of(range, &prefix) {
            return Some(prefix);
        }
    }
    None
}

/// Appends a range: a prefix if it is one, else its ends.
///
/// # Errors
///
/// Memory is refused.
pub(crate) fn push_range(out: &mut Vec<u8>, range: &AddrRange) -> Result<(), AllocError>
    ensures { OnOk result (out.new.items ≡ out.old.items ++ range_text range.now) }
{
    match prefix_of(range) {
        Some(prefix) => push_text(out, prefix_text(&prefix).as_str()),
        None => {
            push_text(out, addr_text(range.first).as_str())?;
            push_text(out, "-")?;
            push_text(out, addr_text(range.last).as_str())
        }
    }
}

/// Checks whether the range has every address.
pub(crate) fn is_everything(range: &AddrRange) -> bool
    ensures { result ≡ is_everything range.now }
{
    range.first.0 == 0 && range.last.0 == u32::MAX
}

/// Appends the sources, unless they are all.
fn push_from(out: &mut Vec<u8>, range: &AddrRange) -> Result<(), AllocError>
    ensures { OnOk result (out.new.items ≡ out.old.items ++ from_text range.now) }
{
    if is_everything(range) {
        return Ok(());
    }
    push_text(out, " from ")?;
    push_range(out, range)
}

/// Appends the interfaces, unless they are all.
fn push_iif(out: &mut Vec<u8>, interfaces: &InterfaceSet) -> Result<(), AllocError>
    ensures { OnOk result (out.new.items ≡ out.old.items ++ iif_text interfaces.now) }
{
    match interfaces {
        InterfaceSet::Named(name) => {
            push_text(out, " iif ")?;
            push_part(out, &Part::Alone(Value::Dev(*name)))
        }
        InterfaceSet::AllOthers => push_text(out, " iif any other"),
        InterfaceSet::All => Ok(()),
    }
}

/// Appends a mark and its mask.
fn push_mark(out: &mut Vec<u8>, mark: &Mark) -> Result<(), AllocError>
    ensures { OnOk result (out.new.items ≡ out.old.items ++ mark_text mark.now) }
{
    push_part(out, &Part::Alone(Value::Mark(*mark)))
}

/// Appends each of the blocks behind a comma.
fn push_more(out: &mut Vec<u8>, blocks: &[Mark]) -> Result<(), AllocError>
    ensures { OnOk result (out.new.items ≡ out.old.items ++ more_text blocks.now) }
{
    for block in blocks {
        push_text(out, ",")?;
        push_mark(out, block)?;
    }
    Ok(())
}

/// Appends blocks of marks, with commas between them.
///
/// # Errors
///
/// Memory is refused.
pub(crate) fn push_blocks(out: &mut Vec<u8>, blocks: &[Mark]) -> Result<(), AllocError>
    ensures { OnOk result (out.new.items ≡ out.old.items ++ blocks_text blocks.now) }
{
    match blocks.split_first() {
        Some((first, more)) => {
            push_mark(out, first)?;
            push_more(out, more)
        }
        None => Ok(()),
    }
}

/// Checks whether the set has every mark: all but those of no block.
pub(crate) fn is_every_mark(marks: &MarkSet) -> bool
    ensures { result ≡ is_every_mark marks.now }
{
    marks.inverted && marks.blocks.as_slice().is_empty()
}

/// Appends the marks, unless they are all.
fn push_fwmark(out: &mut Vec<u8>, marks: &MarkSet) -> Result<(), AllocError>
    ensures { OnOk result (out.new.items ≡ out.old.items ++ fwmark_text marks.now) }
{
    if is_every_mark(marks) {
        return Ok(());
    }
    push_text(out, " fwmark ")?;
    if marks.inverted {
        push_text(out, "not ")?;
    }
    push_blocks(out, marks.blocks.as_slice())
}

/// Appends which packets a group has.
pub(crate) fn push_packets(out: &mut Vec<u8>, group: &Group) -> Result<(), AllocError>
    ensures { OnOk result (out.new.items ≡ out.old.items ++ packets_text group.now) }
{
    push_text(out, "to ")?;
    push_range(out, &group.to)?;
    push_from(out, &group.from)?;
    push_iif(out, &group.interfaces)?;
    push_fwmark(out, &group.marks)
}

/// Appends the rule that decides.
fn push_rule(out: &mut Vec<u8>, priority: u32) -> Result<(), AllocError>
    ensures { OnOk result (out.new.items ≡ out.old.items ++ rule_part priority) }
{
    push_part(
        out,
        &Part::Named("rule", Value::Number(u64::from(priority))),
    )
}

/// Appends the route that decides, behind its table.
fn push_route(out: &mut Vec<u8>, route: &Route) -> Result<(), AllocError>
    ensures { OnOk result (out.new.items ≡ out.old.items ++ (codes " table " ++ table_text route.now.table ++ codes " " ++ route_text route.now LeftOut)) }
{
    push_text(out, " table ")?;
    push_part(out, &Part::Alone(table_value(route.table)))?;
    push_text(out, " ")?;
    if route_text(out, route, TablePart::LeftOut).is_err() {
        return Err(AllocError);
    }
    Ok(())
}

/// Appends the action that decides.
fn push_action(out: &mut Vec<u8>, action: Action) -> Result<(), AllocError>
    ensures { OnOk result (out.new.items ≡ out.old.items ++ (codes " " ++ action_text action)) }
{
    push_text(out, " ")?;
    match action {
        Action::Lookup(table) => push_part(out, &Part::Named("lookup", table_value(table))),
        Action::Blackhole => push_text(out, "blackhole"),
        Action::Unreachable => push_text(out, "unreachable"),
        Action::Prohibit => push_text(out, "prohibit"),
    }
}

/// Appends what becomes of packets.
///
/// # Errors
///
/// Memory is refused.
pub(crate) fn push_verdict(out: &mut Vec<u8>, verdict: &Verdict) -> Result<(), AllocError>
    ensures { OnOk result (out.new.items ≡ out.old.items ++ verdict_text verdict.now) }
{
    match verdict {
        Verdict::Route(priority, route) => {
            push_rule(out, *priority)?;
            push_route(out, route)
        }
        Verdict::RuleSays(priority, action) => {
            push_rule(out, *priority)?;
            push_action(out, *action)
        }
        Verdict::NoRoute => push_text(out, "none"),
    }
}
