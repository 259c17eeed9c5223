//! The lines of groups.
ghost use Rattle.std.specs.Prelude.{◌≡◌, ◌++◌, IsOkUnless, OnErr, OnOk, codes, map};
ghost use Rattle.prt_refusals.specs.declared.refusal.Refusal.TheVariants.{NoMemory};
ghost use Rattle.prt_listing.specs.QueryText.{lines_text};
ghost use Rattle.prt_impact.specs.Text.{group_text, groups_text};

use crate::group::Group;
use crate::words::{push_packets, push_verdict};
use prt_listing::push_text;
use prt_refusals::Refusal;
use std::alloc::AllocError;

/// Appends the line of a group: its packets, and what becomes of them before and after, in the words of `ip`.
///
/// # Errors
///
/// Memory is refused. A part of the line may have been appended.
pub fn push_group_line(out: &mut Vec<u8>, group: &Group) -> Result<(), AllocError>
    ensures { OnOk result (out.new.items ≡ out.old.items ++ (group_text group.now ++ codes "\n")) }
{
    push_packets(out, group)?;
    push_text(out, ": ")?;
    push_verdict(out, &group.was)?;
    push_text(out, " -> ")?;
    push_verdict(out, &group.is)?;
    push_text(out, "\n")
}

/// Appends a line for each group.
///
/// # Errors
///
/// Memory is refused.
fn push_lines(out: &mut Vec<u8>, groups: &[Group]) -> Result<(), AllocError>
    ensures { OnOk result (out.new.items ≡ out.old.items ++ groups_text groups.now) }
{
    for group in groups {
        push_group_line(out, group)?;
    }
    Ok(())
}

/// Appends a line for each group: its packets, and what becomes of them before and after, in the words of `ip`.
///
/// What holds all packets is left out: `from`, `iif` and `fwmark`. `iif any other` is each interface that no rule names, and
/// `fwmark not` each mark but these.
///
/// # Errors
///
/// `NoMemory` if memory is refused; `out` is as it was.
pub fn impact_text(out: &mut Vec<u8>, groups: &[Group]) -> Result<(), Refusal>
    ensures ok { OnOk result (out.new.items ≡ out.old.items ++ groups_text groups.now) }
    ensures err { OnErr result (out.new.items ≡ out.old.items) }
    ensures reason { IsOkUnless result NoMemory }
{
    let mut text = Vec::new(*out.allocator());
    push_lines(&mut text, groups)?;
    out.extend_from_slice(&text)?;
    Ok(())
}
