//! The explanation of an answer.
ghost use Rattle.std.specs.Prelude.{◌≡◌, ◌++◌, IfOk, IsOkUnless, OnErr, OnOk, codes, is_some};
ghost use Rattle.prt_refusals.specs.declared.refusal.Refusal.TheVariants.{NoMemory};
ghost use Rattle.prt_listing.specs.QueryText.{lines_text, query_text};
ghost use Rattle.prt_listing.specs.RuleText.{rule_text};
ghost use Rattle.prt_command.specs.declared.request.Query.TheVariants.{Get};
ghost use Rattle.prt_version.specs.Select.{decision};
ghost use Rattle.prt_explain.specs.Explanation.{explanation_text, packet_text, rule_lines};
ghost use Rattle.prt_explain.specs.Steps.{asked_text};

use crate::mismatch::first_mismatch;
use crate::notes::{push_action_notes, push_match_notes};
use prt_command::Query;
use prt_listing::{Part, Value, push_part, push_text, query_text, rule_text};
use prt_refusals::Refusal;
use prt_rule::{Mark, Packet, Rule, matches};
use prt_version::Version;
use std::alloc::AllocError;

/// Appends the line of the packet that is asked for.
fn push_packet(out: &mut Vec<u8>, packet: &Packet) -> Result<(), AllocError>
    ensures { OnOk result (out.new.items ≡ out.old.items ++ (packet_text packet.now ++ codes "\n")) }
{
    let mark = Mark {
        mark: packet.mark,
        mask: u32::MAX,
    };
    push_part(out, &Part::Named("packet to", Value::Addr(packet.dst)))?;
    push_part(out, &Part::Named(" from", Value::Addr(packet.src)))?;
    push_part(out, &Part::Named(" iif", Value::Dev(packet.iif)))?;
    push_part(out, &Part::Named(" mark", Value::Mark(mark)))?;
    push_text(out, "\n")
}

/// Appends the line of a rule.
fn push_rule_line(out: &mut Vec<u8>, rule: &Rule) -> Result<(), AllocError>
    ensures { OnOk result (out.new.items ≡ out.old.items ++ (rule_text rule.now ++ codes "\n")) }
{
    let Ok(()) = rule_text(out, rule) else {
        return Err(AllocError);
    };
    push_text(out, "\n")
}

/// Appends the lines of a rule that is tried, and returns whether it decides.
fn push_rule(
    out: &mut Vec<u8>,
    rule: &Rule,
    version: &Version,
    packet: &Packet,
) -> Result<bool, AllocError>
    ensures text { OnOk result (out.new.items ≡ out.old.items ++ lines_text (rule_lines rule.now version.now.routes packet.now)) }
    ensures decides { IfOk result (λ decides. decides ≡ is_some (decision rule.now version.now.routes packet.now)) }
{
    push_rule_line(out, rule)?;
    push_match_notes(out, rule.inverted, &first_mismatch(rule, packet))?;
    if !matches(rule, packet) {
        return Ok(false);
    }
    push_action_notes(out, rule, version, packet)
}

/// Appends the lines of the rules that are tried.
fn push_asked_rules(out: &mut Vec<u8>, version: &Version, packet: &Packet) -> Result<(), AllocError>
    ensures { OnOk result (out.new.items ≡ out.old.items ++ asked_text version.now.rules version.now.routes packet.now) }
{
    for rule in version.rules() {
        if push_rule(out, rule, version, packet)? {
            return Ok(());
        }
    }
    Ok(())
}

/// Appends why the packet goes where it goes: what was asked, each rule up to the one that decides, and the answer
/// as `route get` prints it. A rule comes with what it found or why it didn't match.
///
/// # Errors
///
/// `NoMemory` if memory is refused; `out` is as it was.
pub fn explanation_text(
    out: &mut Vec<u8>,
    version: &Version,
    packet: &Packet,
) -> Result<(), Refusal>
    ensures ok { OnOk result (out.new.items ≡ out.old.items ++ explanation_text version.now packet.now) }
    ensures err { OnErr result (out.new.items ≡ out.old.items) }
    ensures reason { IsOkUnless result NoMemory }
{
    let mut text = Vec::new(*out.allocator());
    push_packet(&mut text, packet)?;
    push_asked_rules(&mut text, version, packet)?;
    query_text(&mut text, version, &Query::Get(*packet))?;
    out.extend_from_slice(&text)?;
    Ok(())
}
