//! A packet that breaks a claim, as a text.
ghost use Rattle.std.specs.Prelude.{◌≡◌, ◌++◌, IsOkUnless, OnErr, OnOk, codes};
ghost use Rattle.prt_refusals.specs.declared.refusal.Refusal.TheVariants.{NoMemory};
ghost use Rattle.prt_listing.specs.AnswerText.{rule_part};
ghost use Rattle.prt_listing.specs.Parts.{table_text};
ghost use Rattle.prt_listing.specs.RouteText.{route_text};
ghost use Rattle.prt_listing.specs.RuleText.{action_text};
ghost use Rattle.prt_listing.specs.declared.route.TablePart.TheVariants.{LeftOut};
ghost use Rattle.prt_analyses.specs.Claims.BreachText.{breach_text, packet_text, verdict_text};

use prt_listing::{Part, TablePart, Value, push_part, push_text, route_text, table_value};
use prt_refusals::Refusal;
use prt_rule::{Action, Mark, Packet};
use prt_version::{Route, Verdict, Version};
use std::alloc::AllocError;

/// Appends the packet, in the words of a query.
fn push_packet(out: &mut Vec<u8>, packet: &Packet) -> Result<(), AllocError>
    ensures { OnOk result (out.new.items ≡ out.old.items ++ packet_text packet.now) }
{
    let mark = Mark {
        mark: packet.mark,
        mask: u32::MAX,
    };
    push_part(out, &Part::Named("to", Value::Addr(packet.dst)))?;
    push_part(out, &Part::Named(" from", Value::Addr(packet.src)))?;
    push_part(out, &Part::Named(" iif", Value::Dev(packet.iif)))?;
    push_part(out, &Part::Named(" mark", Value::Mark(mark)))
}

/// Appends the rule of this priority.
fn push_rule(out: &mut Vec<u8>, priority: u32) -> Result<(), AllocError>
    ensures { OnOk result (out.new.items ≡ out.old.items ++ (rule_part priority ++ codes " ")) }
{
    push_part(
        out,
        &Part::Named("rule", Value::Number(u64::from(priority))),
    )?;
    push_text(out, " ")
}

/// Appends the table and the route that a rule found.
fn push_route(out: &mut Vec<u8>, route: &Route) -> Result<(), AllocError>
    ensures { OnOk result (out.new.items ≡ out.old.items ++ (codes "table " ++ table_text route.now.table ++ codes " " ++ route_text route.now LeftOut)) }
{
    push_part(out, &Part::Named("table", table_value(route.table)))?;
    push_text(out, " ")?;
    let Ok(()) = route_text(out, route, TablePart::LeftOut) else {
        return Err(AllocError);
    };
    Ok(())
}

/// Appends what a rule does by itself.
fn push_action(out: &mut Vec<u8>, action: Action) -> Result<(), AllocError>
    ensures { OnOk result (out.new.items ≡ out.old.items ++ action_text action) }
{
    match action {
        Action::Lookup(table) => push_part(out, &Part::Named("lookup", table_value(table))),
        Action::Blackhole => push_text(out, "blackhole"),
        Action::Unreachable => push_text(out, "unreachable"),
        Action::Prohibit => push_text(out, "prohibit"),
    }
}

/// Appends the verdict, in the words of an answer after its number.
fn push_verdict(out: &mut Vec<u8>, verdict: &Verdict) -> Result<(), AllocError>
    ensures { OnOk result (out.new.items ≡ out.old.items ++ verdict_text verdict.now) }
{
    match verdict {
        Verdict::Route(priority, route) => {
            push_rule(out, *priority)?;
            push_route(out, route)
        }
        Verdict::RuleSays(priority, action) => {
            push_rule(out, *priority)?;
            push_action(out, *action)
        }
        Verdict::NoRoute => push_text(out, "none"),
    }
}

/// Appends a packet in the words of a query, and what becomes of it in the words of an answer after its number.
///
/// # Errors
///
/// `NoMemory` if memory is refused; `out` is as it was.
pub fn push_breach(out: &mut Vec<u8>, version: &Version, packet: &Packet) -> Result<(), Refusal>
    ensures ok { OnOk result (out.new.items ≡ out.old.items ++ breach_text version.now packet.now) }
    ensures err { OnErr result (out.new.items ≡ out.old.items) }
    ensures reason { IsOkUnless result NoMemory }
{
    let mut text = Vec::new(*out.allocator());
    push_packet(&mut text, packet)?;
    push_text(&mut text, ": ")?;
    push_verdict(&mut text, &version.select(packet).verdict)?;
    out.extend_from_slice(&text)?;
    Ok(())
}
