//! The text of unused rules and routes.
ghost use Rattle.std.specs.Prelude.{◌≡◌, ◌++◌, IsOkUnless, OnErr, OnOk, codes, decimal, flat_map};
ghost use Rattle.prt_refusals.specs.declared.refusal.Refusal.TheVariants.{NoMemory};
ghost use Rattle.prt_listing.specs.RouteText.{route_text};
ghost use Rattle.prt_listing.specs.RuleText.{rule_text};
ghost use Rattle.prt_analyses.specs.Unused.Text.{example_text, packet_text, route_entry, route_reason_text, rule_entry, rule_reason_text};
ghost use Rattle.prt_analyses.specs.Unused.Text.{unused_text, verdict_text};

use super::report::{Example, RouteReason, RuleReason, Unused, UnusedRoute, UnusedRule};
use prt_listing::{
    Part, TablePart, Value, action_part, push_part, push_text, route_text, rule_text, table_value,
};
use prt_refusals::Refusal;
use prt_route::Route;
use prt_rule::{Mark, Packet, Rule};
use prt_version::Verdict;
use std::alloc::AllocError;

/// Appends the line of a rule, without its end.
fn push_rule(out: &mut Vec<u8>, rule: &Rule) -> Result<(), AllocError>
    ensures { OnOk result (out.new.items ≡ out.old.items ++ rule_text rule.now) }
{
    let Ok(()) = rule_text(out, rule) else {
        return Err(AllocError);
    };
    Ok(())
}

/// Appends the line of a route, without its end.
fn push_route(out: &mut Vec<u8>, route: &Route, table: TablePart) -> Result<(), AllocError>
    ensures { OnOk result (out.new.items ≡ out.old.items ++ route_text route.now table) }
{
    let Ok(()) = route_text(out, route, table) else {
        return Err(AllocError);
    };
    Ok(())
}

/// Appends what a packet is.
fn push_packet(out: &mut Vec<u8>, packet: &Packet) -> Result<(), AllocError>
    ensures { OnOk result (out.new.items ≡ out.old.items ++ packet_text packet.now) }
{
    let mark = Mark {
        mark: packet.mark,
        mask: u32::MAX,
    };
    push_part(out, &Part::Alone(Value::Addr(packet.dst)))?;
    push_part(out, &Part::Named(" from", Value::Addr(packet.src)))?;
    push_part(out, &Part::Named(" iif", Value::Dev(packet.iif)))?;
    push_part(out, &Part::Named(" mark", Value::Mark(mark)))
}

/// Appends the rule of this priority, as answers name it.
fn push_decider(out: &mut Vec<u8>, priority: u32) -> Result<(), AllocError>
    ensures { OnOk result (out.new.items ≡ out.old.items ++ (codes "rule " ++ decimal priority)) }
{
    push_part(
        out,
        &Part::Named("rule", Value::Number(u64::from(priority))),
    )
}

/// Appends a verdict, as answers name it.
fn push_verdict(out: &mut Vec<u8>, verdict: &Verdict) -> Result<(), AllocError>
    ensures { OnOk result (out.new.items ≡ out.old.items ++ verdict_text verdict.now) }
{
    match verdict {
        Verdict::Route(priority, route) => {
            push_decider(out, *priority)?;
            push_part(out, &Part::Named(" table", table_value(route.table)))?;
            push_text(out, " ")?;
            push_route(out, route, TablePart::LeftOut)
        }
        Verdict::RuleSays(priority, action) => {
            push_decider(out, *priority)?;
            push_text(out, " ")?;
            push_part(out, &action_part(*action))
        }
        Verdict::NoRoute => push_text(out, "none"),
    }
}

/// Appends a packet and what becomes of it.
fn push_example(out: &mut Vec<u8>, example: &Example) -> Result<(), AllocError>
    ensures { OnOk result (out.new.items ≡ out.old.items ++ example_text example.now) }
{
    push_packet(out, &example.packet)?;
    push_text(out, " gets ")?;
    push_verdict(out, &example.verdict)
}

/// Appends what is reported of a rule that decides no packet.
fn push_rule_reason(out: &mut Vec<u8>, reason: &RuleReason) -> Result<(), AllocError>
    ensures { OnOk result (out.new.items ≡ out.old.items ++ rule_reason_text reason.now) }
{
    match reason {
        RuleReason::MatchesNothing => push_text(out, "no packet matches"),
        RuleReason::Matches(example) => push_example(out, example),
    }
}

/// Appends what is reported of a route of this table that no packet gets.
fn push_route_reason(out: &mut Vec<u8>, table: u32, reason: &RouteReason) -> Result<(), AllocError>
    ensures { OnOk result (out.new.items ≡ out.old.items ++ route_reason_text table reason.now) }
{
    match reason {
        RouteReason::NoRule => {
            let table = table_value(table);
            push_part(out, &Part::Named("no rule looks up table", table))
        }
        RouteReason::Throws => {
            push_text(out, "a throw route: what finds it goes on to the next rule")
        }
        RouteReason::Unmatched => {
            let table = table_value(table);
            push_part(out, &Part::Named("no rule that looks up table", table))?;
            push_text(out, " matches a packet to it")
        }
        RouteReason::Reaches(example) => push_example(out, example),
    }
}

/// Appends the two lines of a rule.
fn push_rule_entry(out: &mut Vec<u8>, one: &UnusedRule) -> Result<(), AllocError>
    ensures { OnOk result (out.new.items ≡ out.old.items ++ rule_entry one.now) }
{
    push_rule(out, &one.rule)?;
    push_text(out, "\n\t")?;
    push_rule_reason(out, &one.reason)?;
    push_text(out, "\n")
}

/// Appends the two lines of a route.
fn push_route_entry(out: &mut Vec<u8>, one: &UnusedRoute) -> Result<(), AllocError>
    ensures { OnOk result (out.new.items ≡ out.old.items ++ route_entry one.now) }
{
    push_route(out, &one.route, TablePart::Shown)?;
    push_text(out, "\n\t")?;
    push_route_reason(out, one.route.table, &one.reason)?;
    push_text(out, "\n")
}

/// Appends the lines of the rules.
fn push_rules(out: &mut Vec<u8>, rules: &[UnusedRule]) -> Result<(), AllocError>
    ensures { OnOk result (out.new.items ≡ out.old.items ++ flat_map rule_entry rules.now) }
{
    for one in rules {
        push_rule_entry(out, one)?;
    }
    Ok(())
}

/// Appends the lines of the routes.
fn push_routes(out: &mut Vec<u8>, routes: &[UnusedRoute]) -> Result<(), AllocError>
    ensures { OnOk result (out.new.items ≡ out.old.items ++ flat_map route_entry routes.now) }
{
    for one in routes {
        push_route_entry(out, one)?;
    }
    Ok(())
}

/// Appends two lines for each rule, and then for each route: the line that lists it, and after a tab what is reported of it. That
/// is a packet that a rule matches and what becomes of it, or one of these: no packet matches the rule, no rule looks up the
/// table of the route, the route is a throw route, or no rule that looks up its table matches a packet to it.
///
/// # Errors
///
/// `NoMemory` if memory is refused; `out` is as it was.
pub fn unused_text(out: &mut Vec<u8>, unused: &Unused) -> Result<(), Refusal>
    ensures ok { OnOk result (out.new.items ≡ out.old.items ++ unused_text unused.now) }
    ensures err { OnErr result (out.new.items ≡ out.old.items) }
    ensures reason { IsOkUnless result NoMemory }
{
    let mut text = Vec::new(*out.allocator());
    push_rules(&mut text, &unused.rules)?;
    push_routes(&mut text, &unused.routes)?;
    out.extend_from_slice(&text)?;
    Ok(())
}
