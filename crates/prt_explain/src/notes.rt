//! The notes that come under a rule.
ghost use Rattle.std.specs.Prelude.{◌≡◌, ℕ, ◌++◌, IfOk, OnOk, [], ◌∷◌, codes, is_some};
ghost use Rattle.prt_route.specs.Best.{best};
ghost use Rattle.prt_listing.specs.Parts.{table_text};
ghost use Rattle.prt_listing.specs.RouteText.{route_text};
ghost use Rattle.prt_listing.specs.Steps.{part_of, part_text};
ghost use Rattle.prt_listing.specs.declared.route.TablePart.TheVariants.{LeftOut};
ghost use Rattle.prt_rule.specs.declared.rule.Action.TheVariants.{Lookup};
ghost use Rattle.prt_version.specs.Select.{is_throw, suppresses, verdict_by};
ghost use Rattle.prt_explain.specs.Explanation.{action_notes, advantage, found_notes, lookup_notes, match_notes, runner_up_notes, silence_notes};
ghost use Rattle.prt_explain.specs.Steps.{notes_text, speaks};

use crate::lookup::{Found, look_up};
use prt_listing::{Part, TablePart, Value, push_part, push_text, route_text, table_value};
use prt_route::{Kind, Route};
use prt_rule::{Action, Packet, Rule};
use prt_version::Version;
use std::alloc::AllocError;

/// Appends a note that begins with a text and has the part.
fn push_part_note(out: &mut Vec<u8>, beginning: &str, part: &Part) -> Result<(), AllocError>
    ensures { OnOk result (out.new.items ≡ out.old.items ++ notes_text ((beginning.now ++ part_text part.now) ∷ [])) }
{
    push_text(out, "\t")?;
    push_text(out, beginning)?;
    push_part(out, part)?;
    push_text(out, "\n")
}

/// Appends why a rule doesn't match, or why an inverted one does, by its first mismatch.
pub(crate) fn push_match_notes(
    out: &mut Vec<u8>,
    inverted: bool,
    mismatch: &Option<Part>,
) -> Result<(), AllocError>
    ensures { OnOk result (out.new.items ≡ out.old.items ++ notes_text (match_notes inverted (part_of mismatch.now))) }
{
    match (inverted, mismatch) {
        (false, None) => Ok(()),
        (false, Some(part)) => push_part_note(out, "no: ", part),
        (true, None) => push_text(out, "\tno: all of it holds, and 'not' turns that round\n"),
        (true, Some(part)) => push_part_note(out, "yes: not ", part),
    }
}

/// Appends a route without its table.
fn push_route(out: &mut Vec<u8>, route: &Route) -> Result<(), AllocError>
    ensures { OnOk result (out.new.items ≡ out.old.items ++ route_text route.now LeftOut) }
{
    let Ok(()) = route_text(out, route, TablePart::LeftOut) else {
        return Err(AllocError);
    };
    Ok(())
}

/// Says why the route is better than the other one.
fn advantage(route: &Route, other: &Route) -> &'static str
    ensures { result.now ≡ advantage route.now other.now }
{
    if other.prefix.len() < route.prefix.len() {
        "longer prefix"
    } else {
        "lower metric"
    }
}

/// Appends which route comes next after this one, and why it does.
fn push_runner_up_notes(
    out: &mut Vec<u8>,
    route: &Route,
    runner_up: &Option<Route>,
) -> Result<(), AllocError>
    ensures { OnOk result (out.new.items ≡ out.old.items ++ notes_text (runner_up_notes route.now runner_up.now)) }
{
    let Some(other) = runner_up else {
        return Ok(());
    };
    push_text(out, "\tbefore ")?;
    push_route(out, other)?;
    push_text(out, ": ")?;
    push_text(out, advantage(route, other))?;
    push_text(out, "\n")
}

/// Checks whether the route ends the lookup in its table.
fn is_throw(kind: Kind) -> bool
    ensures { result ≡ is_throw kind }
{
    matches!(kind, Kind::Throw)
}

/// Checks whether a rule says nothing if it finds this route: it suppresses unicast routes whose prefixes have this
/// length, of 0 to 32 bits, or less (`ip-rule(8)`, `suppress_prefixlength`), and none if no length is given.
pub fn suppresses(suppress: Option<u8>, route: &Route) -> bool
    ensures { result ≡ suppresses suppress route.now }
{
    match suppress {
        Some(len) => route.kind == Kind::Unicast && route.prefix.len() <= len,
        None => false,
    }
}

/// Appends why a rule says nothing if it finds the route.
fn push_silence_notes(
    out: &mut Vec<u8>,
    suppress: Option<u8>,
    route: &Route,
) -> Result<(), AllocError>
    ensures { OnOk result (out.new.items ≡ out.old.items ++ notes_text (silence_notes suppress route.now)) }
{
    if is_throw(route.kind) {
        return push_text(
            out,
            "\tthrow: the lookup ends here, and the rule says nothing\n",
        );
    }
    if !suppresses(suppress, route) {
        return Ok(());
    }
    let len = Value::Number(u64::from(route.prefix.len()));
    push_part_note(out, "suppressed: its prefix length is ", &Part::Alone(len))
}

/// Checks whether a rule that finds the route decides.
fn speaks(suppress: Option<u8>, route: &Route) -> bool
    ensures { result ≡ speaks suppress route.now }
{
    !is_throw(route.kind) && !suppresses(suppress, route)
}

/// Appends the name of a table, after which what is found there follows.
fn push_table(out: &mut Vec<u8>, table: u32) -> Result<(), AllocError>
    ensures { OnOk result (out.new.items ≡ out.old.items ++ (codes "\ttable " ++ table_text table ++ codes ": ")) }
{
    push_part(out, &Part::Named("\ttable", table_value(table)))?;
    push_text(out, ": ")
}

/// Appends the routes that a lookup in the table found, and why the rule says nothing if it doesn't decide.
fn push_found_notes(
    out: &mut Vec<u8>,
    suppress: Option<u8>,
    table: u32,
    best: &Route,
    runner_up: &Option<Route>,
) -> Result<(), AllocError>
    ensures { OnOk result (out.new.items ≡ out.old.items ++ notes_text (found_notes suppress table best.now runner_up.now)) }
{
    push_table(out, table)?;
    push_route(out, best)?;
    push_text(out, "\n")?;
    push_runner_up_notes(out, best, runner_up)?;
    push_silence_notes(out, suppress, best)
}

/// Appends that no route was found in the table.
fn push_no_route(out: &mut Vec<u8>, table: u32) -> Result<(), AllocError>
    ensures { OnOk result (out.new.items ≡ out.old.items ++ notes_text ((codes "table " ++ table_text table ++ codes ": no route") ∷ [])) }
{
    push_table(out, table)?;
    push_text(out, "no route\n")
}

/// Appends what a rule finds in the table, and returns whether it decides.
fn push_lookup_notes(
    out: &mut Vec<u8>,
    suppress: Option<u8>,
    table: u32,
    version: &Version,
    packet: &Packet,
) -> Result<bool, AllocError>
    ensures text { OnOk result (out.new.items
        ≡ out.old.items ++ notes_text (lookup_notes suppress table
        (best version.now.routes table packet.now.dst) version.now.routes packet.now.dst)) }
    ensures decides { IfOk result (λ decides. (priority : ℕ) → decides ≡ is_some (verdict_by (Lookup table) suppress priority version.now.routes packet.now)) }
{
    match look_up(version, table, packet.dst)? {
        Some(Found { best, runner_up }) => {
            push_found_notes(out, suppress, table, &best, &runner_up)?;
            Ok(speaks(suppress, &best))
        }
        None => {
            push_no_route(out, table)?;
            Ok(false)
        }
    }
}

/// Appends what a rule that matches does with the packet, and returns whether it decides.
pub(crate) fn push_action_notes(
    out: &mut Vec<u8>,
    rule: &Rule,
    version: &Version,
    packet: &Packet,
) -> Result<bool, AllocError>
    ensures text { OnOk result (out.new.items
        ≡ out.old.items ++ notes_text (action_notes rule.now.action rule.now.suppress version.now.routes packet.now.dst)) }
    ensures decides { IfOk result (λ decides.
        decides ≡ is_some (verdict_by rule.now.action rule.now.suppress rule.now.priority version.now.routes packet.now)) }
{
    match rule.action {
        Action::Lookup(table) => push_lookup_notes(out, rule.suppress, table, version, packet),
        Action::Blackhole | Action::Unreachable | Action::Prohibit => {
            push_text(out, "\tthe rule itself decides\n")?;
            Ok(true)
        }
    }
}
