//! What `ip` writes for the names of members.
ghost use Rattle.std.specs.Prelude.{◌≡◌, ◌++◌, OnOk, bytes_eq, codes, map, option_map, unwrap_or};
ghost use Rattle.std.specs.List.{list_any};
ghost use Rattle.prt_import.specs.IpJson.Listing.{opening, null_text};
ghost use Rattle.prt_import.specs.IpJson.Words.{between_in, inside, item_end, item_start, joint, joints, label, nesting_names, null_labels, own_label};
ghost use Rattle.prt_import.specs.IpJson.Words.{route_labels, rule_labels, text_in};

use super::words::{UNSAID, UNSAID_NEXT, is, push_next_word};
use prt_listing::push_text;
use std::alloc::AllocError;

/// How the members of an object are named.
#[derive(Clone, Copy)]
pub(crate) enum Naming {
    /// As those of a rule.
    Rule,
    /// As those of a route, of a next hop or of metrics.
    Route,
    /// Each by its own name.
    Own,
    /// Not at all.
    Nameless,
}

/// The texts for the names in a rule; `action` has none.
const RULE_LABELS: [(&str, &str); 12] = [
    ("src", " from"),
    ("dst", " to"),
    ("table", " lookup"),
    ("suppress_prefixlen", " suppress_prefixlength"),
    ("protocol", " proto"),
    ("flow_from", " realms"),
    ("flow_to", " realms"),
    ("sport_start", " sport"),
    ("dport_start", " dport"),
    ("uid_start", " uidrange"),
    ("nat_gateway", " map-to"),
    ("action", ""),
];

/// The texts for the names in a route, in a next hop and in metrics; what is in an array has no name.
const ROUTE_LABELS: [(&str, &str); 8] = [
    ("gateway", " via"),
    ("protocol", " proto"),
    ("prefsrc", " src"),
    ("flow", " realms"),
    ("flags", ""),
    ("metrics", ""),
    ("nexthops", ""),
    ("congestion", " congctl"),
];

/// The texts for the names that have null.
const NULL_LABELS: [(&str, &str); 9] = [
    ("not", " not"),
    ("nop", " nop"),
    ("masquerade", " masquerade"),
    ("unresolved", " [unresolved]"),
    ("iif_detached", " [detached]"),
    ("oif_detached", " [detached]"),
    ("l3mdev", " lookup [l3mdev-table]"),
    ("ecn", " features ecn"),
    ("tcp_usec_ts", " tcp_usec_ts"),
];

/// Two names of members that follow each other at once, and what comes between their values.
type Joint = (&'static str, &'static str, &'static str);

/// The names whose values are written together.
const JOINTS: [Joint; 9] = [
    ("type", "dst", " "),
    ("src", "srclen", "/"),
    ("dst", "dstlen", "/"),
    ("fwmark", "fwmask", "/"),
    ("flow_from", "flow_to", "/"),
    ("from", "to", "/"),
    ("sport_start", "sport_end", "-"),
    ("dport_start", "dport_end", "-"),
    ("uid_start", "uid_end", "-"),
];

/// Looks up the text for a name.
fn text_in(rows: &[(&'static str, &'static str)], name: &str) -> Option<&'static str>
    ensures { option_map (λ s. s.now) result ≡ text_in (map (λ row. (row.0.now, row.1.now)) rows.now) name.now }
{
    for (known, text) in rows {
        if is(name, known) {
            return Some(*text);
        }
    }
    None
}

/// Looks up the text for a name in a rule.
fn rule_label(name: &str) -> Option<&'static str>
    ensures { option_map (λ s. s.now) result ≡ text_in rule_labels name.now }
{
    text_in(&RULE_LABELS, name)
}

/// Looks up the text for a name in a route.
fn route_label(name: &str) -> Option<&'static str>
    ensures { option_map (λ s. s.now) result ≡ text_in route_labels name.now }
{
    text_in(&ROUTE_LABELS, name)
}

/// Looks up the text for a name that has null.
fn null_label(name: &str) -> Option<&'static str>
    ensures { option_map (λ s. s.now) result ≡ text_in null_labels name.now }
{
    text_in(&NULL_LABELS, name)
}

/// Looks up what comes between the values of two names.
fn between_in(joints: &[Joint], first: &str, second: &str) -> Option<&'static str>
    ensures { option_map (λ s. s.now) result ≡ between_in (map (λ j. joint j.0.now j.1.now j.2.now) joints.now) first.now second.now }
{
    for (known, after, between) in joints {
        if is(first, known) && is(second, after) {
            return Some(*between);
        }
    }
    None
}

/// Looks up what comes between the values of two names, if they are written together.
fn between(first: &str, second: &str) -> Option<&'static str>
    ensures { option_map (λ s. s.now) result ≡ between_in joints first.now second.now }
{
    between_in(&JOINTS, first, second)
}

/// Appends this text, or the name after a space if there is none.
fn push_text_or_name(
    out: &mut Vec<u8>,
    text: Option<&'static str>,
    name: &str,
) -> Result<(), AllocError>
    ensures { OnOk result (out.new.items ≡ out.old.items ++ unwrap_or (option_map (λ s. s.now) text.entry) (own_label name.now)) }
{
    match text {
        Some(text) => push_text(out, text),
        None => push_next_word(out, name),
    }
}

/// Appends what is written for a name.
pub(crate) fn push_label(out: &mut Vec<u8>, naming: Naming, name: &str) -> Result<(), AllocError>
    ensures { OnOk result (out.new.items ≡ out.old.items ++ label naming name.now) }
{
    match naming {
        Naming::Rule => push_text_or_name(out, rule_label(name), name),
        Naming::Route => push_text_or_name(out, route_label(name), name),
        Naming::Own => push_next_word(out, name),
        Naming::Nameless => Ok(()),
    }
}

/// Appends what is written for a name, and a space.
fn push_label_and_space(out: &mut Vec<u8>, naming: Naming, name: &str) -> Result<(), AllocError>
    ensures { OnOk result (out.new.items ≡ out.old.items ++ (label naming name.now ++ codes " ")) }
{
    push_label(out, naming, name)?;
    push_text(out, " ")
}

/// Appends what comes before a number or a text of this name.
pub(crate) fn push_opening(
    out: &mut Vec<u8>,
    naming: Naming,
    previous: Option<&str>,
    name: &str,
) -> Result<(), AllocError>
    ensures { OnOk result (out.new.items ≡ out.old.items ++ opening naming (option_map (λ s. s.now) previous.entry) name.now) }
{
    let Some(previous) = previous else {
        if is(name, "type") || is(name, "dst") {
            return Ok(());
        }
        return push_label_and_space(out, naming, name);
    };
    match between(previous, name) {
        Some(text) => push_text(out, text),
        None => push_label_and_space(out, naming, name),
    }
}

/// Appends a member with null.
pub(crate) fn push_null(out: &mut Vec<u8>, naming: Naming, name: &str) -> Result<(), AllocError>
    ensures { OnOk result (out.new.items ≡ out.old.items ++ null_text naming name.now) }
{
    if let Some(text) = null_label(name) {
        return push_text(out, text);
    }
    push_label_and_space(out, naming, name)?;
    push_text(out, UNSAID)
}

impl Naming {
    /// Chooses how the members in the value of a member are named.
    pub(crate) fn inside(self, name: &str) -> Naming
        ensures { result ≡ inside self name.now }
    {
        match self {
            Naming::Route if is(name, "nexthops") || is(name, "metrics") => Naming::Route,
            Naming::Route if is(name, "via") || is(name, "flow") => Naming::Nameless,
            _ => Naming::Own,
        }
    }

    /// Chooses what comes before each value of an array in a member of this name.
    pub(crate) fn item_start(self, name: &str) -> &'static str
        ensures { result.now ≡ item_start self name.now }
    {
        match self {
            Naming::Route if is(name, "nexthops") => "\n\tnexthop",
            _ => "",
        }
    }

    /// Chooses what comes after an array or an object in a member of this name.
    pub(crate) fn item_end(self, name: &str) -> &'static str
        ensures { result.now ≡ item_end self name.now }
    {
        match self {
            Naming::Route if is_nesting(name) => "",
            _ => UNSAID_NEXT,
        }
    }
}

/// Checks whether a member of this name in a route has an array or an object that is known.
fn is_nesting(name: &str) -> bool
    ensures { result ≡ list_any (λ known. bytes_eq known name.now) nesting_names }
{
    is(name, "flags")
        || is(name, "metrics")
        || is(name, "nexthops")
        || is(name, "via")
        || is(name, "flow")
}
