//! The values of items.
ghost use Rattle.std.specs.Prelude.{◌≡◌, false, true, Option};
ghost use Rattle.std.specs.Option.{ok_or};
ghost use Rattle.prt_refusals.specs.declared.refusal.Refusal.TheVariants.{BadNumber, UnknownWord};
ghost use Rattle.prt_command.specs.Steps.{is_of_queries, is_of_rules};
ghost use Rattle.prt_command.specs.declared.item.PrefixWord.{PrefixWord};
ghost use Rattle.prt_command.specs.Values.{kind_before, kind_of, length_number, lookup, range, target, value, which_tables};

use crate::item::kind_of;
use crate::mark::read_mark;
use crate::words::is;
use crate::{Item, PrefixWord, Slot, Target, WhichTables};
use prt_addr::{read_addr, read_net, read_number, read_prefix};
use prt_route::{Kind, Range, Refusal, read_dev, read_protocol, read_scope, read_table};
use prt_rule::Action;

/// Takes the kind out of the word before a destination.
fn kind_before(before: Option<PrefixWord>) -> Option<Kind>
    ensures { result ≡ kind_before before }
{
    match before {
        Some(PrefixWord::Kind(kind)) => Some(kind),
        _ => None,
    }
}

/// Reads the prefix of a destination, after the kind that comes before it.
fn read_target(before: Option<PrefixWord>, word: &[u8]) -> Result<Target, Refusal>
    ensures { result ≡ target before word.now }
{
    let prefix = read_prefix(word)?;
    let kind = kind_before(before);
    Ok(Target { kind, prefix })
}

/// Reads the prefix of a range, after the word that comes before it.
fn read_range(before: Option<PrefixWord>, word: &[u8]) -> Result<Range, Refusal>
    ensures { result ≡ range before word.now }
{
    let prefix = read_net(word)?;
    Ok(match before {
        Some(PrefixWord::Root) => Range::Root(prefix),
        Some(PrefixWord::Match) => Range::Covering(prefix),
        _ => Range::Exact(prefix),
    })
}

/// Reads `all`, or a table.
fn read_tables(word: &[u8]) -> Result<WhichTables, Refusal>
    ensures { result ≡ which_tables word.now }
{
    if is(word, b"all") {
        return Ok(WhichTables::All);
    }
    Ok(WhichTables::One(read_table(word)?))
}

/// Reads a kind, after the word `type`.
fn read_kind(word: &[u8]) -> Result<Kind, Refusal>
    ensures { result ≡ ok_or (kind_of word.now) UnknownWord }
{
    kind_of(word).ok_or(Refusal::UnknownWord)
}

/// Reads the table that a rule looks up.
fn read_lookup(word: &[u8]) -> Result<Action, Refusal>
    ensures { result ≡ lookup word.now }
{
    Ok(Action::Lookup(read_table(word)?))
}

/// Reads a length of 0 to 32, as a number.
fn read_length(word: &[u8]) -> Result<u8, Refusal>
    ensures { result ≡ ok_or (length_number word.now) BadNumber }
{
    let length = read_number(word)?;
    if length > 32 {
        return Err(Refusal::BadNumber);
    }
    Ok(length as u8)
}

/// Checks whether it is an item of rules.
fn is_of_rules(slot: Slot) -> bool
    ensures { result ≡ is_of_rules slot }
{
    matches!(
        slot,
        Slot::Inverted
            | Slot::From
            | Slot::To
            | Slot::Fwmark
            | Slot::Priority
            | Slot::Action
            | Slot::Suppress
    )
}

/// Reads a word as the value of an item of rules.
fn rule_value(slot: Slot, word: &[u8]) -> Result<Item, Refusal>
    requires { is_of_rules slot ≡ true }
    ensures { (before : Option PrefixWord) → result ≡ value slot before word.now }
{
    match slot {
        Slot::From => Ok(Item::From(read_net(word)?)),
        Slot::To => Ok(Item::To(read_net(word)?)),
        Slot::Fwmark => Ok(Item::Fwmark(read_mark(word)?)),
        Slot::Priority => Ok(Item::Priority(read_number(word)?)),
        Slot::Action => Ok(Item::Action(read_lookup(word)?)),
        Slot::Suppress => Ok(Item::Suppress(read_length(word)?)),
        _ => Ok(Item::Inverted),
    }
}

/// Checks whether it is an item of lines that list or flush routes, or ask for one.
fn is_of_queries(slot: Slot) -> bool
    ensures { result ≡ is_of_queries slot }
{
    matches!(
        slot,
        Slot::Range
            | Slot::Tables
            | Slot::OfKind
            | Slot::Address
            | Slot::Source
            | Slot::Iif
            | Slot::Mark
    )
}

/// Reads a word as the value of an item of such lines, after the word that comes before its prefix.
fn query_value(slot: Slot, before: Option<PrefixWord>, word: &[u8]) -> Result<Item, Refusal>
    requires { is_of_queries slot ≡ true }
    ensures { result ≡ value slot before word.now }
{
    match slot {
        Slot::Range => Ok(Item::Range(read_range(before, word)?)),
        Slot::Tables => Ok(Item::Tables(read_tables(word)?)),
        Slot::OfKind => Ok(Item::OfKind(read_kind(word)?)),
        Slot::Address => Ok(Item::Address(read_addr(word)?)),
        Slot::Source => Ok(Item::Source(read_addr(word)?)),
        Slot::Iif => Ok(Item::Iif(read_dev(word)?)),
        _ => Ok(Item::Mark(read_number(word)?)),
    }
}

/// Reads a word as the value of an item of routes, after the word that comes before its prefix.
fn route_value(slot: Slot, before: Option<PrefixWord>, word: &[u8]) -> Result<Item, Refusal>
    requires rules { is_of_rules slot ≡ false }
    requires queries { is_of_queries slot ≡ false }
    ensures { result ≡ value slot before word.now }
{
    match slot {
        Slot::Via => Ok(Item::Via(read_addr(word)?)),
        Slot::Dev => Ok(Item::Dev(read_dev(word)?)),
        Slot::Table => Ok(Item::Table(read_table(word)?)),
        Slot::Proto => Ok(Item::Proto(read_protocol(word)?)),
        Slot::Scope => Ok(Item::Scope(read_scope(word)?)),
        Slot::Src => Ok(Item::Src(read_addr(word)?)),
        Slot::Metric => Ok(Item::Metric(read_number(word)?)),
        _ => Ok(Item::Destination(read_target(before, word)?)),
    }
}

/// Reads a word as the value of an item, after the word that comes before its prefix.
///
/// # Errors
///
/// What is wrong with the word: `BadAddress`, `BadPrefix`, `HostBits`, `BadNumber`, `BadTable`, `BadName`, or for a kind
/// `UnknownWord`.
// In its caller the choice by slot leads straight to the place where the item is put, with no copy of it between.
#[inline(always)]
pub(crate) fn value(slot: Slot, before: Option<PrefixWord>, word: &[u8]) -> Result<Item, Refusal>
    ensures { result ≡ value slot before word.now }
{
    if is_of_rules(slot) {
        return rule_value(slot, word);
    }
    if is_of_queries(slot) {
        return query_value(slot, before, word);
    }
    route_value(slot, before, word)
}
