//! What a line that `ip` prints is about, also if it can't be kept.
ghost use Rattle.std.specs.Prelude.{◌≡◌, [], option_map};
ghost use Rattle.prt_command.specs.Reading.{words};
ghost use Rattle.prt_import.specs.Keys.{destination_of, is_type, metric_in, naming, prefix_in, route_key, rule_priority, table_in, value_of};
ghost use Rattle.prt_addr.specs.Prefix.{prefix};
ghost use Rattle.prt_route.specs.Names.{table};
ghost use Rattle.prt_import.specs.TableNames.{known_names};

use crate::names::HostNames;
use crate::rule::priority_of;
use crate::step::{is_dropping_type, is_other_type};
use prt_addr::{Prefix, read_number, read_prefix};
use prt_command::{is, next_word};
use prt_route::{MAIN_TABLE, RouteKey, read_table};

/// Checks whether the word is a type of routes.
fn is_type(word: &[u8]) -> bool
    ensures { result ≡ is_type word.now }
{
    is_dropping_type(word) || is_other_type(word) || is(word, b"unicast")
}

/// Finds the destination in a route's line.
pub(crate) fn destination_of(line: &[u8]) -> Option<&[u8]>
    ensures { option_map (λ word. word.now) result ≡ destination_of (words line.now) }
{
    let (word, items) = next_word(line)?;
    if !is_type(word) {
        return Some(word);
    }
    let (destination, _) = next_word(items)?;
    Some(destination)
}

/// Returns a word that may name an item: the name of an interface names none.
fn naming<'a>(before: &[u8], word: &'a [u8]) -> &'a [u8]
    ensures { result.now ≡ naming before.now word.now }
{
    if is(before, b"dev") { &word[..0] } else { word }
}

/// Finds the value of an item in a route's line.
fn value_of<'a>(name: &[u8], line: &'a [u8]) -> Option<&'a [u8]>
    ensures { option_map (λ word. word.now) result ≡ value_of name.now (words line.now) }
{
    let mut before = &line[..0];
    let mut rest = line;
    while let Some((word, after)) = next_word(rest) {
        if is(before, name) {
            return Some(word);
        }
        before = naming(before, word);
        rest = after;
    }
    None
}

/// Reads a table as a line of the command language names it.
fn table_of(word: &[u8]) -> Option<u32>
    ensures { result ≡ table word.now }
{
    read_table(word).ok()
}

/// Finds the number of a table by its name or its number, main if none is said.
fn table_in(names: &HostNames, value: Option<&[u8]>) -> Option<u32>
    ensures { result ≡ table_in (known_names names.now) (option_map (λ word. word.now) value.entry) }
{
    let Some(word) = value else {
        return Some(MAIN_TABLE);
    };
    match names.tables.find(word) {
        Some(number) => Some(number),
        None => table_of(word),
    }
}

/// Parses a metric, 0 if none is said.
fn metric_in(value: Option<&[u8]>) -> Option<u32>
    ensures { result ≡ metric_in (option_map (λ word. word.now) value.entry) }
{
    match value {
        Some(word) => read_number(word).ok(),
        None => Some(0),
    }
}

/// Reads the prefix of a destination.
fn prefix_of(destination: &[u8]) -> Option<Prefix>
    ensures { result ≡ prefix_in (prefix destination.now) }
{
    read_prefix(destination).ok()
}

/// Finds the key of the route that a line of `ip -4 route show table all` is about, whatever else the line says: also of one
/// that [`import`](crate::import) leaves out. Another route of this key would take its place in the kernel, or be refused.
///
/// There is none if the line has no destination of IPv4, or a table or a metric that can't be read.
pub fn route_key(names: &HostNames, line: &[u8]) -> Option<RouteKey>
    ensures { result ≡ route_key (known_names names.now) (words line.now) }
{
    let prefix = prefix_of(destination_of(line)?)?;
    let table = table_in(names, value_of(b"table", line))?;
    let metric = metric_in(value_of(b"metric", line))?;
    Some(RouteKey {
        table,
        prefix,
        metric,
    })
}

/// Finds the priority of the rule that a line of `ip -4 rule` is about, whatever else the line says.
///
/// There is none if the line is not a rule's, or its priority is over 2^32 - 1.
pub fn rule_priority(line: &[u8]) -> Option<u32>
    ensures { result ≡ rule_priority (words line.now) }
{
    let (word, _) = next_word(line)?;
    read_number(priority_of(word)?).ok()
}
