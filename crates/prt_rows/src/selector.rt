//! What is passed of a selector to the statement that deletes routes by it.

ghost use Rattle.std.specs.Prelude.{◌≡◌, ◌<◌, ◌+◌, ◌-◌, ◌^◌, option_map};
ghost use Rattle.sqlite.specs.Values.{bound, bound_value};
ghost use Rattle.sqlite_value.specs.Value.{owned};
ghost use Rattle.prt_rows.specs.Cell.{optional_number};
ghost use Rattle.prt_rows.specs.RouteRow.{kind_code};
ghost use Rattle.prt_rows.specs.Selecting.{HasPrefix, IsSelector, bounds_of, selector_row};

use crate::code::kind_code;
use crate::value;
use prt_addr::Prefix;
use prt_route::{Kind, Range, Selector};
use sqlite::types::ValueRef;

/// The addresses and lengths of the prefixes of a range.
#[derive(Clone, Copy)]
pub(crate) struct Bounds {
    /// The least address.
    low: u32,
    /// The greatest address.
    high: u64,
    /// The least length, in bits.
    shortest: u8,
    /// The greatest length, in bits.
    longest: u8,
    /// An address that comes before the end of each.
    inside: u32,
}

/// Computes the last address of a prefix.
fn last_addr(block: &Prefix) -> u64
    ensures value { result ≡ block.now.bits + (2 ^ (32 - block.now.len) - 1) }
    ensures fits { result < 2 ^ 63 }
{
    u64::from(block.bits()) + ((1u64 << (32 - block.len())) - 1)
}

/// Computes the bounds of the prefixes of a range.
fn bounds_of(range: &Range) -> Bounds
    ensures value { result ≡ bounds_of range.now }
    ensures fits { result.high < 2 ^ 63 }
    ensures prefix { HasPrefix range.now }
{
    match range {
        Range::All => Bounds {
            low: 0,
            high: u64::from(u32::MAX),
            shortest: 0,
            longest: 32,
            inside: 0,
        },
        Range::Root(block) => Bounds {
            low: block.bits(),
            high: last_addr(block),
            shortest: block.len(),
            longest: 32,
            inside: 0,
        },
        Range::Covering(block) => Bounds {
            low: 0,
            high: u64::from(block.bits()),
            shortest: 0,
            longest: block.len(),
            inside: block.bits(),
        },
        Range::Exact(block) => Bounds {
            low: block.bits(),
            high: u64::from(block.bits()),
            shortest: block.len(),
            longest: block.len(),
            inside: 0,
        },
    }
}

/// Builds the cell of a kind that may be left out: -1 if it is.
fn optional_kind(kind: Option<Kind>) -> ValueRef<'static>
    ensures { bound_value (owned result) ≡ optional_number (option_map kind_code kind) }
{
    match kind {
        Some(kind) => value::number(kind_code(kind)),
        None => value::optional_number(None),
    }
}

/// Builds the cell of an 8-bit number that may be left out: -1 if it is.
fn optional_byte(n: Option<u8>) -> ValueRef<'static>
    ensures { bound_value (owned result) ≡ optional_number n }
{
    match n {
        Some(n) => value::number(u32::from(n)),
        None => value::optional_number(None),
    }
}

/// Builds the values by which the statement that deletes routes by a selector knows which ones to delete, in the order
/// of its parameters.
///
/// These are the table, the least and the greatest address, the shortest and the longest length in bits, an address
/// that comes before the end of each prefix, kind, protocol, scope and interface. What the selector leaves open is -1,
/// or the empty text for the interface.
pub fn selector_values(selector: &Selector) -> [ValueRef<'_>; 10]
    ensures value { bound result ≡ selector_row selector.now }
    ensures selector { IsSelector selector.now }
{
    let bounds = bounds_of(&selector.range);
    [
        value::optional_number(selector.table),
        value::number(bounds.low),
        value::large_number(bounds.high),
        value::number(u32::from(bounds.shortest)),
        value::number(u32::from(bounds.longest)),
        value::number(bounds.inside),
        optional_kind(selector.kind),
        optional_byte(selector.proto),
        optional_byte(selector.scope),
        value::optional_name(&selector.dev),
    ]
}
