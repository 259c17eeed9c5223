ghost use Rattle.std.specs.Prelude.{◌≡◌, decimal, option_map, unwrap_or};
ghost use Rattle.prt_addr.specs.Addr.{addr_text};
ghost use Rattle.prt_route.specs.Names.{protocols, scopes};
ghost use Rattle.prt_listing.specs.Parts.{is_everything, name_or_number, part, prefix_or, table_text};
ghost use Rattle.prt_listing.specs.Steps.{part_of, value_text};

use prt_route::{Addr, Dev, Prefix, protocol_name, scope_name, table_name};
use prt_rule::Mark;

/// A value that a text shows.
#[derive(Clone, Copy)]
pub enum Value {
    Text(&'static str),
    Number(u64),
    Mark(Mark),
    Addr(Addr),
    Prefix(Prefix),
    Dev(Dev),
}

/// A part of a text.
#[derive(Clone, Copy)]
pub enum Part {
    /// A value by itself.
    Alone(Value),
    /// A value after the word that says what it is.
    Named(&'static str, Value),
}

/// Returns the name of a number or, if it has none, the number.
pub(crate) fn name_or_number(name: Option<&'static str>, number: u32) -> Value
    ensures { value_text result ≡ unwrap_or (option_map (λ s. s.now) name.entry) (decimal number) }
{
    match name {
        Some(name) => Value::Text(name),
        None => Value::Number(u64::from(number)),
    }
}

/// Returns the name of a table or, if it has none, its number.
pub fn table_value(table: u32) -> Value
    ensures { value_text result ≡ table_text table }
{
    name_or_number(table_name(table), table)
}

/// Returns the name of a protocol or, if it has none, its number.
pub fn protocol_value(proto: u8) -> Value
    ensures { value_text result ≡ name_or_number protocols proto }
{
    name_or_number(protocol_name(proto), u32::from(proto))
}

/// Returns the name of a scope or, if it has none, its number.
pub fn scope_value(scope: u8) -> Value
    ensures { value_text result ≡ name_or_number scopes scope }
{
    name_or_number(scope_name(scope), u32::from(scope))
}

/// Checks whether the prefix holds every address.
pub fn is_everything(prefix: &Prefix) -> bool
    ensures { result ≡ is_everything prefix.now }
{
    prefix.bits() == 0 && prefix.len() == 0
}

/// Returns the prefix, or this word for that of every address.
pub fn prefix_or(word: &'static str, prefix: &Prefix) -> Value
    ensures { value_text result ≡ prefix_or word.now prefix.now }
{
    if is_everything(prefix) {
        Value::Text(word)
    } else {
        Value::Prefix(*prefix)
    }
}

/// Builds a word and an address, if there is an address.
pub fn addr_part(word: &'static str, addr: Option<Addr>) -> Option<Part>
    ensures { part_of result ≡ part word.now (option_map addr_text addr) }
{
    addr.map(|addr| Part::Named(word, Value::Addr(addr)))
}

/// Builds a word and the name of an interface, if there is one.
pub fn dev_part(word: &'static str, dev: Option<Dev>) -> Option<Part>
    ensures { part_of result ≡ part word.now dev }
{
    dev.map(|dev| Part::Named(word, Value::Dev(dev)))
}
