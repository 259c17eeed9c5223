//! Fields and their values.
ghost use Rattle.std.specs.Prelude.{◌≡◌, option_map, decimal, unwrap_or};
ghost use Rattle.prt_addr.specs.Addr.{addr_text};
ghost use Rattle.prt_listing.specs.Parts.{table_text};
ghost use Rattle.json.specs.Json.{string};
ghost use Rattle.prt_json.specs.ExplanationJson.{truth_field};
ghost use Rattle.prt_json.specs.Fields.{dev_field, empty_field, text_field};
ghost use Rattle.prt_json.specs.Steps.{member_of, value_json};

use prt_addr::{Addr, Prefix};
use prt_listing::Part;
use prt_route::{Dev, table_name};

/// A value of a field.
#[derive(Clone, Copy)]
pub(crate) enum Value {
    Null,
    /// An array without values.
    Empty,
    Truth(bool),
    Number(u64),
    /// A string, as are all that follow.
    Name(&'static str),
    /// Decimal digits.
    Digits(u32),
    /// `0`, or `0x` and hexadecimal digits.
    Hexadecimal(u32),
    Addr(Addr),
    Prefix(Prefix),
    Dev(Dev),
    Part(Part),
}

/// A field of an object: its name and its value.
#[derive(Clone, Copy)]
pub(crate) struct Field(pub &'static str, pub Value);

/// Makes the field of an address, if there is one.
pub(crate) fn addr_field(name: &'static str, addr: Option<Addr>) -> Option<Field>
    ensures { member_of result ≡ text_field name.now (option_map addr_text addr) }
{
    addr.map(|addr| Field(name, Value::Addr(addr)))
}

/// Makes the field of an interface, if there is one.
pub(crate) fn dev_field(name: &'static str, dev: Option<Dev>) -> Option<Field>
    ensures { member_of result ≡ dev_field name.now dev }
{
    dev.map(|dev| Field(name, Value::Dev(dev)))
}

/// Makes the field of an empty array.
pub(crate) fn empty_field(name: &'static str) -> Option<Field>
    ensures { member_of result ≡ empty_field name.now }
{
    Some(Field(name, Value::Empty))
}

/// Makes the field of what is true or false.
pub(crate) fn truth_field(name: &'static str, is_true: bool) -> Option<Field>
    ensures { member_of result ≡ truth_field name.now is_true }
{
    Some(Field(name, Value::Truth(is_true)))
}

/// Returns the name of a number or, if it has none, its digits.
pub(crate) fn name_or_digits(name: Option<&'static str>, number: u32) -> Value
    ensures { value_json result ≡ string (unwrap_or (option_map (λ s. s.now) name.entry) (decimal number)) }
{
    match name {
        Some(name) => Value::Name(name),
        None => Value::Digits(number),
    }
}

/// Returns the name of a table or, if it has none, its digits.
pub(crate) fn table_value(table: u32) -> Value
    ensures { value_json result ≡ string (table_text table) }
{
    name_or_digits(table_name(table), table)
}
