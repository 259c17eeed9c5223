//! Tables, protocols and scopes: numbers of which some have names (`ip-route(8)`).
ghost use Rattle.std.specs.Prelude.{◌≡◌, map, option_map};
ghost use Rattle.std.specs.Option.{ok_or};
ghost use Rattle.prt_refusals.specs.declared.refusal.Refusal.TheVariants.{BadNumber, BadTable};
ghost use Rattle.prt_route.specs.Names.{name_in, number_in, protocol, protocols, scope, scopes, spelled_byte, spelled_number, table, tables};

use crate::Refusal;
use prt_addr::read_number;

/// The table of the host's own addresses.
pub const LOCAL_TABLE: u32 = 255;

/// The table that a command means if it names none.
pub const MAIN_TABLE: u32 = 254;

/// The table that the last of the opening rules looks up.
pub const DEFAULT_TABLE: u32 = 253;

/// The protocol of a route that is added without one.
pub const BOOT_PROTOCOL: u8 = 3;

/// The scope of a route through a gateway, if none is given.
pub const GLOBAL_SCOPE: u8 = 0;

/// The scope of a route without a gateway, if none is given.
pub const LINK_SCOPE: u8 = 253;

/// A name and its number.
type Named = (&'static str, u32);

const TABLES: [Named; 3] = [
    ("local", LOCAL_TABLE),
    ("main", MAIN_TABLE),
    ("default", DEFAULT_TABLE),
];

const PROTOCOLS: [Named; 11] = [
    ("kernel", 2),
    ("boot", BOOT_PROTOCOL as u32),
    ("static", 4),
    ("ra", 9),
    ("zebra", 11),
    ("bird", 12),
    ("dhcp", 16),
    ("bgp", 186),
    ("isis", 187),
    ("ospf", 188),
    ("rip", 189),
];

const SCOPES: [Named; 5] = [
    ("global", GLOBAL_SCOPE as u32),
    ("site", 200),
    ("link", LINK_SCOPE as u32),
    ("host", 254),
    ("nowhere", 255),
];

/// Looks up the name of a number.
fn name_in(names: &[Named], wanted: u32) -> Option<&'static str>
    ensures { option_map (λ s. s.now) result ≡ name_in (map (λ row. (row.0.now, row.1)) names.now) wanted }
{
    for (name, number) in names {
        if *number == wanted {
            return Some(name);
        }
    }
    None
}

/// Looks up the number of a name.
fn number_in(names: &[Named], word: &[u8]) -> Option<u32>
    ensures { result ≡ number_in (map (λ row. (row.0.now, row.1)) names.now) word.now }
{
    for (name, number) in names {
        if name.as_bytes() == word {
            return Some(*number);
        }
    }
    None
}

/// Looks up the name of a routing protocol's number, if it has one (`ip-route(8)`).
pub fn protocol_name(number: u8) -> Option<&'static str>
    ensures { option_map (λ s. s.now) result ≡ name_in protocols number }
{
    name_in(&PROTOCOLS, u32::from(number))
}

/// Looks up the name of a scope's number, if it has one (`ip-route(8)`).
pub fn scope_name(number: u8) -> Option<&'static str>
    ensures { option_map (λ s. s.now) result ≡ name_in scopes number }
{
    name_in(&SCOPES, u32::from(number))
}

/// Looks up the name of a table's number, if it has one (`ip-route(8)`).
pub fn table_name(number: u32) -> Option<&'static str>
    ensures { option_map (λ s. s.now) result ≡ name_in tables number }
{
    name_in(&TABLES, number)
}

/// Reads a number, by one of these names or in digits.
fn spelled_number(names: &[Named], word: &[u8]) -> Option<u32>
    ensures { result ≡ spelled_number (map (λ row. (row.0.now, row.1)) names.now) word.now }
{
    match number_in(names, word) {
        Some(number) => Some(number),
        None => read_number(word).ok(),
    }
}

/// Reads a number of at most 255, by one of these names or in digits.
fn spelled_byte(names: &[Named], word: &[u8]) -> Option<u8>
    ensures { result ≡ spelled_byte (map (λ row. (row.0.now, row.1)) names.now) word.now }
{
    u8::try_from(spelled_number(names, word)?).ok()
}

/// Reads a table: `local`, `main` or `default`, or a number of 1 to 2^32 - 1 (`ip-route(8)`).
///
/// # Errors
///
/// `BadTable` if the word is not a table.
pub fn read_table(word: &[u8]) -> Result<u32, Refusal>
    ensures { result ≡ ok_or (table word.now) BadTable }
{
    match spelled_number(&TABLES, word) {
        Some(number) if number > 0 => Ok(number),
        _ => Err(Refusal::BadTable),
    }
}

/// Reads a protocol: `kernel`, `boot`, `static`, `ra`, `zebra`, `bird`, `dhcp`, `bgp`, `isis`, `ospf` or `rip`, or a
/// number of 0 to 255 (`ip-route(8)`).
///
/// # Errors
///
/// `BadNumber` if the word is not a protocol.
pub fn read_protocol(word: &[u8]) -> Result<u8, Refusal>
    ensures { result ≡ ok_or (protocol word.now) BadNumber }
{
    spelled_byte(&PROTOCOLS, word).ok_or(Refusal::BadNumber)
}

/// Reads a scope: `global`, `site`, `link`, `host` or `nowhere`, or a number of 0 to 255 (`ip-route(8)`).
///
/// # Errors
///
/// `BadNumber` if the word is not a scope.
pub fn read_scope(word: &[u8]) -> Result<u8, Refusal>
    ensures { result ≡ ok_or (scope word.now) BadNumber }
{
    spelled_byte(&SCOPES, word).ok_or(Refusal::BadNumber)
}
