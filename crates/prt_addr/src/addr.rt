ghost use Rattle.std.specs.Prelude.{◌≡◌, option_map, Some};
ghost use Rattle.std.specs.Option.{ok_or};
ghost use Rattle.prt_addr.specs.Addr.{address, addr_text, address_of};
ghost use Rattle.prt_refusals.specs.declared.refusal.Refusal.TheVariants.{BadAddress};

use crate::decimal::read_decimal;
use crate::word::split_first_part;
use arrayvec::ArrayString;
use itoa::Buffer;
use prt_refusals::Refusal;
use std::fmt;

/// An IPv4 address as a number, whose highest byte is the first of the four dotted parts.
#[derive(Clone, Copy, Debug, PartialEq, Eq)]
pub struct Addr(pub u32);

/// Reads an address of one to four decimal parts joined by dots; missing parts are 0.
///
/// Each part is 0 to 255 in at most three digits, and one of two digits or more does not begin with 0.
///
/// # Errors
///
/// `BadAddress` if the word is not an address.
pub fn read_addr(word: &[u8]) -> Result<Addr, Refusal>
    ensures { result ≡ ok_or (address word.now) BadAddress }
{
    parse_addr(word).ok_or(Refusal::BadAddress)
}

/// Reads an address, if the word is one.
pub(crate) fn parse_addr(word: &[u8]) -> Option<Addr>
    ensures { result ≡ address word.now }
{
    let octets = read_octets(word)?;
    Some(Addr(u32::from_be_bytes(octets)))
}

/// Reads the octets of one to four decimal parts; missing parts are 0.
fn read_octets(word: &[u8]) -> Option<[u8; 4]>
    ensures { option_map address_of result ≡ address word.now }
{
    let mut octets = [0; 4];
    let mut rest = Some(word);
    for octet in &mut octets {
        let Some(word) = rest else { break };
        let (part, after) = split_first_part(word, b'.');
        *octet = read_decimal(part, 3, 255)?;
        rest = after;
    }
    if rest.is_some() { None } else { Some(octets) }
}

/// Formats the address as four decimal parts joined by dots.
pub fn addr_text(addr: Addr) -> ArrayString<15>
    ensures { result.bytes ≡ addr_text addr }
{
    let [first, second, third, fourth] = addr.0.to_be_bytes();
    let mut buffer = Buffer::new();
    let mut text = ArrayString::new();
    text.push_str(buffer.format(first));
    text.push_str(".");
    text.push_str(buffer.format(second));
    text.push_str(".");
    text.push_str(buffer.format(third));
    text.push_str(".");
    text.push_str(buffer.format(fourth));
    text
}

impl fmt::Display for Addr {
    ghost output = { λ addr. Some (addr_text addr) };

    fn fmt<W: fmt::Write>(&self, f: &mut fmt::Formatter<W>) -> fmt::Result {
        f.write_str(addr_text(*self).as_str())
    }
}
