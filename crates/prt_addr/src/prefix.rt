ghost use Rattle.std.specs.Prelude.{◌≡◌, ◌≤◌, option_map, IfSome, Some};
ghost use Rattle.std.specs.Option.{SomeIff, ok_or};
ghost use Rattle.prt_addr.specs.Word.{is_one_of};
ghost use Rattle.prt_addr.specs.Block.{Block};
ghost use Rattle.prt_addr.specs.Sound.{IsPrefix};
ghost use Rattle.prt_addr.specs.Prefix.{contains, masked, net, prefix, prefix_text, block, everything_words, within};
ghost use Rattle.prt_addr.specs.Steps.{block_from};
ghost use Rattle.prt_refusals.specs.declared.refusal.Refusal.TheVariants.{BadPrefix};

use crate::addr::parse_addr;
use crate::decimal::read_decimal;
use crate::word::{is, split_first_part};
use crate::{Addr, addr_text};
use arrayvec::ArrayString;
use itoa::Buffer;
use prt_refusals::Refusal;
use std::fmt;
use std::marker::Model;

/// An IPv4 prefix: the addresses that begin with its first `len` bits.
///
/// The bits after the length, its host bits, are 0.
#[derive(Clone, Copy, Debug, Eq)]
pub struct Prefix {
    bits: u32,
    /// The bits after the length, all set: how far the last address is from the first.
    host_mask: u32,
    len: u8,
}

impl Model for Prefix {
    ghost use Rattle.std.specs.Prelude.{◌≡◌, ◌+◌, ◌-◌, ◌^◌};
    ghost use Rattle.prt_addr.specs.Block.{Block};
    ghost use Rattle.prt_addr.specs.Sound.{IsPrefix};

    ghost Value = { Block };

    ghost view = { λ p. record { bits = p.bits; len = p.len } };

    ghost invariant = { λ p. IsPrefix (record { bits = p.bits; len = p.len }) × (p.host_mask + 1 ≡ 2 ^ (32 - p.len)) };

    ghost inverse = { λ block. record { bits = block.bits; host_mask = 2 ^ (32 - block.len) - 1; len = block.len } };
}

// Not derived: a derived `eq` also says how the host masks compare.
impl PartialEq for Prefix {
    ghost use Rattle.std.proofs.Common.{rules};
    ghost use Rattle.prt_addr.specs.Prefix.{is_same_prefix};

    ghost eq = { is_same_prefix };

    ghost laws = { Prim.search rules };

    fn eq(&self, other: &Prefix) -> bool {
        self.bits == other.bits && self.len == other.len
    }
}

impl Prefix {
    /// Makes the prefix of these bits and this length, if the length is at most 32 and no host bit is set.
    pub fn new(bits: u32, len: u8) -> Option<Prefix>
        ensures { SomeIff result (IsPrefix (record { bits = bits; len = len })) (record { bits = bits; len = len }) }
    {
        if len > 32 {
            return None;
        }
        let prefix = Prefix::masked(bits, len);
        if prefix.bits == bits {
            Some(prefix)
        } else {
            None
        }
    }

    /// Builds the prefix of this length, at most 32, with the host bits of `bits` cleared.
    pub fn masked(bits: u32, len: u8) -> Prefix
        requires { len ≤ 32 }
        ensures { result ≡ masked (record { bits = bits; len = len }) }
    {
        let block_size = 1u64 << (32 - len);
        Prefix {
            bits: bits - (u64::from(bits) % block_size) as u32,
            host_mask: (block_size - 1) as u32,
            len,
        }
    }

    /// Returns the bits of the prefix, as those of an address.
    pub fn bits(&self) -> u32
        ensures value { result ≡ self.now.bits }
        ensures prefix { IsPrefix self.now }
    {
        self.bits
    }

    /// Returns the length in bits, 0 to 32.
    pub fn len(&self) -> u8
        ensures value { result ≡ self.now.len }
        ensures short { result ≤ 32 }
    {
        self.len
    }

    /// Checks whether the address begins with the prefix's bits (Basic Match of RFC 1812, section 5.2.4.3).
    #[tactic(auto, using(crate::proofs::Ranges::is_in_reach))]
    pub fn contains(&self, addr: Addr) -> bool
        ensures { result ≡ contains self.now addr }
    {
        addr.0.wrapping_sub(self.bits) <= self.host_mask
    }

    /// Checks whether every address of this prefix is one of the other's.
    pub fn within(&self, other: &Prefix) -> bool
        ensures { result ≡ within self.now other.now }
    {
        other.contains(Addr(self.bits)) && other.len <= self.len
    }
}

/// Reads a prefix: `default`, `all` or `any` for 0.0.0.0/0, an address, or an address, `/` and a length of 0 to 32.
///
/// A missing length is 32.
///
/// # Errors
///
/// `BadPrefix` if the word is not a prefix, and otherwise `HostBits` if a bit after the length is set.
pub fn read_prefix(word: &[u8]) -> Result<Prefix, Refusal>
    ensures { result ≡ prefix word.now }
{
    let (addr, len) = read_block(word).ok_or(Refusal::BadPrefix)?;
    Prefix::new(addr.0, len).ok_or(Refusal::HostBits)
}

/// Reads a prefix as `read_prefix` does, but clears the bits after the length.
///
/// # Errors
///
/// `BadPrefix` if the word is not a prefix.
pub fn read_net(word: &[u8]) -> Result<Prefix, Refusal>
    ensures { result ≡ ok_or (net word.now) BadPrefix }
{
    let (addr, len) = read_block(word).ok_or(Refusal::BadPrefix)?;
    Ok(Prefix::masked(addr.0, len))
}

/// Checks whether the word represents every address.
fn is_everything(word: &[u8]) -> bool
    ensures { result ≡ is_one_of word.now everything_words }
{
    is(word, "default") || is(word, "all") || is(word, "any")
}

/// Reads an address and a length of 0 to 32, whatever the bits after the length.
fn read_block(word: &[u8]) -> Option<(Addr, u8)>
    ensures value { option_map block_from result ≡ block word.now }
    ensures short { IfSome result (λ x. x.1 ≤ 32) }
{
    if is_everything(word) {
        return Some((Addr(0), 0));
    }
    let (bits, len) = split_first_part(word, b'/');
    let addr = parse_addr(bits)?;
    let len = match len {
        Some(len) => read_decimal(len, 2, 32)?,
        None => 32,
    };
    Some((addr, len))
}

/// Formats the prefix as four decimal parts, with `/` and the length unless that is 32.
#[tactic(auto, using(crate::proofs::Digits::two_digits))]
pub fn prefix_text(prefix: &Prefix) -> ArrayString<18>
    ensures { result.bytes ≡ prefix_text prefix.now }
{
    let mut text = ArrayString::new();
    text.push_str(addr_text(Addr(prefix.bits)).as_str());
    if prefix.len != 32 {
        text.push_str("/");
        text.push_str(Buffer::new().format(prefix.len));
    }
    text
}

impl fmt::Display for Prefix {
    ghost output = { λ prefix. Some (prefix_text prefix) };

    fn fmt<W: fmt::Write>(&self, f: &mut fmt::Formatter<W>) -> fmt::Result {
        f.write_str(prefix_text(self).as_str())
    }
}
