//! The packets that a claim is about.
ghost use Rattle.std.specs.Prelude.{◌≡◌};
ghost use Rattle.prt_addr.specs.Prefix.{everything};
ghost use Rattle.prt_analyses.specs.Claims.{avoids_mark, block_of, rule_of, selects};

use prt_addr::Prefix;
use prt_route::Dev;
use prt_rule::{Action, Mark, Packet, Rule, matches};

/// Names packets as the selector of a rule does (`ip-rule(8)`): those that agree with all that is given.
#[derive(Clone, Copy, Debug, PartialEq, Eq)]
pub struct PacketSelector {
    /// The destinations; `None` for any.
    pub to: Option<Prefix>,
    /// The sources; `None` for any.
    pub from: Option<Prefix>,
    /// The interface that packets came in by; `None` for any.
    pub iif: Option<Dev>,
    /// The mark, and the bits of it that count; `None` for any.
    pub mark: Option<Mark>,
    /// A mark that they don't agree with in the bits that count; `None` for none.
    pub not_mark: Option<Mark>,
}

/// Makes the prefix that has every address.
fn everything() -> Prefix
    ensures { result ≡ everything }
{
    Prefix::masked(0, 0)
}

/// Takes the prefix, or the one that has every address.
pub(crate) fn block_of(prefix: &Option<Prefix>) -> Prefix
    ensures { result ≡ block_of prefix.now }
{
    prefix.unwrap_or(everything())
}

/// Makes a rule that matches what the selector names, with this mark in place of its own.
pub(crate) fn rule_of(selector: &PacketSelector, mark: Option<Mark>) -> Rule
    ensures { result ≡ rule_of selector.now mark }
{
    Rule {
        id: 0,
        priority: 0,
        inverted: false,
        from: block_of(&selector.from),
        to: block_of(&selector.to),
        iif: selector.iif,
        mark,
        action: Action::Blackhole,
        suppress: None,
    }
}

/// Checks whether the mark doesn't agree with the one that is given, if one is.
fn avoids_mark(given: &Option<Mark>, mark: u32) -> bool
    ensures { result ≡ avoids_mark given.now mark }
{
    match given {
        Some(given) => (given.mark ^ mark) & given.mask != 0,
        None => true,
    }
}

impl PacketSelector {
    /// Names every packet.
    pub fn all() -> PacketSelector
        ensures { result ≡ record { to = None; from = None; iif = None; mark = None; not_mark = None } }
    {
        PacketSelector {
            to: None,
            from: None,
            iif: None,
            mark: None,
            not_mark: None,
        }
    }

    /// Checks whether the packet is one of these.
    pub fn selects(&self, packet: &Packet) -> bool
        ensures { result ≡ selects self.now packet.now }
    {
        matches(&rule_of(self, self.mark), packet) && avoids_mark(&self.not_mark, packet.mark)
    }
}
