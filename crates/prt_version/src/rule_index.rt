//! An index of rules: those that may match a packet are in few lists, which its source, its destination, its interface and
//! its mark name.
ghost use Rattle.std.specs.Prelude.{◌≡◌, ◌<◌, ◌≤◌, ℕ, All, length, slice_index_or, true, IfOk};
ghost use Rattle.std.specs.List.{Contains};
ghost use Rattle.prt_addr.specs.Sound.{IsPrefix};
ghost use Rattle.prt_rule.specs.Rule.{matches};
ghost use Rattle.prt_rule.specs.declared.packet.Packet.{Packet};
ghost use Rattle.prt_version.specs.RuleIndex.{HasIndex, list_at, list_beside, list_in, list_marked, list_named, list_of, lists_for};
ghost use Rattle.prt_version.specs.declared.limits.TheConstants.{MOST_RULES};

use crate::{MOST_RULES, Packet, Rule};
use prt_addr::Addr;
use prt_rule::{Dev, Prefix};
use std::alloc::{AllocError, Global};

/// How many lists there are: 64 at each of six levels, for interfaces and for marks, and that of the rest.
const LISTS: usize = 513;

/// The list of the rules that nothing distinguishes from the rest, and of the inverted ones.
const REST: usize = 0;

/// The level of the sources of 32 bits, before those of 24 bits or more and of 16 or more.
const SOURCES: usize = 0;

/// The level of the destinations of 32 bits, before the same two.
const DESTINATIONS: usize = 3;

/// Lists of rules, each by its rules' places among all, which rise. They are kept as the first place of each list, and for each
/// place the next of the same list. The number of rules means none.
#[derive(Drop)]
pub(crate) struct RuleIndex {
    pub first: [u32; LISTS],
    pub next: Vec<u32>,
}

/// Computes the list of an address at this level, at which this many bits from its end don't count.
fn list_at(level: usize, bits: u32, addr: Addr) -> usize
    requires level { level < 6 }
    requires bits { bits < 32 }
    ensures value { result ≡ list_at level bits addr.0 }
    ensures within { result < 385 }
{
    (addr.0 >> bits) as usize % 64 + 64 * level + 1
}

/// Chooses the list of a prefix, at the first of the three levels from this one on for which it is long enough.
fn list_in(level: usize, prefix: &Prefix) -> usize
    requires { level < 4 }
    ensures value { result ≡ list_in level prefix.now }
    ensures within { result < 385 }
    ensures prefix { IsPrefix prefix.now }
{
    let (first, len) = (Addr(prefix.bits()), prefix.len());
    if len < 16 {
        REST
    } else if len < 24 {
        list_at(level + 2, 16, first)
    } else if len < 32 {
        list_at(level + 1, 8, first)
    } else {
        list_at(level, 0, first)
    }
}

/// Computes the list of the interface of this name.
fn list_named(name: &Dev) -> usize
    ensures value { result ≡ list_named name.now }
    ensures within { result < 513 }
{
    let mut number = 0;
    for byte in name.as_bytes() {
        number = (number * 31 + usize::from(*byte)) % 64;
    }
    number + 385
}

/// Computes the list of a mark.
fn list_marked(mark: u32) -> usize
    ensures value { result ≡ list_marked mark }
    ensures within { result < 513 }
{
    mark as usize % 64 + 449
}

/// Chooses the list of a rule without addresses: that of its interface, otherwise that of its mark if the last six bits
/// of it count.
fn list_beside(rule: &Rule) -> usize
    ensures value { result ≡ list_beside rule.now.iif rule.now.mark }
    ensures within { result < 513 }
{
    match (&rule.iif, rule.mark) {
        (Some(name), _) => list_named(name),
        (None, Some(mark)) if mark.mask % 64 == 63 => list_marked(mark.mark),
        (None, _) => REST,
    }
}

/// Chooses the list of a rule: that of its source or else of its destination, if that is long enough. If neither is, it is that
/// of what the rule names besides.
pub(crate) fn list_of(rule: &Rule) -> usize
    ensures value { result ≡ list_of rule.now }
    ensures within { result < 513 }
    ensures told { (packet : Packet) → matches rule.now packet ≡ true → Contains (lists_for packet) result }
{
    if rule.inverted {
        return REST;
    }
    let from = list_in(SOURCES, &rule.from);
    if from != REST {
        return from;
    }
    let to = list_in(DESTINATIONS, &rule.to);
    if to != REST {
        return to;
    }
    list_beside(rule)
}

/// Collects the lists that have each rule that matches the packet.
pub(crate) fn lists_for(packet: &Packet) -> [usize; 9]
    ensures value { result ≡ lists_for packet.now }
    ensures within { All (λ list. list < 513) result }
{
    [
        list_at(SOURCES, 0, packet.src),
        list_at(SOURCES + 1, 8, packet.src),
        list_at(SOURCES + 2, 16, packet.src),
        list_at(DESTINATIONS, 0, packet.dst),
        list_at(DESTINATIONS + 1, 8, packet.dst),
        list_at(DESTINATIONS + 2, 16, packet.dst),
        list_named(&packet.iif),
        list_marked(packet.mark),
        REST,
    ]
}

/// Makes lists that all begin at this place.
fn all_at(place: u32) -> [u32; LISTS]
    ensures count { length result ≡ 513 }
    ensures each { (list d : ℕ) → list < 513 → slice_index_or result list d ≡ place }
{
    [place; LISTS]
}

impl RuleIndex {
    /// Makes the index of the rules, if it distinguishes half of them or more from the rest.
    pub fn over(alloc: Global, rules: &[Rule]) -> Result<Option<RuleIndex>, AllocError>
        requires { length rules.now ≤ MOST_RULES }
        ensures { IfOk result (λ index. HasIndex rules.now index) }
    {
        let none = rules.len() as u32;
        let mut first = all_at(none);
        let mut next = Vec::from_elem(alloc, none, rules.len())?;
        let mut rest = 0usize;
        let mut place = rules.len();
        while place > 0 {
            place -= 1;
            let list = list_of(&rules[place]);
            next[place] = first[list];
            first[list] = place as u32;
            rest = rest.saturating_add((list == REST) as usize);
        }
        if rest > rules.len() / 2 {
            return Ok(None);
        }
        Ok(Some(RuleIndex { first, next }))
    }
}
