//! A compiled table.
ghost use Rattle.std.specs.Prelude.{◌≡◌, ◌⊎◌, ◌+◌, ◌*◌, ◌/◌, ◌<◌, ◌≤◌, IfErr, IfOk, Some, length, map, slice_set};
ghost use Rattle.std.specs.Arc.{arc_value};
ghost use Rattle.std.specs.List.{slice_get};
ghost use Rattle.prt_refusals.specs.declared.refusal.Refusal.TheVariants.{Full, NoMemory};
ghost use Rattle.prt_partition.specs.Cuts.{end, to};
ghost use Rattle.prt_partition.specs.Sameness.{outcome_of};
ghost use Rattle.prt_version.specs.Change.{put};
ghost use Rattle.prt_version.specs.Select.{select};
ghost use Rattle.prt_fib.specs.Fib.{AreDistinct, AreNumbersOf, HasTooMany, Table};
ghost use Rattle.prt_fib.specs.Pieces.{AreFiled, IsChangedAt};

use crate::dividing::{all_starts, pieces_of};
use crate::following::{changed_prefix, end, piece_after};
use crate::numbering::{Numbered, number_starts, to};
use crate::outcomes::Outcomes;
use crate::piece::Piece;
use prt_addr::{Addr, Prefix};
use prt_partition::Outcome;
use prt_refusals::Refusal;
use prt_rule::Packet;
use prt_version::{Answer, Change, Version};
use std::alloc::{AllocError, Global};
use std::marker::Model;
use std::sync::Arc;

/// What becomes of the packets of one source, interface and mark in one version, for each destination: for lookups at
/// the speed of forwarding.
///
/// It shares the version's rules and routes, and stays right for that version whatever is made of it later.
#[derive(Drop)]
pub struct Fib {
    version: Version,
    packet: Packet,
    /// What becomes of packets to the addresses of each first octet.
    pieces: Vec<Arc<Piece>>,
    /// The outcomes by their numbers.
    outcomes: Arc<Outcomes>,
    /// How many starts may still be put among those of the pieces, before a table is compiled from nothing.
    room: usize,
}

impl Model for Fib {
    ghost use Rattle.std.specs.Prelude.{map};
    ghost use Rattle.std.specs.Arc.{arc_value};
    ghost use Rattle.prt_fib.specs.Fib.{Table};
    ghost use Rattle.prt_fib.specs.Pieces.{AreFiled};

    ghost Value = { Table };

    ghost view = { λ fib. record { state = fib.version; packet = fib.packet; outcomes = arc_value fib.outcomes } };

    ghost invariant = { λ fib. AreFiled fib.version fib.packet (arc_value fib.outcomes) (map (λ piece. arc_value piece) fib.pieces.items) };
}

/// Makes one more owner of each piece.
fn owners_of(alloc: Global, pieces: &[Arc<Piece>]) -> Result<Vec<Arc<Piece>>, AllocError>
    ensures { IfOk result (λ owners. map (λ piece. arc_value piece) owners.items ≡ map (λ piece. arc_value piece) pieces.now) }
{
    let mut owners = Vec::new(alloc);
    owners.extend_with_clones(pieces)?;
    Ok(owners)
}

/// Makes one more owner of each piece, and of the new one in its place.
fn pieces_with(
    alloc: Global,
    pieces: &[Arc<Piece>],
    octet: usize,
    piece: Piece,
) -> Result<Vec<Arc<Piece>>, AllocError>
    requires { octet < length pieces.now }
    ensures { IfOk result (λ after. map (λ piece. arc_value piece) after.items ≡ slice_set (map (λ piece. arc_value piece) pieces.now) octet piece) }
{
    let mut after = owners_of(alloc, pieces)?;
    after[octet] = Arc::new(alloc, piece)?;
    Ok(after)
}

impl Fib {
    /// Compiles what becomes of the packet in the version, for each destination. The packet's own destination doesn't
    /// matter.
    ///
    /// It looks a packet up in the version at the first address of each prefix and after the last one. The table shares
    /// what the version has, and takes at most 12 bytes for each rule and route, 60 for each outcome and 350 KB more, or
    /// 1.2 MB if each first octet has many routes. While it is compiled, it takes some 160 bytes for each rule and route.
    ///
    /// # Errors
    ///
    /// `Full` if the packet has more than 65,536 different outcomes. `NoMemory` may come before that. Nothing is left of
    /// the table then, and the version is as it was.
    pub fn new(alloc: Global, version: &Version, packet: &Packet) -> Result<Fib, Refusal>
        ensures state { IfOk result (λ fib. fib.state ≡ version.now) }
        ensures packet { IfOk result (λ fib. fib.packet ≡ packet.now) }
        ensures reason { IfErr result (λ reason. ((reason ≡ Full) × HasTooMany version.now packet.now) ⊎ (reason ≡ NoMemory)) }
    {
        let starts = all_starts(alloc, version)?;
        let Numbered { numbers, outcomes } = number_starts(alloc, version, packet, &starts)?;
        let pieces = pieces_of(alloc, &starts, &numbers)?;
        Ok(Fib {
            version: version.share()?,
            packet: *packet,
            pieces,
            outcomes: Arc::new(alloc, outcomes)?,
            room: starts.len().saturating_add(1_000),
        })
    }

    /// Makes the table for the version after a change of a route, whose prefix is in one piece.
    fn with_prefix(&self, alloc: Global, next: &Version, prefix: &Prefix) -> Result<Fib, Refusal>
        requires changed { IsChangedAt self.now.state next.now prefix.now }
        requires end { end prefix.now ≤ prefix.now.bits / 16777216 * 16777216 + 16777216 }
        ensures state { IfOk result (λ fib. fib.state ≡ next.now) }
        ensures packet { IfOk result (λ fib. fib.packet ≡ self.now.packet) }
        ensures reason { IfErr result (λ reason. (reason ≡ Full) ⊎ (reason ≡ NoMemory)) }
    {
        let octet = prefix.bits() >> 24;
        let piece: &Piece = &self.pieces[octet as usize];
        let mut outcomes = Arc::try_clone(&self.outcomes)?;
        let base = octet * 16_777_216;
        let after = piece_after(
            alloc,
            piece,
            base,
            next,
            &self.packet,
            prefix,
            &mut outcomes,
        )?;
        let added = after.starts.len().saturating_sub(piece.starts.len());
        Ok(Fib {
            version: next.share()?,
            packet: self.packet,
            pieces: pieces_with(alloc, &self.pieces, octet as usize, after)?,
            outcomes,
            room: self.room.saturating_sub(added),
        })
    }

    /// Compiles the table for the version after a change, as `new` does for the same packet. This one stays as it is.
    ///
    /// For a change of one route, only the destinations in its prefix are looked up in the version, and one of 256 pieces of
    /// the table is copied. All is compiled from nothing after a flush, a change of rules, or one of a prefix of fewer
    /// than 8 bits. The same holds once the table has twice the destinations that it began with, and 1,000 more, or
    /// numbers run out.
    ///
    /// # Errors
    ///
    /// As of `new`.
    pub fn after(&self, alloc: Global, next: &Version, change: &Change) -> Result<Fib, Refusal>
        requires { next.now ≡ put self.now.state change.now }
        ensures state { IfOk result (λ fib. fib.state ≡ next.now) }
        ensures packet { IfOk result (λ fib. fib.packet ≡ self.now.packet) }
        ensures reason { IfErr result (λ reason. ((reason ≡ Full) × HasTooMany next.now self.now.packet) ⊎ (reason ≡ NoMemory)) }
    {
        let Some(prefix) = changed_prefix(*change) else {
            return Fib::new(alloc, next, &self.packet);
        };
        let first = u64::from(prefix.bits());
        if self.room < 2 || end(&prefix) > first / 16_777_216 * 16_777_216 + 16_777_216 {
            return Fib::new(alloc, next, &self.packet);
        }
        match self.with_prefix(alloc, next, &prefix) {
            Ok(fib) => Ok(fib),
            Err(Refusal::Full) => Fib::new(alloc, next, &self.packet),
            Err(_) => Err(Refusal::NoMemory),
        }
    }

    /// Finds the number of the outcome of packets to this destination, which is a place among `outcomes`. Two destinations
    /// have one number if they have one outcome. It takes no memory and waits for nothing.
    pub fn number(&self, dst: Addr) -> u16
        ensures value { slice_get self.now.outcomes result ≡ Some (outcome_of (select self.now.state (to self.now.packet dst.0))) }
        ensures known { result < length self.now.outcomes }
    {
        let piece: &Piece = &self.pieces[(dst.0 >> 24) as usize];
        piece.number(dst.0)
    }

    /// Finds what becomes of packets to this destination. It takes no memory and waits for nothing.
    pub fn find(&self, dst: Addr) -> &Outcome
        ensures { result.now ≡ outcome_of (select self.now.state (to self.now.packet dst.0)) }
    {
        let number = self.number(dst);
        &self.outcomes()[usize::from(number)]
    }

    /// Finds the numbers of the outcomes of packets to these destinations, each as `number` does, and writes each at the
    /// place of its destination. There are as many numbers as destinations.
    pub fn find_many(&self, destinations: &[Addr], numbers: &mut [u16])
        requires { length destinations.now ≡ length numbers.old }
        ensures { AreNumbersOf self.now destinations.now numbers.new }
    {
        for (i, dst) in destinations.iter().enumerate() {
            numbers[i] = self.number(*dst);
        }
    }

    /// Gets the outcomes by their numbers, 1 to 65,536 different ones. Each of them occurs in a table that `new` made. One
    /// that `after` made can have outcomes that no destination has any more.
    pub fn outcomes(&self) -> &[Outcome]
        ensures value { result.now ≡ self.now.outcomes }
        ensures distinct { AreDistinct self.now.outcomes }
    {
        self.outcomes.as_slice()
    }

    /// Looks a packet to this destination up in the version itself: which rule and which route decide. That takes as long as
    /// `Version::select`, and no memory.
    pub fn select(&self, dst: Addr) -> Answer
        ensures number { result.number ≡ self.now.state.count }
        ensures verdict { result.verdict ≡ select self.now.state (to self.now.packet dst.0) }
    {
        self.version.select(&to(&self.packet, dst))
    }
}
