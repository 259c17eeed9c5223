//! The lookers of a replay, each with its place in the registry.
ghost use Rattle.std.specs.Prelude.{◌≡◌, ◌<◌, ◌≤◌, ◌+◌, ◌++◌, ◌∷◌, [], OnOk, true, None, Some, IfNone, IfOk, IfSome, IsSome, is_some, length, nat_lt};
ghost use Rattle.std.specs.Prelude.{option_map, slice_get};
ghost use Rattle.std.specs.Arc.{arc_value};
ghost use Rattle.prt_grace.specs.Registry.{new_registry, reclaimed, with_noted};
ghost use Rattle.prt_grace.specs.declared.limits.TheConstants.{MOST_RETIRED, PLACES};
ghost use Rattle.prt_replay.specs.Machine.{announceable, announced_at, can_announce, hold, new_lookers, seat_of, sit, with_registry};

use crate::LookerNumber;
use prt_grace::{PLACES, Place, Registry};
use prt_version::Version;
use std::alloc::{AllocError, Global};
use std::marker::Model;
use std::sync::Arc;

/// A looker: its place in the registry, and the version that it holds.
#[derive(Drop)]
struct Seat {
    place: Place,
    held: Option<Arc<Version>>,
}

impl Model for Seat {
    ghost use Rattle.std.specs.Prelude.{option_map};
    ghost use Rattle.std.specs.Arc.{arc_value};
    ghost use Rattle.prt_replay.specs.Machine.{SeatState};

    ghost Value = { SeatState };

    ghost view = { λ seat. record { place = seat.place; held = option_map arc_value seat.held } };
}

impl Seat {
    /// Returns the number of the version that the looker holds, if it is online and has announced no later one.
    fn announceable(&self) -> Option<u64>
        ensures number { result ≡ announceable self.now.place.announced self.now.held }
        ensures online { IfSome result (λ _. IsSome self.now.place.announced) }
        ensures later { IfSome result (λ number. IfSome self.now.place.announced (λ before. before ≤ number)) }
    {
        match (self.place.announced(), &self.held) {
            (Some(before), Some(version)) if before <= version.number() => Some(version.number()),
            _ => None,
        }
    }
}

/// The registry, and the lookers in the order of their numbers.
#[derive(Drop)]
pub(crate) struct Lookers {
    registry: Registry,
    seats: Vec<Seat>,
}

impl Model for Lookers {
    ghost use Rattle.prt_replay.specs.Machine.{AreSeated, LookersState};

    ghost Value = { LookersState };

    ghost view = { λ lookers. record { registry = lookers.registry; seats = lookers.seats.items } };

    ghost invariant = { λ lookers. AreSeated lookers.registry lookers.seats.items };
}

/// Returns the index of the seat of a looker.
fn seat_index(looker: LookerNumber) -> usize
    ensures value { result ≡ looker }
    ensures low { result < 64 }
{
    usize::from(looker.get())
}

impl Lookers {
    /// Makes all lookers, offline, beside a registry in which this version is noted.
    pub(crate) fn new(alloc: Global, version: Arc<Version>) -> Result<Lookers, AllocError>
        ensures { IfOk result (λ lookers. lookers ≡ new_lookers (arc_value version)) }
    {
        let mut registry = Registry::new(version);
        let mut seats = Vec::new(alloc);
        for _index in 0..PLACES {
            let Some(place) = registry.join() else {
                unreachable!()
            };
            push(&mut seats, Seat { place, held: None })?;
        }
        Ok(Lookers { registry, seats })
    }

    /// Brings an offline looker online: it announces the noted number, and holds nothing.
    pub(crate) fn online(&mut self, looker: LookerNumber) -> Option<u64>
        ensures none { IfNone result ((is_some (announced_at self.old looker) ≡ true) × (self.new ≡ self.old)) }
        ensures some { IfSome result (λ number. (announced_at self.old looker ≡ None) × (number ≡ self.old.registry.noted.count)) }
        ensures after { IfSome result (λ number. self.new ≡ sit self.old looker (Some number) None) }
    {
        let seat = &mut self.seats[seat_index(looker)];
        if seat.place.announced().is_some() {
            return None;
        }
        seat.held = None;
        Some(self.registry.online(&mut seat.place))
    }

    /// Announces the number of the version that the looker holds, if it can.
    pub(crate) fn announce(&mut self, looker: LookerNumber) -> Option<u64>
        ensures none { IfNone result (self.new ≡ self.old) }
        ensures number { result ≡ can_announce self.old looker }
        ensures after { IfSome result (λ number. self.new ≡ sit self.old looker (Some number) (seat_of self.old looker).held) }
    {
        let seat = &mut self.seats[seat_index(looker)];
        let number = seat.announceable()?;
        self.registry.announce(&mut seat.place, number);
        Some(number)
    }

    /// Takes a looker offline, which lets go of its version.
    pub(crate) fn offline(&mut self, looker: LookerNumber)
        ensures { self.new ≡ sit self.old looker None None }
    {
        let seat = &mut self.seats[seat_index(looker)];
        seat.held = None;
        self.registry.offline(&mut seat.place);
    }

    /// Returns whether a looker is online.
    pub(crate) fn is_online(&self, looker: LookerNumber) -> bool
        ensures { result ≡ is_some (announced_at self.now looker) }
    {
        let seat = &self.seats[seat_index(looker)];
        seat.place.announced().is_some()
    }

    /// Hands a looker this version in the place of the one that it holds.
    pub(crate) fn hold(&mut self, looker: LookerNumber, version: Arc<Version>)
        ensures { self.new ≡ hold self.old looker (Some (arc_value version)) }
    {
        let seat = &mut self.seats[seat_index(looker)];
        seat.held = Some(version);
    }

    /// Returns the version that a looker holds.
    pub(crate) fn held(&self, looker: LookerNumber) -> Option<&Version>
        ensures { option_map (λ version. version.now) result ≡ (seat_of self.now looker).held }
    {
        let seat = &self.seats[seat_index(looker)];
        match &seat.held {
            Some(version) => Some(version),
            None => None,
        }
    }

    /// Returns the number of the version noted last.
    pub(crate) fn noted(&self) -> u64
        ensures { result ≡ self.now.registry.noted.count }
    {
        self.registry.noted()
    }

    /// Returns whether one more version can be retired.
    pub(crate) fn has_room(&self) -> bool
        ensures { result ≡ nat_lt (length self.now.registry.retired) MOST_RETIRED }
    {
        self.registry.has_room()
    }

    /// Notes a version with a later number than the noted one, which is retired, if there is room for it.
    pub(crate) fn note(&mut self, version: Arc<Version>)
        requires room { length self.old.registry.retired < MOST_RETIRED }
        requires later { self.old.registry.noted.count < (arc_value version).count }
        ensures { self.new ≡ with_registry self.old (with_noted self.old.registry (arc_value version)) }
    {
        self.registry.note(version);
    }

    /// Releases the versions that no looker can hold any more, and returns how many went.
    pub(crate) fn reclaim(&mut self) -> usize
        ensures after { self.new ≡ with_registry self.old (reclaimed self.old.registry) }
        ensures number { result + length self.new.registry.retired ≡ length self.old.registry.retired }
    {
        self.registry.reclaim()
    }
}

/// Appends a looker's seat.
fn push(seats: &mut Vec<Seat>, seat: Seat) -> Result<(), AllocError>
    ensures { OnOk result (seats.new.items ≡ seats.old.items ++ seat ∷ []) }
{
    match seats.push(seat) {
        Ok(()) => Ok(()),
        Err(_) => Err(AllocError),
    }
}
