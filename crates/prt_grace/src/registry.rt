//! The registry of grace periods.
ghost use Rattle.std.specs.Prelude.{◌≡◌, ◌+◌, ◌<◌, ◌≤◌, ◌↔◌, ◌||◌, ℕ, IfNone, IfSome, IsSome, IsTrue, None, Some, length, map, position, unwrap_or};
ghost use Rattle.std.specs.Arc.{arc_value};
ghost use Rattle.std.specs.List.{list_any};
ghost use Rattle.prt_grace.specs.GracePeriod.{may_hold};
ghost use Rattle.prt_grace.specs.Registry.{HasPlace, announced, announcing, has_announced, is_free, new_registry, noted_by, reclaimed, with_noted, with_place};
ghost use Rattle.prt_grace.specs.declared.place.PlaceState.TheVariants.{Free, Offline, Online};

use crate::retention::{Retention, holder_of};
use crate::retired::RetiredVersions;
use crate::{MOST_RETIRED, PLACES, Place, PlaceState, Version};
use std::marker::Model;
use std::sync::Arc;

/// The version noted last, the retired versions that lookers may still hold, and what the lookers have announced.
///
/// A looker announces the number of the version that it holds: its quiescent state, since it holds no earlier one then
/// (Desnoyers et al. 2012).
#[derive(Drop)]
pub struct Registry {
    noted: Arc<Version>,
    retired: RetiredVersions,
    places: [PlaceState; PLACES],
}

impl Model for Registry {
    ghost use Rattle.std.specs.Arc.{arc_value};
    ghost use Rattle.prt_grace.specs.Registry.{IsOrderly, RegistryState};

    ghost Value = { RegistryState };

    ghost view = { λ r. record { noted = arc_value r.noted; retired = r.retired; places = r.places } };

    ghost invariant = { λ r. IsOrderly (record { noted = arc_value r.noted; retired = r.retired; places = r.places }) };
}

impl Registry {
    /// Makes a registry in which this version is noted, with no version retired and all places free.
    pub fn new(version: Arc<Version>) -> Registry
        ensures { result ≡ new_registry (arc_value version) }
    {
        Registry {
            noted: version,
            retired: RetiredVersions::new(),
            places: [PlaceState::Free; PLACES],
        }
    }

    /// Returns the number of the version noted last.
    pub fn noted(&self) -> u64
        ensures { result ≡ self.now.noted.count }
    {
        self.noted.number()
    }

    /// Writes what is known of one place.
    fn put(&mut self, index: usize, state: PlaceState)
        requires { index < PLACES }
        ensures { self.new ≡ with_place self.old index state }
    {
        self.places[index] = state;
    }

    /// Writes what a looker has announced, in its place and in the registry: `None` takes it offline.
    fn set_announced(&mut self, place: &mut Place, announced: Option<u64>)
        requires { HasPlace self.old place.old }
        ensures place { place.new ≡ record place.old { announced = announced } }
        ensures registry { self.new ≡ with_place self.old place.old.index (announcing announced) }
        ensures known { HasPlace self.new place.new }
    {
        place.announced = announced;
        self.put(
            place.index,
            match announced {
                Some(number) => PlaceState::Online(number),
                None => PlaceState::Offline,
            },
        );
    }

    /// Takes a place for a new looker, offline. `None` if all [`PLACES`] are taken, and then nothing changes.
    pub fn join(&mut self) -> Option<Place>
        ensures taken { IfNone result ((position is_free self.old.places ≡ None) × (self.new ≡ self.old)) }
        ensures place { IfSome result (λ place. (position is_free self.old.places ≡ Some place.index) × (place.announced ≡ None)) }
        ensures registry { IfSome result (λ place. self.new ≡ with_place self.old place.index Offline) }
        ensures known { IfSome result (λ place. HasPlace self.new place) }
    {
        let index = first_free(&self.places)?;
        self.put(index, PlaceState::Offline);
        Some(Place {
            index,
            announced: None,
        })
    }

    /// Frees the place of a looker, with what it has announced.
    pub fn part(&mut self, place: Place)
        requires { HasPlace self.old place }
        ensures { self.new ≡ with_place self.old place.index Free }
    {
        self.put(place.index, PlaceState::Free);
    }

    /// Brings a looker online: it announces the noted number, unless it is online already. Returns the number that it has
    /// announced then.
    pub fn online(&mut self, place: &mut Place) -> u64
        requires { HasPlace self.old place.old }
        ensures number { result ≡ unwrap_or place.old.announced self.old.noted.count }
        ensures place { place.new ≡ record place.old { announced = Some result } }
        ensures registry { self.new ≡ with_place self.old place.old.index (Online result) }
        ensures known { HasPlace self.new place.new }
    {
        let announced = place.announced.unwrap_or(self.noted());
        self.set_announced(place, Some(announced));
        announced
    }

    /// Announces that the looker holds no version below this number. The looker is online, and the number is at least
    /// the one that it has announced.
    pub fn announce(&mut self, place: &mut Place, number: u64)
        requires known { HasPlace self.old place.old }
        requires online { IsSome place.old.announced }
        requires later { IfSome place.old.announced (λ before. before ≤ number) }
        ensures place { place.new ≡ record place.old { announced = Some number } }
        ensures registry { self.new ≡ with_place self.old place.old.index (Online number) }
        ensures known { HasPlace self.new place.new }
    {
        self.set_announced(place, Some(number));
    }

    /// Takes a looker offline: it holds no version.
    pub fn offline(&mut self, place: &mut Place)
        requires { HasPlace self.old place.old }
        ensures place { place.new ≡ record place.old { announced = None } }
        ensures registry { self.new ≡ with_place self.old place.old.index Offline }
        ensures known { HasPlace self.new place.new }
    {
        self.set_announced(place, None);
    }

    /// Checks whether the place is one of this registry's, with what its looker has announced. A place of another registry
    /// passes if this one has the same entry.
    pub fn has(&self, place: &Place) -> bool
        ensures { IsTrue result ↔ HasPlace self.now place.now }
    {
        place.index < PLACES && is_announcing(&self.places[place.index], place.announced)
    }

    /// Checks whether one more version can be retired: false exactly when [`MOST_RETIRED`] are.
    pub fn has_room(&self) -> bool
        ensures { IsTrue result ↔ (length self.now.retired < MOST_RETIRED) }
    {
        self.retired.has_room()
    }

    /// Notes a version, and retires the one that was noted before. There is room, and the number is greater than the
    /// noted one.
    pub fn note(&mut self, version: Arc<Version>)
        requires room { length self.old.retired < MOST_RETIRED }
        requires later { self.old.noted.count < (arc_value version).count }
        ensures { self.new ≡ with_noted self.old (arc_value version) }
    {
        let before = std::mem::replace(&mut self.noted, version);
        self.retired.push(before);
    }

    /// Notes a version if there is room and it is later than the noted one. Otherwise nothing changes.
    pub fn note_later(&mut self, version: Arc<Version>)
        ensures { self.new ≡ noted_by self.old (arc_value version) }
    {
        if self.has_room() && self.noted() < version.number() {
            self.note(version);
        }
    }

    /// Gives up each retired version that no looker can hold any more: no online one has announced its number or less
    /// (Desnoyers et al. 2012). Returns how many went.
    pub fn reclaim(&mut self) -> usize
        ensures registry { self.new ≡ reclaimed self.old }
        ensures number { result + length self.new.retired ≡ length self.old.retired }
    {
        let before = self.retired.len();
        self.retired.keep_from(lowest_announced(&self.places));
        before - self.retired.len()
    }

    /// Returns how many versions are retired, and which looker holds them back.
    pub fn retention(&self) -> Retention
        ensures retired { result.retired ≡ length self.now.retired }
        ensures lowest { (n : ℕ) → may_hold n result.lowest ≡ list_any (may_hold n) (map announced self.now.places) }
        ensures holder { IfSome result.lowest (λ number. result.holder ≡ position (has_announced number) self.now.places) }
    {
        let lowest = lowest_announced(&self.places);
        Retention {
            retired: self.retired.len(),
            lowest,
            holder: holder_of(&self.places, lowest),
        }
    }

    /// Reclaims, and returns whether one more version can be retired then.
    pub fn make_room(&mut self) -> bool
        ensures registry { self.new ≡ reclaimed self.old }
        ensures room { IsTrue result ↔ (length self.new.retired < MOST_RETIRED) }
    {
        self.reclaim();
        self.has_room()
    }
}

/// Checks whether a registry's entry says that the looker there has announced this.
fn is_announcing(state: &PlaceState, announced: Option<u64>) -> bool
    ensures { IsTrue result ↔ (state.now ≡ announcing announced) }
{
    match (state, announced) {
        (PlaceState::Offline, None) => true,
        (PlaceState::Online(number), Some(other)) => *number == other,
        _ => false,
    }
}

/// Finds the index of the first free place.
fn first_free(places: &[PlaceState]) -> Option<usize>
    ensures value { result ≡ position is_free places.now }
    ensures within { IfSome result (λ index. index < length places.now) }
{
    places.iter().position(|place| place.is_free())
}

/// Finds the lowest number that an online looker has announced: it holds back exactly the versions that some place
/// does.
fn lowest_announced(places: &[PlaceState]) -> Option<u64>
    ensures { (n : ℕ) → may_hold n result ≡ list_any (may_hold n) (map announced places.now) }
{
    let mut lowest = None;
    for place in places {
        lowest = lower(lowest, place.announced());
    }
    lowest
}

/// Chooses the lower of two announced numbers, or the only one.
fn lower(first: Option<u64>, second: Option<u64>) -> Option<u64>
    ensures { (n : ℕ) → may_hold n result ≡ (may_hold n first || may_hold n second) }
{
    match (first, second) {
        (Some(first), Some(second)) => Some(first.min(second)),
        (Some(only), None) | (None, Some(only)) => Some(only),
        (None, None) => None,
    }
}
