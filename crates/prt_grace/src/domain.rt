//! The registry under a lock.
ghost use Rattle.std.specs.Prelude.{◌≡◌, ◌≤◌, ◌<◌, Some, None, IfSome, IsSome};
ghost use Rattle.std.specs.Arc.{arc_value};

use crate::{Keeper, LockedRegistry, Place, Registry, Retention, Version};
use std::sync::{Arc, Mutex, MutexGuard, Wait};

/// A registry under a lock, shared by lookers and the publisher. Each call takes the lock once, for the registry's call
/// of the same name; none of them publishes or fetches under it.
///
/// A caller can't know what is behind the lock. So what a call needs there is tested under the lock, and if it does
/// not hold, the registry stays as it was.
#[derive(Drop)]
pub struct Domain {
    registry: Mutex<LockedRegistry>,
}

impl Domain {
    /// Makes a domain in which this version is noted, and its keeper.
    pub fn new(version: Arc<Version>) -> (Domain, Keeper)
        ensures { result.1.noted ≡ (arc_value version).count }
    {
        let noted = version.number();
        let registry = Mutex::new(LockedRegistry {
            registry: Registry::new(version),
        });
        (Domain { registry }, Keeper { noted })
    }

    /// Locks the registry, until the guard goes. Its holder can reclaim, and note a version if it has the keeper.
    pub fn lock<'a, H: Wait>(&'a self, rt: &H) -> MutexGuard<'a, LockedRegistry> {
        self.registry.lock(rt)
    }

    /// Takes a place for a new looker, offline. `None` if all are taken, and then nothing changes.
    pub fn join<H: Wait>(&self, rt: &H) -> Option<Place>
        ensures { IfSome result (λ place. place.announced ≡ None) }
    {
        self.lock(rt).registry.join()
    }

    /// Frees the place of a looker, with what it has announced. If no place of this registry has its entry, nothing changes.
    pub fn part<H: Wait>(&self, rt: &H, place: Place) {
        let mut locked = self.lock(rt);
        if locked.registry.has(&place) {
            locked.registry.part(place);
        }
    }

    /// Brings a looker online: it announces the noted number, unless it is online already. Returns the number that it has
    /// announced then. If no place of this registry has its entry, the registry stays as it is.
    pub fn online<H: Wait>(&self, rt: &H, place: &mut Place) -> u64
        ensures place { place.new ≡ record place.old { announced = Some result } }
        ensures kept { IfSome place.old.announced (λ number. result ≡ number) }
    {
        let mut locked = self.lock(rt);
        if locked.registry.has(place) {
            return locked.registry.online(place);
        }
        let number = place.announced().unwrap_or(locked.registry.noted());
        place.announced = Some(number);
        number
    }

    /// Announces that the looker holds no version below this number. The looker is online, and the number is at least
    /// the one that it has announced. If no place of this registry has its entry, the registry stays as it is.
    pub fn announce<H: Wait>(&self, rt: &H, place: &mut Place, number: u64)
        requires online { IsSome place.old.announced }
        requires later { IfSome place.old.announced (λ before. before ≤ number) }
        ensures { place.new ≡ record place.old { announced = Some number } }
    {
        let mut locked = self.lock(rt);
        if locked.registry.has(place) {
            locked.registry.announce(place, number);
        } else {
            place.announced = Some(number);
        }
    }

    /// Takes a looker offline: it holds no version. If no place of this registry has its entry, the registry stays as it is.
    pub fn offline<H: Wait>(&self, rt: &H, place: &mut Place)
        ensures { place.new ≡ record place.old { announced = None } }
    {
        let mut locked = self.lock(rt);
        if locked.registry.has(place) {
            locked.registry.offline(place);
        } else {
            place.announced = None;
        }
    }

    /// Checks whether one more version can be retired.
    pub fn has_room<H: Wait>(&self, rt: &H) -> bool {
        self.lock(rt).registry.has_room()
    }

    /// Notes a version, and retires the one that was noted before. If there is no room, or a later version is noted,
    /// the registry stays as it was.
    pub fn note<H: Wait>(&self, rt: &H, keeper: &mut Keeper, version: Arc<Version>)
        requires { keeper.old.noted < (arc_value version).count }
        ensures { keeper.new.noted ≡ (arc_value version).count }
    {
        keeper.note(&mut self.lock(rt), version);
    }

    /// Returns how many versions are retired, and which looker holds them back. It gives up none.
    pub fn retention<H: Wait>(&self, rt: &H) -> Retention {
        self.lock(rt).registry.retention()
    }

    /// Gives up each retired version that no looker can hold any more. Returns how many went.
    pub fn reclaim<H: Wait>(&self, rt: &H) -> usize {
        self.lock(rt).registry.reclaim()
    }
}
