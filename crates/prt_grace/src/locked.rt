//! A registry as the lock of its domain lends it.
ghost use Rattle.std.specs.Prelude.{◌≡◌, ◌<◌, ◌↔◌, IsTrue, length};
ghost use Rattle.prt_grace.specs.Registry.{HasPlace, reclaimed};
ghost use Rattle.prt_grace.specs.declared.limits.TheConstants.{MOST_RETIRED};

use crate::{Place, Registry};
use std::marker::Model;

/// The registry of a domain, for whoever holds its lock. Versions are noted in it by the [`Keeper`] alone. Contracts see it
/// as the registry.
///
/// [`Keeper`]: crate::Keeper
#[derive(Drop)]
pub struct LockedRegistry {
    pub(crate) registry: Registry,
}

impl Model for LockedRegistry {
    ghost use Rattle.prt_grace.specs.Registry.{RegistryState};

    ghost Value = { RegistryState };

    ghost view = { λ locked. locked.registry };
}

impl LockedRegistry {
    /// Returns the number of the version noted last.
    pub fn noted(&self) -> u64
        ensures { result ≡ self.now.noted.count }
    {
        self.registry.noted()
    }

    /// Checks whether the place is one of this registry's, as `Registry::has`.
    pub fn has(&self, place: &Place) -> bool
        ensures { IsTrue result ↔ HasPlace self.now place.now }
    {
        self.registry.has(place)
    }

    /// Reclaims, and returns whether one more version can be retired then.
    pub fn make_room(&mut self) -> bool
        ensures registry { self.new ≡ reclaimed self.old }
        ensures room { IsTrue result ↔ (length self.new.retired < MOST_RETIRED) }
    {
        self.registry.make_room()
    }
}
