//! The registry's calls for lookers, with what they are in the world. A domain makes them under its lock.
ghost use Rattle.std.specs.Prelude.{◌≡◌, ◌≤◌, IfSome, IsSome};
ghost use Rattle.prt_grace.specs.Registry.{HasPlace};
ghost use Rattle.prt_replay.specs.World.{World};
ghost use Rattle.prt_replay.specs.declared.event.Event.TheVariants.{Reclaim};
ghost use Rattle.prt_laws.specs.Lookers.{IsAnnounce, IsJoin, IsOffline, IsOnline, IsPart, ShowsOnline, ShowsReclaimed};
ghost use Rattle.prt_laws.specs.Registries.{registry_after};

use prt_grace::{Place, Registry};

/// Assigns a place to a new looker, offline: no event.
pub fn join(registry: &mut Registry) -> Option<Place>
    ensures { IfSome result (λ place. IsJoin registry.old registry.new place) }
{
    match registry.join() {
        Some(place) => Some(place),
        None => None,
    }
}

/// Frees the place of a looker: it goes offline.
pub fn part(registry: &mut Registry, place: Place)
    requires { HasPlace registry.old place }
    ensures { IsPart registry.old registry.new place }
{
    registry.part(place);
}

/// Brings a looker online. If it was offline, the number is the one that the event shows.
pub fn online(registry: &mut Registry, place: &mut Place) -> u64
    requires { HasPlace registry.old place.old }
    ensures moved { IsOnline registry.old registry.new place.old place.new }
    ensures number { ShowsOnline registry.old registry.new place.old place.new result }
{
    registry.online(place)
}

/// Announces the number of the version that the looker holds.
pub fn announce(registry: &mut Registry, place: &mut Place, number: u64)
    requires known { HasPlace registry.old place.old }
    requires online { IsSome place.old.announced }
    requires later { IfSome place.old.announced (λ before. before ≤ number) }
    ensures { IsAnnounce registry.old registry.new place.old place.new number }
{
    registry.announce(place, number);
}

/// Takes a looker offline.
pub fn offline(registry: &mut Registry, place: &mut Place)
    requires { HasPlace registry.old place.old }
    ensures { IsOffline registry.old registry.new place.old place.new }
{
    registry.offline(place);
}

/// Reclaims each retired version that no looker can hold any more. The event shows how many went.
pub fn reclaim(registry: &mut Registry) -> usize
    ensures registry { (w : World) → registry.new ≡ registry_after registry.old w Reclaim }
    ensures number { ShowsReclaimed registry.old result }
{
    registry.reclaim()
}
