//! The registry of grace periods, each of its calls.

use super::versions::{next_version, opening_version};
use prt_grace::Registry;
use std::sync::Arc;
use std::test::Fail;

#[test]
fn gives_up_what_nobody_holds(rt: HostRuntime) -> Result<(), Fail> {
    let alloc = rt.alloc();
    let opening = opening_version(alloc)?;
    let first = next_version(alloc, &opening)?;
    let second = next_version(alloc, &first)?;
    assert!(rt; opening.number() < first.number());
    assert!(rt; first.number() < second.number());
    let mut registry = Registry::new(opening);
    let mut place = registry.join().expect(&rt, "a place is free");
    assert_eq!(rt; (place.announced(), registry.online(&mut place)), (None, 0));
    registry.note(first);
    registry.note(second);
    assert_eq!(rt; (registry.noted(), registry.has_room()), (2, true));
    assert_eq!(rt; registry.reclaim(), 0);
    registry.announce(&mut place, 1);
    assert_eq!(rt; (place.announced(), registry.reclaim()), (Some(1), 1));
    registry.offline(&mut place);
    assert_eq!(rt; (place.announced(), registry.reclaim()), (None, 1));
    registry.part(place);
    Ok(())
}

#[test]
fn gives_64_places(rt: HostRuntime) -> Result<(), Fail> {
    let alloc = rt.alloc();
    let mut registry = Registry::new(opening_version(alloc)?);
    for _ in 0..63 {
        assert!(rt; registry.join().is_some());
    }
    let last = registry.join().expect(&rt, "the 64th place is free");
    assert!(rt; registry.join().is_none());
    registry.part(last);
    assert!(rt; registry.join().is_some());
    Ok(())
}

#[test]
fn keeps_64_retired_versions(rt: HostRuntime) -> Result<(), Fail> {
    let alloc = rt.alloc();
    let mut version = opening_version(alloc)?;
    let mut registry = Registry::new(Arc::try_clone(&version)?);
    for _ in 0..64 {
        let next = next_version(alloc, &version)?;
        assert!(rt; registry.has_room() && registry.noted() < next.number());
        registry.note(Arc::try_clone(&next)?);
        version = next;
    }
    assert!(rt; !registry.has_room());
    assert_eq!(rt; registry.reclaim(), 64);
    assert!(rt; registry.has_room());
    Ok(())
}
