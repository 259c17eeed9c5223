//! Each call of a domain, by what the registry under its lock does then.

use super::versions::{next_version, opening_version};
use prt_command::Refusal;
use prt_grace::{Domain, Keeper, MOST_RETIRED, PLACES};
use prt_version::Version;
use std::alloc::Global;
use std::sync::{Arc, Wait};
use std::test::Fail;

/// Notes the version after this one if it is later than what the keeper noted, and returns it.
fn note_next<H: Wait>(
    rt: &H,
    alloc: Global,
    domain: &Domain,
    keeper: &mut Keeper,
    version: &Version,
) -> Result<Arc<Version>, Refusal> {
    let next = next_version(alloc, version)?;
    if keeper.noted() < next.number() {
        domain.note(rt, keeper, Arc::try_clone(&next)?);
    }
    Ok(next)
}

#[test]
fn a_looker_holds_versions_back(rt: HostRuntime) -> Result<(), Fail> {
    let alloc = rt.alloc();
    let opening = opening_version(alloc)?;
    let (domain, mut keeper) = Domain::new(Arc::try_clone(&opening)?);
    let mut place = domain.join(&rt).expect(&rt, "a place is free");
    assert_eq!(rt;
        (place.announced(), keeper.noted(), domain.lock(&rt).noted()),
        (None, 0, 0)
    );
    assert_eq!(rt;
        (domain.online(&rt, &mut place), place.announced()),
        (0, Some(0))
    );
    let first = note_next(&rt, alloc, &domain, &mut keeper, &opening)?;
    assert_eq!(rt; (keeper.noted(), domain.lock(&rt).noted()), (1, 1));
    assert_eq!(rt;
        (domain.online(&rt, &mut place), domain.reclaim(&rt)),
        (0, 0)
    );
    domain.announce(&rt, &mut place, 1);
    assert_eq!(rt; (place.announced(), domain.reclaim(&rt)), (Some(1), 1));
    let second = note_next(&rt, alloc, &domain, &mut keeper, &first)?;
    assert_eq!(rt; domain.reclaim(&rt), 0);
    domain.offline(&rt, &mut place);
    assert_eq!(rt; (place.announced(), domain.reclaim(&rt)), (None, 1));
    assert_eq!(rt; domain.online(&rt, &mut place), 2);
    let third = note_next(&rt, alloc, &domain, &mut keeper, &second)?;
    assert_eq!(rt; (third.number(), domain.reclaim(&rt)), (3, 0));
    domain.part(&rt, place);
    assert_eq!(rt; domain.reclaim(&rt), 1);
    Ok(())
}

#[test]
fn a_domain_gives_64_places(rt: HostRuntime) -> Result<(), Fail> {
    let (domain, _keeper) = Domain::new(opening_version(rt.alloc())?);
    for _ in 1..PLACES {
        assert!(rt; domain.join(&rt).is_some());
    }
    let last = domain.join(&rt).expect(&rt, "the 64th place is free");
    assert!(rt; domain.join(&rt).is_none());
    domain.part(&rt, last);
    assert!(rt; domain.join(&rt).is_some());
    Ok(())
}

#[test]
fn a_domain_without_room_notes_nothing(rt: HostRuntime) -> Result<(), Fail> {
    let alloc = rt.alloc();
    let mut version = opening_version(alloc)?;
    let (domain, mut keeper) = Domain::new(Arc::try_clone(&version)?);
    let mut place = domain.join(&rt).expect(&rt, "a place is free");
    assert_eq!(rt; domain.online(&rt, &mut place), 0);
    for _ in 0..MOST_RETIRED {
        assert!(rt; domain.has_room(&rt));
        version = note_next(&rt, alloc, &domain, &mut keeper, &version)?;
    }
    assert_eq!(rt; (keeper.noted(), domain.lock(&rt).noted()), (64, 64));
    assert!(rt; !domain.has_room(&rt));
    version = note_next(&rt, alloc, &domain, &mut keeper, &version)?;
    assert_eq!(rt; (keeper.noted(), domain.lock(&rt).noted()), (65, 64));
    domain.announce(&rt, &mut place, 60);
    assert_eq!(rt; domain.reclaim(&rt), 60);
    assert!(rt; domain.has_room(&rt));
    Ok(())
}

#[test]
fn a_place_of_another_domain_changes_nothing(rt: HostRuntime) -> Result<(), Fail> {
    let alloc = rt.alloc();
    let opening = opening_version(alloc)?;
    let (domain, mut keeper) = Domain::new(Arc::try_clone(&opening)?);
    let (other, _other_keeper) = Domain::new(Arc::try_clone(&opening)?);
    let mut mine = domain.join(&rt).expect(&rt, "a place is free");
    let mut theirs = other.join(&rt).expect(&rt, "a place is free there");
    assert_eq!(rt;
        (
            domain.online(&rt, &mut mine),
            other.online(&rt, &mut theirs)
        ),
        (0, 0)
    );
    other.announce(&rt, &mut theirs, 5);
    assert!(rt; domain.lock(&rt).has(&mine));
    assert!(rt; !domain.lock(&rt).has(&theirs));
    let first = note_next(&rt, alloc, &domain, &mut keeper, &opening)?;
    assert_eq!(rt; (first.number(), domain.online(&rt, &mut theirs)), (1, 5));
    domain.announce(&rt, &mut theirs, 7);
    assert_eq!(rt; (theirs.announced(), domain.reclaim(&rt)), (Some(7), 0));
    domain.offline(&rt, &mut theirs);
    assert_eq!(rt; (theirs.announced(), domain.reclaim(&rt)), (None, 0));
    assert_eq!(rt;
        (domain.online(&rt, &mut theirs), domain.reclaim(&rt)),
        (1, 0)
    );
    domain.part(&rt, theirs);
    assert_eq!(rt; domain.reclaim(&rt), 0);
    assert!(rt; domain.lock(&rt).has(&mine));
    Ok(())
}
