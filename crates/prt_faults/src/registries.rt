//! The calls of a registry and of a domain, over two versions of which the second is the later one.

use prt_command::Refusal;
use prt_grace::{Domain, Registry};
use prt_version::Version;
use prt_version::owners::share;
use std::sync::{Arc, Wait};

/// Checks whether a registry holds the first version back until its looker announces the second, and gives it up then.
pub(crate) fn registry_keeps(first: &Arc<Version>, second: &Arc<Version>) -> Result<bool, Refusal> {
    let mut registry = Registry::new(share(first)?);
    let Some(mut place) = registry.join() else {
        return Ok(false);
    };
    let announced = registry.online(&mut place);
    let (later, number) = (share(second)?, second.number());
    if !registry.has_room() || announced != registry.noted() || number <= announced {
        return Ok(false);
    }
    registry.note_later(later);
    let held = registry.reclaim();
    registry.announce(&mut place, number);
    let given_up = registry.reclaim();
    registry.offline(&mut place);
    let is_offline = place.announced().is_none();
    registry.part(place);
    Ok(held == 0 && given_up == 1 && is_offline && registry.make_room())
}

/// Checks whether a domain does the same.
pub(crate) fn domain_keeps<H: Wait>(
    rt: &H,
    first: &Arc<Version>,
    second: &Arc<Version>,
) -> Result<bool, Refusal> {
    let (domain, mut keeper) = Domain::new(share(first)?);
    let Some(mut place) = domain.join(rt) else {
        return Ok(false);
    };
    let announced = domain.online(rt, &mut place);
    let (later, number) = (share(second)?, second.number());
    if !domain.has_room(rt) || number <= announced || number <= keeper.noted() {
        return Ok(false);
    }
    domain.note(rt, &mut keeper, later);
    let held = domain.reclaim(rt);
    domain.announce(rt, &mut place, number);
    let given_up = domain.reclaim(rt);
    domain.offline(rt, &mut place);
    let is_offline = place.announced().is_none();
    domain.part(rt, place);
    Ok(held == 0 && given_up == 1 && is_offline && keeper.noted() == number)
}
