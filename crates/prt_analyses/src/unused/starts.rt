//! The destinations between which nothing changes: the first of each prefix, and the first after it.
ghost use Rattle.std.specs.Prelude.{◌≡◌, ◌++◌, ◌<◌, ◌^◌, ℕ, IfOk, OnOk};
ghost use Rattle.std.specs.List.{All, Contains};
ghost use Rattle.std.specs.List.Sorted.{IsStrictlyIncreasing};
ghost use Rattle.prt_partition.specs.Cuts.{AreStarts, cuts_of, destination_cuts, end_of, route_cuts, rule_cuts};

use prt_addr::Prefix;
use prt_route::{Range, Route, Selector};
use prt_rule::Rule;
use prt_version::Version;
use std::alloc::{AllocError, Global};

/// Computes the first address after those of the prefix, if there is one.
fn end_of(prefix: &Prefix) -> Option<u32>
    ensures { result ≡ end_of prefix.now }
{
    let end = u64::from(prefix.bits()) + (1 << (32 - prefix.len()));
    u32::try_from(end).ok()
}

/// Appends the first address of the prefix, and the first address after it, if there is one.
fn push_cuts(cuts: &mut Vec<u32>, prefix: &Prefix) -> Result<(), AllocError>
    ensures { OnOk result (cuts.new.items ≡ cuts.old.items ++ cuts_of prefix.now) }
{
    cuts.push(prefix.bits())?;
    if let Some(end) = end_of(prefix) {
        cuts.push(end)?;
    }
    Ok(())
}

/// Appends the cuts of the destinations of rules.
fn push_rule_cuts(cuts: &mut Vec<u32>, rules: &[Rule]) -> Result<(), AllocError>
    ensures { OnOk result (cuts.new.items ≡ cuts.old.items ++ rule_cuts rules.now) }
{
    for rule in rules {
        push_cuts(cuts, &rule.to)?;
    }
    Ok(())
}

/// Appends the cuts of the destinations of routes.
fn push_route_cuts(cuts: &mut Vec<u32>, routes: &[Route]) -> Result<(), AllocError>
    ensures { OnOk result (cuts.new.items ≡ cuts.old.items ++ route_cuts routes.now) }
{
    for route in routes {
        push_cuts(cuts, &route.prefix)?;
    }
    Ok(())
}

/// Sorts the numbers, and keeps each of them once.
fn sort_distinct(numbers: &mut Vec<u32>)
    ensures rises { IsStrictlyIncreasing numbers.new.items }
    ensures fit { All (λ n. n < 2 ^ 32) numbers.new.items }
    ensures keeps { (n : ℕ) → Contains numbers.old.items n → Contains numbers.new.items n }
{
    numbers.sort_unstable();
    numbers.dedup();
}

/// Collects all routes of the version, in the order of listings.
pub(crate) fn every_route(version: &Version) -> Result<Vec<Route>, AllocError>
    ensures { IfOk result (λ routes. routes.items ≡ version.now.routes) }
{
    let selector = Selector {
        table: None,
        range: Range::All,
        kind: None,
        proto: None,
        scope: None,
        dev: None,
    };
    let Ok(routes) = version.routes(&selector) else {
        return Err(AllocError);
    };
    Ok(routes)
}

/// Lists the destinations at which what becomes of a packet can change, and 0.0.0.0, in order.
pub(crate) fn starts_of(
    alloc: Global,
    version: &Version,
    routes: &[Route],
) -> Result<Vec<u32>, AllocError>
    requires { routes.now ≡ version.now.routes }
    ensures { IfOk result (λ starts. AreStarts (destination_cuts version.now) starts.items) }
{
    let mut starts = Vec::new(alloc);
    push_rule_cuts(&mut starts, version.rules())?;
    push_route_cuts(&mut starts, routes)?;
    starts.push(0)?;
    sort_distinct(&mut starts);
    Ok(starts)
}
