//! The destinations at which rules and routes can change an answer.
ghost use Rattle.std.specs.Prelude.{◌≡◌, ◌++◌, IfOk, OnOk, map};
ghost use Rattle.prt_addr.specs.Prefix.{everything};
ghost use Rattle.prt_partition.specs.Differing.{Confine, reach_of};

use prt_addr::Prefix;
use prt_route::Route;
use prt_rule::Rule;
use std::alloc::{AllocError, Global};

/// How many rules or routes are looked at one by one, to find what they leave as it is.
pub(crate) const FEW: usize = 64;

/// Returns the prefix that has every address.
fn everything() -> Prefix
    ensures { result ≡ everything }
{
    Prefix::masked(0, 0)
}

/// Finds a prefix that has the destination of every packet that the rule matches.
fn reach_of(rule: &Rule) -> Prefix
    ensures { result ≡ reach_of rule.now }
{
    if rule.inverted { everything() } else { rule.to }
}

/// Appends a prefix for each rule, which has the destination of every packet that it matches.
fn push_reaches(blocks: &mut Vec<Prefix>, rules: &[Rule]) -> Result<(), AllocError>
    ensures { OnOk result (blocks.new.items ≡ blocks.old.items ++ map reach_of rules.now) }
{
    for rule in rules {
        blocks.push(reach_of(rule))?;
    }
    Ok(())
}

/// Appends the prefixes of the routes.
fn push_prefixes(blocks: &mut Vec<Prefix>, routes: &[Route]) -> Result<(), AllocError>
    ensures { OnOk result (blocks.new.items ≡ blocks.old.items ++ map (λ route. route.prefix) routes.now) }
{
    for route in routes {
        blocks.push(route.prefix)?;
    }
    Ok(())
}

/// Finds prefixes: a packet to none of them is matched by none of the rules, and no route has its destination.
///
/// If there are many rules or routes it is one prefix, which has every address.
pub(crate) fn blocks_of(
    alloc: Global,
    rules: &[Rule],
    routes: &[Route],
) -> Result<Vec<Prefix>, AllocError>
    ensures { IfOk result (λ blocks. Confine blocks.items rules.now routes.now) }
{
    let mut blocks = Vec::new(alloc);
    if rules.len() > FEW || routes.len() > FEW {
        blocks.push(everything())?;
        return Ok(blocks);
    }
    push_reaches(&mut blocks, rules)?;
    push_prefixes(&mut blocks, routes)?;
    Ok(blocks)
}
