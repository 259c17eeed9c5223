//! The cuts near what differs: those in blocks of destinations.
ghost use Rattle.std.specs.Prelude.{◌≡◌, ◌++◌, ◌∷◌, [], IfOk, OnOk, filter, flat_map};
ghost use Rattle.prt_partition.specs.Cuts.{AreStarts, cuts_of};
ghost use Rattle.prt_partition.specs.Differing.{cuts_within, has_any, near_cuts, route_cuts_within, rule_cuts_within};

use crate::cuts::{end_of, push_cuts, sort_distinct};
use prt_addr::{Addr, Prefix};
use prt_route::Route;
use prt_rule::Rule;
use std::alloc::{AllocError, Global};

/// Checks whether one of the blocks has the address.
fn has_any(blocks: &[Prefix], addr: u32) -> bool
    ensures { result ≡ has_any blocks.now addr }
{
    blocks.iter().any(|block| block.contains(Addr(addr)))
}

/// Appends the cut if one of the blocks has it.
fn push_within(cuts: &mut Vec<u32>, blocks: &[Prefix], cut: u32) -> Result<(), AllocError>
    ensures { OnOk result (cuts.new.items ≡ cuts.old.items ++ filter (has_any blocks.now) (cut ∷ [])) }
{
    if has_any(blocks, cut) {
        cuts.push(cut)?;
    }
    Ok(())
}

/// Appends the cuts of the prefix that are in the blocks.
fn push_cuts_within(
    cuts: &mut Vec<u32>,
    blocks: &[Prefix],
    prefix: &Prefix,
) -> Result<(), AllocError>
    ensures { OnOk result (cuts.new.items ≡ cuts.old.items ++ cuts_within blocks.now prefix.now) }
{
    push_within(cuts, blocks, prefix.bits())?;
    match end_of(prefix) {
        Some(end) => push_within(cuts, blocks, end),
        None => Ok(()),
    }
}

/// Appends the cuts of the destinations of rules that are in the blocks.
fn push_rule_cuts_within(
    cuts: &mut Vec<u32>,
    blocks: &[Prefix],
    rules: &[Rule],
) -> Result<(), AllocError>
    ensures { OnOk result (cuts.new.items ≡ cuts.old.items ++ rule_cuts_within blocks.now rules.now) }
{
    for rule in rules {
        push_cuts_within(cuts, blocks, &rule.to)?;
    }
    Ok(())
}

/// Appends the cuts of the destinations of routes that are in the blocks.
fn push_route_cuts_within(
    cuts: &mut Vec<u32>,
    blocks: &[Prefix],
    routes: &[Route],
) -> Result<(), AllocError>
    ensures { OnOk result (cuts.new.items ≡ cuts.old.items ++ route_cuts_within blocks.now routes.now) }
{
    for route in routes {
        push_cuts_within(cuts, blocks, &route.prefix)?;
    }
    Ok(())
}

/// Appends the cuts of the blocks.
fn push_block_cuts(cuts: &mut Vec<u32>, blocks: &[Prefix]) -> Result<(), AllocError>
    ensures { OnOk result (cuts.new.items ≡ cuts.old.items ++ flat_map cuts_of blocks.now) }
{
    for block in blocks {
        push_cuts(cuts, block)?;
    }
    Ok(())
}

/// Lists in order the destinations at which blocks begin and end, those in blocks at which an answer of either version can
/// change, and 0.0.0.0. The versions are given by their rules and routes.
pub(crate) fn near_starts(
    alloc: Global,
    blocks: &[Prefix],
    before_rules: &[Rule],
    after_rules: &[Rule],
    before_routes: &[Route],
    after_routes: &[Route],
) -> Result<Vec<u32>, AllocError>
    ensures { IfOk result (λ starts. AreStarts (near_cuts blocks.now before_rules.now after_rules.now before_routes.now after_routes.now) starts.items) }
{
    let mut starts = Vec::new(alloc);
    push_block_cuts(&mut starts, blocks)?;
    push_rule_cuts_within(&mut starts, blocks, before_rules)?;
    push_rule_cuts_within(&mut starts, blocks, after_rules)?;
    push_route_cuts_within(&mut starts, blocks, before_routes)?;
    push_route_cuts_within(&mut starts, blocks, after_routes)?;
    starts.push(0)?;
    sort_distinct(&mut starts);
    Ok(starts)
}
