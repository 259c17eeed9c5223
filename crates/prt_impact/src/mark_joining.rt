//! Groups that differ in their marks alone, joined into one.
ghost use Rattle.std.specs.Prelude.{◌≡◌, ◌++◌, ◌∷◌, ◌<◌, ◌≤◌, [], IfOk, IfSome, OnOk, length, map, take};
ghost use Rattle.prt_impact.specs.MarkSets.{AreOpposite, AreSets, HasEachOnce, HasMark, is_single, only};
ghost use Rattle.prt_impact.specs.Replacing.{AlwaysReplaces};
ghost use Rattle.prt_impact.specs.Steps.{with_block, with_marks};

use crate::blocks::{joined_blocks, others_of};
use crate::group::{Group, push_group};
use crate::mark_set::{MOST_BLOCKS, MarkSet, except, one_block, only};
use crate::same::is_same_group;
use prt_rule::Mark;
use std::alloc::{AllocError, Global};

/// Copies the group, with these marks in place of its own.
fn with_marks(group: &Group, marks: &MarkSet) -> Group
    ensures { result ≡ with_marks group.now marks.now }
{
    Group {
        marks: *marks,
        ..*group
    }
}

/// Copies the group, with the marks of a block in place of its own.
fn with_block(group: &Group, block: &Mark) -> Group
    ensures { result ≡ with_block group.now block.now }
{
    with_marks(group, &one_block(block))
}

/// Returns the block of a group, if its marks are those of one block, and it differs from the other group in nothing else.
fn block_of(group: &Group, like: &Group) -> Option<Mark>
    ensures { IfSome result (λ block. group.now ≡ with_block like.now block) }
{
    let block = *group.marks.blocks.as_slice().first()?;
    if is_same_group(group, &with_block(like, &block)) {
        Some(block)
    } else {
        None
    }
}

/// Lists the blocks of the groups at the front that differ from this one in their blocks alone.
fn front_blocks(alloc: Global, groups: &[Group], like: &Group) -> Result<Vec<Mark>, AllocError>
    ensures { IfOk result (λ blocks. take (length blocks.items) groups.now ≡ map (with_block like.now) blocks.items) }
{
    let mut blocks = Vec::new(alloc);
    for group in groups {
        let Some(block) = block_of(group, like) else {
            return Ok(blocks);
        };
        blocks.extend_from_slice(&[block])?;
    }
    Ok(blocks)
}

/// Lists blocks of all marks that are in none of these blocks, if these are blocks of the partition, in its order.
fn opposite_of(
    alloc: Global,
    all: &[Mark],
    blocks: &[Mark],
) -> Result<Option<Vec<Mark>>, AllocError>
    requires { HasEachOnce all.now }
    ensures { IfOk result (λ found. IfSome found (λ others. AreOpposite blocks.now others.items)) }
{
    let Some(others) = others_of(alloc, all, blocks)? else {
        return Ok(None);
    };
    let others = joined_blocks(alloc, &others)?;
    Ok(Some(others))
}

/// Checks whether there is one block, and it doesn't have all marks. Then no fewer blocks have all others.
fn is_single(blocks: &[Mark]) -> bool
    ensures { result ≡ is_single blocks.now }
{
    blocks.len() == 1 && blocks[0].mask != 0
}

/// Makes the set of the marks of these blocks by the marks that it doesn't have, if that takes fewer blocks than the few
/// that it takes otherwise.
fn inverted_set(
    alloc: Global,
    all: &[Mark],
    blocks: &[Mark],
    few: &[Mark],
) -> Result<Option<MarkSet>, AllocError>
    requires { HasEachOnce all.now }
    ensures { IfOk result (λ found. IfSome found (λ set. AreSets blocks.now (set ∷ []))) }
{
    if is_single(few) {
        // If there are many marks, there may be many groups of one block each. Walking all blocks for each would take long.
        return Ok(None);
    }
    let Some(others) = opposite_of(alloc, all, blocks)? else {
        return Ok(None);
    };
    if others.len() >= few.len() || others.len() > MOST_BLOCKS {
        return Ok(None);
    }
    Ok(Some(except(&others)))
}

/// Makes the set of the marks of these blocks, of which there is at least one.
fn piece_of(blocks: &[Mark]) -> MarkSet
    requires some { 0 < length blocks.now }
    requires few { length blocks.now ≤ MOST_BLOCKS }
    ensures value { result ≡ only blocks.now }
    ensures some { HasMark result }
{
    // A block has its own mark, which is known to have 32 bits once it is read.
    let _mark = blocks[0].mark;
    only(blocks)
}

/// Divides blocks into sets of as many as one set may have.
fn pieces_of(alloc: Global, blocks: &[Mark]) -> Result<Vec<MarkSet>, AllocError>
    ensures { IfOk result (λ sets. AreSets blocks.now sets.items) }
{
    let mut sets = Vec::new(alloc);
    let mut rest = blocks;
    while !rest.is_empty() {
        let (piece, more) = rest.split_at(rest.len().min(MOST_BLOCKS));
        sets.extend_from_slice(&[piece_of(piece)])?;
        rest = more;
    }
    Ok(sets)
}

/// Makes sets of the marks of these blocks: one if that can be done, by the blocks or by all others, whichever are fewer.
fn sets_of(alloc: Global, all: &[Mark], blocks: &[Mark]) -> Result<Vec<MarkSet>, AllocError>
    requires { HasEachOnce all.now }
    ensures { IfOk result (λ sets. AreSets blocks.now sets.items) }
{
    let few = joined_blocks(alloc, blocks)?;
    match inverted_set(alloc, all, blocks, &few)? {
        Some(set) => {
            let mut sets = Vec::new(alloc);
            sets.push(set)?;
            Ok(sets)
        }
        None => pieces_of(alloc, &few),
    }
}

/// Appends the group once with each of these sets of marks.
fn push_sets(groups: &mut Vec<Group>, like: &Group, sets: &[MarkSet]) -> Result<(), AllocError>
    ensures { OnOk result (groups.new.items ≡ groups.old.items ++ map (with_marks like.now) sets.now) }
{
    for set in sets {
        push_group(groups, &with_marks(like, set))?;
    }
    Ok(())
}

/// Appends the first of these groups, joined with those just after it that differ from it in their marks alone. It returns
/// how many groups it took.
fn push_front(
    joined: &mut Vec<Group>,
    all: &[Mark],
    groups: &[Group],
    first: &Group,
) -> Result<usize, AllocError>
    requires once { HasEachOnce all.now }
    requires first { take 1 groups.now ≡ first.now ∷ [] }
    ensures some { IfOk result (λ count. 0 < count) }
    ensures few { IfOk result (λ count. count ≤ length groups.now) }
    ensures joined { IfOk result (λ count. AlwaysReplaces (joined.old.items ++ take count groups.now) joined.new.items) }
{
    let alloc = *joined.allocator();
    let blocks = front_blocks(alloc, groups, first)?;
    if blocks.is_empty() {
        push_group(joined, first)?;
        return Ok(1);
    }
    let sets = sets_of(alloc, all, &blocks)?;
    push_sets(joined, first, &sets)?;
    Ok(blocks.len())
}

/// Joins groups that differ in their marks alone, if they are next to each other in the list. All blocks are those of the
/// partition that the groups were made of.
pub(crate) fn joined_marks(
    alloc: Global,
    all: &[Mark],
    groups: &[Group],
) -> Result<Vec<Group>, AllocError>
    requires { HasEachOnce all.now }
    ensures { IfOk result (λ joined. AlwaysReplaces groups.now joined.items) }
{
    let mut joined = Vec::new(alloc);
    let mut rest = groups;
    while let Some((first, _)) = rest.split_first() {
        let count = push_front(&mut joined, all, rest, first)?;
        let (_, left) = rest.split_at(count);
        rest = left;
    }
    Ok(joined)
}
