//! Blocks of marks, joined with their other halves.
ghost use Rattle.std.specs.Prelude.{◌≡◌, ◌++◌, ◌∷◌, ◌-◌, ◌<◌, [], IfOk, IfSome, OnOk, length, take};
ghost use Rattle.prt_impact.specs.MarkSets.{AreDivided, AreSameMarks};
ghost use Rattle.prt_impact.specs.Steps.{are_halves, whole_of};

use crate::order::mark_cmp;
use crate::same::is_same_mark;
use prt_rule::Mark;
use std::alloc::{AllocError, Global};

/// Makes the block of two blocks that differ in one bit of their marks.
fn whole_of(mark: &Mark, other: &Mark) -> Mark
    ensures { result ≡ whole_of mark.now other.now }
{
    Mark {
        mark: mark.mark & other.mark,
        mask: mark.mask ^ (mark.mark ^ other.mark),
    }
}

/// Checks whether the two are the halves of the block, which differ in this bit.
fn are_halves(place: u32, block: &Mark, mark: &Mark, other: &Mark) -> bool
    requires { place < 32 }
    ensures { result ≡ are_halves place block.now mark.now other.now }
{
    let bit = 1 << place;
    let mask = block.mask | bit;
    let kept = Mark {
        mark: block.mark,
        mask,
    };
    let flipped = Mark {
        mark: block.mark ^ bit,
        mask,
    };
    (block.mask >> place) & 1 == 0
        && ((is_same_mark(mark, &kept) && is_same_mark(other, &flipped))
            || (is_same_mark(other, &kept) && is_same_mark(mark, &flipped)))
}

/// Joins two blocks if they differ in one bit of equal masks.
fn join(block: &Mark, next: &Mark) -> Option<Mark>
    ensures { IfSome result (λ joined. AreSameMarks (block.now ∷ next.now ∷ []) (joined ∷ [])) }
{
    let place = (block.mark ^ next.mark).trailing_zeros();
    let whole = whole_of(block, next);
    if place >= 32 || !are_halves(place, &whole, block, next) {
        return None;
    }
    Some(whole)
}

/// Joins the last of the blocks with one more, if that can be done.
fn join_last(blocks: &[Mark], block: &Mark) -> Option<Mark>
    ensures some { IfSome result (λ joined. 0 < length blocks.now) }
    ensures same { IfSome result (λ joined. AreSameMarks (blocks.now ++ block.now ∷ []) (take (length blocks.now - 1) blocks.now ++ joined ∷ [])) }
{
    let Some((last, _)) = blocks.split_last() else {
        return None;
    };
    join(last, block)
}

/// Appends a block, joined with the last ones as long as that can be done.
fn push_joined(blocks: &mut Vec<Mark>, block: &Mark) -> Result<(), AllocError>
    ensures { OnOk result (AreSameMarks (blocks.old.items ++ block.now ∷ []) blocks.new.items) }
{
    let mut whole = *block;
    while let Some(joined) = join_last(blocks, &whole) {
        blocks.truncate(blocks.len().saturating_sub(1));
        whole = joined;
    }
    blocks.extend_from_slice(&[whole])
}

/// Joins halves that are next to each other in the list, and sorts what is left.
pub(crate) fn joined_blocks(alloc: Global, blocks: &[Mark]) -> Result<Vec<Mark>, AllocError>
    ensures { IfOk result (λ joined. AreSameMarks blocks.now joined.items) }
{
    // In the order of the partition each half comes just before all that the other one was split into.
    let mut joined = Vec::new(alloc);
    for block in blocks {
        push_joined(&mut joined, block)?;
    }
    joined.sort_by(mark_cmp)?;
    Ok(joined)
}

/// Returns the blocks after this one, if it is the first of them.
fn rest_after<'a>(blocks: &'a [Mark], block: &Mark) -> Option<&'a [Mark]>
    ensures { IfSome result (λ rest. blocks.now ≡ block.now ∷ rest.now) }
{
    match blocks.split_first() {
        Some((first, rest)) if is_same_mark(first, block) => Some(rest),
        _ => None,
    }
}

/// Lists the blocks that are not among these, if these are some of them, in the same order.
pub(crate) fn others_of(
    alloc: Global,
    all: &[Mark],
    blocks: &[Mark],
) -> Result<Option<Vec<Mark>>, AllocError>
    ensures { IfOk result (λ found. IfSome found (λ others. AreDivided all.now blocks.now others.items)) }
{
    let mut others = Vec::new(alloc);
    let mut rest = blocks;
    for block in all {
        match rest_after(rest, block) {
            Some(more) => rest = more,
            None => others.extend_from_slice(&[*block])?,
        }
    }
    if rest.is_empty() {
        Ok(Some(others))
    } else {
        Ok(None)
    }
}
