//! Blocks of marks that every rule takes alike.
//!
//! A block is a value with a mask: it has the marks that agree with the value in the bits of the mask. The first block has
//! all marks. The mark of each rule splits the blocks, bit by bit, if some of their marks agree with it and others don't.
ghost use Rattle.std.specs.Prelude.{◌≡◌, ◌⊎◌, ◌++◌, ◌<◌, ◌≤◌, IfErr, IfOk, OnOk, flat_map, length};
ghost use Rattle.prt_refusals.specs.declared.refusal.Refusal.TheVariants.{Full, NoMemory};
ghost use Rattle.prt_partition.specs.Marks.{AreMarkBlocks, agreeing_half, bit, differs, flipped, is_open, kept, mark_blocks, other_half, parts};
ghost use Rattle.prt_partition.specs.Marks.{parts_of, split_by};

use crate::limits::MOST_BOXES;
use prt_refusals::Refusal;
use prt_rule::{Mark, Rule};
use std::alloc::{AllocError, Global};

/// Returns the bit, counted from the lowest.
fn bit(number: u32, place: u32) -> u32
    requires { place < 32 }
    ensures { result ≡ bit number place }
{
    (number >> place) & 1
}

/// Checks whether the mark compares a bit in which the marks of the block differ.
fn is_open(place: u32, block: &Mark, by: &Mark) -> bool
    requires { place < 32 }
    ensures { result ≡ is_open place block.now by.now }
{
    bit(by.mask, place) == 1 && bit(block.mask, place) == 0
}

/// Returns the half of the block that has the bit of its mark.
fn kept(place: u32, block: &Mark) -> Mark
    requires { place < 32 }
    ensures { result ≡ kept place block.now }
{
    Mark {
        mark: block.mark,
        mask: block.mask | (1 << place),
    }
}

/// Returns the half of the block that has the other bit.
fn flipped(place: u32, block: &Mark) -> Mark
    requires { place < 32 }
    ensures { result ≡ flipped place block.now }
{
    Mark {
        mark: block.mark ^ (1 << place),
        mask: block.mask | (1 << place),
    }
}

/// Chooses the half of the block that differs from the mark in the bit.
fn other_half(place: u32, block: &Mark, by: &Mark) -> Mark
    requires { place < 32 }
    ensures { result ≡ other_half place block.now by.now }
{
    if bit(block.mark, place) == bit(by.mark, place) {
        flipped(place, block)
    } else {
        kept(place, block)
    }
}

/// Chooses the half of the block that agrees with the mark in the bit.
fn agreeing_half(place: u32, block: &Mark, by: &Mark) -> Mark
    requires { place < 32 }
    ensures { result ≡ agreeing_half place block.now by.now }
{
    if bit(block.mark, place) == bit(by.mark, place) {
        kept(place, block)
    } else {
        flipped(place, block)
    }
}

/// Appends the parts of a block: either all marks of a part agree with the mark, or none of them does.
fn push_parts(blocks: &mut Vec<Mark>, block: &Mark, by: &Mark) -> Result<(), AllocError>
    ensures { OnOk result (blocks.new.items ≡ blocks.old.items ++ parts 32 block.now by.now) }
{
    let mut rest = *block;
    let mut place = 32;
    while place > 0 {
        place -= 1;
        if is_open(place, &rest, by) {
            blocks.push(other_half(place, &rest, by))?;
            rest = agreeing_half(place, &rest, by);
        }
    }
    blocks.push(rest)?;
    Ok(())
}

/// Checks whether none of the block's marks agrees with the mark.
fn differs(block: &Mark, by: &Mark) -> bool
    ensures { result ≡ differs block.now by.now }
{
    (block.mark ^ by.mark) & by.mask & block.mask != 0
}

/// Appends the block, split by the mark unless none of the block's marks agrees with it.
fn push_parts_of(blocks: &mut Vec<Mark>, by: &Mark, block: &Mark) -> Result<(), AllocError>
    ensures { OnOk result (blocks.new.items ≡ blocks.old.items ++ parts_of by.now block.now) }
{
    if differs(block, by) {
        blocks.push(*block)?;
        Ok(())
    } else {
        push_parts(blocks, block, by)
    }
}

/// Splits each of the blocks by the mark.
fn split(alloc: Global, blocks: &[Mark], by: &Mark) -> Result<Vec<Mark>, AllocError>
    ensures { IfOk result (λ all. all.items ≡ flat_map (parts_of by.now) blocks.now) }
{
    let mut all = Vec::new(alloc);
    for block in blocks {
        push_parts_of(&mut all, by, block)?;
    }
    Ok(all)
}

/// Splits each of the blocks by the mark, if there is one.
fn split_by(alloc: Global, blocks: Vec<Mark>, by: &Option<Mark>) -> Result<Vec<Mark>, AllocError>
    ensures { IfOk result (λ all. all.items ≡ split_by by.now blocks.items) }
{
    match by {
        Some(by) => split(alloc, &blocks, by),
        None => Ok(blocks),
    }
}

/// Divides all marks into blocks: each mark is in exactly one of them, and each rule takes all marks of a block or none.
///
/// # Errors
///
/// `Full` if there would be more than [`MOST_BOXES`], and otherwise `NoMemory` alone. `NoMemory` may come before that.
pub fn mark_blocks(alloc: Global, rules: &[Rule]) -> Result<Vec<Mark>, Refusal>
    ensures value { IfOk result (λ blocks. AreMarkBlocks rules.now blocks.items) }
    ensures all { IfOk result (λ blocks. blocks.items ≡ mark_blocks rules.now) }
    ensures few { IfOk result (λ blocks. length blocks.items ≤ MOST_BOXES) }
    ensures reason { IfErr result (λ reason. (reason ≡ NoMemory) ⊎ ((reason ≡ Full) × (MOST_BOXES < length (mark_blocks rules.now)))) }
{
    let mut blocks = Vec::new(alloc);
    blocks.push(Mark { mark: 0, mask: 0 })?;
    for rule in rules {
        blocks = split_by(alloc, blocks, &rule.mark)?;
        if blocks.len() > MOST_BOXES {
            return Err(Refusal::Full);
        }
    }
    Ok(blocks)
}
