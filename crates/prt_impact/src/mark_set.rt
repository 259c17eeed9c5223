//! Sets of marks.
ghost use Rattle.std.specs.Prelude.{◌≡◌, ◌∷◌, ◌≤◌, [], length};
ghost use Rattle.prt_impact.specs.MarkSets.{except, only};

use prt_rule::Mark;
use std::marker::Model;

/// The most blocks that one set has. More of them are easier to read as several groups.
pub const MOST_BLOCKS: usize = 16;

/// A few blocks of marks, kept in the value itself: at most [`MOST_BLOCKS`].
///
/// A block has the marks that agree with its value in the bits of its mask. The mask 0 takes every mark.
#[derive(Clone, Copy)]
pub struct Blocks {
    blocks: [Mark; MOST_BLOCKS],
    len: u8,
}

impl Model for Blocks {
    ghost use Rattle.std.specs.Prelude.{◌-◌, ◌++◌, List, length, replicate, take};
    ghost use Rattle.prt_rule.specs.declared.rule.Mark.{Mark};
    ghost use Rattle.prt_impact.specs.Padded.{IsPadded, no_mark};

    ghost Value = { List Mark };

    ghost view = { λ b. take b.len b.blocks };

    ghost invariant = { λ b. IsPadded b.len b.blocks };

    ghost inverse = { λ blocks. record { blocks = blocks ++ replicate (16 - length blocks) no_mark; len = length blocks } };

    ghost inverse_ok = { λ b h i. record { blocks = h.zeros i; len = h.whole i } };
}

impl Blocks {
    /// Makes the list of these blocks.
    pub(crate) fn of(blocks: &[Mark]) -> Blocks
        requires { length blocks.now ≤ MOST_BLOCKS }
        ensures { result ≡ blocks.now }
    {
        let mut padded = [NO_MARK; MOST_BLOCKS];
        padded[..blocks.len()].copy_from_slice(blocks);
        Blocks {
            blocks: padded,
            len: blocks.len() as u8,
        }
    }

    /// Returns the blocks.
    pub fn as_slice(&self) -> &[Mark]
        ensures value { result.now ≡ self.now }
        ensures len { length result.now ≤ MOST_BLOCKS }
    {
        &self.blocks[..usize::from(self.len)]
    }
}

/// Fills the places behind the last block. As a block it has all marks.
pub(crate) const NO_MARK: Mark = Mark { mark: 0, mask: 0 };

/// Marks of packets: those of some blocks, or all others.
#[derive(Clone, Copy)]
pub struct MarkSet {
    /// Whether the set has all marks that are in none of the blocks, in place of those that are in one.
    pub inverted: bool,
    /// The blocks.
    pub blocks: Blocks,
}

/// Makes the set of the marks of these blocks.
pub(crate) fn only(blocks: &[Mark]) -> MarkSet
    requires { length blocks.now ≤ MOST_BLOCKS }
    ensures { result ≡ only blocks.now }
{
    MarkSet {
        inverted: false,
        blocks: Blocks::of(blocks),
    }
}

/// Makes the set of all marks but those of these blocks.
pub(crate) fn except(blocks: &[Mark]) -> MarkSet
    requires { length blocks.now ≤ MOST_BLOCKS }
    ensures { result ≡ except blocks.now }
{
    MarkSet {
        inverted: true,
        blocks: Blocks::of(blocks),
    }
}

/// Makes the set of the marks of one block.
pub(crate) fn one_block(block: &Mark) -> MarkSet
    ensures { result ≡ only (block.now ∷ []) }
{
    only(&[*block])
}
