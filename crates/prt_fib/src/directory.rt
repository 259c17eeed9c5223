//! The places of addresses among starts.
ghost use Rattle.std.specs.Prelude.{◌≡◌, ◌+◌, ◌<◌, ◌≤◌, IfOk, length, slice_index};
ghost use Rattle.std.specs.List.Sorted.{IsStrictlyIncreasing};
ghost use Rattle.prt_fib.specs.Places.{AreBlocks, AreStartsFrom, IsCount, IsPlace, addresses_of, block_of, count_of};

use std::alloc::{AllocError, Global};

/// Of so many starts a piece has the larger blocks: then a directory of the smaller ones would be larger than they are.
const FEW_STARTS: usize = 256;

/// Finds the place of the last start at the address or before it, which is one of those between the two, or is both.
pub(crate) fn place_between(starts: &[u32], low: u32, high: u32, addr: u32) -> u32
    requires rise { IsStrictlyIncreasing starts.now }
    requires low { low < length starts.now }
    requires high { high < length starts.now }
    requires from { slice_index starts.now low ≤ addr }
    requires to { high + 1 < length starts.now → addr < slice_index starts.now (high + 1) }
    ensures { IsPlace starts.now addr result }
{
    let mut low = low;
    let mut high = high;
    while low < high {
        let middle = high - (high - low) / 2;
        if starts[middle as usize] <= addr {
            low = middle;
        } else {
            high = middle - 1;
        }
    }
    low
}

/// Counts the starts below the number.
pub(crate) fn count_below(starts: &[u32], n: u64) -> usize
    requires { IsStrictlyIncreasing starts.now }
    ensures { IsCount starts.now n result }
{
    let mut low = 0;
    let mut high = starts.len();
    while low < high {
        let middle = low + (high - low) / 2;
        if u64::from(starts[middle]) < n {
            low = middle + 1;
        } else {
            high = middle;
        }
    }
    low
}

/// How large the blocks of addresses are whose places a directory has.
#[derive(Clone, Copy)]
pub(crate) enum BlockSize {
    /// 65,536 addresses, for few starts.
    Large,
    /// 16,384 addresses.
    Small,
}

impl BlockSize {
    /// The size for so many starts: a piece of few stays small itself.
    pub(crate) fn for_starts(count: usize) -> BlockSize {
        if count > FEW_STARTS {
            BlockSize::Small
        } else {
            BlockSize::Large
        }
    }

    /// How many addresses a block has.
    fn addresses(self) -> u64
        ensures { result ≡ addresses_of self }
    {
        match self {
            BlockSize::Large => 65_536,
            BlockSize::Small => 16_384,
        }
    }

    /// How many blocks the addresses of a piece have.
    fn count(self) -> usize
        ensures { result ≡ count_of self }
    {
        match self {
            BlockSize::Large => 256,
            BlockSize::Small => 1_024,
        }
    }

    /// The number of the block of an address in its piece.
    pub(crate) fn block_of(self, addr: u32) -> usize
        ensures { result ≡ block_of self addr }
    {
        match self {
            BlockSize::Large => (addr >> 16) as usize % 256,
            BlockSize::Small => (addr >> 14) as usize % 1_024,
        }
    }
}

/// Finds the place of the last start at the number or before it, from a place on whose start is.
fn place_from(starts: &[u32], from: usize, n: u64) -> usize
    requires within { from < length starts.now }
    requires from { slice_index starts.now from ≤ n }
    ensures { IsPlace starts.now n result }
{
    let mut place = from;
    while place + 1 < starts.len() && u64::from(starts[place + 1]) <= n {
        place += 1;
    }
    place
}

/// Makes a list of the places of the first address of each block, and of the last place.
pub(crate) fn directory_of(
    alloc: Global,
    starts: &[u32],
    base: u32,
    size: BlockSize,
) -> Result<Vec<u32>, AllocError>
    requires starts { AreStartsFrom base starts.now }
    requires fits { length starts.now ≤ 16777216 }
    ensures { IfOk result (λ directory. AreBlocks size base starts.now directory.items) }
{
    let mut directory = Vec::with_capacity(alloc, size.count() + 1)?;
    let mut place = 0;
    for block in 0..size.count() + 1 {
        place = place_from(
            starts,
            place,
            u64::from(base) + block as u64 * size.addresses(),
        );
        directory.push(place as u32)?;
    }
    Ok(directory)
}
