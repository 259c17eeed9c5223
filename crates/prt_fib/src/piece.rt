//! A piece of a compiled table.
ghost use Rattle.std.specs.Prelude.{◌≡◌, ◌/◌, ◌*◌, ◌≤◌, IfOk, length, slice_range};
ghost use Rattle.prt_fib.specs.Pieces.{IsPiece};
ghost use Rattle.prt_fib.specs.Places.{AreStartsFrom, IsNumberAt};

use crate::directory::{BlockSize, directory_of, place_between};
use std::alloc::{AllocError, Global};

/// The outcomes for the addresses of one first octet.
#[derive(Drop)]
pub(crate) struct Piece {
    /// The destinations at which another outcome can begin, in order.
    pub(crate) starts: Vec<u32>,
    /// The number of the outcome from each of them on.
    pub(crate) numbers: Vec<u16>,
    /// How large the blocks of the directory are.
    pub(crate) size: BlockSize,
    /// Between which places of starts the last one is that isn't after an address, by the address's block.
    pub(crate) directory: Vec<u32>,
}

impl Piece {
    /// Makes the piece of these starts and numbers.
    pub(crate) fn of(
        alloc: Global,
        starts: Vec<u32>,
        numbers: Vec<u16>,
        base: u32,
    ) -> Result<Piece, AllocError>
        requires starts { AreStartsFrom base starts.items }
        requires same { length numbers.items ≡ length starts.items }
        ensures piece { IfOk result (IsPiece base) }
        ensures starts { IfOk result (λ piece. piece.starts.items ≡ starts.items) }
        ensures numbers { IfOk result (λ piece. piece.numbers.items ≡ numbers.items) }
    {
        let size = BlockSize::for_starts(starts.len());
        let directory = directory_of(alloc, &starts, base, size)?;
        Ok(Piece {
            starts,
            numbers,
            size,
            directory,
        })
    }

    /// Finds the number of the outcome for an address of the piece.
    pub(crate) fn number(&self, addr: u32) -> u16
        requires { IsPiece (addr / 16777216 * 16777216) self.now }
        ensures { IsNumberAt self.now.starts.items self.now.numbers.items addr result }
    {
        let block = self.size.block_of(addr);
        let low = self.directory[block];
        let high = self.directory[block + 1];
        let place = place_between(self.starts.as_slice(), low, high, addr);
        self.numbers[place as usize]
    }
}
