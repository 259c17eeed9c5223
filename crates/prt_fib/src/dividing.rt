//! All destinations divided at starts, and cut into the pieces of a table.
ghost use Rattle.std.specs.Prelude.{◌≡◌, ◌*◌, ◌<◌, ◌≤◌, ℕ, IfOk, OnOk, length, map};
ghost use Rattle.std.specs.Arc.{arc_value};
ghost use Rattle.std.specs.List.{Contains};
ghost use Rattle.std.specs.List.Sorted.{IsStrictlyIncreasing};
ghost use Rattle.prt_fib.specs.Pieces.{AreAllStarts, ArePartsOf, IsPartOf};

use crate::directory::count_below;
use crate::piece::Piece;
use prt_partition::{sort_distinct, starts_of};
use prt_version::Version;
use std::alloc::{AllocError, Global};
use std::sync::Arc;

/// How many pieces a table has: one for each first octet.
pub(crate) const PIECES: usize = 256;

/// Appends the first address of each first octet.
fn push_bases(starts: &mut Vec<u32>) -> Result<(), AllocError>
    ensures keeps { OnOk result ((n : ℕ) → Contains starts.old.items n → Contains starts.new.items n) }
    ensures bases { OnOk result ((k : ℕ) → k < 256 → Contains starts.new.items (k * 16777216)) }
{
    for octet in 0..256u32 {
        starts.push(octet * 16_777_216)?;
    }
    Ok(())
}

/// Lists the destinations at which what becomes of a packet can change, and the first address of each first octet.
pub(crate) fn all_starts(alloc: Global, version: &Version) -> Result<Vec<u32>, AllocError>
    ensures { IfOk result (λ starts. AreAllStarts version.now starts.items) }
{
    let mut starts = starts_of(alloc, version)?;
    push_bases(&mut starts)?;
    sort_distinct(&mut starts);
    Ok(starts)
}

/// Makes the piece whose first address is the base, which is one of the starts.
fn piece_of(
    alloc: Global,
    starts: &[u32],
    numbers: &[u16],
    base: u32,
) -> Result<Arc<Piece>, AllocError>
    requires rise { IsStrictlyIncreasing starts.now }
    requires at { Contains starts.now base }
    requires base { base ≤ 4278190080 }
    requires same { length numbers.now ≡ length starts.now }
    ensures { IfOk result (λ piece. IsPartOf starts.now numbers.now base (arc_value piece)) }
{
    let low = count_below(starts, u64::from(base));
    let high = count_below(starts, u64::from(base) + 16_777_216);
    let own_starts = Vec::from_slice(alloc, &starts[low..high])?;
    let own_numbers = Vec::from_slice(alloc, &numbers[low..high])?;
    let piece = Piece::of(alloc, own_starts, own_numbers, base)?;
    Ok(Arc::new(alloc, piece)?)
}

/// Makes the pieces, each of the starts of one first octet.
pub(crate) fn pieces_of(
    alloc: Global,
    starts: &[u32],
    numbers: &[u16],
) -> Result<Vec<Arc<Piece>>, AllocError>
    requires rise { IsStrictlyIncreasing starts.now }
    requires bases { (k : ℕ) → k < 256 → Contains starts.now (k * 16777216) }
    requires same { length numbers.now ≡ length starts.now }
    ensures { IfOk result (λ pieces. ArePartsOf starts.now numbers.now (map (λ piece. arc_value piece) pieces.items)) }
{
    let mut pieces = Vec::with_capacity(alloc, PIECES)?;
    for octet in 0..256u32 {
        pieces.push(piece_of(alloc, starts, numbers, octet * 16_777_216)?)?;
    }
    Ok(pieces)
}
