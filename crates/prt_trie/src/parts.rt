//! Rows divided by the pieces that they are of.
ghost use Rattle.std.specs.Prelude.{◌≡◌, [], length, All, IfOk};
ghost use Rattle.prt_trie.specs.Pieces.{AreParts};

use crate::cut::{Cut, PIECES};
use prt_route::Route;
use std::alloc::{AllocError, Global};

/// Counts the rows of each piece.
fn count_each(cut: Cut, rows: &[Route]) -> [usize; PIECES] {
    let mut counts = [0usize; PIECES];
    for row in rows {
        let number = cut.number_of(&row.prefix);
        counts[number] = counts[number].saturating_add(1);
    }
    counts
}

/// Makes a vector for each of the counts, with room for that many rows.
fn with_room(alloc: Global, counts: &[usize]) -> Result<Vec<Vec<Route>>, AllocError>
    ensures count { IfOk result (λ parts. length parts.items ≡ length counts.now) }
    ensures empty { IfOk result (λ parts. All (λ part. part.items ≡ []) parts.items) }
{
    let mut parts = Vec::with_capacity(alloc, counts.len())?;
    for count in counts {
        parts.push(Vec::with_capacity(alloc, *count)?)?;
    }
    Ok(parts)
}

/// Makes a copy of the rows of each piece, with no room for more.
pub(crate) fn rows_of_parts(
    alloc: Global,
    cut: Cut,
    rows: &[Route],
) -> Result<Vec<Vec<Route>>, AllocError>
    ensures { IfOk result (λ parts. AreParts cut 0 rows.now parts.items (λ part. part.items)) }
{
    let mut parts = with_room(alloc, &count_each(cut, rows))?;
    for row in rows {
        parts[cut.number_of(&row.prefix)].push(*row)?;
    }
    Ok(parts)
}
