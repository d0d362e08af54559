//! A list in pieces.
ghost use Rattle.std.specs.Prelude.{◌≡◌, IfOk, flat_map, vec_items};

use std::alloc::{AllocError, Allocator};
use std::mem;

// The pieces of `list`, in its order, each of length `part` except the last. A `part` of `0` means 1.
pub(crate) fn pieces<T: Drop, A: Allocator + Copy>(
    alloc: A,
    list: Vec<T, A>,
    part: usize,
) -> Result<Vec<Vec<T, A>, A>, AllocError>
    ensures { IfOk result (λ pieces. flat_map vec_items pieces.items ≡ list.items) }
{
    let part = part.max(1);
    let size = part.min(list.len());
    let mut pieces = Vec::new(alloc);
    let mut piece = Vec::with_capacity(alloc, size)?;
    for item in list {
        if piece.len() == part {
            let full = mem::replace(&mut piece, Vec::with_capacity(alloc, size)?);
            pieces.push(full)?;
        }
        piece.push(item)?;
    }
    pieces.push(piece)?;
    Ok(pieces)
}
