//! A list from which several threads take pieces.
ghost use Rattle.std.specs.Prelude.{◌≡◌, ◌++◌, [], IfOk, OnErr, OnOk, false, length, max, min};

use std::alloc::{AllocError, Allocator};
use std::sync::atomic::{AtomicBool, Ordering};
use std::sync::{Mutex, Wait};

// The rest of a list from which threads take pieces, the length of a piece, and whether something has failed.
#[derive(Drop)]
pub(crate) struct Queue<T, A: Allocator> {
    rest: Mutex<Vec<T, A>>,
    part: usize,
    refused: AtomicBool,
}

impl<T: Drop, A: Allocator + Copy> Queue<T, A> {
    // Creates a queue of `list`, whose pieces have `part` items; `0` means 1.
    pub(crate) fn new(list: Vec<T, A>, part: usize) -> Self
        ensures { result.part ≡ max part 1 }
    {
        Queue {
            rest: Mutex::new(list),
            part: part.max(1),
            refused: AtomicBool::new(false),
        }
    }

    // Takes the next piece. Returns `None` if nothing is left, or if something has failed. If memory for the piece cannot be allocated, it says
    // so before it unlocks the rest, so that no other thread takes a further piece.
    pub(crate) fn take<R: Wait>(&self, rt: &R) -> Result<Option<Vec<T, A>>, AllocError> {
        let mut rest = self.rest.lock(rt);
        if self.is_refused() {
            return Ok(None);
        }
        match take_piece(&mut rest, self.part) {
            Ok(piece) if piece.is_empty() => Ok(None),
            Ok(piece) => Ok(Some(piece)),
            Err(error) => {
                self.refuse();
                Err(error)
            }
        }
    }

    // Says that something has failed, so that no further piece is taken.
    pub(crate) fn refuse(&self) {
        self.refused.store(true, Ordering::SeqCst);
    }

    // Whether something has failed.
    fn is_refused(&self) -> bool {
        self.refused.load(Ordering::SeqCst)
    }

    // Finishes the list once all threads have ended. Returns an error if something has failed or an item is left.
    pub(crate) fn end(self) -> Result<(), AllocError> {
        let is_refused = self.is_refused();
        ended(self.rest.into_inner(), is_refused)
    }
}

// Drops the rest of a list. Returns an error if an item is left or something has failed.
fn ended<T: Drop, A: Allocator>(rest: Vec<T, A>, is_refused: bool) -> Result<(), AllocError>
    ensures rest { OnOk result (rest.items ≡ []) }
    ensures refused { OnOk result (is_refused ≡ false) }
{
    if is_refused || !rest.is_empty() {
        return Err(AllocError);
    }
    Ok(())
}

// Removes a piece of `part` items from the end of `rest`, or all of its items if it has fewer.
fn take_piece<T: Drop, A: Allocator + Copy>(
    rest: &mut Vec<T, A>,
    part: usize,
) -> Result<Vec<T, A>, AllocError>
    ensures items { IfOk result (λ piece. rest.new.items ++ piece.items ≡ rest.old.items) }
    ensures len { IfOk result (λ piece. length piece.items ≡ min part (length rest.old.items)) }
    ensures err { OnErr result (rest.new.items ≡ rest.old.items) }
{
    rest.split_off(rest.len().saturating_sub(part))
}
