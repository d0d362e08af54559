//! The parts of bins that are still to be visited.
ghost use Rattle.std.specs.Prelude.{◌≡◌, ◌<◌, [], ◌∷◌, length, MatchOption};
ghost use Rattle.flurry_steps_sweep.specs.FrameView.{frame_of};

use crate::stack::{Stack, Twice};
use std::alloc::Allocator;
use std::marker::Model;
use std::sync::Arc;

/// A bin of a table, and the bound past which its entries are still to be visited. Without a bound, all of them are.
#[derive(Drop)]
pub(crate) struct Frame<K, A: Allocator> {
    pub(crate) table: u8,
    pub(crate) index: usize,
    pub(crate) bound: Option<(u64, Arc<K, A>)>,
}

/// A stack of at most 32 frames: one of each table, and one more.
#[derive(Drop)]
pub(crate) struct Frames<K, A: Allocator> {
    stack: Twice<Twice<Twice<Twice<Twice<Option<Frame<K, A>>>>>>>,
}

impl<K, A: Allocator> Model for Frames<K, A> {
    ghost use Rattle.std.specs.Prelude.{List};
    ghost use Rattle.flurry_steps_sweep.specs.Cursor.{Frame as PlainFrame};
    ghost use Rattle.flurry_steps_sweep.specs.FramesView.{frames_of, FillUp};

    ghost Value = { List (PlainFrame K) };

    ghost view = { λ f. frames_of f.stack };

    ghost invariant = { λ f. FillUp f.stack };
}

impl<K: Drop, A: Allocator> Frames<K, A> {
    pub(crate) fn new() -> Self
        ensures { result ≡ [] }
    {
        Frames {
            stack: Stack::empty(),
        }
    }

    pub(crate) fn push(&mut self, frame: Frame<K, A>)
        requires { length self.old < 32 }
        ensures { self.new ≡ frame_of frame ∷ self.old }
    {
        self.stack.push(frame);
    }

    pub(crate) fn pop(&mut self) -> Option<Frame<K, A>>
        ensures { MatchOption result ((self.old ≡ []) × (self.new ≡ self.old)) (λ f. self.old ≡ frame_of f ∷ self.new) }
    {
        self.stack.pop()
    }
}
