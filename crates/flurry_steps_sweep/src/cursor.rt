//! The position of a call that visits all bins.
ghost use Rattle.std.specs.Prelude.{◌≡◌, ◌<◌, ◌≤◌, IsSome, OnOk, OnErr, MatchOption, false, true};
ghost use Rattle.std.specs.Option.{option_map};
ghost use Rattle.std.specs.Arc.{arc_value};
ghost use Rattle.flurry_steps_sweep.specs.Cursor.{at_base, with_top, with_bound, after_split, after_top};
ghost use Rattle.flurry_base.specs.declared.sizes.TheConstants.{MAX_TABLE};

use crate::frames::{Frame, Frames};
use std::alloc::{AllocError, Allocator, Global};
use std::marker::Model;
use std::mem;
use std::sync::Arc;

/// The position of a call that visits all bins of a map, while other calls may move any bin at any time.
///
/// It visits the bins of its base table one after another. If a bin has moved, it visits the two halves of the bin in the next table
/// instead, and so on, so that it visits each hash once. It has at most 32 frames: the one that it visits now, and below it at most one
/// of each table. A cursor takes no memory except for clones of the `Arc`s of the keys that are its bounds.
///
/// ```
/// let mut cursor: Cursor<u64> = Cursor::new(1);
/// let _ = cursor.leave();
/// let at = cursor.at();
/// drop(cursor);
/// at
/// ```
#[derive(Drop)]
pub struct Cursor<K, A: Allocator = Global> {
    base: u8,
    index: usize,
    top: Frame<K, A>,
    below: Frames<K, A>,
    // The last bound that was left behind, which no contract sees. It is kept until no lock is held, since its drop may be the key's.
    spent: Option<(u64, Arc<K, A>)>,
}

impl<K, A: Allocator> Model for Cursor<K, A> {
    ghost use Rattle.flurry_steps_sweep.specs.Cursor.{CursorState, IsCursor};
    ghost use Rattle.flurry_steps_sweep.specs.CursorView.{cursor_state_of};

    ghost Value = { CursorState K };

    ghost view = { cursor_state_of };

    ghost invariant = { λ c. IsCursor (cursor_state_of c) };
}

impl<K: Drop, A: Allocator> Cursor<K, A> {
    /// Creates a cursor at the first bin of table `base`, which is to visit all bins of that table.
    ///
    /// Constant time. Takes no memory.
    pub fn new(base: u8) -> Self
        requires { base ≤ MAX_TABLE }
        ensures { result ≡ at_base base 0 }
    {
        Cursor {
            base,
            index: 0,
            top: Frame {
                table: base,
                index: 0,
                bound: None,
            },
            below: Frames::new(),
            spent: None,
        }
    }

    /// Drops what the last step left behind. Constant time.
    pub fn release(&mut self)
        ensures { self.new ≡ self.old }
    {
        drop(mem::take(&mut self.spent));
    }

    /// Returns the table and the index of the bin that is visited now.
    ///
    /// Constant time.
    pub fn at(&self) -> (u8, usize)
        ensures { (result.0 ≡ self.now.top.table) × (result.1 ≡ self.now.top.index) }
    {
        (self.top.table, self.top.index)
    }

    /// Returns the hash and the key past which the rest of the current bin lies, or `None` if all of that bin is left.
    ///
    /// Constant time.
    pub fn bound(&self) -> Option<(u64, &K)>
        ensures { option_map (λ b. (b.0, b.1.now)) result ≡ self.now.top.bound }
    {
        match &self.top.bound {
            Some((hash, key)) => Some((*hash, &**key)),
            None => None,
        }
    }

    /// Goes on past `hash` and `key` in the same bin.
    ///
    /// Constant time.
    pub fn pass(&mut self, hash: u64, key: Arc<K, A>)
        ensures { self.new ≡ with_top self.old (with_bound self.old.top (hash, arc_value key)) }
    {
        let bound = mem::replace(&mut self.top.bound, Some((hash, key)));
        drop(mem::replace(&mut self.spent, bound));
    }

    /// Goes from a bin that has moved to its two halves, of which the low half comes first.
    ///
    /// Constant time. Takes no memory except for a clone of the `Arc` of the bound's key.
    ///
    /// # Errors
    ///
    /// Returns [`AllocError`] if cloning that `Arc` fails, which it cannot without a bound. The cursor is unchanged.
    pub fn split(&mut self) -> Result<(), AllocError>
        requires { self.old.top.table < MAX_TABLE }
        ensures ok { OnOk result (self.new ≡ after_split self.old) }
        ensures err { OnErr result ((self.new ≡ self.old) × IsSome self.old.top.bound) }
    {
        let bound = match &self.top.bound {
            Some((hash, key)) => Some((*hash, Arc::try_clone(key)?)),
            None => None,
        };
        let table = self.top.table;
        self.below.push(Frame {
            table: table + 1,
            index: self.top.index + (1 << table),
            bound,
        });
        self.top.table = table + 1;
        Ok(())
    }

    /// Goes from a bin that is done to the frame below it, or else to the next bin of the base table. Returns `false` if there is none;
    /// the cursor is then unchanged.
    ///
    /// Constant time.
    pub fn leave(&mut self) -> bool
        ensures { MatchOption (after_top self.old) ((result ≡ false) × (self.new ≡ self.old))
            (λ c. (result ≡ true) × (self.new ≡ c)) }
    {
        let next = match self.below.pop() {
            Some(frame) => frame,
            None => {
                let index = self.index + 1;
                if index >= 1 << self.base {
                    return false;
                }
                self.index = index;
                Frame {
                    table: self.base,
                    index,
                    bound: None,
                }
            }
        };
        let Frame { bound, .. } = mem::replace(&mut self.top, next);
        drop(mem::replace(&mut self.spent, bound));
        true
    }
}
