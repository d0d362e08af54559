//! A stack with a few places that is stored in its owner itself, for items whose size the owner chooses.
ghost use Rattle.std.specs.Prelude.{◌≡◌, ◌<◌, ◌+◌, ℕ, List, [], ◌∷◌, length, MatchOption, true, false};

use std::mem;

/// A stack with a fixed number of places. An array would do, but each function that borrows an array of items of unknown size has to know
/// that it fits into memory; two halves fit as two fields do.
pub(crate) trait Stack<T: Drop> {
    /// The items, the newest first.
    ghost items: { Self → List T };

    /// The number of places.
    ghost places: { ℕ };

    /// The older half is full before the newer half has an item, and neither half has more items than places.
    ghost fills_up: { Self → Type 0 };

    /// Creates a stack without items.
    fn empty() -> Self
        ensures items { items result ≡ [] }
        ensures fills_up { fills_up result };

    /// Returns `true` if every place is taken.
    fn is_full(&self) -> bool
        requires { fills_up self.now }
        ensures yes { result ≡ true → length (items self.now) ≡ places }
        ensures no { result ≡ false → length (items self.now) < places };

    /// Pushes `item` on top.
    fn push(&mut self, item: T)
        requires room { length (items self.old) < places }
        requires fills_up { fills_up self.old }
        ensures items { items self.new ≡ item ∷ items self.old }
        ensures fills_up { fills_up self.new };

    /// Removes the item on top and returns it, or returns `None` if there is no item.
    fn pop(&mut self) -> Option<T>
        requires { fills_up self.old }
        ensures items { MatchOption result ((items self.old ≡ []) × (self.new ≡ self.old))
            (λ x. items self.old ≡ x ∷ items self.new) }
        ensures fills_up { fills_up self.new };
}

/// A stack with one place.
impl<T: Drop> Stack<T> for Option<T> {
    ghost use Rattle.std.specs.Prelude.{⊤};
    ghost use Rattle.flurry_steps_sweep.specs.Stack.{place_items};

    ghost items = { place_items };

    ghost places = { 1 };

    ghost fills_up = { λ _. ⊤ };

    fn empty() -> Self {
        None
    }

    fn is_full(&self) -> bool {
        self.is_some()
    }

    fn push(&mut self, item: T) {
        drop(mem::replace(self, Some(item)));
    }

    fn pop(&mut self) -> Option<T> {
        mem::take(self)
    }
}

/// A stack with twice as many places as `S`.
#[derive(Drop)]
pub(crate) struct Twice<S> {
    older: S,
    newer: S,
}

impl<T: Drop, S: Stack<T>> Stack<T> for Twice<S> {
    ghost use Rattle.flurry_steps_sweep.specs.Stack.{twice_items, TwiceFillsUp};

    ghost items = { twice_items S.items };

    ghost places = { S.places + S.places };

    ghost fills_up = { TwiceFillsUp S.items S.places S.fills_up };

    fn empty() -> Self {
        Twice {
            older: S::empty(),
            newer: S::empty(),
        }
    }

    fn is_full(&self) -> bool {
        self.older.is_full() && self.newer.is_full()
    }

    fn push(&mut self, item: T) {
        if self.older.is_full() {
            self.newer.push(item);
            return;
        }
        self.older.push(item);
    }

    fn pop(&mut self) -> Option<T> {
        match self.newer.pop() {
            Some(item) => Some(item),
            None => self.older.pop(),
        }
    }
}
