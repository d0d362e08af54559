//! A `Box` whose fields are in sight.
ghost use Rattle.std.specs.Prelude.{◌≡◌};
ghost use Rattle.std.specs.Box.Ownership.{box_owns};
ghost use Rattle.std.specs.Box.{box_allocator};

use std::alloc::Allocator;
use std::marker::Model;

/// What a box owns: a value at an address, and the right to free its memory.
pub struct Loose<T, A: Allocator> {
    pub at: *mut T,
    pub alloc: A,
    pub ghost value: { T },
}

impl<T, A: Allocator> Model for Loose<T, A> {
    ghost also_owns = { λ l. box_owns (A.dealloc_token l.alloc) T.row l.at l.value };
}

impl<T, A: Allocator> Loose<T, A> {
    /// Returns the box again.
    pub fn into_box(self) -> Box<T, A>
        ensures { result.value ≡ self.value }
    {
        let Loose { at, alloc } = self;
        unsafe { Box::from_raw(alloc, at) }
    }
}

impl<T: Drop, A: Allocator> Loose<T, A> {
    /// Returns what `boxed` owns. `alloc` is a copy of its allocator.
    pub fn of_box(boxed: Box<T, A>, alloc: A) -> Loose<T, A>
        requires { alloc ≡ box_allocator boxed }
        ensures { result.value ≡ boxed.value }
    {
        let at = Box::into_raw(boxed);
        Loose { at, alloc }
    }
}
