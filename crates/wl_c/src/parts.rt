//! A box as what it is made of.

ghost use Rattle.std.specs.Prelude.{◌≡◌};

use std::alloc::Allocator;
use std::marker::Model;

/// What a box is made of: where its value lies, and the handle by which that block is freed. They own what the box owned.
pub struct Parts<T, A: Allocator> {
    pub(crate) at: *mut T,
    pub(crate) handle: A,
    pub ghost value: { T },
}

impl<T, A: Allocator> Model for Parts<T, A> {
    ghost use Rattle.std.specs.Box.Ownership.{box_owns};

    ghost also_owns = { λ parts. box_owns (A.dealloc_token parts.handle) T.row parts.at parts.value };
}

impl<T, A: Allocator> Parts<T, A> {
    /// Takes a box apart.
    pub fn of(whole: Box<T, A>) -> Parts<T, A>
    where
        T: Drop,
        ensures { result.value ≡ whole.value }
    {
        let (at, handle) = Box::into_raw_with_allocator(whole);
        Parts { at, handle }
    }

    /// Puts the box together again.
    pub fn whole(self) -> Box<T, A>
        ensures { result.value ≡ self.value }
    {
        let Parts { at, handle } = self;
        unsafe { Box::from_raw(handle, at) }
    }
}
