//! The memory of a value with several owners.
ghost use Rattle.std.specs.Prelude.{◌≡◌};
ghost use Rattle.std_alloc.specs.Box.Ownership.{box_owns};

use std::alloc::Allocator;
use std::marker::Model;

// A box, as its pointer and the allocator that frees it. It is no `Drop`, so the owner makes it a box again, or keeps it.
pub(crate) struct Block<T, A: Allocator> {
    pub(crate) at: *mut T,
    pub(crate) alloc: A,
    pub(crate) ghost value: { T },
}

impl<T, A: Allocator> Model for Block<T, A> {
    ghost also_owns = { λ b. box_owns (A.dealloc_token b.alloc) T.row b.at b.value };
}

impl<T: Drop, A: Allocator> Block<T, A> {
    pub(crate) fn of(whole: Box<T, A>) -> Block<T, A>
        ensures { result.value ≡ whole.value }
    {
        let (at, alloc) = Box::into_raw_with_allocator(whole);
        Block { at, alloc }
    }
}

impl<T, A: Allocator> Block<T, A> {
    pub(crate) fn into_box(self) -> Box<T, A>
        ensures { result.value ≡ self.value }
    {
        let Block { at, alloc } = self;
        unsafe { Box::from_raw(alloc, at) }
    }
}
