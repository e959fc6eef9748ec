//! Owners of a value, and their count.
ghost use Rattle.std.specs.Prelude.{◌≡◌, IfOk, IfSome, IsTrue};
ghost use Rattle.tt_shared.specs.Counting.{counted_owns, counted_shares};

use crate::block::Block;
use std::alloc::{AllocError, Global};
use std::marker::Model;

// One owner of a value. The block holds the count of the owners and the value. A full count stays full, and the block is then never
// freed. This is no `Drop`, so each owner calls `release`.
pub(crate) struct Counted<T> {
    block: *mut (usize, T),
    pub(crate) ghost value: { T },
}

impl<T> Model for Counted<T> {
    ghost also_owns = { λ c. counted_owns T.row c.block c.value };

    ghost also_shares = { λ c _ κ. counted_shares T.row c.block c.value κ };
}

impl<T: Drop> Counted<T> {
    // Returns the first owner. Fails only if memory runs out.
    pub(crate) fn new(alloc: Global, value: T) -> Result<Counted<T>, AllocError>
        ensures { IfOk result (λ c. c.value ≡ value) }
    {
        let whole = Box::new(alloc, (1, value))?;
        Ok(Counted::of(Block::of(whole)))
    }
}

impl<T> Counted<T> {
    fn of(block: Block<(usize, T), Global>) -> Counted<T>
        requires { block.value.0 ≡ 1 }
        ensures { result.value ≡ block.value.1 }
    {
        let Block { at, alloc: _ } = block;
        Counted { block: at }
    }

    pub(crate) fn value(&self) -> &T
        ensures { result.now ≡ self.now.value }
    {
        unsafe { &(*self.block).1 }
    }

    // Returns one more owner. A full count does not change.
    pub(crate) fn share(&self) -> Counted<T>
        ensures { result.value ≡ self.now.value }
    {
        let block = self.block;
        unsafe {
            let count = (*block).0;
            if count != usize::MAX {
                (*block).0 = count + 1;
            }
        }
        Counted { block }
    }

    // Returns whether both own one block. Pointers to two blocks may not be compared. So this writes 0 to the one count, which is the
    // count of no block, and reads the other. A full count stays as it is, and the result is then false.
    pub(crate) fn ptr_eq(&self, other: &Counted<T>) -> bool
        ensures { IsTrue result → self.now.value ≡ other.now.value }
    {
        let block = self.block;
        unsafe {
            let count = (*block).0;
            if count == usize::MAX {
                return false;
            }
            (*block).0 = 0;
            let is_zero = (*other.block).0 == 0;
            (*block).0 = count;
            is_zero
        }
    }

    // Fills the count, so that the value is never freed, and returns the value.
    pub(crate) fn keep(&self) -> &'static T
    where
        T: 'static,
        ensures { result.now ≡ self.now.value }
    {
        let block = self.block;
        unsafe {
            if (*block).0 != usize::MAX {
                (*block).0 = usize::MAX;
            }
            &(*block).1
        }
    }

    // Gives this owner up. Returns the block if this was the last owner.
    pub(crate) fn release(self, alloc: Global) -> Option<Block<(usize, T), Global>>
        ensures { IfSome result (λ block. block.value.1 ≡ self.value) }
    {
        let Counted { block } = self;
        unsafe {
            let count = (*block).0;
            if count == usize::MAX {
                return None;
            }
            if count != 1 {
                (*block).0 = count - 1;
                return None;
            }
        }
        Some(Block { at: block, alloc })
    }
}
