//! A value on the heap with several owners.
ghost use Rattle.std.specs.Prelude.{◌≡◌, IfOk, IsTrue, ⊤};
ghost use Rattle.tt_shared.specs.Shared.{shared_value};

use crate::counted::Counted;
use std::alloc::{AllocError, Global};

/// One of the owners of a value. A clone is one more owner, takes no memory and cannot fail. The last owner frees the value. A value that
/// once had 2^64 - 1 owners is never freed.
pub struct Shared<T> {
    counted: Counted<T>,
    alloc: Global,
}

impl<T: Drop> Shared<T> {
    /// Returns the first owner of a value. Fails only if memory runs out.
    pub fn new(alloc: Global, value: T) -> Result<Shared<T>, AllocError>
        ensures { IfOk result (λ shared. shared_value shared ≡ value) }
    {
        let counted = Counted::new(alloc, value)?;
        Ok(Shared { counted, alloc })
    }
}

impl<T> Shared<T> {
    /// Returns the value that the owners share.
    pub fn get(&self) -> &T
        ensures { result.now ≡ shared_value self.now }
    {
        self.counted.value()
    }

    /// Returns one more owner. Takes no memory.
    pub fn share(&self) -> Shared<T>
        ensures { shared_value result ≡ shared_value self.now }
    {
        Shared {
            counted: self.counted.share(),
            alloc: self.alloc,
        }
    }

    /// Returns true only if both own one value. Always returns false for a value that is never freed.
    pub fn ptr_eq(&self, other: &Shared<T>) -> bool
        ensures { IsTrue result → shared_value self.now ≡ shared_value other.now }
    {
        self.counted.ptr_eq(&other.counted)
    }

    /// Returns the value, which is then never freed.
    pub(crate) fn keep(&self) -> &'static T
    where
        T: 'static,
        ensures { result.now ≡ shared_value self.now }
    {
        self.counted.keep()
    }
}

impl<T: Drop> Clone for Shared<T> {
    ghost is_clone = { λ shared copy. shared_value copy ≡ shared_value shared };

    ghost is_infallible = { λ _. ⊤ };

    fn clone(&self) -> Result<Shared<T>, AllocError> {
        Ok(self.share())
    }
}

impl<T: Drop> Drop for Shared<T> {
    fn drop(self) {
        let Shared { counted, alloc } = self;
        if let Some(block) = counted.release(alloc) {
            drop(block.into_box());
        }
    }
}
