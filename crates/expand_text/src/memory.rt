//! Memory that runs out. Only this ends a walk.
ghost use Rattle.std.specs.Prelude.{◌≡◌, None};

use std::alloc::{AllocError, AllocFailed};
use tt::{Refused, TtFault};

/// Memory runs out. It is reported also if a builder would hold more than 4,294,967,295 tokens.
#[derive(Clone, Copy)]
pub(crate) struct OutOfMemory;

/// Memory runs out in a walk through a text.
#[derive(Clone, Copy)]
pub(crate) struct OutOfMemoryAt {
    /// The byte at which a call of the text begins, after its attributes, if memory runs out while that is expanded.
    pub(crate) call: Option<u32>,
}

impl From<AllocError> for OutOfMemory {
    fn from(_error: AllocError) -> OutOfMemory {
        OutOfMemory
    }
}

impl From<TtFault> for OutOfMemory {
    fn from(_fault: TtFault) -> OutOfMemory {
        OutOfMemory
    }
}

impl<T: Drop> From<Refused<T>> for OutOfMemory {
    fn from(_refused: Refused<T>) -> OutOfMemory {
        OutOfMemory
    }
}

impl<T: Drop> From<AllocFailed<T>> for OutOfMemory {
    fn from(_failed: AllocFailed<T>) -> OutOfMemory {
        OutOfMemory
    }
}

impl From<OutOfMemoryAt> for OutOfMemory {
    fn from(_error: OutOfMemoryAt) -> OutOfMemory {
        OutOfMemory
    }
}

impl From<OutOfMemory> for OutOfMemoryAt {
    ghost from_gives = { λ _ error. error.call ≡ None };

    fn from(_error: OutOfMemory) -> OutOfMemoryAt {
        OutOfMemoryAt { call: None }
    }
}

impl From<AllocError> for OutOfMemoryAt {
    ghost from_gives = { λ _ error. error.call ≡ None };

    fn from(_error: AllocError) -> OutOfMemoryAt {
        OutOfMemoryAt { call: None }
    }
}
