//! Why trees are not written.
use std::alloc::{AllocError, AllocFailed};
use thiserror::Error;

/// Why trees are not written.
#[derive(Debug, Clone, Copy, PartialEq, Eq, Error)]
pub enum WriteFault {
    /// No text that holds this leaf reads back, and it is the first such leaf. `at` is the number of tokens before it.
    #[error("not writable at {at}")]
    NotWritable {
        /// Its place in the flat list.
        at: usize,
    },
    /// The text has 4,294,967,295 bytes or more.
    #[error("more than 4294967294 bytes")]
    TooLong,
    /// Memory ran out.
    #[error("out of memory")]
    Memory,
}

impl From<AllocError> for WriteFault {
    ghost use Rattle.std.specs.Prelude.{◌≡◌};
    ghost use Rattle.syntax_unparse.specs.declared.fault.WriteFault.TheVariants.{Memory};

    ghost from_gives = { λ error fault. fault ≡ Memory };

    fn from(_error: AllocError) -> WriteFault {
        WriteFault::Memory
    }
}

impl<T: Drop> From<AllocFailed<T>> for WriteFault {
    ghost use Rattle.std.specs.Prelude.{◌≡◌};
    ghost use Rattle.syntax_unparse.specs.declared.fault.WriteFault.TheVariants.{Memory};

    ghost from_gives = { λ error fault. fault ≡ Memory };

    fn from(_error: AllocFailed<T>) -> WriteFault {
        WriteFault::Memory
    }
}
