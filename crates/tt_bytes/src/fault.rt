//! Why bytes are those of no tree.
use std::alloc::{AllocError, AllocFailed};
use thiserror::Error;

/// Why bytes are those of no tree, and the place of the first byte that shows it, counted from 0.
#[derive(Debug, Clone, Copy, PartialEq, Eq, Error)]
pub enum BytesFault {
    /// Memory ran out.
    #[error("out of memory")]
    Memory,
    /// The bytes end at that number of bytes, and more are needed.
    #[error("too short at {0}")]
    TooShort(usize),
    /// The byte at that place is not the one of this format and this version.
    #[error("another format at {0}")]
    OtherFormat(usize),
    /// The byte at that place is the first one of a symbol's text that is not UTF-8.
    #[error("no text at {0}")]
    NoText(usize),
    /// No token begins at that byte; or the bytes end at that byte, and their tokens make up no tree that has bytes.
    #[error("no tree at {0}")]
    NoTree(usize),
    /// The tokens make up a tree, but the bytes of that tree differ from the given ones at that place.
    #[error("stored otherwise at {0}")]
    StoredOtherwise(usize),
}

impl From<AllocError> for BytesFault {
    ghost use Rattle.std.specs.Prelude.{◌≡◌};
    ghost use Rattle.tt_bytes.specs.declared.fault.BytesFault.TheVariants.{Memory};

    ghost from_gives = { λ error fault. fault ≡ Memory };

    fn from(_error: AllocError) -> BytesFault {
        BytesFault::Memory
    }
}

impl<T: Drop> From<AllocFailed<T>> for BytesFault {
    ghost use Rattle.std.specs.Prelude.{◌≡◌};
    ghost use Rattle.tt_bytes.specs.declared.fault.BytesFault.TheVariants.{Memory};

    ghost from_gives = { λ error fault. fault ≡ Memory };

    fn from(_error: AllocFailed<T>) -> BytesFault {
        BytesFault::Memory
    }
}
