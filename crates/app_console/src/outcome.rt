//! The outcome of a run.
ghost use Rattle.std.specs.Prelude.{◌≡◌};
ghost use Rattle.app_console.specs.declared.outcome.RunFault.TheVariants.{Memory};

use std::alloc::AllocError;
use thiserror::Error;

/// The end of the input.
#[derive(Debug, Clone, Copy, PartialEq, Eq)]
pub enum End {
    /// After the last line.
    Clean,
    /// At the first line that is no command; this is its number.
    BadLine(u64),
}

/// The reason why the run stopped before the end of the input.
#[derive(Debug, Clone, Copy, PartialEq, Eq, Error)]
pub enum RunFault {
    /// A read returned an error.
    #[error("read failed")]
    Read,
    /// A write or a flush returned an error, or a write took no byte.
    #[error("write failed")]
    Write,
    /// Memory for a line or for its command ran out.
    #[error("out of memory")]
    Memory,
}

impl From<AllocError> for RunFault {
    ghost from_gives = { λ _ fault. fault ≡ Memory };

    fn from(_error: AllocError) -> RunFault {
        RunFault::Memory
    }
}
