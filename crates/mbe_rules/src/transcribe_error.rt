//! Why a template is not filled.
ghost use Rattle.std.specs.Prelude.{◌≡◌};
ghost use Rattle.tt.specs.Types.TtFault.TheVariants.{Memory};
ghost use Rattle.mbe_rules.specs.declared.transcribe_error.TranscribeError.TheVariants.{Tree};

use std::alloc::{AllocError, AllocFailed};
use thiserror::Error;
use tt::{Refused, TtFault};

/// Why a template is not filled.
#[derive(Debug, Clone, Copy, PartialEq, Eq, Error)]
pub enum TranscribeError {
    /// A variable is used where it has rounds: in fewer repetitions than enclose it in its pattern. The number is the flat place of the `$` of
    /// the use: how many tokens of the template precede it, at any depth.
    #[error("the variable repeats still")]
    StillRepeats(usize),
    /// None of the variables that a repetition uses has rounds there, so nothing gives its number of rounds. The number is the flat place of
    /// its `$`.
    #[error("nothing repeats in the repetition")]
    NothingRepeats(usize),
    /// A variable of a repetition has more rounds than another. The number is the flat place of the repetition's `$`.
    #[error("variables of the repetition have different numbers of rounds")]
    LengthsDiffer(usize),
    /// A repetition that requires a round has none. The number is the flat place of its `$`.
    #[error("the repetition has no round")]
    NoRound(usize),
    /// The filled template would have more tokens than the caller allows.
    #[error("the filled template would have more tokens than allowed")]
    OverLimit,
    /// The filled template is no tree: it exceeds a limit, or memory ran out.
    #[error("{0}")]
    Tree(TtFault),
}

impl From<TtFault> for TranscribeError {
    ghost from_gives = { λ fault error. error ≡ Tree fault };

    fn from(fault: TtFault) -> TranscribeError {
        TranscribeError::Tree(fault)
    }
}

impl From<AllocError> for TranscribeError {
    ghost from_gives = { λ _ error. error ≡ Tree Memory };

    fn from(_error: AllocError) -> TranscribeError {
        TranscribeError::Tree(TtFault::Memory)
    }
}

impl<T: Drop> From<AllocFailed<T>> for TranscribeError {
    ghost from_gives = { λ _ error. error ≡ Tree Memory };

    fn from(_failed: AllocFailed<T>) -> TranscribeError {
        TranscribeError::Tree(TtFault::Memory)
    }
}

impl<T: Drop> From<Refused<T>> for TranscribeError {
    ghost from_gives = { λ refused error. error ≡ Tree refused.fault };

    fn from(refused: Refused<T>) -> TranscribeError {
        TranscribeError::Tree(refused.fault)
    }
}
