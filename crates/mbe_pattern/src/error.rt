//! Why trees are no pattern.
ghost use Rattle.std.specs.Prelude.{◌≡◌};

use std::alloc::{AllocError, AllocFailed};
use thiserror::Error;

/// Why trees are no pattern. A number is the flat place of a `$`: how many tokens precede it, at any depth.
#[derive(Debug, Clone, Copy, PartialEq, Eq, Error)]
pub enum PatternError {
    /// The `$` begins nothing. What follows it is neither a name, `:` and an ident, nor parentheses with `*`, `+` or `?`, nor `crate`, nor the end.
    #[error("the `$` begins nothing")]
    BeginsNothing(usize),
    /// No fragment has the name that the variable gives.
    #[error("there is no such fragment")]
    UnknownFragment(usize),
    /// An earlier variable has the name, raw or not.
    #[error("the name is given twice")]
    NameTwice(usize),
    /// The repetition has a separator, but never two rounds.
    #[error("there are never two rounds to separate")]
    NeedlessSeparator(usize),
    /// The parts in the repetition may all take no tree, so the repetition would have no end.
    #[error("a repetition may take no tree")]
    EmptyRepetition(usize),
    /// Memory ran out.
    #[error("out of memory")]
    Memory,
}

impl From<AllocError> for PatternError {
    ghost use Rattle.mbe_pattern.specs.declared.error.PatternError.TheVariants.{Memory};

    ghost from_gives = { λ _ fault. fault ≡ Memory };

    fn from(_error: AllocError) -> PatternError {
        PatternError::Memory
    }
}

impl<T: Drop> From<AllocFailed<T>> for PatternError {
    ghost use Rattle.mbe_pattern.specs.declared.error.PatternError.TheVariants.{Memory};

    ghost from_gives = { λ _ fault. fault ≡ Memory };

    fn from(_failed: AllocFailed<T>) -> PatternError {
        PatternError::Memory
    }
}
