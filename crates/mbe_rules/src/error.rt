//! Why trees are no template.
ghost use Rattle.std.specs.Prelude.{◌≡◌};

use std::alloc::{AllocError, AllocFailed};
use thiserror::Error;

/// Why trees are no template. A number is a flat place: how many tokens of the template, at any depth, precede the fault.
#[derive(Debug, Clone, Copy, PartialEq, Eq, Error)]
pub enum TemplateError {
    /// A literal, a punct other than `$`, or brackets `[ .. ]` follow a `$`. The number is their flat place.
    #[error("this cannot follow a `$`")]
    BeginsNothing(usize),
    /// No `*`, `+` or `?` follows the parentheses, and a separator if there is one, of `$( .. )`. The number is the flat place of the tree that
    /// comes instead; if the level ends there, of what precedes its end.
    #[error("there is no `*`, `+` or `?`")]
    NoOperator(usize),
    /// A separator precedes `?`. The number is its flat place.
    #[error("a repetition with `?` takes no separator")]
    NeedlessSeparator(usize),
    /// Memory ran out.
    #[error("out of memory")]
    Memory,
}

impl From<AllocError> for TemplateError {
    ghost use Rattle.mbe_rules.specs.declared.error.TemplateError.TheVariants.{Memory};

    ghost from_gives = { λ _ fault. fault ≡ Memory };

    fn from(_error: AllocError) -> TemplateError {
        TemplateError::Memory
    }
}

impl<T: Drop> From<AllocFailed<T>> for TemplateError {
    ghost use Rattle.mbe_rules.specs.declared.error.TemplateError.TheVariants.{Memory};

    ghost from_gives = { λ _ fault. fault ≡ Memory };

    fn from(_failed: AllocFailed<T>) -> TemplateError {
        TemplateError::Memory
    }
}
