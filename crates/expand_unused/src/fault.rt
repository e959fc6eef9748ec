//! Why a text is not written without its unneeded definitions.
ghost use Rattle.std.specs.Prelude.{◌≡◌};
ghost use Rattle.expand_unused.specs.declared.fault.DropRulesError.TheVariants.{Text, Memory};

use std::alloc::AllocError;
use syntax_parse::TextFault;
use thiserror::Error;

/// The reason why a text is not written without its unneeded definitions.
#[derive(Debug, Clone, Copy, PartialEq, Eq, Error)]
pub enum DropRulesError {
    /// The text cannot be read as trees.
    #[error("{0}")]
    Text(TextFault),
    /// Memory runs out.
    #[error("out of memory")]
    Memory,
}

impl From<TextFault> for DropRulesError {
    ghost from_gives = { λ fault error. error ≡ Text fault };

    fn from(fault: TextFault) -> DropRulesError {
        DropRulesError::Text(fault)
    }
}

impl From<AllocError> for DropRulesError {
    ghost from_gives = { λ _ error. error ≡ Memory };

    fn from(_error: AllocError) -> DropRulesError {
        DropRulesError::Memory
    }
}
