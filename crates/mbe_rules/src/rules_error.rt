//! Why trees are no macro, and why one does not expand.
ghost use Rattle.std.specs.Prelude.{◌≡◌};
ghost use Rattle.mbe_pattern.specs.declared.error.PatternError.{PatternError};
ghost use Rattle.mbe_rules.specs.declared.error.TemplateError.{TemplateError};
ghost use Rattle.mbe_rules.specs.ArmFaults.{of_pattern, of_template};

use crate::error::TemplateError;
use crate::transcribe_error::TranscribeError;
use mbe_pattern::PatternError;
use std::alloc::{AllocError, AllocFailed};
use thiserror::Error;

/// What is wrong with an arm. A number is a flat place among the trees of all arms: how many tokens, at any depth, precede the fault. In
/// the fault of a pattern or a template it is counted from the beginning of that pattern or template.
#[derive(Debug, Clone, Copy, PartialEq, Eq, Error)]
pub enum ArmFault {
    /// There is no subtree in the place of a pattern.
    #[error("there is no pattern")]
    NoPattern(usize),
    /// The pattern has a fault.
    #[error("{0}")]
    Pattern(PatternError),
    /// No `=>` follows the pattern.
    #[error("there is no `=>` behind the pattern")]
    NoArrow(usize),
    /// There is no subtree in the place of a template.
    #[error("there is no template")]
    NoTemplate(usize),
    /// The template has a fault.
    #[error("{0}")]
    Template(TemplateError),
    /// After the template comes neither the end nor `;`.
    #[error("there is no `;` behind the template")]
    NoSemicolon(usize),
    /// Memory ran out.
    #[error("out of memory")]
    Memory,
}

/// Why trees are no macro: the number of the arm, from 0, and what is wrong with it.
#[derive(Debug, Clone, Copy, PartialEq, Eq, Error)]
#[error("arm {arm}: {fault}")]
pub struct RulesError {
    pub arm: usize,
    pub fault: ArmFault,
}

/// Why a macro does not expand an input: the number of the arm that matched it, from 0, and why its template is not filled.
#[derive(Debug, Clone, Copy, PartialEq, Eq, Error)]
#[error("arm {arm}: {fault}")]
pub struct ExpandError {
    pub arm: usize,
    pub fault: TranscribeError,
}

impl From<PatternError> for ArmFault {
    ghost from_gives = { λ error fault. fault ≡ of_pattern error };

    fn from(error: PatternError) -> ArmFault {
        match error {
            PatternError::Memory => ArmFault::Memory,
            other => ArmFault::Pattern(other),
        }
    }
}

impl From<TemplateError> for ArmFault {
    ghost from_gives = { λ error fault. fault ≡ of_template error };

    fn from(error: TemplateError) -> ArmFault {
        match error {
            TemplateError::Memory => ArmFault::Memory,
            other => ArmFault::Template(other),
        }
    }
}
