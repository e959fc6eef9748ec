//! The numbers of the faults of a macro's arms.
ghost use Rattle.std.specs.Prelude.{◌≡◌};
ghost use Rattle.app_console.specs.Arms.{pattern_number, template_number, arm_fault_number};

use mbe_pattern::PatternError;
use mbe_rules::{ArmFault, TemplateError};

// Returns the number of a pattern's fault; exhausted memory has none.
fn pattern_number(error: PatternError) -> Option<usize>
    ensures { result ≡ pattern_number error }
{
    match error {
        PatternError::BeginsNothing(_) => Some(2),
        PatternError::UnknownFragment(_) => Some(3),
        PatternError::NameTwice(_) => Some(5),
        PatternError::NeedlessSeparator(_) => Some(6),
        PatternError::EmptyRepetition(_) => Some(7),
        PatternError::Memory => None,
    }
}

// Returns the number of a template's fault, that of the same fault of a pattern; exhausted memory has none.
fn template_number(error: TemplateError) -> Option<usize>
    ensures { result ≡ template_number error }
{
    match error {
        TemplateError::BeginsNothing(_) | TemplateError::NoOperator(_) => Some(2),
        TemplateError::NeedlessSeparator(_) => Some(6),
        TemplateError::Memory => None,
    }
}

/// Returns the number of an arm's fault, in reading order; exhausted memory has none.
pub(crate) fn arm_fault_number(fault: ArmFault) -> Option<usize>
    ensures { result ≡ arm_fault_number fault }
{
    match fault {
        ArmFault::NoPattern(_) => Some(1),
        ArmFault::Pattern(error) => pattern_number(error),
        ArmFault::NoArrow(_) => Some(8),
        ArmFault::NoTemplate(_) => Some(9),
        ArmFault::Template(error) => template_number(error),
        ArmFault::NoSemicolon(_) => Some(12),
        ArmFault::Memory => None,
    }
}
