//! The faults of a rule.
ghost use Rattle.std.specs.Prelude.{◌≡◌};

use std::alloc::{AllocError, AllocFailed};
use thiserror::Error;

/// Why there is no rule of a pattern and a template. The pattern is judged before the template, each in reading order.
#[derive(Debug, Clone, Copy, PartialEq, Eq, Error)]
pub enum RuleFault {
    /// A `$` of the pattern precedes no name, `:` and fragment.
    #[error("bad pattern")]
    BadPattern = 1,
    /// A `$` of the template precedes no name.
    #[error("bad template")]
    BadTemplate = 2,
    /// A variable has the name of an earlier one.
    #[error("duplicate name")]
    DuplicateName = 3,
    /// A use has the name of no variable.
    #[error("unknown name")]
    UnknownName = 4,
    /// Memory ran out.
    #[error("out of memory")]
    Memory = 5,
}

impl RuleFault {
    ghost use Rattle.mbe_rule.specs.Faults.{number_of};

    /// Returns the fault's number: 1 to 5, in the order in which the faults are listed.
    pub fn number(&self) -> u8
        ensures { result ≡ number_of self.now }
    {
        *self as u8
    }
}

impl From<AllocError> for RuleFault {
    ghost use Rattle.mbe_rule.specs.declared.fault.RuleFault.TheVariants.{Memory};

    ghost from_gives = { λ _ fault. fault ≡ Memory };

    fn from(_error: AllocError) -> RuleFault {
        RuleFault::Memory
    }
}

impl<T: Drop> From<AllocFailed<T>> for RuleFault {
    ghost use Rattle.mbe_rule.specs.declared.fault.RuleFault.TheVariants.{Memory};

    ghost from_gives = { λ _ fault. fault ≡ Memory };

    fn from(_failed: AllocFailed<T>) -> RuleFault {
        RuleFault::Memory
    }
}
