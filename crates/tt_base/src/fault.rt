//! Why calls fail.
ghost use Rattle.std.specs.Prelude.{◌≡◌, Some};
ghost use Rattle.tt_base.specs.declared.fault.TtFault.TheVariants.{Memory};

use std::alloc::{AllocError, AllocFailed};
use std::error::Error;
use std::fmt;

/// Why a call failed. The numbers and their order are those of `docs/FORMATS.md`, "Faults".
#[derive(Debug, Clone, Copy, PartialEq, Eq)]
pub enum TtFault {
    /// Memory ran out.
    Memory = 1,
    /// The list is not the flat list of exactly one subtree.
    NotOneSubtree = 2,
    /// The place is not less than the number of tokens.
    NoSuchPlace = 3,
    /// The place holds a header.
    NotALeaf = 4,
    /// A suffix has more than 255 bytes.
    SuffixTooLong = 5,
    /// The offsets of a scan do not fit the text.
    BadScan = 6,
    /// The tree has more than 4,294,967,295 tokens below the top.
    TooManyTokens = 7,
    /// The table of span parts would have more than 268,435,456 entries.
    TooManySpanParts = 8,
    /// The tree has more than 536,870,912 different symbols.
    TooManySymbols = 9,
    /// The tree would take more than 4,294,967,295 bytes below the top.
    TooManyBytes = 10,
    /// All numbers of restore points are used.
    PointsSpent = 11,
}

impl TtFault {
    ghost use Rattle.tt_base.specs.Fault.{number_of};

    /// Returns the fault's number, from 1 to 11.
    pub fn number(&self) -> u8
        ensures { result ≡ number_of self.now }
    {
        *self as u8
    }
}

impl fmt::Display for TtFault {
    ghost use Rattle.tt_base.specs.Fault.{fault_text};

    ghost output = { λ fault. Some (fault_text fault) };

    fn fmt<W: fmt::Write>(&self, f: &mut fmt::Formatter<W>) -> fmt::Result {
        f.write_str(match self {
            TtFault::Memory => "out of memory",
            TtFault::NotOneSubtree => "not one subtree",
            TtFault::NoSuchPlace => "no such place",
            TtFault::NotALeaf => "not a leaf",
            TtFault::SuffixTooLong => "suffix too long",
            TtFault::BadScan => "bad scan",
            TtFault::TooManyTokens => "too many tokens",
            TtFault::TooManySpanParts => "too many span parts",
            TtFault::TooManySymbols => "too many symbols",
            TtFault::TooManyBytes => "too many bytes",
            TtFault::PointsSpent => "points spent",
        })
    }
}

impl Error for TtFault {}

impl From<AllocError> for TtFault {
    ghost from_gives = { λ _ fault. fault ≡ Memory };

    fn from(_error: AllocError) -> TtFault {
        TtFault::Memory
    }
}

impl<T: Drop> From<AllocFailed<T>> for TtFault {
    ghost from_gives = { λ _ fault. fault ≡ Memory };

    fn from(_failed: AllocFailed<T>) -> TtFault {
        TtFault::Memory
    }
}

/// A value that a call took and returns after a failure, with the reason.
#[derive(Debug, Drop)]
pub struct Refused<T> {
    pub fault: TtFault,
    pub value: T,
}

// So a caller that does not use the value can write `?`, which keeps the reason.
impl<T: Drop> From<Refused<T>> for TtFault {
    ghost from_gives = { λ refused fault. fault ≡ refused.fault };

    fn from(refused: Refused<T>) -> TtFault {
        refused.fault
    }
}
