//! The calls that wrote the place of a finding.
use tt::Symbol;

/// A call whose expansion has a finding.
#[derive(Debug, PartialEq, Eq, Drop)]
pub struct Caller {
    /// The name of its macro.
    pub name: Symbol,
    /// The byte of the text at which the call begins.
    pub at: u32,
    /// The number of the caller that wrote the call; none if the call is in the text itself.
    pub caller: Option<usize>,
}
