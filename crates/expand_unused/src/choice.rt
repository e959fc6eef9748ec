//! Which definitions may go.
use tt::Symbol;

/// Which definitions may go.
#[derive(Drop)]
pub(crate) struct Choice {
    /// The only name whose definitions may go, if not all may.
    pub(crate) only: Option<Symbol>,
    /// Whether definitions under `#[macro_export]` may go.
    pub(crate) drops_exported: bool,
}
