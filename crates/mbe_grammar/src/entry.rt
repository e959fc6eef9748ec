//! The log of what the machine takes.
use tt::{Span, TokenTreesView};

/// An entry of the log.
#[derive(Clone, Copy)]
pub enum Entry<'t> {
    /// The expression at that index of the table begins.
    Enter(usize),
    /// The expression that began last ends.
    Leave,
    /// A unit of that many trees was taken.
    Unit(usize),
    /// A subtree was taken, with the span of its closing delimiter. Its trees must be the expression at that index.
    Holds(TokenTreesView<'t>, Span, usize),
}
