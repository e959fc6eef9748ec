//! The events of a derivation, and the levels of trees.
use tt::{Span, TokenTreesView};

/// An event of a derivation, in reading order.
#[derive(Clone, Copy)]
pub enum Event {
    /// The expression at that index of the table begins.
    Enter(usize),
    /// The expression that began last, and did not end, ends.
    Leave,
    /// A unit of that many trees. If it is a subtree, the table does not say what it contains.
    Token(usize),
    /// A subtree begins. The events of its trees follow.
    Open,
    /// The subtree that began last, and did not end, ends.
    Close,
}

/// The trees of a file or of a subtree, and the index of the expression that they must be.
#[derive(Clone, Copy)]
pub struct Level<'t> {
    /// The trees.
    pub trees: TokenTreesView<'t>,
    /// The span of the closing delimiter of the subtree; none for a file.
    pub close: Option<Span>,
    /// The index of the expression.
    pub name: usize,
}
