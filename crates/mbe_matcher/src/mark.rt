//! What an input binds, as marks.
use tt::TokenTreesView;

/// What an input binds, one mark after the other. Variables and repetitions are numbered: the number of a part is how
/// many steps of the pattern follow it.
#[derive(Clone, Copy)]
pub enum Mark<'i> {
    /// The variable of that number took these trees.
    Took(usize, TokenTreesView<'i>),
    /// A round of the repetition of that number begins.
    Round(usize),
    /// The repetition of that number has no further round.
    Over(usize),
}
