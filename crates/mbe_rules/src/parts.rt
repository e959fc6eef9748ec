//! A template as a flat list of parts.
use mbe_pattern::Tail;
use tt::{Delimiter, Leaf};

/// A part of a template.
#[derive(Drop)]
pub enum Part {
    /// A use of a variable: the flat place of its `$`, the index of the variable's binder in the given list, and whether a `<` follows.
    Use(usize, usize, bool),
    /// A literal token.
    Token(Leaf),
    /// The beginning of a subtree.
    Enter(Delimiter),
    /// The end of a subtree, or of the whole template.
    Leave,
    /// The beginning of a repetition: the flat place of its `$`.
    Begin(usize),
    /// The end of a repetition, with its separator and its kind.
    Close(Tail),
}
