//! The parts of a text, as far as they matter to what is needed.

use tt::Symbol;

/// The definition of a macro that may go.
#[derive(Drop)]
pub(crate) struct Rules {
    pub(crate) name: Symbol,
    /// The byte of the text at which its attributes, or else the definition, begin.
    pub(crate) start: u32,
    /// The byte at which it ends.
    pub(crate) end: u32,
    /// The words in its arms.
    pub(crate) inside: Vec<Symbol>,
}

/// A word outside of such definitions, or one of them.
#[derive(Drop)]
pub(crate) enum Part {
    Word(Symbol),
    Rules(Rules),
}
