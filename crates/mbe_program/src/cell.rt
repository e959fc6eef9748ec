//! Cells of a search.

/// A place of a program before a position of an input.
#[derive(Clone, Copy)]
pub(crate) struct Cell {
    /// The number of the position.
    pub(crate) position: usize,
    /// How many instructions are left at the place.
    pub(crate) left: usize,
}
