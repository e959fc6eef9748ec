//! Variables of a pattern, with the numbers of their marks.
use mbe_pattern::Fragment;
use tt::Symbol;

/// A variable of a pattern: its name, its fragment, its number, and the numbers of the repetitions around it, the outermost first.
#[derive(Drop)]
pub struct Binder {
    pub name: Symbol,
    pub fragment: Fragment,
    pub number: usize,
    pub nest: Vec<usize>,
}
