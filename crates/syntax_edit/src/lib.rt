//! A text in which other texts replace parts of it, and how it reads.
//!
//! `Output` copies the text up to a replaced part, adds the replacement with a space on a side at which two tokens would become one, and
//! continues after the part. If only white space is left in a line, the line goes; `lines` finds it where two texts meet. `parse` reads the
//! tree of a text; `begin_at`, `start_of` and `end_of` give the bytes of its trees.
//!
//! `laws`: trees read from a text can be written and are read again. `splices`: also when trees replace parts of the text.
//!
//! `specs/` also says which bytes of a text its trees are.
#![tactic(auto)]

pub mod laws;
mod lines;
mod output;
mod place;
pub mod splices;

pub use output::Output;
pub use place::{begin_at, end_of, parse, start_of};
