//! Lines, columns and diagnostics of a text.
//!
//! `Places` keeps the line and column of each 64th byte and counts on from there, so it finds a place as fast in a long line. A
//! `SourceFile` has these and the list of lines. `diagnostic_text` writes a message, its place with the source line and a mark, notes, and
//! a note with a place of its own, in the form that rustc has. `add_painted` adds colours if the `Style` has some.
#![tactic(auto)]

mod diagnostic;
pub mod laws;
mod level;
mod mark;
mod paint;
mod place;
mod places;
mod source;
mod source_file;
mod spot;
mod window;

pub use diagnostic::{Diagnostic, PlacedNote, diagnostic_text};
pub use level::Level;
pub use mark::add_indent;
pub use paint::Style;
pub use place::{Place, place_of};
pub use places::Places;
pub use source::source_text;
pub use source_file::SourceFile;
pub use spot::Spot;
