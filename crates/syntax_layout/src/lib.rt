//! Trees as Rust text with gaps between its tokens, and no gap changes how the text is read.
//!
//! `rust_text_with_gaps` writes the plain text of trees and lays it out: `laid_out` goes through its tokens and puts the caller's gap before
//! each. It puts a space between two tokens that would be read as others, and nothing after a joint punct. The lexer itself decides that,
//! except before white space, brackets, commas and semicolons, which end each token.
//!
//! `rust_text_spaced` does the same with the spaces that rustfmt puts within a line. `spaces` gives each token a `Part`, by the token before it
//! and whether generic arguments, the parameters of a closure or a `use` are open; a table over two parts (`touches`) says whether they touch.
//!
//! `rust_text_laid` lays out what replaces a call of a macro. It takes the gaps from the source: `places` says where each token is in it,
//! `Templates` where its templates and repetitions are, and `Chooser` which gap is before each token; where the source has none, `Spacer`
//! finds the space. `Moved` holds how far the lines of a template move. No contract fixes that choice: it changes nothing but the looks, since `pieces` leaves out each gap that is none. Then
//! `documented` writes attributes that document something as comments: `replacement` finds those that a comment of one line can replace.
#![tactic(auto)]

mod attribute;
mod beside;
mod braces;
mod choosing;
mod closing;
mod documenting;
mod entering;
mod gap;
mod indenting;
mod kinds;
mod laid;
pub mod laws;
mod layout;
mod lookups;
mod moved;
mod neighbours;
mod part;
mod passed;
mod pieces;
mod places;
mod spacer;
mod spacing;
mod templates;
mod trees;

pub use choosing::Sources;
pub use documenting::documented;
pub use gap::{MOST_BYTES, is_gap};
pub use laid::rust_text_laid;
pub use layout::laid_out;
pub use spacing::{rust_text_spaced, spaces};
pub use trees::{fit, rust_text_with_gaps};
