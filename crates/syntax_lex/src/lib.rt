//! The tokens of a Rust text, equal to those of the compiler's own lexer, in edition 2024.
//!
//! White space and comments are tokens too, a punct is one character, and no token looks at another. So each text has tokens: the kind
//! `Unknown` is for characters that begin no token of Rust, and a literal or comment says whether it is closed. A first line `#!..` and a
//! frontmatter are no tokens of their own (docs/DIFFERENCES.md).
//!
//! `opening` chooses a family by the first three characters. The family's reader (`word`, `number_literal`, `str_literal`, `block_comment`
//! and others) takes the text after the opening and returns the kind and the rest of the text. No reader counts places: a token's length is
//! the difference of two lengths. `runs` passes ASCII byte by byte and decodes from the first other byte on; `memchr` finds the character
//! that ends a long run. `Tokenize` holds only the rest of the text.
#![tactic(auto)]

mod class;
mod closing;
mod comments;
mod front;
pub mod laws;
mod literals;
mod number;
mod opening;
mod quoted;
mod reading;
mod runs;
mod token;
mod tokens;
mod word;

pub use class::{is_id_continue, is_id_start, is_whitespace};
pub use front::split_first;
pub use reading::{MOST_TEXT_BYTES, first_token, tokenize};
pub use token::{Base, DocStyle, LiteralKind, Token, TokenKind};
pub use tokens::Tokenize;
