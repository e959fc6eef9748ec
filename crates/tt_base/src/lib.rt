//! The plain data of token trees: ranges, spans, symbols, token types and faults. `specs/` has the definitions of what a token tree
//! means, and all others that two crates use.
#![tactic(auto)]

mod debug_line;
mod delimiter;
mod fault;
mod ident;
mod leaf;
mod levels;
mod literal;
mod literal_text;
mod punct;
mod scan;
mod span;
mod symbol;
mod text;
mod text_range;
mod texts;
mod token_tree;
mod whole;

pub use debug_line::{HeaderLine, Indent, LeafLine, line_break};
pub use delimiter::{DelimSpan, Delimiter, DelimiterKind, Subtree};
pub use fault::{Refused, TtFault};
pub use ident::{Ident, IdentIsRaw};
pub use leaf::Leaf;
pub use levels::Levels;
pub use literal::{Lit, LitKind, Literal};
pub use punct::{Punct, Spacing};
pub use scan::{LiteralScan, token_to_literal};
pub use span::{ErasedFileAstId, FileId, Span, SpanAnchor, SpanPart, SyntaxContext};
pub use symbol::Symbol;
pub use text_range::{TextRange, TextSize};
pub use texts::{Texts, new_symbol};
pub use token_tree::TokenTree;
pub use whole::is_one_subtree;
