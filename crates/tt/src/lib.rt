//! Token trees: all that a user of the library calls. `specs/` has the definitions that contracts cite.
#![tactic(auto)]

pub mod buffer;
mod builder;
mod flat_builder;
mod flat_list;
pub mod iter;
mod printer;
mod transform;

pub use builder::{ExpectedDelimiters, SubtreeBuilderRestorePoint, TopSubtreeBuilder};
pub use flat_builder::FlatBuilder;
pub use printer::{debug_text, display_text, pretty};
pub use transform::{TransformTtAction, transform_tt};
pub use tt_base::{
    DelimSpan, Delimiter, DelimiterKind, ErasedFileAstId, FileId, Ident, IdentIsRaw, Leaf, Levels,
    Lit, LitKind, Literal, LiteralScan, Punct, Refused, Spacing, Span, SpanAnchor, SpanPart,
    Subtree, Symbol, SyntaxContext, TextRange, TextSize, TokenTree, TtFault, is_one_subtree,
    token_to_literal,
};
pub use tt_view::{
    FlatTokens, MAX_GLUED_PUNCT_LEN, Split, SubtreeView, TokenKind, TokenTreesView, TopSubtree,
    TreeWalk, TtElement, TtIter, TtIterSavepoint, is_glued_three, is_glued_two,
};
