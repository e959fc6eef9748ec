//! What a token is, without its span.
ghost use Rattle.std.specs.Prelude.{◌≡◌};

use tt_base::{DelimiterKind, IdentIsRaw, LitKind, Spacing};

/// What a token is, without its span. An ident lends its text from the tree.
#[derive(Clone, Copy)]
pub enum TokenKind<'a> {
    Punct(char, Spacing),
    /// The text without `r#`, and whether the ident is raw.
    Ident(&'a str, IdentIsRaw),
    Literal(LitKind),
    /// A header: its delimiter, and the number of tokens below it.
    Subtree(DelimiterKind, u32),
}

impl<'a> TokenKind<'a> {
    ghost use Rattle.tt_pack.specs.TokenKinds.{count_in};

    /// Returns the number of tokens below a header; 0 for a leaf.
    #[inline(always)]
    pub fn count_below(&self) -> usize
        ensures { result ≡ count_in self.now }
    {
        match self {
            TokenKind::Subtree(_, len) => *len as usize,
            TokenKind::Punct(..) | TokenKind::Ident(..) | TokenKind::Literal(_) => 0,
        }
    }
}
