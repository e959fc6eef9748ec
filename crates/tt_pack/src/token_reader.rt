//! Reads the token at an offset of a stored tree.
ghost use Rattle.std.specs.Prelude.{◌≤◌, length};

use crate::packed::Packed;
use tt_base::{IdentIsRaw, LitKind, Spacing, TokenTree};
use tt_codec::{HeaderEntry, SpanNumbers, Visitor, visit_common_token, visit_token};

/// Makes a token from its numbers as soon as they are read, by the tables of a tree.
#[derive(Drop)]
pub(crate) struct TokenReader<'a> {
    tree: &'a Packed,
    /// The token, if one was decoded.
    pub(crate) token: Option<TokenTree>,
    /// The number of bytes after the token.
    pub(crate) left: usize,
    /// The number of bytes of the tokens below it; they come first.
    pub(crate) child_bytes: usize,
}

impl<'a> Visitor<'a> for TokenReader<'a> {
    ghost use Rattle.tt_pack.specs.TokenAt.{MakesToken};

    ghost makes = { MakesToken };

    #[inline(always)]
    fn visit_ident(&mut self, symbol: u32, is_raw: IdentIsRaw, span: SpanNumbers, rest: &'a [u8]) {
        self.left = rest.len();
        self.child_bytes = 0;
        if let Some(token) = self.tree.tables().ident(symbol, is_raw, span) {
            self.keep(token);
        }
    }

    #[inline(always)]
    fn visit_punct(&mut self, char: char, spacing: Spacing, span: SpanNumbers, rest: &'a [u8]) {
        self.left = rest.len();
        self.child_bytes = 0;
        if let Some(token) = self.tree.tables().punct(char, spacing, span) {
            self.keep(token);
        }
    }

    #[inline(always)]
    fn visit_literal(
        &mut self,
        symbol: u32,
        kind: LitKind,
        suffix_len: u8,
        span: SpanNumbers,
        rest: &'a [u8],
    ) {
        self.left = rest.len();
        self.child_bytes = 0;
        if let Some(token) = self.tree.tables().literal(symbol, kind, suffix_len, span) {
            self.keep(token);
        }
    }

    #[inline(always)]
    fn visit_header(&mut self, header: HeaderEntry, rest: &'a [u8]) {
        self.left = rest.len();
        self.child_bytes = header.child_bytes as usize;
        if let Some(token) = self.tree.tables().subtree(header) {
            self.keep(token);
        }
    }
}

impl<'a> TokenReader<'a> {
    ghost use Rattle.std.specs.Prelude.{◌≡◌, Some, None};
    ghost use Rattle.tt_pack.specs.StoredIn.{bytes_for};
    ghost use Rattle.tt_pack.specs.TokenAt.{DecodesAt};

    /// Returns a reader that has no token yet.
    #[inline(always)]
    pub(crate) fn new(tree: &'a Packed) -> TokenReader<'a>
        ensures tree { result.tree.now ≡ tree.now }
        ensures token { result.token ≡ None }
    {
        TokenReader {
            tree,
            token: None,
            left: 0,
            child_bytes: 0,
        }
    }

    // Keeps the first token. The test shows the compiler that there is no older token to drop.
    #[inline(always)]
    fn keep(&mut self, token: TokenTree)
        ensures first { self.old.token ≡ None → self.new.token ≡ Some token }
        ensures left { self.new.left ≡ self.old.left }
        ensures child_bytes { self.new.child_bytes ≡ self.old.child_bytes }
    {
        if self.token.is_none() {
            self.token = Some(token);
        }
    }

    /// Decodes the token at the offset, if there is one, by a call. The call writes the token into the caller's reader in pieces. The
    /// caller then copies it by wider loads, which wait until the pieces are stored.
    #[inline(never)]
    pub(crate) fn decode(&mut self, offset: usize)
        requires inside { offset ≤ length (bytes_for self.old.tree.now) }
        requires new { self.old.token ≡ None }
        ensures { DecodesAt self.old offset self.new }
    {
        let bytes = self.tree.bytes();
        visit_token(self, &bytes[offset..]);
    }

    /// The same, but decodes tokens of the common forms inline, so that they go from registers to the caller's place. Decodes any other
    /// token from its start in a reader of its own, since a reader that a call borrows must be in memory.
    #[inline(always)]
    pub(crate) fn decode_here(&mut self, offset: usize)
        requires inside { offset ≤ length (bytes_for self.old.tree.now) }
        requires new { self.old.token ≡ None }
        ensures { DecodesAt self.old offset self.new }
    {
        let bytes = self.tree.bytes();
        if visit_common_token(self, &bytes[offset..]) {
            return;
        }
        let mut apart = TokenReader::new(self.tree);
        apart.decode(offset);
        self.left = apart.left;
        self.child_bytes = apart.child_bytes;
        if let Some(token) = apart.token {
            self.keep(token);
        }
    }
}
