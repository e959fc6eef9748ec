//! Reads what the token at an offset of a stored tree is, without its span.
ghost use Rattle.std.specs.Prelude.{◌≡◌, ◌≤◌, length, Some, None, option_map, slice_get};
ghost use Rattle.tt_base.specs.declared.leaf.Leaf.{Leaf};
ghost use Rattle.tt_base.specs.declared.token_tree.TokenTree.TheVariants as token;
ghost use Rattle.tt_codec.specs.declared.entry.LeafEntry.TheVariants as leaf;
ghost use Rattle.tt_codec.specs.declared.span.SpanNumbers.{SpanNumbers as Numbers};
ghost use Rattle.tt_tables.specs.Searches.{FindsLeaf};
ghost use Rattle.tt_pack.specs.StoredIn.{bytes_for, tables_stored};
ghost use Rattle.tt_pack.specs.TokenKinds.{GivesKind};

use crate::packed::Packed;
use crate::token_kind::TokenKind;
use tt_base::{IdentIsRaw, LitKind, Spacing};
use tt_codec::{HeaderEntry, SpanNumbers, Visitor, visit_common_token, visit_token};

/// Makes the kind of a token from its numbers as soon as they are read. Looks up no span, and copies no symbol.
#[derive(Drop)]
pub(crate) struct KindReader<'a> {
    tree: &'a Packed,
    /// The kind, if a token was decoded.
    pub(crate) kind: Option<TokenKind<'a>>,
    /// The number of bytes after the token.
    pub(crate) left: usize,
    /// The number of bytes of the tokens below it; they come first.
    pub(crate) child_bytes: usize,
}

// Returns the text of the symbol at an index, if the tree's table has that index.
#[inline(always)]
fn symbol_text<'a>(tree: &'a Packed, index: u32) -> Option<&'a str>
    ensures { option_map (λ text. text.now) result ≡ slice_get (tables_stored tree.now).symbols index }
{
    let symbol = tree.symbols().get(index as usize)?;
    Some(symbol.as_str())
}

// Returns the kind of the ident with the symbol at an index, if the tree's table has that index.
#[inline(always)]
fn ident_kind<'a>(tree: &'a Packed, symbol: u32, is_raw: IdentIsRaw) -> Option<TokenKind<'a>>
    ensures { (span : Numbers) (it : Leaf) → FindsLeaf (tables_stored tree.now) (leaf.Ident symbol is_raw span) it → GivesKind (Some (token.Leaf it)) result }
{
    let text = symbol_text(tree, symbol)?;
    Some(TokenKind::Ident(text, is_raw))
}

impl<'a> Visitor<'a> for KindReader<'a> {
    ghost use Rattle.tt_pack.specs.KindAt.{MakesKind};

    ghost makes = { MakesKind };

    #[inline(always)]
    fn visit_ident(&mut self, symbol: u32, is_raw: IdentIsRaw, span: SpanNumbers, rest: &'a [u8]) {
        self.left = rest.len();
        self.child_bytes = 0;
        self.kind = ident_kind(self.tree, symbol, is_raw);
    }

    #[inline(always)]
    fn visit_punct(&mut self, char: char, spacing: Spacing, span: SpanNumbers, rest: &'a [u8]) {
        self.left = rest.len();
        self.child_bytes = 0;
        self.kind = Some(TokenKind::Punct(char, spacing));
    }

    #[inline(always)]
    fn visit_literal(
        &mut self,
        symbol: u32,
        kind: LitKind,
        suffix_len: u8,
        span: SpanNumbers,
        rest: &'a [u8],
    ) {
        self.left = rest.len();
        self.child_bytes = 0;
        self.kind = Some(TokenKind::Literal(kind));
    }

    #[inline(always)]
    fn visit_header(&mut self, header: HeaderEntry, rest: &'a [u8]) {
        self.left = rest.len();
        self.child_bytes = header.child_bytes as usize;
        self.kind = Some(TokenKind::Subtree(header.kind, header.len));
    }
}

impl<'a> KindReader<'a> {
    ghost use Rattle.tt_pack.specs.KindAt.{DecodesKindAt};

    /// Returns a reader that has no kind yet.
    #[inline(always)]
    pub(crate) fn new(tree: &'a Packed) -> KindReader<'a>
        ensures tree { result.tree.now ≡ tree.now }
        ensures kind { result.kind ≡ None }
    {
        KindReader {
            tree,
            kind: None,
            left: 0,
            child_bytes: 0,
        }
    }

    // Decodes the token at the offset, if there is one, by a call.
    #[inline(never)]
    fn decode(&mut self, offset: usize)
        requires inside { offset ≤ length (bytes_for self.old.tree.now) }
        requires new { self.old.kind ≡ None }
        ensures { DecodesKindAt self.old offset self.new }
    {
        let bytes = self.tree.bytes();
        visit_token(self, &bytes[offset..]);
    }

    /// Decodes the token at the offset, if there is one. Decodes tokens of the common forms inline, and any other token by a call, in a
    /// reader of its own, as `TokenReader` does.
    #[inline(always)]
    pub(crate) fn decode_here(&mut self, offset: usize)
        requires inside { offset ≤ length (bytes_for self.old.tree.now) }
        requires new { self.old.kind ≡ None }
        ensures { DecodesKindAt self.old offset self.new }
    {
        let bytes = self.tree.bytes();
        if visit_common_token(self, &bytes[offset..]) {
            return;
        }
        let mut apart = KindReader::new(self.tree);
        apart.decode(offset);
        self.left = apart.left;
        self.child_bytes = apart.child_bytes;
        self.kind = apart.kind;
    }
}
