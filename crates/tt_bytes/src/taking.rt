//! Takes tokens from packed bytes, one after the other.
ghost use Rattle.std.specs.Prelude.{◌≡◌, ℕ, List, Some, ◌++◌, ◌∷◌, [], false, bytes_eq, length, slice_get, IsTrue};
ghost use Rattle.std.proofs.Props.{props};
ghost use Rattle.std.specs.List.{IsDistinct};
ghost use Rattle.tt_base.specs.Literal.{CutsText};
ghost use Rattle.tt_bytes.specs.Uses.{ArePlaced};
ghost use Rattle.tt_tables.specs.Counted.{IsListOf};
ghost use Rattle.tt_tables.specs.OneList.{IsListOf-prop};

use crate::uses::{SymbolUses, no_part_uses, use_span};
use std::alloc::{AllocError, Global};
use tt_base::{IdentIsRaw, LitKind, Spacing};
use tt_codec::{HeaderEntry, LeafEntry, SpanNumbers, Visitor, visit_common_token, visit_token};
use tt_tables::{CountedTokens, InternedToken, Tables};

/// Tokens, and the number of uses of each value of the tables. Unless a token did not fit, they mean a list.
#[derive(Drop)]
pub(crate) struct Taking<'a> {
    tables: Tables<'a>,
    pub(crate) tokens: Vec<InternedToken>,
    pub(crate) part_uses: Vec<usize>,
    pub(crate) symbols: SymbolUses,
    /// The bytes after the tokens.
    pub(crate) rest: &'a [u8],
    /// Whether a token did not fit.
    pub(crate) failed: bool,
    pub ghost list: { failed ≡ false → IsListOf tokens.items tables.parts.now part_uses.items symbols.order.items symbols.numbers.items } by { λ a b i e. IsListOf-prop tokens.items tables.parts.now part_uses.items symbols.order.items symbols.numbers.items (a e) (b e) i },
    pub ghost long: { failed ≡ false → length symbols.places.items ≡ length tables.symbols.now },
    pub ghost placed: { failed ≡ false → ArePlaced tables.symbols.now symbols.places.items symbols.order.items },
    pub ghost distinct: { IsDistinct bytes_eq tables.symbols.now } by { Prim.hlevel props },
}

// Appends a token. Returns whether there was room.
#[inline(always)]
fn put(tokens: &mut Vec<InternedToken>, token: InternedToken) -> bool
    ensures { IsTrue result → tokens.new.items ≡ tokens.old.items ++ token ∷ [] }
{
    if tokens.len() == tokens.capacity() {
        return false;
    }
    tokens.push_reserved(token);
    true
}

// Returns whether a literal may have that suffix. Any text may have an empty suffix.
#[inline(always)]
fn is_cut(tables: Tables<'_>, symbol: u32, kind: LitKind, suffix_len: u8, span: SpanNumbers) -> bool
    ensures { IsTrue result → (text : List ℕ) → slice_get tables.entry.symbols.now symbol ≡ Some text → CutsText text suffix_len }
{
    if suffix_len == 0 {
        return true;
    }
    tables.literal(symbol, kind, suffix_len, span).is_some()
}

impl<'a> Taking<'a> {
    ghost use Rattle.tt_tables.specs.Counted.{AreOf};
    ghost use Rattle.tt_tables.specs.ListOf.{list_of};
    ghost use Rattle.tt_tables.specs.Uses.{same_part};

    /// Returns an empty list, with room for `count` tokens. The values of each table are all different. Fails only if memory runs out.
    pub(crate) fn new(
        alloc: Global,
        tables: Tables<'a>,
        count: usize,
        from: &'a [u8],
    ) -> Result<Taking<'a>, AllocError>
        requires parts { IsDistinct same_part tables.parts.now }
        requires symbols { IsDistinct bytes_eq tables.symbols.now }
    {
        Ok(Taking {
            tables,
            tokens: Vec::with_capacity(alloc, count)?,
            part_uses: no_part_uses(alloc, tables.parts.len())?,
            symbols: SymbolUses::new(alloc, tables.symbols.len())?,
            rest: from,
            failed: false,
        })
    }

    // Takes the next token in any format.
    #[inline(never)]
    fn take_any(&mut self, from: &'a [u8]) {
        visit_token(self, from);
    }

    /// Takes the next token. Sets `failed` if no token is there, or if it does not fit.
    #[inline(always)]
    pub(crate) fn take_next(&mut self) {
        let from = self.rest;
        if !visit_common_token(self, from) {
            self.take_any(from);
        }
    }

    /// Returns the tokens with the values that they name. No token failed to fit: `failed` is false.
    pub(crate) fn counted(&self) -> CountedTokens<'_>
        requires { self.now.failed ≡ false }
        ensures { AreOf self.now.tokens.items self.now.tables.parts.now self.now.part_uses.items self.now.symbols.order.items self.now.symbols.numbers.items (list_of result) }
    {
        CountedTokens::new(
            &self.tokens,
            self.tables.parts,
            &self.part_uses,
            &self.symbols.order,
            &self.symbols.numbers,
        )
    }
}

impl<'a> Visitor<'a> for Taking<'a> {
    ghost use Rattle.tt_bytes.specs.TakesAny.{takes_any};

    ghost makes = { takes_any };

    #[inline(always)]
    fn visit_ident(&mut self, symbol: u32, is_raw: IdentIsRaw, span: SpanNumbers, rest: &'a [u8]) {
        if !use_span(&mut self.part_uses, span) {
            self.failed = true;
            return;
        }
        let Some(place) = self.symbols.place_of(self.tables.symbols, symbol) else {
            self.failed = true;
            return;
        };
        let leaf = LeafEntry::Ident(place, is_raw, span);
        if !put(&mut self.tokens, InternedToken::Leaf(leaf)) {
            self.failed = true;
            return;
        }
        self.rest = rest;
    }

    #[inline(always)]
    fn visit_punct(&mut self, char: char, spacing: Spacing, span: SpanNumbers, rest: &'a [u8]) {
        if !use_span(&mut self.part_uses, span) {
            self.failed = true;
            return;
        }
        let leaf = LeafEntry::Punct(char, spacing, span);
        if !put(&mut self.tokens, InternedToken::Leaf(leaf)) {
            self.failed = true;
            return;
        }
        self.rest = rest;
    }

    #[inline(always)]
    fn visit_literal(
        &mut self,
        symbol: u32,
        kind: LitKind,
        suffix_len: u8,
        span: SpanNumbers,
        rest: &'a [u8],
    ) {
        if !is_cut(self.tables, symbol, kind, suffix_len, span) {
            self.failed = true;
            return;
        }
        if !use_span(&mut self.part_uses, span) {
            self.failed = true;
            return;
        }
        let Some(place) = self.symbols.place_of(self.tables.symbols, symbol) else {
            self.failed = true;
            return;
        };
        let leaf = LeafEntry::Literal(place, kind, suffix_len, span);
        if !put(&mut self.tokens, InternedToken::Leaf(leaf)) {
            self.failed = true;
            return;
        }
        self.rest = rest;
    }

    #[inline(always)]
    fn visit_header(&mut self, header: HeaderEntry, rest: &'a [u8]) {
        if !use_span(&mut self.part_uses, header.opening) {
            self.failed = true;
            return;
        }
        if !use_span(&mut self.part_uses, header.closing) {
            self.failed = true;
            return;
        }
        if !put(&mut self.tokens, InternedToken::Header(header)) {
            self.failed = true;
            return;
        }
        self.rest = rest;
    }
}
