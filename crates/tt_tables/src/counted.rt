//! Whole interned tokens, the values that they name, and how many times each is used.
ghost use Rattle.std.specs.Prelude.{◌≡◌, length};
ghost use Rattle.tt_tables.specs.Counted.{AreOf, IsListOf};
ghost use Rattle.tt_tables.specs.OneList.{IsListOf-prop};

use crate::token::InternedToken;
use std::marker::Model;
use tt_base::{SpanPart, Symbol};

/// Interned tokens without an open header, the different parts and symbols that they name, and the number of uses of each. Parts are in
/// any order, and some may have no uses; symbols are in the order of first uses. A contract sees the flat list that the tokens mean.
#[derive(Clone, Copy)]
pub struct CountedTokens<'a> {
    pub(crate) tokens: &'a [InternedToken],
    pub(crate) parts: &'a [SpanPart],
    pub(crate) part_uses: &'a [usize],
    pub(crate) symbols: &'a [Symbol],
    pub(crate) symbol_uses: &'a [usize],
    pub ghost list: { IsListOf tokens.now parts.now part_uses.now symbols.now symbol_uses.now } by { IsListOf-prop tokens.now parts.now part_uses.now symbols.now symbol_uses.now },
}

impl<'a> CountedTokens<'a> {
    ghost use Rattle.tt_tables.specs.ListOf.{list_of, tokens_of, parts_of, part_uses_of, symbols_of, symbol_uses_of};

    /// Returns tokens, values and numbers of uses that a caller has counted. They mean a list.
    #[inline(always)]
    pub fn new(
        tokens: &'a [InternedToken],
        parts: &'a [SpanPart],
        part_uses: &'a [usize],
        symbols: &'a [Symbol],
        symbol_uses: &'a [usize],
    ) -> CountedTokens<'a>
        requires { IsListOf tokens.now parts.now part_uses.now symbols.now symbol_uses.now }
        ensures { AreOf tokens.entry.now parts.entry.now part_uses.entry.now symbols.entry.now symbol_uses.entry.now (list_of result) }
    {
        CountedTokens {
            tokens,
            parts,
            part_uses,
            symbols,
            symbol_uses,
        }
    }

    /// Returns the number of tokens.
    #[inline(always)]
    pub fn len(&self) -> usize
        ensures { result ≡ length (list_of self.now) }
    {
        self.tokens.len()
    }

    /// Returns the tokens, which name values by their places.
    #[inline(always)]
    pub fn tokens(&self) -> &'a [InternedToken]
        ensures { result.now ≡ tokens_of self.now }
    {
        self.tokens
    }

    /// Returns the different parts, at their places.
    #[inline(always)]
    pub fn parts(&self) -> &'a [SpanPart]
        ensures { result.now ≡ parts_of self.now }
    {
        self.parts
    }

    /// Returns the number of uses of each part, by its place.
    #[inline(always)]
    pub fn part_uses(&self) -> &'a [usize]
        ensures { result.now ≡ part_uses_of self.now }
    {
        self.part_uses
    }

    /// Returns the different symbols, at their places.
    #[inline(always)]
    pub fn symbols(&self) -> &'a [Symbol]
        ensures { result.now ≡ symbols_of self.now }
    {
        self.symbols
    }

    /// Returns the number of uses of each symbol, by its place.
    #[inline(always)]
    pub fn symbol_uses(&self) -> &'a [usize]
        ensures { result.now ≡ symbol_uses_of self.now }
    {
        self.symbol_uses
    }
}
