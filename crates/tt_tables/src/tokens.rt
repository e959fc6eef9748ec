//! A list of interned tokens, the values that they name, and how many times each is used.
ghost use Rattle.std.specs.Prelude.{◌≡◌, ◌<◌, ◌≤◌, ◌-◌, ◌++◌, [], ◌∷◌, ℕ, List, Some, IfOk, OnOk, OnErr, bytes_eq, drop, length, map, set, slice_get, take};
ghost use Rattle.std.specs.List.{remove};
ghost use Rattle.tt_base.specs.declared.delimiter.DelimiterKind.{DelimiterKind as Kind};
ghost use Rattle.tt_base.specs.declared.delimiter.Subtree.{Subtree as Header};
ghost use Rattle.tt_base.specs.declared.span.Span.{Span as SpanOf};
ghost use Rattle.tt_base.specs.declared.token_tree.TokenTree.{TokenTree as Token};
ghost use Rattle.tt_base.specs.declared.token_tree.TokenTree.TheVariants as token;
ghost use Rattle.tt_base.specs.declared.leaf.Leaf.TheVariants as leaf;
ghost use Rattle.tt_base.specs.Forest.{header};
ghost use Rattle.tt_base.specs.Token.{delimiter};
ghost use Rattle.tt_tables.specs.Held.{whole, opened, as_token, parts_in, symbols_in, open_places, token_alone};
ghost use Rattle.tt_tables.specs.Interned.{HasHeld, AreNamed};
ghost use Rattle.tt_tables.specs.ListOf.{list_of};
ghost use Rattle.tt_tables.specs.Missing.{NoOpenAt, NoHeaderAt, NoWholeAt};
ghost use Rattle.tt_tables.specs.OneList.{HasHeld-prop};
ghost use Rattle.tt_tables.specs.Interner.{entries_of};
ghost use Rattle.tt_tables.specs.TableOrder.{different, uses_of};
ghost use Rattle.tt_tables.specs.Uses.{same_part};

use crate::counted::CountedTokens;
use crate::interner::Interner;
use crate::numbers::{span_numbers, symbol_place};
use crate::token::InternedToken;
use crate::uncount::uncount_all;
use std::alloc::{AllocError, Global};
use std::marker::Model;
use tt_base::{
    DelimiterKind, Ident, Leaf, Literal, Punct, Span, SpanPart, Subtree, Symbol, TokenTree,
};
use tt_codec::{HeaderEntry, LeafEntry};

/// A list of interned tokens, some of which may be open headers, with the number of uses of each part and each symbol. A contract sees
/// the tokens held (`specs/Held`).
#[derive(Drop, Debug)]
pub struct InternedTokens {
    tokens: Vec<InternedToken>,
    parts: Interner<SpanPart>,
    symbols: Interner<Symbol>,
    ghost held: { HasHeld tokens.items (entries_of parts) (entries_of symbols) } by { HasHeld-prop tokens.items (entries_of parts) (entries_of symbols) },
}

impl Model for InternedTokens {
    ghost use Rattle.std.specs.Prelude.{List};
    ghost use Rattle.tt_tables.specs.Held.{HeldToken};
    ghost use Rattle.tt_tables.specs.HeldCode.{held_code};

    ghost Value = { List HeldToken };

    ghost coded = { held_code };

    ghost view = { λ list. list.held.0 };
}

impl InternedTokens {
    /// Returns an empty list, with room for `capacity` tokens. Fails only if memory runs out.
    pub fn with_capacity(alloc: Global, capacity: usize) -> Result<InternedTokens, AllocError>
        ensures { IfOk result (λ list. list ≡ []) }
    {
        Ok(InternedTokens {
            tokens: Vec::with_capacity(alloc, capacity)?,
            parts: Interner::new(alloc),
            symbols: Interner::new(alloc),
        })
    }

    /// Returns the number of tokens held.
    #[inline(always)]
    pub fn len(&self) -> usize
        ensures { result ≡ length self.now }
    {
        self.tokens.len()
    }

    /// Makes room for `more` tokens. Fails only if memory runs out.
    pub fn reserve(&mut self, more: usize) -> Result<(), AllocError>
        ensures { self.new ≡ self.old }
    {
        self.tokens.reserve(more)
    }

    // Appends a punct.
    #[inline(always)]
    fn push_punct(&mut self, punct: &Punct) -> Result<(), AllocError>
        requires few { length self.old < 4294967296 }
        ensures ok { OnOk result (self.new ≡ self.old ++ whole (token.Leaf (leaf.Punct punct.now)) ∷ []) }
        ensures err { OnErr result (self.new ≡ self.old) }
    {
        self.tokens.reserve(1)?;
        let numbers = span_numbers(&mut self.parts, &punct.span)?;
        self.parts.add_at(numbers.part);
        let entry = LeafEntry::Punct(punct.char, punct.spacing, numbers);
        self.tokens.push_reserved(InternedToken::Leaf(entry));
        Ok(())
    }

    // Appends an ident.
    #[inline(always)]
    fn push_ident(&mut self, ident: &Ident) -> Result<(), AllocError>
        requires few { length self.old < 4294967296 }
        ensures ok { OnOk result (self.new ≡ self.old ++ whole (token.Leaf (leaf.Ident ident.now)) ∷ []) }
        ensures err { OnErr result (self.new ≡ self.old) }
    {
        self.tokens.reserve(1)?;
        let numbers = span_numbers(&mut self.parts, &ident.span)?;
        let symbol = symbol_place(&mut self.symbols, &ident.sym)?;
        self.parts.add_at(numbers.part);
        self.symbols.add_at(symbol);
        let entry = LeafEntry::Ident(symbol, ident.is_raw, numbers);
        self.tokens.push_reserved(InternedToken::Leaf(entry));
        Ok(())
    }

    // Appends a literal.
    #[inline(always)]
    fn push_literal(&mut self, literal: &Literal) -> Result<(), AllocError>
        requires few { length self.old < 4294967296 }
        ensures ok { OnOk result (self.new ≡ self.old ++ whole (token.Leaf (leaf.Literal literal.now)) ∷ []) }
        ensures err { OnErr result (self.new ≡ self.old) }
    {
        self.tokens.reserve(1)?;
        let numbers = span_numbers(&mut self.parts, literal.span())?;
        let symbol = symbol_place(&mut self.symbols, literal.symbol())?;
        self.parts.add_at(numbers.part);
        self.symbols.add_at(symbol);
        let entry = LeafEntry::Literal(symbol, literal.kind(), literal.suffix_len(), numbers);
        self.tokens.push_reserved(InternedToken::Leaf(entry));
        Ok(())
    }

    /// Appends a leaf, which stays with the caller. Tests its kind only once. Fails only if memory runs out, and then changes nothing.
    #[inline(always)]
    pub fn push_leaf(&mut self, leaf: &Leaf) -> Result<(), AllocError>
        requires few { length self.old < 4294967296 }
        ensures ok { OnOk result (self.new ≡ self.old ++ whole (token.Leaf leaf.now) ∷ []) }
        ensures err { OnErr result (self.new ≡ self.old) }
    {
        match leaf {
            Leaf::Literal(literal) => self.push_literal(literal),
            Leaf::Punct(punct) => self.push_punct(punct),
            Leaf::Ident(ident) => self.push_ident(ident),
        }
    }

    /// Appends the header of a subtree that is open from then on. Fails only if memory runs out, and then changes nothing.
    #[inline(always)]
    pub fn push_open(&mut self, kind: DelimiterKind, open_span: &Span) -> Result<(), AllocError>
        requires few { length self.old < 4294967296 }
        ensures ok { OnOk result (self.new ≡ self.old ++ opened kind open_span.now ∷ []) }
        ensures err { OnErr result (self.new ≡ self.old) }
    {
        self.tokens.reserve(1)?;
        let numbers = span_numbers(&mut self.parts, open_span)?;
        self.parts.add_at(numbers.part);
        self.tokens
            .push_reserved(InternedToken::Open(kind, numbers));
        Ok(())
    }

    /// Appends a header with its close span and its count. Fails only if memory runs out, and then changes nothing.
    pub fn push_header(&mut self, subtree: &Subtree) -> Result<(), AllocError>
        requires few { length self.old < 4294967296 }
        ensures ok { OnOk result (self.new ≡ self.old ++ whole (token.Subtree subtree.now) ∷ []) }
        ensures err { OnErr result (self.new ≡ self.old) }
    {
        self.tokens.reserve(1)?;
        let opening = span_numbers(&mut self.parts, &subtree.delimiter.open_span)?;
        let closing = span_numbers(&mut self.parts, &subtree.delimiter.close)?;
        self.parts.add_at(opening.part);
        self.parts.add_at(closing.part);
        self.tokens.push_reserved(InternedToken::Header(HeaderEntry {
            opening,
            closing,
            kind: subtree.delimiter.kind,
            len: subtree.len,
            child_bytes: 0,
        }));
        Ok(())
    }

    /// Appends a token. Fails only if memory runs out, and then changes nothing.
    #[inline(always)]
    pub fn push(&mut self, token: &TokenTree) -> Result<(), AllocError>
        requires few { length self.old < 4294967296 }
        ensures ok { OnOk result (self.new ≡ self.old ++ whole token.now ∷ []) }
        ensures err { OnErr result (self.new ≡ self.old) }
    {
        match token {
            TokenTree::Leaf(leaf) => self.push_leaf(leaf),
            TokenTree::Subtree(subtree) => self.push_header(subtree),
        }
    }

    /// Gives the open header at a place its close span and its count. Does nothing if no open header is there. Fails only if memory runs
    /// out, and then changes nothing.
    pub fn close(&mut self, place: usize, close_span: &Span, len: u32) -> Result<(), AllocError>
        ensures ok { OnOk result ((kind : Kind) (open_span : SpanOf) → slice_get self.old place ≡ Some (opened kind open_span) → self.new ≡ set self.old place (whole (header (delimiter kind open_span close_span.now) len))) }
        ensures none { OnOk result (NoOpenAt self.old place → self.new ≡ self.old) }
        ensures err { OnErr result (self.new ≡ self.old) }
    {
        if place >= self.tokens.len() {
            return Ok(());
        }
        let InternedToken::Open(kind, opening) = self.tokens[place] else {
            return Ok(());
        };
        let closing = span_numbers(&mut self.parts, close_span)?;
        self.parts.add_at(closing.part);
        self.tokens[place] = InternedToken::Header(HeaderEntry {
            opening,
            closing,
            kind,
            len,
            child_bytes: 0,
        });
        Ok(())
    }

    /// Removes the closed header at a place. Does nothing if no closed header is there.
    pub fn remove_header(&mut self, place: usize)
        ensures removed { (it : Header) → slice_get self.old place ≡ Some (whole (token.Subtree it)) → self.new ≡ remove self.old place }
        ensures none { NoHeaderAt self.old place → self.new ≡ self.old }
    {
        if place >= self.tokens.len() {
            return;
        }
        let InternedToken::Header(entry) = self.tokens[place] else {
            return;
        };
        self.parts.take_at(entry.opening.part);
        self.parts.take_at(entry.closing.part);
        let _ = self.tokens.remove(place);
    }

    /// Makes the last token alone if it is a punct. Does nothing if there is no token, or if the last one is an open header.
    pub fn set_last_alone(&mut self)
        ensures alone { (it : Token) → slice_get self.old (length self.old - 1) ≡ Some (whole it) → self.new ≡ set self.old (length self.old - 1) (whole (token_alone it)) }
        ensures none { NoWholeAt self.old (length self.old - 1) → self.new ≡ self.old }
    {
        let Some(last) = self.tokens.len().checked_sub(1) else {
            return;
        };
        let token = self.tokens[last];
        self.tokens[last] = token.alone();
    }

    /// Keeps the first `len` tokens, and drops the others.
    pub fn truncate(&mut self, len: usize)
        ensures { self.new ≡ take len self.old }
    {
        let len = len.min(self.tokens.len());
        uncount_all(&mut self.parts, &mut self.symbols, &self.tokens[len..]);
        self.tokens.truncate(len);
        self.parts.drop_last_unused();
        self.symbols.drop_last_unused();
    }

    /// Returns the tokens. A contract does not see the values that they name.
    #[inline(always)]
    pub fn tokens(&self) -> &[InternedToken]
        ensures { AreNamed result.now self.now }
    {
        &self.tokens
    }

    /// Returns the tokens with the values that they name. No header is open.
    pub fn counted(&self) -> CountedTokens<'_>
        requires { open_places 1 self.now ≡ [] }
        ensures { list_of result ≡ map as_token self.now }
    {
        CountedTokens {
            tokens: &self.tokens,
            parts: self.parts.values(),
            part_uses: self.parts.numbers(),
            symbols: self.symbols.values(),
            symbol_uses: self.symbols.numbers(),
        }
    }

    /// Returns how many times a part is used.
    pub fn part_uses(&self, part: &SpanPart) -> usize
        ensures { result ≡ uses_of same_part (parts_in self.now) part.now }
    {
        self.parts.uses(part)
    }

    /// Returns how many times a symbol is used.
    pub fn symbol_uses(&self, symbol: &Symbol) -> usize
        ensures { result ≡ uses_of bytes_eq (symbols_in self.now) symbol.now }
    {
        self.symbols.uses(symbol)
    }

    /// Returns how many different parts and how many different symbols are used.
    pub fn distinct_counts(&self) -> (usize, usize)
        ensures parts { result.0 ≡ length (different same_part (parts_in self.now)) }
        ensures symbols { result.1 ≡ length (different bytes_eq (symbols_in self.now)) }
    {
        (self.parts.used(), self.symbols.used())
    }

    /// Returns a list that holds the same. Fails only if memory runs out.
    pub fn clone(&self, alloc: Global) -> Result<InternedTokens, AllocError>
        ensures { IfOk result (λ copy. copy ≡ self.now) }
    {
        let mut tokens = Vec::new(alloc);
        tokens.extend_from_slice(&self.tokens)?;
        Ok(InternedTokens {
            tokens,
            parts: self.parts.clone()?,
            symbols: self.symbols.clone()?,
        })
    }
}
