//! Reads lists of tokens in little memory.
ghost use Rattle.std.specs.Prelude.{◌≡◌, ◌<◌, ◌∷◌, [], ℕ, Some, IfOk, IfSome, IsTrue, bytes_eq, length, map, slice_get};
ghost use Rattle.tt_base.specs.declared.token_tree.TokenTree.TheVariants as token;
ghost use Rattle.tt_base.specs.Fits.{LeafInRange, TokenInRange};
ghost use Rattle.tt_tables.specs.OnePart.{HasOnePart, HeadersHave, LeavesHave, NamesAt, numbered_leaf, numbered_header};
ghost use Rattle.tt_base.specs.declared.leaf.Leaf.{Leaf as LeafOf};
ghost use Rattle.tt_tables.specs.Searches.{FindsLeaf};
ghost use Rattle.tt_tables.specs.Tables.{tables_from};
ghost use Rattle.tt_tables.specs.SmallMeaning.{small_numbers};
ghost use Rattle.tt_tables.specs.TableOrder.{different, uses_of};
ghost use Rattle.tt_tables.specs.Uses.{symbol_uses};

use crate::small::{Form, Small};
use crate::small_tokens::SmallTokens;
use crate::tables::Tables;
use crate::token::InternedToken;
use std::alloc::AllocError;
use tt_base::{Leaf, SpanPart, Subtree, Symbol, TokenTree};
use tt_codec::{HeaderEntry, LeafEntry, SpanNumbers};

// Returns whether both spans of each header have the part.
fn headers_have(part: &SpanPart, headers: &[Subtree]) -> bool
    ensures { IsTrue result → HeadersHave part.now headers.now }
{
    for header in headers {
        if SpanPart::from_span(&header.delimiter.open_span) != *part
            || SpanPart::from_span(&header.delimiter.close) != *part
        {
            return false;
        }
    }
    true
}

// Returns whether the span of each leaf has the part.
fn leaves_have(part: &SpanPart, leaves: &[Leaf]) -> bool
    ensures { IsTrue result → LeavesHave part.now leaves.now }
{
    for leaf in leaves {
        if SpanPart::from_span(leaf.span()) != *part {
            return false;
        }
    }
    true
}

impl Small {
    // Returns the numbers of its span, whose part is at the place 0.
    #[inline(always)]
    fn numbers(self) -> SpanNumbers
        ensures { result ≡ small_numbers self }
    {
        SpanNumbers {
            part: 0,
            start: self.start,
            length: self.length as u32,
        }
    }
}

// Returns a leaf in numbers. Its part is at the place 0, and its symbol, if it has one, at that place.
fn leaf_numbers(leaf: &Leaf, symbol: u32) -> LeafEntry
    ensures value { result ≡ numbered_leaf symbol leaf.now }
    ensures range { LeafInRange leaf.now }
{
    let numbers = SpanNumbers::of_span(0, leaf.span());
    match leaf {
        Leaf::Literal(literal) => {
            LeafEntry::Literal(symbol, literal.kind(), literal.suffix_len(), numbers)
        }
        Leaf::Punct(punct) => LeafEntry::Punct(punct.char, punct.spacing, numbers),
        Leaf::Ident(ident) => LeafEntry::Ident(symbol, ident.is_raw, numbers),
    }
}

// Returns a header in numbers. Both parts are at the place 0.
fn header_numbers(header: &Subtree) -> HeaderEntry
    ensures value { result ≡ numbered_header header.now }
    ensures range { TokenInRange (token.Subtree header.now) }
{
    let delimiter = &header.delimiter;
    HeaderEntry {
        opening: SpanNumbers::of_span(0, &delimiter.open_span),
        closing: SpanNumbers::of_span(0, &delimiter.close),
        kind: delimiter.kind,
        len: header.len,
        child_bytes: 0,
    }
}

// Returns the leaf that the numbers name under that part and these symbols. Fails if there are more symbols than an index can name, or if
// the numbers name no leaf.
fn named_leaf(part: SpanPart, symbols: &[Symbol], entry: LeafEntry) -> Result<TokenTree, AllocError>
    ensures { IfOk result (λ found. (it : LeafOf) → FindsLeaf (tables_from (part ∷ []) symbols.now) entry it → found ≡ token.Leaf it) }
{
    let parts = [part];
    match Tables::new(&parts, symbols).leaf(entry) {
        Some(token) => Ok(token),
        None => Err(AllocError),
    }
}

impl SmallTokens {
    /// Returns the part of all spans, if there is one.
    pub fn one_part(&self) -> Option<SpanPart>
        ensures { IfSome result (λ part. HasOnePart part self.now) }
    {
        if headers_have(&self.part, &self.headers) && leaves_have(&self.part, &self.leaves) {
            Some(self.part)
        } else {
            None
        }
    }

    /// Returns the different symbols, in the order of first uses.
    pub fn symbols(&self) -> &[Symbol]
        ensures { result.now ≡ different bytes_eq (symbol_uses self.now) }
    {
        self.symbols.values()
    }

    /// Returns the number of uses of each symbol.
    pub fn symbol_uses(&self) -> &[usize]
        ensures { result.now ≡ map (uses_of bytes_eq (symbol_uses self.now)) (different bytes_eq (symbol_uses self.now)) }
    {
        self.symbols.numbers()
    }

    /// Returns the token at a place, which names its part by the place 0 and its symbol by its place. This has a meaning only if all
    /// spans have one part.
    #[inline(always)]
    pub fn interned(&self, place: usize) -> InternedToken
        requires { place < length self.now }
        ensures { NamesAt self.now place result }
    {
        let small = self.tokens[place];
        match small.form {
            Form::Punct(spacing) => {
                let char = (small.value % 256) as u8 as char;
                InternedToken::Leaf(LeafEntry::Punct(char, spacing, small.numbers()))
            }
            Form::Ident(raw) => {
                InternedToken::Leaf(LeafEntry::Ident(small.value, raw, small.numbers()))
            }
            Form::Literal(kind) => {
                InternedToken::Leaf(LeafEntry::Literal(small.value, kind, 0, small.numbers()))
            }
            Form::Header => {
                InternedToken::Header(header_numbers(&self.headers[small.value as usize]))
            }
            Form::Odd => {
                let leaf = &self.leaves[small.value as usize];
                InternedToken::Leaf(leaf_numbers(leaf, small.start))
            }
        }
    }

    /// Returns the token at a place. Fails if memory runs out, or if there are more than 2^29 different symbols.
    pub fn token(&self, place: usize) -> Result<TokenTree, AllocError>
        requires { place < length self.now }
        ensures { IfOk result (λ it. slice_get self.now place ≡ Some it) }
    {
        let small = self.tokens[place];
        let symbols = self.symbols.values();
        match small.form {
            Form::Punct(spacing) => {
                let char = (small.value % 256) as u8 as char;
                let entry = LeafEntry::Punct(char, spacing, small.numbers());
                named_leaf(self.part, symbols, entry)
            }
            Form::Ident(raw) => {
                let entry = LeafEntry::Ident(small.value, raw, small.numbers());
                named_leaf(self.part, symbols, entry)
            }
            Form::Literal(kind) => {
                let entry = LeafEntry::Literal(small.value, kind, 0, small.numbers());
                named_leaf(self.part, symbols, entry)
            }
            Form::Header => Ok(TokenTree::Subtree(self.headers[small.value as usize])),
            Form::Odd => {
                let leaf = &self.leaves[small.value as usize];
                Ok(TokenTree::Leaf(leaf.clone()?))
            }
        }
    }
}
