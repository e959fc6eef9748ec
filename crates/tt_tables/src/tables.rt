//! Puts tokens in numbers: searches the values of a token in two given tables.
ghost use Rattle.std.specs.Prelude.{◌≡◌, ◌≤◌, ◌^◌, length, position, take};
ghost use Rattle.tt_tables.specs.Searches.{NamesLeaf, NamesHeader, NamesToken, IsIndex, NumbersSpan, IndexesSymbol, first_entries};

use tt_base::{Leaf, Span, SpanPart, Subtree, Symbol, TokenTree};
use tt_codec::{Entry, HeaderEntry, LeafEntry, MOST_PARTS, MOST_SYMBOLS, SpanNumbers};

/// The tables whose entries the indices of tokens name.
#[derive(Clone, Copy)]
pub struct Tables<'a> {
    pub parts: &'a [SpanPart],
    pub symbols: &'a [Symbol],
    pub ghost few_parts: { length parts.now ≤ 2 ^ 28 },
    pub ghost few_symbols: { length symbols.now ≤ 2 ^ 29 },
}

// Returns the first values, at most `most` of them.
fn first_of<T>(values: &[T], most: usize) -> &[T]
    ensures { result.now ≡ take most values.now }
{
    if values.len() > most {
        &values[..most]
    } else {
        values
    }
}

// Returns the index of the first value that is equal to this one.
fn first_equal<T: Eq>(values: &[T], value: &T) -> Option<usize>
    ensures { result ≡ position (T.eq value.now) values.now }
{
    values.iter().position(|other| value == other)
}

// Returns the index of the first value that is equal to this one.
fn index_of<T: Eq>(values: &[T], value: &T) -> Option<u32>
    requires { length values.now ≤ 2 ^ 29 }
    ensures { IsIndex (T.eq value.now) values.now result }
{
    let index = first_equal(values, value)?;
    Some(index as u32)
}

impl<'a> Tables<'a> {
    ghost use Rattle.tt_tables.specs.TablesOf.{tables_of};

    /// Returns the tables. Only the first 2^28 parts and 2^29 symbols count, as an index can name no more.
    pub fn new(parts: &'a [SpanPart], symbols: &'a [Symbol]) -> Tables<'a>
        ensures { tables_of result ≡ first_entries parts.now symbols.now }
    {
        Tables {
            parts: first_of(parts, MOST_PARTS),
            symbols: first_of(symbols, MOST_SYMBOLS),
        }
    }

    /// Returns a span in numbers, or `None` if the tables do not have its part.
    pub(crate) fn span_numbers(self, span: &Span) -> Option<SpanNumbers>
        ensures { NumbersSpan (tables_of self.entry) span.now result }
    {
        let part = index_of(self.parts, &SpanPart::from_span(span))?;
        Some(SpanNumbers::of_span(part, span))
    }

    /// Returns the index of a symbol, or `None` if the tables do not have it.
    pub(crate) fn symbol_index(self, symbol: &Symbol) -> Option<u32>
        ensures { IndexesSymbol (tables_of self.entry) symbol.now result }
    {
        index_of(self.symbols, symbol)
    }

    /// Returns a leaf in numbers, or `None` if the tables do not have its part or its symbol.
    pub(crate) fn leaf_entry(self, leaf: &Leaf) -> Option<LeafEntry>
        ensures { NamesLeaf (tables_of self.entry) leaf.now result }
    {
        let numbers = self.span_numbers(leaf.span())?;
        match leaf {
            Leaf::Literal(literal) => {
                let symbol = self.symbol_index(literal.symbol())?;
                let (kind, suffix_len) = (literal.kind(), literal.suffix_len());
                Some(LeafEntry::Literal(symbol, kind, suffix_len, numbers))
            }
            Leaf::Punct(punct) => Some(LeafEntry::Punct(punct.char, punct.spacing, numbers)),
            Leaf::Ident(ident) => {
                let symbol = self.symbol_index(&ident.sym)?;
                Some(LeafEntry::Ident(symbol, ident.is_raw, numbers))
            }
        }
    }

    /// Returns a header in numbers, or `None` if the tables do not have its parts. The tokens below it take `child_bytes` bytes.
    pub(crate) fn header_entry(self, subtree: Subtree, child_bytes: u32) -> Option<HeaderEntry>
        ensures { NamesHeader (tables_of self.entry) subtree child_bytes result }
    {
        let opening = self.span_numbers(&subtree.delimiter.open_span)?;
        let closing = self.span_numbers(&subtree.delimiter.close)?;
        Some(HeaderEntry {
            opening,
            closing,
            kind: subtree.delimiter.kind,
            len: subtree.len,
            child_bytes,
        })
    }

    /// Returns a token in numbers, or `None` if the tables do not have a part or a symbol that it uses. The tokens below a header take
    /// `child_bytes` bytes.
    pub fn entry(self, token: &TokenTree, child_bytes: u32) -> Option<Entry>
        ensures { NamesToken (tables_of self.entry) token.now child_bytes result }
    {
        match token {
            TokenTree::Leaf(leaf) => self.leaf_entry(leaf).map(Entry::Leaf),
            TokenTree::Subtree(subtree) => self
                .header_entry(*subtree, child_bytes)
                .map(Entry::Header),
        }
    }
}
