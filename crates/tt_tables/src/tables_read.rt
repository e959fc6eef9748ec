//! Makes the tokens that numbers name.

ghost use Rattle.std.specs.Prelude.{◌≡◌, IfSome, slice_get};
ghost use Rattle.tt_codec.specs.declared.entry.LeafEntry.TheVariants as leaf;
ghost use Rattle.tt_tables.specs.Searches.{FindsSpan, IsLeaf, IsSubtree, GivesSpan, GivesLeaf, GivesSubtree};

use crate::tables::Tables;
use tt_base::{
    Delimiter, Ident, IdentIsRaw, Leaf, LitKind, Literal, Punct, Spacing, Span, SpanPart, Subtree,
    Symbol, TextRange, TextSize, TokenTree,
};
use tt_codec::{HeaderEntry, LeafEntry, SpanNumbers};

// Returns a copy of the symbol. Takes no memory: the proof shows that the arm that would take some is never reached.
#[inline(always)]
fn copy_of(symbol: &Symbol) -> Symbol
    ensures { result ≡ symbol.now }
{
    match symbol.clone() {
        Ok(copy) => copy,
        Err(_) => unreachable!(),
    }
}

impl<'a> Tables<'a> {
    ghost use Rattle.tt_tables.specs.TablesOf.{tables_of};

    // Returns the part at an index, if the table has that index.
    fn part_at(self, index: u32) -> Option<SpanPart>
        ensures { result ≡ slice_get (tables_of self.entry).parts index }
    {
        self.parts.get(index as usize).copied()
    }

    // Returns the symbol at an index, if the table has that index.
    #[inline(always)]
    fn symbol_at(self, index: u32) -> Option<Symbol>
        ensures { result ≡ slice_get (tables_of self.entry).symbols index }
    {
        self.symbols.get(index as usize).map(copy_of)
    }

    /// Returns the span with these numbers, or `None` if the tables do not have its part, or if it would end at 2^32 or later.
    pub(crate) fn span(self, numbers: SpanNumbers) -> Option<Span>
        ensures gives { GivesSpan (tables_of self.entry) numbers result }
        ensures only { IfSome result (FindsSpan (tables_of self.entry) numbers) }
    {
        let part = self.part_at(numbers.part)?;
        let range = TextRange::at(TextSize::new(numbers.start), TextSize::new(numbers.length))?;
        Some(part.recombine(range))
    }

    /// Returns the ident that the numbers name, or `None` if the tables do not have its symbol or its part, or if its span would end at
    /// 2^32 or later.
    #[inline(always)]
    pub fn ident(self, symbol: u32, is_raw: IdentIsRaw, numbers: SpanNumbers) -> Option<TokenTree>
        ensures gives { GivesLeaf (tables_of self.entry) (leaf.Ident symbol is_raw numbers) result }
        ensures only { IfSome result (IsLeaf (tables_of self.entry) (leaf.Ident symbol is_raw numbers)) }
    {
        let span = self.span(numbers)?;
        let sym = self.symbol_at(symbol)?;
        Some(TokenTree::Leaf(Leaf::Ident(Ident { sym, span, is_raw })))
    }

    /// Returns the punct that the numbers name, or `None` if the tables do not have its part, or if its span would end at 2^32 or later.
    #[inline(always)]
    pub fn punct(self, char: char, spacing: Spacing, numbers: SpanNumbers) -> Option<TokenTree>
        ensures gives { GivesLeaf (tables_of self.entry) (leaf.Punct char spacing numbers) result }
        ensures only { IfSome result (IsLeaf (tables_of self.entry) (leaf.Punct char spacing numbers)) }
    {
        let span = self.span(numbers)?;
        Some(TokenTree::Leaf(Leaf::Punct(Punct {
            char,
            spacing,
            span,
        })))
    }

    /// Returns the literal that the numbers name, or `None` if the tables do not have its symbol or its part, if its span would end at
    /// 2^32 or later, or if the last `suffix_len` bytes of the symbol do not begin at a character.
    #[inline(always)]
    pub fn literal(
        self,
        symbol: u32,
        kind: LitKind,
        suffix_len: u8,
        numbers: SpanNumbers,
    ) -> Option<TokenTree>
        ensures gives { GivesLeaf (tables_of self.entry) (leaf.Literal symbol kind suffix_len numbers) result }
        ensures only { IfSome result (IsLeaf (tables_of self.entry) (leaf.Literal symbol kind suffix_len numbers)) }
    {
        let span = self.span(numbers)?;
        let symbol = self.symbol_at(symbol)?;
        let literal = Literal::from_parts(symbol, span, kind, suffix_len)?;
        Some(TokenTree::Leaf(Leaf::Literal(literal)))
    }

    /// Returns the leaf that the numbers name, or `None` as `ident`, `punct` and `literal` do.
    pub fn leaf(self, entry: LeafEntry) -> Option<TokenTree>
        ensures gives { GivesLeaf (tables_of self.entry) entry result }
        ensures only { IfSome result (IsLeaf (tables_of self.entry) entry) }
    {
        match entry {
            LeafEntry::Punct(char, spacing, numbers) => self.punct(char, spacing, numbers),
            LeafEntry::Ident(symbol, is_raw, numbers) => self.ident(symbol, is_raw, numbers),
            LeafEntry::Literal(symbol, kind, suffix_len, numbers) => {
                self.literal(symbol, kind, suffix_len, numbers)
            }
        }
    }

    /// Returns the header that the numbers name, or `None` if the tables do not have its parts, or if a span of it would end at 2^32 or
    /// later.
    #[inline(always)]
    pub fn subtree(self, entry: HeaderEntry) -> Option<TokenTree>
        ensures gives { GivesSubtree (tables_of self.entry) entry result }
        ensures only { IfSome result (IsSubtree (tables_of self.entry) entry) }
    {
        let open_span = self.span(entry.opening)?;
        let close = self.span(entry.closing)?;
        let delimiter = Delimiter {
            open_span,
            close,
            kind: entry.kind,
        };
        Some(TokenTree::Subtree(Subtree {
            delimiter,
            len: entry.len,
        }))
    }
}
