//! The two tables of interned tokens, and such tokens in numbers under these tables.
ghost use Rattle.std.specs.Prelude.{◌≡◌, ℕ, ◌+◌, ◌<◌, ◌≤◌, All, length, map, nat_eq, IfOk, IfErr};
ghost use Rattle.std.specs.List.{AllZip};
ghost use Rattle.tt_base.specs.Forest.{IsWhole};
ghost use Rattle.tt_tables.specs.ListOf.{list_of, tokens_of, parts_of};
ghost use Rattle.tt_tables.specs.Stored.{most_parts, most_symbols};
ghost use Rattle.tt_tables.specs.TableOrder.{different};
ghost use Rattle.tt_tables.specs.Tables.{part_table};
ghost use Rattle.tt_tables.specs.Uses.{same_part, part_uses};
ghost use Rattle.tt_pack.specs.Counted.{new_index, LeadsTo};
ghost use Rattle.tt_pack.specs.Leading.{LeadsByPlace};
ghost use Rattle.tt_pack.specs.Packed.{IsTableFault};
ghost use Rattle.tt_pack.specs.Places.{part_places, IsAt};

use crate::first_uses::{FirstUses, count_used, stand_by_first_use};
use crate::numbered::Numbered;
use crate::room::MOST_HEADER_BYTES;
use crate::table::{MOST_PARTS_BELOW, SHORT_PARTS, SHORT_SYMBOLS, TOP_PARTS, Table};
use crate::tables::new_index_at;
use crate::writer::Writer;
use std::alloc::{AllocError, Global};
use tt_base::{SpanPart, Symbol, TtFault};
use tt_codec::{Entry, HeaderEntry, LeafEntry, MOST_SYMBOLS, SpanNumbers};
use tt_tables::{CountedTokens, InternedToken};

/// The tables of interned tokens, and the new index of each value, by its place.
#[derive(Drop)]
pub(crate) struct InternedTables<'a> {
    below: CountedTokens<'a>,
    pub(crate) parts: Vec<SpanPart>,
    /// The indices of the parts, by place. That of a part that is not used has no meaning. The list is empty if each part keeps its
    /// place.
    part_indices: Vec<u32>,
    pub(crate) symbols: Table<Symbol>,
    pub ghost few_parts: { length parts.items + 2 ≤ most_parts },
    pub ghost few_symbols: { length symbols.values.items ≤ most_symbols },
}

// Returns the values at these places, with room for `more`.
fn values_at<T: Copy>(
    alloc: Global,
    values: &[T],
    places: &[u32],
    more: usize,
) -> Result<Vec<T>, AllocError>
    requires { All (λ place. place < length values.now) places.now }
    ensures { IfOk result (λ found. AllZip (IsAt values.now) places.now found.items) }
{
    let mut found = Vec::with_capacity(alloc, places.len().saturating_add(more))?;
    for index in 0..places.len() {
        found.push(values[places[index] as usize])?;
    }
    Ok(found)
}

// Returns the table of the parts that the tokens use, by their places in the order of first uses, with room for the top's two. Up to 15
// parts keep that order, so the code copies no numbers of uses for them.
fn part_table(
    alloc: Global,
    below: CountedTokens<'_>,
    order: &[u32],
) -> Result<Table<SpanPart>, AllocError>
    requires order { order.now ≡ different nat_eq (part_places (tokens_of below)) }
    requires few { length order.now ≤ most_parts }
    ensures values { IfOk result (λ table. table.values.items ≡ part_table (list_of below.entry)) }
    ensures new_indices { IfOk result (λ table. (index : ℕ) → index < length order.now → LeadsTo (different same_part (part_uses (list_of below.entry))) table.values.items table.new_indices.items index) }
{
    if order.len() <= SHORT_PARTS {
        let parts = values_at(alloc, below.parts(), order, TOP_PARTS)?;
        return Ok(Table::by_first_use(alloc, parts));
    }
    let parts = values_at(alloc, below.parts(), order, 0)?;
    let uses = values_at(alloc, below.part_uses(), order, 0)?;
    Table::of_counts(alloc, &parts, &uses, SHORT_PARTS, TOP_PARTS)
}

// Returns the new index of each index. An index without a new one stays.
fn renumbered(indices: Vec<u32>, new_indices: &[u32]) -> Vec<u32>
    ensures { result.items ≡ map (new_index new_indices.now) indices.items }
{
    let mut indices = indices;
    for place in 0..indices.len() {
        indices[place] = new_index_at(new_indices, indices[place]);
    }
    indices
}

// Returns the table of the `used` parts that the tokens use, and the new index of each by place. The parts are mostly in the order of
// first uses already; then the code does not look for that order.
fn parts_by_place(
    alloc: Global,
    below: CountedTokens<'_>,
    used: usize,
) -> Result<Table<SpanPart>, AllocError>
    requires used { used ≡ length (different nat_eq (part_places (tokens_of below))) }
    requires few { used + 2 ≤ most_parts }
    ensures values { IfOk result (λ table. table.values.items ≡ part_table (list_of below.entry)) }
    ensures new_indices { IfOk result (λ table. LeadsByPlace (parts_of below.entry) table.values.items table.new_indices.items) }
{
    if used <= SHORT_PARTS
        && used == below.parts().len()
        && stand_by_first_use(below.tokens(), used)
    {
        return Table::of_counts(
            alloc,
            below.parts(),
            below.part_uses(),
            SHORT_PARTS,
            TOP_PARTS,
        );
    }
    let uses = FirstUses::of_tokens(alloc, below.tokens(), below.parts().len(), used)?;
    let table = part_table(alloc, below, &uses.order)?;
    Ok(Table {
        new_indices: renumbered(uses.ranks, &table.new_indices),
        values: table.values,
    })
}

impl<'a> InternedTables<'a> {
    ghost use Rattle.tt_pack.specs.InternedTables.{list_in, tables_in, LeadsFrom, new_span, new_leaf, new_header};
    ghost use Rattle.tt_pack.specs.TablesOf.{AreNumbers};

    /// Returns the tables of the tokens. Fails if there are too many parts, with the top's two, or too many symbols for their indices
    /// (docs/FORMATS.md), or if memory runs out.
    pub(crate) fn of_tokens(
        alloc: Global,
        below: CountedTokens<'a>,
    ) -> Result<InternedTables<'a>, TtFault>
        requires { IsWhole (list_of below) }
        ensures ok { IfOk result (AreNumbers list_in tables_in LeadsFrom (list_of below.entry)) }
        ensures err { IfErr result (IsTableFault (list_of below.entry)) }
    {
        let used = count_used(below.part_uses());
        if used > MOST_PARTS_BELOW {
            return Err(TtFault::TooManySpanParts);
        }
        if below.symbols().len() > MOST_SYMBOLS {
            return Err(TtFault::TooManySymbols);
        }
        let parts = parts_by_place(alloc, below, used)?;
        let symbols = Table::of_counts(
            alloc,
            below.symbols(),
            below.symbol_uses(),
            SHORT_SYMBOLS,
            0,
        )?;
        Ok(InternedTables {
            below,
            part_indices: parts.new_indices,
            parts: parts.values,
            symbols,
        })
    }

    // Returns the numbers of a span, with the new index of its part.
    #[inline(always)]
    fn span(&self, numbers: SpanNumbers) -> SpanNumbers
        ensures { result ≡ new_span self.now.part_indices.items numbers }
    {
        SpanNumbers {
            part: new_index_at(&self.part_indices, numbers.part),
            start: numbers.start,
            length: numbers.length,
        }
    }

    // Returns a leaf with the new indices.
    #[inline(always)]
    fn leaf(&self, entry: LeafEntry) -> LeafEntry
        ensures { result ≡ new_leaf self.now.part_indices.items self.now.symbols.new_indices.items entry }
    {
        match entry {
            LeafEntry::Literal(symbol, kind, suffix_len, numbers) => {
                let symbol = new_index_at(&self.symbols.new_indices, symbol);
                LeafEntry::Literal(symbol, kind, suffix_len, self.span(numbers))
            }
            LeafEntry::Punct(char, spacing, numbers) => {
                LeafEntry::Punct(char, spacing, self.span(numbers))
            }
            LeafEntry::Ident(symbol, raw, numbers) => {
                let symbol = new_index_at(&self.symbols.new_indices, symbol);
                LeafEntry::Ident(symbol, raw, self.span(numbers))
            }
        }
    }

    // Returns a header with the new indices. The tokens below it take `child_bytes` bytes.
    #[inline(always)]
    fn header(&self, entry: HeaderEntry, child_bytes: u32) -> HeaderEntry
        ensures { result ≡ new_header self.now.part_indices.items entry child_bytes }
    {
        HeaderEntry {
            opening: self.span(entry.opening),
            closing: self.span(entry.closing),
            kind: entry.kind,
            len: entry.len,
            child_bytes,
        }
    }
}

impl Numbered for InternedTables<'_> {
    ghost use Rattle.tt_pack.specs.InternedTables.{list_in, tables_in, LeadsFrom};

    ghost list = { list_in };

    ghost tables = { tables_in };

    ghost leads = { LeadsFrom };

    // Returns the bytes of as many headers as there are tokens, so no pass has to count the bytes.
    fn room(&self) -> usize {
        self.below.len().saturating_mul(MOST_HEADER_BYTES)
    }

    // This is inline, so the code tests the kind only once before it writes the bytes.
    #[inline(always)]
    fn entry(&self, index: usize, written: &Writer) -> Entry {
        match &self.below.tokens()[index] {
            InternedToken::Leaf(entry) => Entry::Leaf(self.leaf(*entry)),
            InternedToken::Open(..) => unreachable!(),
            InternedToken::Header(entry) => {
                let child_bytes = written.held_bytes(entry.len as usize);
                Entry::Header(self.header(*entry, child_bytes))
            }
        }
    }

    fn into_tables(self) -> (Vec<SpanPart>, Vec<Symbol>) {
        let InternedTables { parts, symbols, .. } = self;
        (parts, symbols.values)
    }
}
