//! The tables of tokens in little memory whose spans have one part, and such tokens in numbers under these tables.
ghost use Rattle.std.specs.Prelude.{◌≡◌, ◌+◌, ◌<◌, ◌≤◌, [], length, IfOk, IfErr};
ghost use Rattle.tt_base.specs.Forest.{IsWhole};
ghost use Rattle.tt_tables.specs.OnePart.{HasOnePart};
ghost use Rattle.tt_tables.specs.Stored.{most_parts, most_symbols};
ghost use Rattle.tt_pack.specs.InternedTables.{new_leaf};
ghost use Rattle.tt_pack.specs.Packed.{IsTableFault};

use crate::numbered::Numbered;
use crate::room::MOST_HEADER_BYTES;
use crate::table::{SHORT_SYMBOLS, TOP_PARTS, Table};
use crate::tables::new_index_at;
use crate::writer::Writer;
use std::alloc::Global;
use tt_base::{SpanPart, Symbol, TtFault};
use tt_codec::{Entry, HeaderEntry, LeafEntry, MOST_SYMBOLS};
use tt_tables::{InternedToken, SmallTokens};

/// The tables of tokens in little memory, with the tokens.
#[derive(Drop)]
pub(crate) struct SmallTables {
    pub(crate) below: SmallTokens,
    pub(crate) parts: Vec<SpanPart>,
    pub(crate) symbols: Table<Symbol>,
    pub ghost few_parts: { length parts.items + 2 ≤ most_parts },
    pub ghost few_symbols: { length symbols.values.items ≤ most_symbols },
}

impl SmallTables {
    ghost use Rattle.tt_pack.specs.SmallTables.{list_within, tables_within, LeadsSmall};
    ghost use Rattle.tt_pack.specs.TablesOf.{AreNumbers};

    /// Returns the tables of some tokens, all spans of which have that part. Fails if there are too many symbols for their indices
    /// (docs/FORMATS.md), or if memory runs out.
    pub(crate) fn of_tokens(
        alloc: Global,
        below: SmallTokens,
        part: SpanPart,
    ) -> Result<SmallTables, TtFault>
        requires whole { IsWhole below }
        requires part { HasOnePart part below }
        requires some { 0 < length below }
        ensures ok { IfOk result (AreNumbers list_within tables_within LeadsSmall below) }
        ensures err { IfErr result (IsTableFault below) }
    {
        if below.symbols().len() > MOST_SYMBOLS {
            return Err(TtFault::TooManySymbols);
        }
        let symbols = Table::of_counts(
            alloc,
            below.symbols(),
            below.symbol_uses(),
            SHORT_SYMBOLS,
            0,
        )?;
        let mut parts = Vec::with_capacity(alloc, 1 + TOP_PARTS)?;
        parts.push(part)?;
        Ok(SmallTables {
            below,
            parts,
            symbols,
        })
    }

    // Returns a leaf with the new index of its symbol.
    #[inline(always)]
    fn leaf(&self, entry: LeafEntry) -> LeafEntry
        ensures { result ≡ new_leaf [] self.now.symbols.new_indices.items entry }
    {
        match entry {
            LeafEntry::Literal(symbol, kind, suffix_len, numbers) => {
                let symbol = new_index_at(&self.symbols.new_indices, symbol);
                LeafEntry::Literal(symbol, kind, suffix_len, numbers)
            }
            LeafEntry::Punct(..) => entry,
            LeafEntry::Ident(symbol, raw, numbers) => {
                let symbol = new_index_at(&self.symbols.new_indices, symbol);
                LeafEntry::Ident(symbol, raw, numbers)
            }
        }
    }
}

impl Numbered for SmallTables {
    ghost use Rattle.tt_pack.specs.SmallTables.{list_within, tables_within, LeadsSmall};

    ghost list = { list_within };

    ghost tables = { tables_within };

    ghost leads = { LeadsSmall };

    // Returns the bytes of as many headers as there are tokens, so no pass has to count the bytes.
    fn room(&self) -> usize {
        self.below.len().saturating_mul(MOST_HEADER_BYTES)
    }

    // This is inline, so the code tests the kind only once before it writes the bytes.
    #[inline(always)]
    fn entry(&self, index: usize, written: &Writer) -> Entry {
        match self.below.interned(index) {
            InternedToken::Leaf(entry) => Entry::Leaf(self.leaf(entry)),
            InternedToken::Open(..) => unreachable!(),
            InternedToken::Header(entry) => {
                let child_bytes = written.held_bytes(entry.len as usize);
                Entry::Header(HeaderEntry {
                    child_bytes,
                    ..entry
                })
            }
        }
    }

    fn into_tables(self) -> (Vec<SpanPart>, Vec<Symbol>) {
        let SmallTables { parts, symbols, .. } = self;
        (parts, symbols.values)
    }
}
