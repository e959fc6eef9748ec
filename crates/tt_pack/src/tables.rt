//! The two tables of a list of tokens, and the tokens in numbers under these tables.
ghost use Rattle.std.specs.Prelude.{◌≡◌, ◌+◌, ◌≤◌, length, IfOk, IfErr, IfSome};
ghost use Rattle.tt_tables.specs.Stored.{most_parts, most_symbols};
ghost use Rattle.tt_tables.specs.Tables.{Knows};
ghost use Rattle.tt_pack.specs.Counted.{new_index};
ghost use Rattle.tt_pack.specs.Packed.{IsTableFault};

use crate::counted::{CountedValues, FirstRoom};
use crate::few::{FEW_TOKENS, FewValues};
use crate::numbered::Numbered;
use crate::table::Table;
use crate::uses::{ListUses, TokenUses};
use crate::writer::Writer;
use std::alloc::Global;
use tt_base::{Leaf, SpanPart, Subtree, Symbol, TokenTree, TtFault};
use tt_codec::{Entry, HeaderEntry, LeafEntry, SpanNumbers};

/// The tables of a list of tokens, the values that each token uses, and the number of bytes that all tokens can take.
#[derive(Drop)]
pub(crate) struct ListTables<'a> {
    tokens: &'a [TokenTree],
    pub(crate) parts: Table<SpanPart>,
    pub(crate) symbols: Table<Symbol>,
    pub(crate) uses: Vec<TokenUses>,
    pub(crate) room: usize,
    pub ghost few_parts: { length parts.values.items + 2 ≤ most_parts },
    pub ghost few_symbols: { length symbols.values.items ≤ most_symbols },
}

/// Returns the new index of an index. An index without a new one stays.
#[inline(always)]
pub(crate) fn new_index_at(new_indices: &[u32], index: u32) -> u32
    ensures { result ≡ new_index new_indices.now index }
{
    match new_indices.get(index as usize) {
        Some(found) => *found,
        None => index,
    }
}

impl<'a> ListTables<'a> {
    ghost use Rattle.tt_base.specs.declared.token_tree.TokenTree.TheVariants as token;
    ghost use Rattle.tt_tables.specs.Searches.{IsNamedLeaf, IsNamedHeader};
    ghost use Rattle.tt_pack.specs.TablesOf.{tokens_in, tables_of, HasUses, LeadsList, AreNumbers};

    /// Returns the tables of the tokens. Takes memory for as many values as `room` says, if the code counts uses. Fails if the tokens are
    /// not a whole list, if there are too many parts, with the top's two, or too many symbols for their indices (docs/FORMATS.md), or if
    /// memory runs out.
    pub(crate) fn of_tokens(
        alloc: Global,
        below: &'a [TokenTree],
        room: FirstRoom,
    ) -> Result<ListTables<'a>, TtFault>
        ensures ok { IfOk result (AreNumbers tokens_in tables_of LeadsList below.now) }
        ensures err { IfErr result (IsTableFault below.now) }
    {
        if below.len() <= FEW_TOKENS {
            if let Some(tables) = ListTables::of_few(alloc, below)? {
                return Ok(tables);
            }
        }
        ListTables::of_counted(alloc, below, room)
    }

    // The same for few parts and symbols. They are ordered by first use, so nothing is counted. Returns `None` if there are more.
    fn of_few(alloc: Global, below: &'a [TokenTree]) -> Result<Option<ListTables<'a>>, TtFault>
        ensures ok { IfOk result (λ found. IfSome found (AreNumbers tokens_in tables_of LeadsList below.now)) }
        ensures err { IfErr result (IsTableFault below.now) }
    {
        let mut values = FewValues::new(alloc, below.len())?;
        let Some(uses) = ListUses::of_tokens(alloc, &mut values, below)? else {
            return Ok(None);
        };
        Ok(Some(ListTables {
            tokens: below,
            parts: Table::by_first_use(alloc, values.parts),
            symbols: Table::by_first_use(alloc, values.symbols),
            uses: uses.tokens,
            room: uses.room,
        }))
    }

    // The same, and counts the uses.
    fn of_counted(
        alloc: Global,
        below: &'a [TokenTree],
        room: FirstRoom,
    ) -> Result<ListTables<'a>, TtFault>
        ensures ok { IfOk result (AreNumbers tokens_in tables_of LeadsList below.now) }
        ensures err { IfErr result (IsTableFault below.now) }
    {
        let mut values = CountedValues::new(alloc, room)?;
        let Some(uses) = ListUses::of_tokens(alloc, &mut values, below)? else {
            unreachable!()
        };
        let (parts, symbols) = values.tables(alloc)?;
        Ok(ListTables {
            tokens: below,
            parts,
            symbols,
            uses: uses.tokens,
            room: uses.room,
        })
    }

    // Returns a leaf in numbers.
    #[inline(always)]
    fn leaf_entry(&self, leaf: &Leaf, uses: TokenUses) -> LeafEntry
        requires known { Knows (tables_of self.now) (token.Leaf leaf.now) }
        requires uses { HasUses self.now (token.Leaf leaf.now) uses }
        ensures { IsNamedLeaf (tables_of self.now) leaf.now result }
    {
        let part = new_index_at(&self.parts.new_indices, uses.part);
        match leaf {
            Leaf::Literal(literal) => {
                let symbol = new_index_at(&self.symbols.new_indices, uses.other);
                let numbers = SpanNumbers::of_span(part, literal.span());
                LeafEntry::Literal(symbol, literal.kind(), literal.suffix_len(), numbers)
            }
            Leaf::Punct(punct) => {
                let numbers = SpanNumbers::of_span(part, &punct.span);
                LeafEntry::Punct(punct.char, punct.spacing, numbers)
            }
            Leaf::Ident(ident) => {
                let symbol = new_index_at(&self.symbols.new_indices, uses.other);
                let numbers = SpanNumbers::of_span(part, &ident.span);
                LeafEntry::Ident(symbol, ident.is_raw, numbers)
            }
        }
    }

    // Returns a header in numbers. The tokens below it take `child_bytes` bytes.
    #[inline(always)]
    fn header_entry(&self, subtree: Subtree, uses: TokenUses, child_bytes: u32) -> HeaderEntry
        requires known { Knows (tables_of self.now) (token.Subtree subtree) }
        requires uses { HasUses self.now (token.Subtree subtree) uses }
        ensures { IsNamedHeader (tables_of self.now) subtree child_bytes result }
    {
        let delimiter = &subtree.delimiter;
        let open = new_index_at(&self.parts.new_indices, uses.part);
        let close = new_index_at(&self.parts.new_indices, uses.other);
        HeaderEntry {
            opening: SpanNumbers::of_span(open, &delimiter.open_span),
            closing: SpanNumbers::of_span(close, &delimiter.close),
            kind: delimiter.kind,
            len: subtree.len,
            child_bytes,
        }
    }
}

impl Numbered for ListTables<'_> {
    ghost use Rattle.tt_pack.specs.TablesOf.{tokens_in, tables_of, LeadsList};

    ghost list = { tokens_in };

    ghost tables = { tables_of };

    ghost leads = { LeadsList };

    fn room(&self) -> usize {
        self.room
    }

    // This is inline, so the code tests the kind only once before it writes the bytes.
    #[inline(always)]
    fn entry(&self, index: usize, written: &Writer) -> Entry {
        let uses = self.uses[index];
        match &self.tokens[index] {
            TokenTree::Leaf(leaf) => Entry::Leaf(self.leaf_entry(leaf, uses)),
            TokenTree::Subtree(header) => {
                let child_bytes = written.held_bytes(header.usize_len());
                Entry::Header(self.header_entry(*header, uses, child_bytes))
            }
        }
    }

    fn into_tables(self) -> (Vec<SpanPart>, Vec<Symbol>) {
        let ListTables { parts, symbols, .. } = self;
        (parts.values, symbols.values)
    }
}
