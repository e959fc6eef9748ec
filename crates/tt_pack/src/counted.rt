//! Counts values: a map from each different value, in the order of first uses, to its number of uses.
ghost use Rattle.std.specs.Prelude.{◌≡◌, ◌<◌, ◌≤◌, ◌^◌, List, [], true, false, Some, length, bytes_eq, slice_get, IfOk, IfErr, OnOk};
ghost use Rattle.std.specs.Bool.{OnTrue};
ghost use Rattle.indexmap.specs.IndexMap.{keys};
ghost use Rattle.tt_base.specs.declared.token_tree.TokenTree.{TokenTree};
ghost use Rattle.tt_base.specs.Forest.{IsWhole};
ghost use Rattle.tt_tables.specs.Uses.{part_uses, symbol_uses};
ghost use Rattle.tt_pack.specs.Counted.{count_use, counted, HasRoomFor};
ghost use Rattle.tt_pack.specs.CountedValues.{HasCounted};
ghost use Rattle.tt_pack.specs.Packed.{IsTableFault};
ghost use Rattle.tt_pack.specs.TablesOf.{StandsAt, IsTableFor};

use crate::table::{MOST_PARTS_BELOW, SHORT_PARTS, SHORT_SYMBOLS, TOP_PARTS, Table};
use crate::values::Values;
use indexmap::IndexMap;
use std::alloc::{AllocError, Global};
use std::hash::Hash;
use tt_base::{Span, SpanPart, Symbol, TtFault};
use tt_codec::MOST_SYMBOLS;

// Lists mostly have no more parts than this.
const FEW_PARTS: usize = 4;
// The largest number of symbols for which memory is taken at once.
const MOST_SYMBOLS_AT_FIRST: usize = 1 << 12;

/// For how many parts and symbols memory is taken at first.
#[derive(Clone, Copy)]
pub(crate) struct FirstRoom {
    pub(crate) parts: usize,
    pub(crate) symbols: usize,
}

impl FirstRoom {
    /// Returns the room for a list of `tokens` tokens with unknown values. In source, a third as many symbols as tokens are different.
    pub(crate) fn for_tokens(tokens: usize) -> FirstRoom
        ensures parts { result.parts ≤ tokens }
        ensures symbols { result.symbols ≤ tokens }
    {
        FirstRoom {
            parts: tokens.min(FEW_PARTS),
            symbols: (tokens / 3).min(MOST_SYMBOLS_AT_FIRST),
        }
    }
}

/// The different parts and symbols, each at a place, with their numbers of uses.
#[derive(Drop)]
pub(crate) struct CountedValues {
    parts: IndexMap<SpanPart, usize>,
    symbols: IndexMap<Symbol, usize>,
}

/// Returns the index as a `u32`. One that does not fit becomes `u32::MAX`, which means no value: no table has so many entries.
pub(crate) fn kept_index(index: usize) -> u32
    ensures { index < 2 ^ 32 → result ≡ index }
{
    index.min(u32::MAX as usize) as u32
}

// Counts one use of a value, and returns its index. A new value gets the last place.
#[inline(never)]
fn count_use<T: Eq + Hash + Clone + Drop>(
    counts: &mut IndexMap<T, usize>,
    value: &T,
) -> Result<u32, AllocError>
    requires copies { (x y : T) → T.is_clone x y → y ≡ x }
    requires same { (x y : T) → T.eq x y ≡ true → x ≡ y }
    requires room { HasRoomFor 1 counts.old.entries }
    ensures counts { OnOk result (counts.new.entries ≡ count_use T.eq counts.old.entries value.now) }
    ensures index { IfOk result (λ index. StandsAt (keys counts.new) index value.now) }
{
    let (index, before) = counts.insert_full(value.clone()?, 1)?;
    if let Some(uses) = before {
        counts[index] = uses + 1;
    }
    Ok(kept_index(index))
}

// If the value is at the index, counts one use of it. Returns whether it is there.
#[inline(always)]
fn count_at<T: Eq + Hash>(counts: &mut IndexMap<T, usize>, index: usize, value: &T) -> bool
    requires same { (x y : T) → T.eq x y ≡ true → x ≡ y }
    requires room { HasRoomFor 1 counts.old.entries }
    ensures counted { OnTrue result (counts.new.entries ≡ count_use T.eq counts.old.entries value.now) }
    ensures index { OnTrue result (slice_get (keys counts.new) index ≡ Some value.now) }
    ensures stays { result ≡ false → counts.new.entries ≡ counts.old.entries }
    ensures answer { slice_get (keys counts.old) index ≡ Some value.now → result ≡ true }
{
    let known = counts.keys().as_slice();
    if index >= known.len() {
        return false;
    }
    if known[index] != *value {
        return false;
    }
    counts[index] += 1;
    true
}

// Does the same as `count_use`, but looks first at the index of another use. The value is mostly there, so this test is inline, and the
// rest is a call.
#[inline(always)]
fn count_near<T: Eq + Hash + Clone + Drop>(
    counts: &mut IndexMap<T, usize>,
    other: u32,
    value: &T,
) -> Result<u32, AllocError>
    requires copies { (x y : T) → T.is_clone x y → y ≡ x }
    requires same { (x y : T) → T.eq x y ≡ true → x ≡ y }
    requires room { HasRoomFor 1 counts.old.entries }
    ensures counts { OnOk result (counts.new.entries ≡ count_use T.eq counts.old.entries value.now) }
    ensures index { IfOk result (λ index. StandsAt (keys counts.new) index value.now) }
{
    if count_at(counts, other as usize, value) {
        return Ok(other);
    }
    count_use(counts, value)
}

// Does the same as `count_use`, but looks first at the place that the symbol notes. If the symbol is at another place, it notes that one.
#[inline(always)]
fn count_symbol(counts: &mut IndexMap<Symbol, usize>, symbol: &Symbol) -> Result<u32, AllocError>
    requires room { HasRoomFor 1 counts.old.entries }
    ensures counts { OnOk result (counts.new.entries ≡ count_use bytes_eq counts.old.entries symbol.now) }
    ensures index { IfOk result (λ index. StandsAt (keys counts.new) index symbol.now) }
{
    let place = symbol.place();
    let index = count_near(counts, place, symbol)?;
    if index != place {
        symbol.note_place(index);
    }
    Ok(index)
}

// Returns the table of the counted values, with room for `more`: up to `short` values by first use; more of them by number of uses, the
// largest first, and then by first use (docs/FORMATS.md).
fn counted_table<T: Eq + Hash + Clone + Drop>(
    alloc: Global,
    counts: &IndexMap<T, usize>,
    short: usize,
    more: usize,
) -> Result<Table<T>, AllocError>
    requires copies { (x y : T) → T.is_clone x y → y ≡ x }
    requires same { (x y : T) → T.eq x y ≡ true → x ≡ y }
    requires few { length (keys counts.now) ≤ 2 ^ 32 }
    ensures { IfOk result (λ table. (uses : List T) → counts.now.entries ≡ counted T.eq uses → IsTableFor T.eq short uses table) }
{
    let values = counts.keys().as_slice();
    let numbers = counts.values().as_slice();
    Table::of_counts(alloc, values, numbers, short, more)
}

impl CountedValues {
    ghost use Rattle.tt_pack.specs.TablesOf.{AreTables};

    /// Returns a count of no values. Fails only if memory runs out.
    pub(crate) fn new(alloc: Global, room: FirstRoom) -> Result<CountedValues, AllocError>
        ensures { IfOk result (λ values. HasCounted values [] []) }
    {
        Ok(CountedValues {
            parts: IndexMap::with_capacity(alloc, room.parts)?,
            symbols: IndexMap::with_capacity(alloc, room.symbols)?,
        })
    }

    /// Returns the two tables of the counted values. Fails if there are too many parts, with the top's two, or too many symbols for their
    /// indices (docs/FORMATS.md), or if memory runs out.
    pub(crate) fn tables(&self, alloc: Global) -> Result<(Table<SpanPart>, Table<Symbol>), TtFault>
        ensures tables { IfOk result (λ tables. (tokens : List TokenTree) → HasCounted self.now (part_uses tokens) (symbol_uses tokens) → AreTables tokens tables.0 tables.1) }
        ensures err { IfErr result (λ fault. (tokens : List TokenTree) → IsWhole tokens → HasCounted self.now (part_uses tokens) (symbol_uses tokens) → IsTableFault tokens fault) }
    {
        if self.parts.len() > MOST_PARTS_BELOW {
            return Err(TtFault::TooManySpanParts);
        }
        if self.symbols.len() > MOST_SYMBOLS {
            return Err(TtFault::TooManySymbols);
        }
        let parts = counted_table(alloc, &self.parts, SHORT_PARTS, TOP_PARTS)?;
        let symbols = counted_table(alloc, &self.symbols, SHORT_SYMBOLS, 0)?;
        Ok((parts, symbols))
    }
}

impl Values for CountedValues {
    ghost has_met = { HasCounted };

    ghost may_lack = { ⊥ };

    #[inline(always)]
    fn part_index(&mut self, other: u32, span: &Span) -> Result<Option<u32>, AllocError> {
        let part = SpanPart::from_span(span);
        Ok(Some(count_near(&mut self.parts, other, &part)?))
    }

    #[inline(always)]
    fn symbol_index(&mut self, symbol: &Symbol) -> Result<Option<u32>, AllocError> {
        Ok(Some(count_symbol(&mut self.symbols, symbol)?))
    }
}
