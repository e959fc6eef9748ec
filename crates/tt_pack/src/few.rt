//! The values of few tokens, found by comparison.
ghost use Rattle.std.specs.Prelude.{◌≡◌, ◌≤◌, [], true, false, length, bytes_eq, slice_get, Some, IfOk, IfSome, IfNone};
ghost use Rattle.std.specs.Bool.{OnTrue};
ghost use Rattle.std.specs.List.{list_any};
ghost use Rattle.tt_base.specs.Span.{part_of};
ghost use Rattle.tt_tables.specs.Uses.{same_part};
ghost use Rattle.tt_pack.specs.Counted.{note_value};
ghost use Rattle.tt_pack.specs.Few.{HasNoted};
ghost use Rattle.tt_pack.specs.TablesOf.{StandsAt};

use crate::counted::kept_index;
use crate::table::{SHORT_PARTS, TOP_PARTS};
use crate::values::Values;
use std::alloc::{AllocError, Global};
use tt_base::{Span, SpanPart, Symbol};

/// The largest number of tokens in a list that is tried here first.
pub(crate) const FEW_TOKENS: usize = 64;
// The largest number of symbols here. Comparison finds them as fast as a hash does. Up to 63 symbols are in the order of first uses.
const FEW_SYMBOLS: usize = 24;

/// The different parts and symbols, in the order of first uses: at most 15 parts and 24 symbols.
#[derive(Drop)]
pub(crate) struct FewValues {
    pub(crate) parts: Vec<SpanPart>,
    pub(crate) symbols: Vec<Symbol>,
}

// Returns the index of a part among others, if it is there.
fn find_part(parts: &[SpanPart], part: &SpanPart) -> Option<usize>
    ensures at { IfSome result (λ index. slice_get parts.now index ≡ Some part.now) }
    ensures new { IfNone result (list_any (λ other. same_part other part.now) parts.now ≡ false) }
{
    for index in 0..parts.len() {
        if parts[index] == *part {
            return Some(index);
        }
    }
    None
}

// Returns the index of a symbol among others, if it is there. It mostly is not, so this compares texts at once.
fn find_symbol(symbols: &[Symbol], symbol: &Symbol) -> Option<usize>
    ensures at { IfSome result (λ index. slice_get symbols.now index ≡ Some symbol.now) }
    ensures new { IfNone result (list_any (λ other. bytes_eq other symbol.now) symbols.now ≡ false) }
{
    let text = symbol.as_str();
    for index in 0..symbols.len() {
        if symbols[index].as_str() == text {
            return Some(index);
        }
    }
    None
}

// Returns the index of a value, by the result of the search for it. Appends a value that was not found. Returns `None` if there are
// already `most` values.
fn put_last<T: Eq + Clone + Drop>(
    values: &mut Vec<T>,
    most: usize,
    found: Option<usize>,
    value: &T,
) -> Result<Option<u32>, AllocError>
    requires copies { (x y : T) → T.is_clone x y → y ≡ x }
    requires at { IfSome found (λ index. slice_get values.old.items index ≡ Some value.now) }
    requires new { IfNone found (list_any (λ other. T.eq other value.now) values.old.items ≡ false) }
    ensures values { IfOk result (λ found. IfSome found (λ index. values.new.items ≡ note_value T.eq values.old.items value.now)) }
    ensures index { IfOk result (λ found. IfSome found (λ index. StandsAt values.new.items index value.now)) }
    ensures few { length values.old.items ≤ most → length values.new.items ≤ most }
{
    if let Some(index) = found {
        return Ok(Some(kept_index(index)));
    }
    let index = values.len();
    if index >= most {
        return Ok(None);
    }
    values.push(value.clone()?)?;
    Ok(Some(kept_index(index)))
}

// Returns whether the value is at the index.
#[inline(always)]
fn is_at<T: Eq>(values: &[T], index: usize, value: &T) -> bool
    requires { (x y : T) → T.eq x y ≡ true → x ≡ y }
    ensures { OnTrue result (slice_get values.now index ≡ Some value.now) }
{
    if index >= values.len() {
        return false;
    }
    values[index] == *value
}

// Returns the index of a span's part. Looks first at the index of another use, and appends a new part. Returns `None` if it is new and
// there are already 15.
#[inline(always)]
fn note_part(parts: &mut Vec<SpanPart>, other: u32, span: &Span) -> Result<Option<u32>, AllocError>
    ensures parts { IfOk result (λ found. IfSome found (λ index. parts.new.items ≡ note_value same_part parts.old.items (part_of span.now))) }
    ensures index { IfOk result (λ found. IfSome found (λ index. StandsAt parts.new.items index (part_of span.now))) }
    ensures few { length parts.old.items ≤ 15 → length parts.new.items ≤ 15 }
{
    let part = SpanPart::from_span(span);
    if is_at(parts, other as usize, &part) {
        return Ok(Some(other));
    }
    let found = find_part(parts, &part);
    put_last(parts, SHORT_PARTS, found, &part)
}

// Returns the index of a symbol. Looks first at the place that the symbol notes, and appends a new symbol. Returns `None` if it is new
// and there are already 24. If the symbol is at another place, it notes that one.
#[inline(always)]
fn note_symbol(symbols: &mut Vec<Symbol>, symbol: &Symbol) -> Result<Option<u32>, AllocError>
    ensures symbols { IfOk result (λ found. IfSome found (λ index. symbols.new.items ≡ note_value bytes_eq symbols.old.items symbol.now)) }
    ensures index { IfOk result (λ found. IfSome found (λ index. StandsAt symbols.new.items index symbol.now)) }
    ensures few { length symbols.old.items ≤ 24 → length symbols.new.items ≤ 24 }
{
    let place = symbol.place();
    if is_at(symbols, place as usize, symbol) {
        return Ok(Some(place));
    }
    note_elsewhere(symbols, symbol)
}

// The same for a symbol that is not at the place that it notes.
#[inline(never)]
fn note_elsewhere(symbols: &mut Vec<Symbol>, symbol: &Symbol) -> Result<Option<u32>, AllocError>
    ensures symbols { IfOk result (λ found. IfSome found (λ index. symbols.new.items ≡ note_value bytes_eq symbols.old.items symbol.now)) }
    ensures index { IfOk result (λ found. IfSome found (λ index. StandsAt symbols.new.items index symbol.now)) }
    ensures few { length symbols.old.items ≤ 24 → length symbols.new.items ≤ 24 }
{
    let found = find_symbol(symbols, symbol);
    let index = put_last(symbols, FEW_SYMBOLS, found, symbol)?;
    if let Some(index) = index {
        symbol.note_place(index);
    }
    Ok(index)
}

impl FewValues {
    /// Returns a list of no values, with room for those of that many tokens. Fails only if memory runs out.
    pub(crate) fn new(alloc: Global, tokens: usize) -> Result<FewValues, AllocError>
        ensures { IfOk result (λ values. HasNoted values [] []) }
    {
        Ok(FewValues {
            parts: Vec::with_capacity(alloc, tokens.min(SHORT_PARTS) + TOP_PARTS)?,
            symbols: Vec::with_capacity(alloc, tokens.min(FEW_SYMBOLS))?,
        })
    }
}

impl Values for FewValues {
    ghost has_met = { HasNoted };

    ghost may_lack = { Unit {0} };

    #[inline(always)]
    fn part_index(&mut self, other: u32, span: &Span) -> Result<Option<u32>, AllocError> {
        note_part(&mut self.parts, other, span)
    }

    #[inline(always)]
    fn symbol_index(&mut self, symbol: &Symbol) -> Result<Option<u32>, AllocError> {
        note_symbol(&mut self.symbols, symbol)
    }
}
