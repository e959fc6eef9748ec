//! Counts the uses of values of tables, token by token.
ghost use Rattle.std.specs.List.{IsDistinct};
ghost use Rattle.std.specs.Prelude.{◌≡◌, ℕ, List, [], Some, bytes_eq, length, slice_get, IsTrue, IfSome, IfOk};
ghost use Rattle.tt_base.specs.declared.span.SpanPart.{SpanPart as Part};
ghost use Rattle.tt_bytes.specs.Uses.{no_place, IsOneMoreAt, AreUsed, UsesSpan, HaveUses, UsesSymbol};
ghost use Rattle.tt_tables.specs.Uses.{same_part};

use std::alloc::{AllocError, Global};
use tt::Symbol;
use tt_codec::SpanNumbers;

// Marks a symbol that has no place yet.
const NO_PLACE: u32 = u32::MAX;

/// The symbols of a table that are used, in the order of their first uses. Each used symbol has a place of its own.
#[derive(Drop)]
pub(crate) struct SymbolUses {
    /// By index in the table: the symbol's place, or `NO_PLACE`.
    pub(crate) places: Vec<u32>,
    /// By place: the symbol.
    pub(crate) order: Vec<Symbol>,
    /// By place: the number of uses.
    pub(crate) numbers: Vec<usize>,
}

// Adds one use of the value at an index. Returns false, and changes nothing, if there is no such index or the count is too large.
#[inline(always)]
fn add_use(numbers: &mut Vec<usize>, index: usize) -> bool
    ensures { IsTrue result → IsOneMoreAt numbers.old.items index numbers.new.items }
{
    if index >= numbers.len() {
        return false;
    }
    let Some(more) = numbers[index].checked_add(1) else {
        return false;
    };
    numbers[index] = more;
    true
}

/// Returns no uses for `len` parts. Fails only if memory runs out.
pub(crate) fn no_part_uses(alloc: Global, len: usize) -> Result<Vec<usize>, AllocError>
    ensures { (parts : List Part) → length parts ≡ len → IsDistinct same_part parts → IfOk result (λ numbers. AreUsed parts numbers.items []) }
{
    Vec::from_elem(alloc, 0, len)
}

/// Adds one use of the part of a span. Returns false, and changes nothing, if the numbers name no span or the use cannot be counted.
#[inline(always)]
pub(crate) fn use_span(counts: &mut Vec<usize>, numbers: SpanNumbers) -> bool
    ensures { (parts before : List Part) → AreUsed parts counts.old.items before → IsTrue result → UsesSpan parts numbers counts.new.items before }
{
    if numbers.start.checked_add(numbers.length).is_none() {
        return false;
    }
    add_use(counts, numbers.part as usize)
}

impl SymbolUses {
    /// Returns no uses for a table of `len` symbols. Fails only if memory runs out.
    pub(crate) fn new(alloc: Global, len: usize) -> Result<SymbolUses, AllocError>
        ensures { (table : List (List ℕ)) → length table ≡ len → IsDistinct bytes_eq table → IfOk result (λ it. HaveUses table it []) }
    {
        Ok(SymbolUses {
            places: Vec::from_elem(alloc, NO_PLACE, len)?,
            order: Vec::with_capacity(alloc, len)?,
            numbers: Vec::with_capacity(alloc, len)?,
        })
    }

    // Adds the first use of the symbol at an index, which has no place yet. Returns its new place, or `None` if there is no such symbol
    // or no room.
    #[inline(never)]
    fn use_first(&mut self, table: &[Symbol], index: usize) -> Option<u32>
        requires { slice_get self.old.places.items index ≡ Some no_place }
        ensures { (before : List (List ℕ)) → HaveUses table.now self.old before → IfSome result (λ place. UsesSymbol table.now index place self.old self.new before) }
    {
        let place = self.order.len();
        if index >= table.len() || place >= NO_PLACE as usize {
            return None;
        }
        if place == self.order.capacity() || self.numbers.len() == self.numbers.capacity() {
            return None;
        }
        let Ok(symbol) = table[index].clone() else {
            return None;
        };
        self.order.push_reserved(symbol);
        self.numbers.push_reserved(1);
        self.places[index] = place as u32;
        Some(place as u32)
    }

    /// Adds one use of the symbol at an index of the table. Returns the symbol's place among the used symbols, or `None` if the table is
    /// too short or the use cannot be counted.
    #[inline(always)]
    pub(crate) fn place_of(&mut self, table: &[Symbol], symbol: u32) -> Option<u32>
        ensures { (before : List (List ℕ)) → HaveUses table.now self.old before → IfSome result (λ place. UsesSymbol table.now symbol place self.old self.new before) }
    {
        let index = symbol as usize;
        if index >= self.places.len() {
            return None;
        }
        let place = self.places[index];
        if place == NO_PLACE {
            return self.use_first(table, index);
        }
        if !add_use(&mut self.numbers, place as usize) {
            return None;
        }
        Some(place)
    }
}
