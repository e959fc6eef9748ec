//! Puts spans and symbols in numbers.
ghost use Rattle.std.specs.Prelude.{◌≡◌, ◌<◌, ◌≤◌, ◌^◌, List, ℕ, OnOk, OnErr, IfOk, bytes_eq, slice_get};
ghost use Rattle.std.specs.Map.{keys_of};
ghost use Rattle.tt_base.specs.Fits.{SpanInRange};
ghost use Rattle.tt_base.specs.Span.{part_of};
ghost use Rattle.tt_codec.specs.SpanNumbers.{span_numbers};
ghost use Rattle.tt_tables.specs.Entries.{with_entry};
ghost use Rattle.tt_tables.specs.Interner.{entries_of};
ghost use Rattle.tt_tables.specs.Uses.{same_part};

use crate::interner::Interner;
use std::alloc::AllocError;
use tt_base::{Span, SpanPart, Symbol};
use tt_codec::SpanNumbers;

/// Returns a span in numbers. A new part gets a place, and no uses. Fails as `Interner::place_of` does.
#[inline(always)]
pub(crate) fn span_numbers(
    parts: &mut Interner<SpanPart>,
    span: &Span,
) -> Result<SpanNumbers, AllocError>
    ensures ok { OnOk result (entries_of parts.new ≡ with_entry same_part (entries_of parts.old) (part_of span.now)) }
    ensures err { OnErr result (entries_of parts.new ≡ entries_of parts.old) }
    ensures place { IfOk result (λ numbers. slice_get (keys_of (entries_of parts.new)) numbers.part ≡ Some (part_of span.now)) }
    ensures numbers { IfOk result (λ numbers. numbers ≡ span_numbers numbers.part span.now) }
    ensures range { IfOk result (λ numbers. SpanInRange span.now) }
{
    let part = parts.place_near(&SpanPart::from_span(span))?;
    let start = span.range.start().raw();
    let end = span.range.end().raw();
    Ok(SpanNumbers {
        part,
        start,
        length: end - start,
    })
}

/// Returns the place of a symbol. Looks first at the place that the symbol notes. If the symbol is at another place, it notes that one. A
/// new symbol gets a place, and no uses. Fails as `Interner::place_of` does.
#[inline(always)]
pub(crate) fn symbol_place(
    symbols: &mut Interner<Symbol>,
    symbol: &Symbol,
) -> Result<u32, AllocError>
    ensures ok { OnOk result (entries_of symbols.new ≡ with_entry bytes_eq (entries_of symbols.old) symbol.now) }
    ensures err { OnErr result (entries_of symbols.new ≡ entries_of symbols.old) }
    ensures place { IfOk result (λ place. slice_get (keys_of (entries_of symbols.new)) place ≡ Some symbol.now) }
{
    let noted = symbol.place();
    let place = symbols.place_at(noted, symbol)?;
    if place != noted {
        symbol.note_place(place);
    }
    Ok(place)
}
