//! The bytes of a single value, for tests and for readers of the format.

ghost use Rattle.std.specs.Prelude.{◌≡◌, ◌+◌, ◌<◌, ◌^◌, length, IfOk, IfErr, MatchOption};
ghost use Rattle.tt_tables.specs.Cost.{weight};
ghost use Rattle.tt_codec.specs.Reference.{reference_bytes};
ghost use Rattle.tt_codec.specs.SpanNumbers.{span_bytes, numbers_at};
ghost use Rattle.tt_tables.specs.Shortest.{IsShortestToken};
ghost use Rattle.tt_tables.specs.Tables.{Knows, entry_of, token_bytes};
ghost use Rattle.tt_base.specs.declared.fault.TtFault.TheVariants.{Memory};
ghost use Rattle.tt_tables.specs.Searches.{first_entries};

use std::alloc::Global;
use tt_back_buf::BackBuf;
use tt_base::{SpanPart, Symbol, TokenTree, TtFault};
use tt_codec::{Reference, SpanNumbers};
use tt_tables::Tables;

// The largest number of bytes of a reference.
const MOST_REFERENCE_BYTES: usize = 4;

// The largest number of bytes of a span.
const MOST_SPAN_BYTES: usize = 12;

// The largest number of bytes of a token.
const MOST_TOKEN_BYTES: usize = 33;

/// Returns the bytes that name a symbol by its index in a table and a tag bit. The index is less than 2^29, and the tag is 0 or 1. Fails
/// only if memory runs out (`Memory`).
pub fn symbol_bytes(alloc: Global, index: u32, tag: u32) -> Result<Vec<u8>, TtFault>
    requires index { index < 2 ^ 29 }
    requires tag { tag < 2 }
    ensures ok { IfOk result (λ bytes. bytes.items ≡ reference_bytes index tag) }
    ensures weight { IfOk result (λ bytes. length bytes.items ≡ weight index) }
    ensures err { IfErr result (λ fault. fault ≡ Memory) }
{
    let mut bytes = BackBuf::with_room(alloc, MOST_REFERENCE_BYTES)?;
    Reference { index, tag }.write(&mut bytes);
    Ok(bytes.into_vec()?)
}

/// Returns the bytes of a span: the index of its part, its start and its length in bytes, with two extra bits. `heavy` demands the
/// longest form. The part is less than 2^28, the extra bits are less than 4, and `start.checked_add(length)` is `Some`. Fails only if
/// memory runs out (`Memory`).
pub fn span_bytes(
    alloc: Global,
    part: u32,
    start: u32,
    length: u32,
    extra: u32,
    heavy: bool,
) -> Result<Vec<u8>, TtFault>
    requires part { part < 2 ^ 28 }
    requires extra { extra < 4 }
    requires end { start + length < 2 ^ 32 }
    ensures ok { IfOk result (λ bytes. bytes.items ≡ span_bytes heavy extra (numbers_at part start length)) }
    ensures err { IfErr result (λ fault. fault ≡ Memory) }
{
    let mut bytes = BackBuf::with_room(alloc, MOST_SPAN_BYTES)?;
    let numbers = SpanNumbers {
        part,
        start,
        length,
    };
    numbers.write(&mut bytes, extra, heavy);
    Ok(bytes.into_vec()?)
}

/// Returns the bytes of a token below the top, or `None` if the tables do not have a part or a symbol that it uses. A header has the
/// shortest format that can hold it. Only the first 2^28 parts and 2^29 symbols of the tables count. The tokens below a header take
/// `child_bytes` bytes. Fails only if memory runs out (`Memory`).
pub fn token_bytes(
    alloc: Global,
    token: &TokenTree,
    parts: &[SpanPart],
    symbols: &[Symbol],
    child_bytes: u32,
) -> Result<Option<Vec<u8>>, TtFault>
    ensures ok { IfOk result (λ found. MatchOption found
        (Knows (first_entries parts.now symbols.now) token.now → ⊥)
        (λ bytes. Knows (first_entries parts.now symbols.now) token.now
        × (bytes.items ≡ token_bytes (first_entries parts.now symbols.now) token.now child_bytes))) }
    ensures shortest { IfOk result (λ found. MatchOption found (Unit {0})
        (λ bytes. IsShortestToken (entry_of (first_entries parts.now symbols.now) token.now child_bytes) bytes.items)) }
    ensures err { IfErr result (λ fault. fault ≡ Memory) }
{
    let Some(entry) = Tables::new(parts, symbols).entry(token, child_bytes) else {
        return Ok(None);
    };
    let mut bytes = BackBuf::with_room(alloc, MOST_TOKEN_BYTES)?;
    entry.write(&mut bytes);
    Ok(Some(bytes.into_vec()?))
}
