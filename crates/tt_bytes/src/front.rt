//! Reads what comes before the packed bytes: the mark, the parts and the symbols. Each read checks first that the bytes are there.
ghost use Rattle.std.specs.Prelude.{◌≡◌, ◌⊎◌, ◌≤◌, length, Ok, Err, IfOk, MatchResult};
ghost use Rattle.tt_bytes.specs.declared.fault.BytesFault.TheVariants.{Memory};
ghost use Rattle.tt_bytes.specs.Format.{mark};
ghost use Rattle.tt_bytes.specs.Front.{behind_mark, parts_from, text_from, texts_from};

use crate::fault::BytesFault;
use crate::numbers::{split_number, split_part};
use crate::write::MARK;
use std::alloc::Global;
use tt::{SpanPart, Symbol};

// The largest number of symbols for which memory is taken at once. A longer list grows, so a large count alone takes no large block.
const FEW_SYMBOLS: usize = 64;
// The smallest number of bytes of a symbol: those of its length.
const LEAST_SYMBOL_BYTES: usize = 4;

// Returns for how many symbols to take memory at first, by the count that the bytes give and the number of bytes.
fn first_room(count: u32, bytes: usize) -> usize {
    let room = (count as usize).min(bytes / LEAST_SYMBOL_BYTES);
    if room > FEW_SYMBOLS {
        return 0;
    }
    room
}

/// Returns the bytes after the mark. Fails at the first byte that differs from the mark (`OtherFormat`), or if the bytes end before that
/// (`TooShort`).
pub(crate) fn behind_mark(bytes: &[u8]) -> Result<&[u8], BytesFault>
    ensures value { MatchResult result (λ behind. behind_mark 0 mark bytes.now ≡ Ok behind.now) (λ fault. behind_mark 0 mark bytes.now ≡ Err fault) }
    ensures len { IfOk result (λ behind. length behind.now ≤ length bytes.now) }
{
    let mut rest = bytes;
    for at in 0..MARK.len() {
        let Some((byte, behind)) = rest.split_first() else {
            return Err(BytesFault::TooShort(at));
        };
        if *byte != MARK[at] {
            return Err(BytesFault::OtherFormat(at));
        }
        rest = behind;
    }
    Ok(rest)
}

/// Returns `count` parts, and the bytes after them. `all` is the number of bytes of the piece. Fails if the bytes end too soon
/// (`TooShort`), or if memory runs out.
pub(crate) fn split_parts(
    alloc: Global,
    all: usize,
    count: u32,
    from: &[u8],
) -> Result<(Vec<SpanPart>, &[u8]), BytesFault>
    ensures value { MatchResult result (λ found. parts_from all count from.now ≡ Ok (found.0.items, found.1.now))
        (λ fault. (fault ≡ Memory) ⊎ (parts_from all count from.now ≡ Err fault)) }
    ensures len { IfOk result (λ found. length found.1.now ≤ length from.now) }
{
    let mut parts = Vec::new(alloc);
    let mut rest = from;
    for _ in 0..count {
        let Some((part, behind)) = split_part(rest) else {
            return Err(BytesFault::TooShort(all));
        };
        parts.push(part)?;
        rest = behind;
    }
    Ok((parts, rest))
}

// Returns a symbol, and the bytes after it. Fails if the bytes end too soon (`TooShort`), if its text is not UTF-8 (`NoText`), or if
// memory runs out.
fn split_symbol(alloc: Global, all: usize, from: &[u8]) -> Result<(Symbol, &[u8]), BytesFault>
    requires { length from.now ≤ all }
    ensures value { MatchResult result (λ found. text_from all from.now ≡ Ok (found.0, found.1.now))
        (λ fault. (fault ≡ Memory) ⊎ (text_from all from.now ≡ Err fault)) }
    ensures len { IfOk result (λ found. length found.1.now ≤ length from.now) }
{
    let Some((count, rest)) = split_number(from) else {
        return Err(BytesFault::TooShort(all));
    };
    let Some((bytes, behind)) = rest.split_at_checked(count as usize) else {
        return Err(BytesFault::TooShort(all));
    };
    match str::from_utf8(bytes) {
        Ok(text) => match Symbol::new(alloc, text) {
            Ok(symbol) => Ok((symbol, behind)),
            Err(_) => Err(BytesFault::Memory),
        },
        Err(error) => Err(BytesFault::NoText(all - rest.len() + error.valid_up_to())),
    }
}

/// Returns `count` symbols, and the bytes after them. `all` is the number of bytes of the piece. Fails at the first symbol that is too
/// short (`TooShort`) or not UTF-8 (`NoText`), or if memory runs out.
pub(crate) fn split_symbols(
    alloc: Global,
    all: usize,
    count: u32,
    from: &[u8],
) -> Result<(Vec<Symbol>, &[u8]), BytesFault>
    requires { length from.now ≤ all }
    ensures value { MatchResult result (λ found. texts_from all count from.now ≡ Ok (found.0.items, found.1.now))
        (λ fault. (fault ≡ Memory) ⊎ (texts_from all count from.now ≡ Err fault)) }
    ensures len { IfOk result (λ found. length found.1.now ≤ length from.now) }
{
    let mut symbols = Vec::with_capacity(alloc, first_room(count, from.len()))?;
    let mut rest = from;
    for _ in 0..count {
        let (symbol, behind) = split_symbol(alloc, all, rest)?;
        symbols.push(symbol)?;
        rest = behind;
    }
    Ok((symbols, rest))
}
