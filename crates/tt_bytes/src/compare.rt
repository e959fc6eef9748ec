//! Compares bytes with those of a tree, and finds the first byte at which two lists of bytes differ.
ghost use Rattle.std.specs.List.{AllByRecursion};
ghost use Rattle.std.specs.Prelude.{◌≡◌, ◌↔◌, ◌<◌, ◌^◌, length, IsTrue};
ghost use Rattle.tt_bytes.specs.Behind.{IsBehind, CountsFit, counts_bytes, front_bytes, StoredFits};
ghost use Rattle.tt_bytes.specs.Faults.{common_length};
ghost use Rattle.tt_bytes.specs.Format.{number_bytes, part_bytes, parts_bytes, symbol_bytes, symbols_bytes, PartFits, TextFits, AreBytesOf};
ghost use Rattle.tt_tables.specs.Stored.{packed};

use crate::write::MARK;
use tt::{SpanPart, Symbol, TopSubtree};

// Returns the bytes after those of a number, if they begin with these.
fn behind_number(number: u32, from: &[u8]) -> Option<&[u8]>
    ensures { IsBehind (number < 2 ^ 32) (number_bytes number) from.now result }
{
    from.strip_prefix(&number.to_le_bytes())
}

// Returns the bytes after those of a count, if it is below 2^32 and they begin with these.
fn behind_count(count: usize, from: &[u8]) -> Option<&[u8]>
    ensures { IsBehind (count < 2 ^ 32) (number_bytes count) from.now result }
{
    let Ok(number) = u32::try_from(count) else {
        return None;
    };
    behind_number(number, from)
}

// Returns the bytes after those of a part, if they begin with these.
fn behind_part<'a>(part: &SpanPart, from: &'a [u8]) -> Option<&'a [u8]>
    ensures { IsBehind (PartFits part.now) (part_bytes part.now) from.now result }
{
    let rest = behind_number(part.anchor.file_id.0, from)?;
    let rest = behind_number(part.anchor.ast_id.0, rest)?;
    behind_number(part.ctx.0, rest)
}

// Returns the bytes after those of the parts, if they begin with these.
fn behind_parts<'a>(parts: &[SpanPart], from: &'a [u8]) -> Option<&'a [u8]>
    ensures { IsBehind (AllByRecursion PartFits parts.now) (parts_bytes parts.now) from.now result }
{
    let mut rest = from;
    for part in parts {
        rest = behind_part(part, rest)?;
    }
    Some(rest)
}

// Returns the bytes after those of a symbol, if they begin with these.
fn behind_symbol<'a>(symbol: &Symbol, from: &'a [u8]) -> Option<&'a [u8]>
    ensures { IsBehind (TextFits symbol.now) (symbol_bytes symbol.now) from.now result }
{
    let text = symbol.as_str().as_bytes();
    let rest = behind_count(text.len(), from)?;
    rest.strip_prefix(text)
}

// Returns the bytes after those of the symbols, if they begin with these.
fn behind_symbols<'a>(symbols: &[Symbol], from: &'a [u8]) -> Option<&'a [u8]>
    ensures { IsBehind (AllByRecursion TextFits symbols.now) (symbols_bytes symbols.now) from.now result }
{
    let mut rest = from;
    for symbol in symbols {
        rest = behind_symbol(symbol, rest)?;
    }
    Some(rest)
}

// Returns the bytes after those of three counts, if they begin with these.
fn behind_counts(parts: usize, symbols: usize, bytes: usize, from: &[u8]) -> Option<&[u8]>
    ensures { IsBehind (CountsFit parts symbols bytes) (counts_bytes parts symbols bytes) from.now result }
{
    let rest = behind_count(parts, from)?;
    let rest = behind_count(symbols, rest)?;
    behind_count(bytes, rest)
}

// Returns the bytes after those that a piece of the tree has before its packed bytes, if they begin with these.
fn behind_front<'a>(tree: &TopSubtree, from: &'a [u8]) -> Option<&'a [u8]>
    ensures { IsBehind (StoredFits (packed tree.now)) (front_bytes (packed tree.now)) from.now result }
{
    let parts = tree.span_part_table();
    let symbols = tree.symbol_table();
    let packed = tree.packed_bytes();
    let rest = from.strip_prefix(MARK.as_slice())?;
    let rest = behind_counts(parts.len(), symbols.len(), packed.len(), rest)?;
    let rest = behind_parts(parts, rest)?;
    behind_symbols(symbols, rest)
}

/// Returns whether these are the bytes of the tree.
pub(crate) fn are_bytes_of(tree: &TopSubtree, bytes: &[u8]) -> bool
    ensures { IsTrue result ↔ AreBytesOf tree.now bytes.now }
{
    match behind_front(tree, bytes) {
        Some(rest) => rest == tree.packed_bytes(),
        None => false,
    }
}

/// Returns how many first bytes the two lists have in common.
pub(crate) fn common_length(one: &[u8], other: &[u8]) -> usize
    ensures { result ≡ common_length one.now other.now }
{
    let mut at = 0;
    while at < one.len() && at < other.len() {
        if one[at] != other[at] {
            return at;
        }
        at += 1;
    }
    at
}
