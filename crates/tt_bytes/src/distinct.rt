//! Whether the values of a list are all different.
ghost use Rattle.std.specs.List.{IsDistinct, list_any};
ghost use Rattle.std.specs.Prelude.{◌≡◌, ◌==◌, ◌↔◌, bytes_eq, map, IsTrue, IfOk};
ghost use Rattle.tt_bytes.specs.Digest.{digest_of, short_digest};

use indexmap::IndexSet;
use std::alloc::{AllocError, Global};
use std::hash::Hash;
use tt::Symbol;

// The largest number of values that are compared with each other; for more, a set is made.
const FEW_VALUES: usize = 8;

// Returns whether a value is among others. Looks at all of them, so that the machine can compare several at a time.
fn is_among<T: Eq>(value: &T, others: &[T]) -> bool
    ensures { result ≡ list_any (λ other. T.eq other value.now) others.now }
{
    let mut found = false;
    for other in others {
        found |= *other == *value;
    }
    found
}

// Returns whether few values are all different. Compares each value with all after it.
fn few_differ<T: Eq>(values: &[T]) -> bool
    requires { (x y : T) → T.eq x y ≡ T.eq y x }
    ensures { IsTrue result ↔ IsDistinct T.eq values.now }
{
    let mut left = values;
    while let Some((first, rest)) = left.split_first() {
        if is_among(first, rest) {
            return false;
        }
        left = rest;
    }
    true
}

// Returns whether many values are all different. Adds each value to a set.
fn many_differ<T: Eq + Hash + Clone + Drop>(alloc: Global, values: &[T]) -> Result<bool, AllocError>
    requires { (x y : T) → T.is_clone x y → y ≡ x }
    ensures { IfOk result (λ differ. IsTrue differ → IsDistinct T.eq values.now) }
{
    let mut seen = IndexSet::with_capacity(alloc, values.len())?;
    for value in values {
        if !seen.insert(value.clone()?)? {
            return Ok(false);
        }
    }
    Ok(true)
}

/// Returns whether the values are all different. Fails only if memory runs out.
pub(crate) fn all_differ<T: Eq + Hash + Clone + Drop>(
    alloc: Global,
    values: &[T],
) -> Result<bool, AllocError>
    requires symmetric { (x y : T) → T.eq x y ≡ T.eq y x }
    requires copies { (x y : T) → T.is_clone x y → y ≡ x }
    ensures { IfOk result (λ differ. IsTrue differ → IsDistinct T.eq values.now) }
{
    if values.len() <= FEW_VALUES {
        return Ok(few_differ(values));
    }
    many_differ(alloc, values)
}

// The largest number of symbols whose digests are compared with each other; for more, a set is made.
const SOME_SYMBOLS: usize = 96;

// Returns the digest of a short text. Equal texts have the same digest.
fn short_digest(text: &[u8]) -> u64
    ensures { result ≡ short_digest text.now }
{
    let mut digest: u64 = 0;
    for byte in text {
        digest = digest.wrapping_mul(31).wrapping_add(u64::from(*byte));
    }
    digest
}

// Returns the digest of a text. Equal texts have the same digest, and most different texts have different ones.
fn digest(text: &[u8]) -> u64
    ensures { result ≡ digest_of text.now }
{
    let Some(first) = text.first_chunk::<8>() else {
        return short_digest(text);
    };
    let Some(last) = text.last_chunk::<8>() else {
        return short_digest(text);
    };
    u64::from_le_bytes(*first)
        .wrapping_mul(31)
        .wrapping_add(u64::from_le_bytes(*last))
}

// Returns the digests of the symbols.
fn digests(alloc: Global, symbols: &[Symbol]) -> Result<Vec<u64>, AllocError>
    ensures { IfOk result (λ digests. digests.items ≡ map digest_of symbols.now) }
{
    let mut digests = Vec::with_capacity(alloc, symbols.len())?;
    for symbol in symbols {
        digests.push(digest(symbol.as_str().as_bytes()))?;
    }
    Ok(digests)
}

// Returns whether the digests of some symbols are all different.
fn digests_differ(alloc: Global, symbols: &[Symbol]) -> Result<bool, AllocError>
    ensures { IfOk result (λ differ. IsTrue differ ↔ IsDistinct ◌==◌ (map digest_of symbols.now)) }
{
    let digests = digests(alloc, symbols)?;
    Ok(few_differ(&digests))
}

/// Returns whether the symbols are all different. Fails only if memory runs out.
pub(crate) fn symbols_differ(alloc: Global, symbols: &[Symbol]) -> Result<bool, AllocError>
    ensures { IfOk result (λ differ. IsTrue differ → IsDistinct bytes_eq symbols.now) }
{
    if symbols.len() <= FEW_VALUES {
        return Ok(few_differ(symbols));
    }
    if symbols.len() <= SOME_SYMBOLS && digests_differ(alloc, symbols)? {
        return Ok(true);
    }
    many_differ(alloc, symbols)
}
