//! The numbers of kinds, and back (docs/FORMATS.md).
ghost use Rattle.std.specs.Prelude.{◌≡◌, ◌<◌, ◌≤◌, IfSome};
ghost use Rattle.tt_codec.specs.Kinds.{delimiter_number, delimiter_kind_from, spacing_number, spacing_from, raw_number, raw_from, kind_number, hash_count, plain_kind_from, raw_kind_from, short_number, short_kind_from};

use tt_base::{DelimiterKind, IdentIsRaw, LitKind, Spacing};

/// Returns the number of a kind of delimiter.
pub(crate) fn delimiter_number(kind: DelimiterKind) -> u8
    ensures value { result ≡ delimiter_number kind }
    ensures bound { result < 5 }
{
    kind as u8
}

/// Returns the kind of delimiter with that number.
pub(crate) fn delimiter_kind_from(number: u8) -> Option<DelimiterKind>
    ensures { result ≡ delimiter_kind_from number }
{
    match number {
        0 => Some(DelimiterKind::Parenthesis),
        1 => Some(DelimiterKind::Brace),
        2 => Some(DelimiterKind::Bracket),
        3 => Some(DelimiterKind::Invisible),
        4 => Some(DelimiterKind::InvisibleOpaque),
        _ => None,
    }
}

/// Returns the number of a spacing.
pub(crate) fn spacing_number(spacing: Spacing) -> u8
    ensures value { result ≡ spacing_number spacing }
    ensures bound { result < 3 }
{
    spacing as u8
}

/// Returns the spacing with that number.
pub(crate) fn spacing_from(number: u8) -> Option<Spacing>
    ensures { result ≡ spacing_from number }
{
    match number {
        0 => Some(Spacing::Alone),
        1 => Some(Spacing::Joint),
        2 => Some(Spacing::JointHidden),
        _ => None,
    }
}

/// Returns 1 for a raw ident, otherwise 0.
pub(crate) fn raw_number(is_raw: IdentIsRaw) -> u32
    ensures value { result ≡ raw_number is_raw }
    ensures bound { result < 2 }
{
    is_raw as u32
}

/// Returns raw for 1, otherwise not raw.
pub(crate) fn raw_from(number: u32) -> IdentIsRaw
    ensures { result ≡ raw_from number }
{
    match number {
        0 => IdentIsRaw::No,
        _ => IdentIsRaw::Yes,
    }
}

/// Returns the number of a kind of literal.
pub fn kind_number(kind: LitKind) -> u8
    ensures value { result ≡ kind_number kind }
    ensures bound { result ≤ 10 }
{
    match kind {
        LitKind::Byte => 0,
        LitKind::Char => 1,
        LitKind::Integer => 2,
        LitKind::Float => 3,
        LitKind::Str => 4,
        LitKind::StrRaw(_) => 5,
        LitKind::ByteStr => 6,
        LitKind::ByteStrRaw(_) => 7,
        LitKind::CStr => 8,
        LitKind::CStrRaw(_) => 9,
        LitKind::Err(()) => 10,
    }
}

/// Returns the number of hashes of a raw kind, or `None` for another kind.
pub(crate) fn hash_count(kind: LitKind) -> Option<u8>
    ensures { result ≡ hash_count kind }
{
    match kind {
        LitKind::StrRaw(count) | LitKind::ByteStrRaw(count) | LitKind::CStrRaw(count) => {
            Some(count)
        }
        _ => None,
    }
}

/// Returns the kind of literal with that number, if it is not a raw one.
pub(crate) fn plain_kind_from(number: u8) -> Option<LitKind>
    ensures { result ≡ plain_kind_from number }
{
    match number {
        0 => Some(LitKind::Byte),
        1 => Some(LitKind::Char),
        2 => Some(LitKind::Integer),
        3 => Some(LitKind::Float),
        4 => Some(LitKind::Str),
        6 => Some(LitKind::ByteStr),
        8 => Some(LitKind::CStr),
        10 => Some(LitKind::Err(())),
        _ => None,
    }
}

/// Returns the raw kind with that number, and with `count` hashes.
pub(crate) fn raw_kind_from(number: u8, count: u8) -> Option<LitKind>
    ensures { result ≡ raw_kind_from number count }
{
    match number {
        5 => Some(LitKind::StrRaw(count)),
        7 => Some(LitKind::ByteStrRaw(count)),
        9 => Some(LitKind::CStrRaw(count)),
        _ => None,
    }
}

/// Returns the number of a kind of literal in the short form. Only four kinds have one.
pub(crate) fn short_number(kind: LitKind) -> Option<u8>
    ensures value { result ≡ short_number kind }
    ensures bound { IfSome result (λ number. number ≤ 12) }
{
    match kind {
        LitKind::Str => Some(3),
        LitKind::StrRaw(0) => Some(4),
        LitKind::StrRaw(1) => Some(11),
        LitKind::Integer => Some(12),
        _ => None,
    }
}

/// Returns the kind of literal with that number in the short form.
pub(crate) fn short_kind_from(number: u8) -> Option<LitKind>
    ensures { result ≡ short_kind_from number }
{
    match number {
        3 => Some(LitKind::Str),
        4 => Some(LitKind::StrRaw(0)),
        11 => Some(LitKind::StrRaw(1)),
        12 => Some(LitKind::Integer),
        _ => None,
    }
}
