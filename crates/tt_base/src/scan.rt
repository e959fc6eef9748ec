//! Literals of a text in which a lexer has found the parts.
ghost use Rattle.std.specs.Prelude.{◌≡◌, ◌-◌, ◌≤◌, ◌++◌, length, drop, slice_range, IfOk, IfErr, MatchOption};
ghost use Rattle.tt_base.specs.Literal.{IsLiteral};
ghost use Rattle.tt_base.specs.Scan.{FitsText, IsScanFault, ScanFits, closing_len, is_number, kind_told, opening_len, parts_told, suffix_told};

use crate::fault::TtFault;
use crate::literal::{LitKind, Literal};
use crate::span::Span;
use std::alloc::Global;

/// What a lexer found in the text of a literal: its kind, whether it has a closing quote, and for a raw one the number of hashes, or
/// `None` if there is no valid number.
#[derive(Debug, Clone, Copy, PartialEq, Eq)]
pub enum LiteralScan {
    Int,
    Float,
    Char { terminated: bool },
    Byte { terminated: bool },
    Str { terminated: bool },
    ByteStr { terminated: bool },
    CStr { terminated: bool },
    RawStr { n_hashes: Option<u8> },
    RawByteStr { n_hashes: Option<u8> },
    RawCStr { n_hashes: Option<u8> },
}

impl LiteralScan {
    // Returns the kind of literal. If there is no number of hashes, it has 0.
    fn kind(self) -> LitKind
        ensures { result ≡ kind_told self }
    {
        match self {
            LiteralScan::Int => LitKind::Integer,
            LiteralScan::Float => LitKind::Float,
            LiteralScan::Char { .. } => LitKind::Char,
            LiteralScan::Byte { .. } => LitKind::Byte,
            LiteralScan::Str { .. } => LitKind::Str,
            LiteralScan::ByteStr { .. } => LitKind::ByteStr,
            LiteralScan::CStr { .. } => LitKind::CStr,
            LiteralScan::RawStr { n_hashes } => LitKind::StrRaw(n_hashes.unwrap_or(0)),
            LiteralScan::RawByteStr { n_hashes } => LitKind::ByteStrRaw(n_hashes.unwrap_or(0)),
            LiteralScan::RawCStr { n_hashes } => LitKind::CStrRaw(n_hashes.unwrap_or(0)),
        }
    }

    // Returns the number of bytes before the value.
    fn opening_len(self) -> usize
        ensures { result ≡ opening_len self }
    {
        match self {
            LiteralScan::Int | LiteralScan::Float => 0,
            LiteralScan::Char { .. } | LiteralScan::Str { .. } => 1,
            LiteralScan::Byte { .. } | LiteralScan::ByteStr { .. } | LiteralScan::CStr { .. } => 2,
            LiteralScan::RawStr { n_hashes } => 2 + n_hashes.unwrap_or(0) as usize,
            LiteralScan::RawByteStr { n_hashes } | LiteralScan::RawCStr { n_hashes } => {
                3 + n_hashes.unwrap_or(0) as usize
            }
        }
    }

    // Returns the number of bytes after the value and before the suffix.
    fn closing_len(self) -> usize
        ensures { result ≡ closing_len self }
    {
        match self {
            LiteralScan::Int | LiteralScan::Float => 0,
            LiteralScan::Char { terminated }
            | LiteralScan::Byte { terminated }
            | LiteralScan::Str { terminated }
            | LiteralScan::ByteStr { terminated }
            | LiteralScan::CStr { terminated } => terminated as usize,
            LiteralScan::RawStr { n_hashes }
            | LiteralScan::RawByteStr { n_hashes }
            | LiteralScan::RawCStr { n_hashes } => 1 + n_hashes.unwrap_or(0) as usize,
        }
    }
}

// Returns whether a literal of the kind may have a suffix.
fn is_number(kind: LitKind) -> bool
    ensures { result ≡ is_number kind }
{
    matches!(kind, LitKind::Integer | LitKind::Float)
}

// Returns the value, and all that follows the literal, or `None` if the scan does not fit the text.
fn cut(text: &str, scan: LiteralScan, place: usize) -> Option<(&str, &str)>
    ensures { MatchOption result (FitsText text.now scan place → ⊥) (λ parts. FitsText text.now scan place
        × (parts.0.now ≡ slice_range text.now (opening_len scan) (place - closing_len scan))
        × (parts.1.now ≡ drop place text.now)) }
{
    let (_, behind) = text.split_at_checked(place)?;
    let start = scan.opening_len();
    let end = place.checked_sub(scan.closing_len())?;
    if end < start {
        return None;
    }
    if !text.is_char_boundary(start) {
        return None;
    }
    if !text.is_char_boundary(end) {
        return None;
    }
    Some((&text[start..end], behind))
}

// Returns the suffix of a literal that this text follows: the text, or nothing if it is `_`.
fn counted_suffix(behind: &str) -> &str
    ensures { result.now ≡ suffix_told behind.now }
{
    if behind == "_" { "" } else { behind }
}

/// Returns the literal of a text by a scan. The number beside the scan is the byte at which the suffix begins. If there is no scan, or a
/// literal that is no number has a suffix, the whole text is a literal of kind `Err`. Fails if the scan does not fit the text
/// (`BadScan`), then if the suffix has more than 255 bytes (`SuffixTooLong`), otherwise only if memory runs out.
pub fn token_to_literal(
    alloc: Global,
    text: &str,
    span: Span,
    scan: Option<(LiteralScan, u32)>,
) -> Result<Literal, TtFault>
    ensures ok { IfOk result (λ literal. let parts = parts_told text.now scan in
        IsLiteral literal (parts.value ++ parts.suffix) span parts.kind (length parts.suffix)) }
    ensures fits { IfOk result (λ _. ScanFits text.now scan × (length (parts_told text.now scan).suffix ≤ 255)) }
    ensures err { IfErr result (IsScanFault text.now scan) }
{
    let Some((scan, place)) = scan else {
        return Literal::new_no_suffix(alloc, text, span, LitKind::Err(()));
    };
    let Some((value, behind)) = cut(text, scan, place as usize) else {
        return Err(TtFault::BadScan);
    };
    let kind = scan.kind();
    let suffix = counted_suffix(behind);
    if is_number(kind) || suffix.is_empty() {
        return Literal::new(alloc, value, span, kind, suffix);
    }
    Literal::new_no_suffix(alloc, text, span, LitKind::Err(()))
}
