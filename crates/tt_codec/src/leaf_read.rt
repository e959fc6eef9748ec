//! Reads leaves (docs/FORMATS.md, "Bytes of a leaf").
ghost use Rattle.std.specs.Prelude.{◌≡◌};
ghost use Rattle.tt_codec.specs.Read.{IsRead};
ghost use Rattle.tt_codec.specs.Leaf.{kind_at, char_at, ascii_spacing};

use crate::kinds::{plain_kind_from, raw_kind_from};
use crate::words::{split_byte, split_word};
use tt_base::{LitKind, Spacing};

/// Returns the kind with that number, and the bytes after it. The number of hashes of a raw kind is the next byte.
pub(crate) fn read_kind(number: u8, from: &[u8]) -> Option<(LitKind, &[u8])>
    ensures { IsRead (kind_at number from.now) result }
{
    if let Some(kind) = plain_kind_from(number) {
        return Some((kind, from));
    }
    let (count, rest) = split_byte(from)?;
    let kind = raw_kind_from(number, count)?;
    Some((kind, rest))
}

/// Returns the character of the next four bytes, and the bytes after it.
pub(crate) fn read_char(from: &[u8]) -> Option<(char, &[u8])>
    ensures { IsRead (char_at from.now) result }
{
    let (code, rest) = split_word(from)?;
    let char = char::from_u32(code)?;
    Some((char, rest))
}

/// Returns the spacing of an ASCII punct: joint hidden if `hidden` is 1, otherwise alone or joint by the lowest bit of the byte.
#[inline(always)]
pub(crate) fn ascii_spacing(hidden: u32, byte: u8) -> Spacing
    ensures { result ≡ ascii_spacing hidden byte }
{
    if hidden == 1 {
        Spacing::JointHidden
    } else if byte & 1 == 0 {
        Spacing::Alone
    } else {
        Spacing::Joint
    }
}
