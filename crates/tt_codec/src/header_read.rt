//! Reads headers below the top in each of their four formats (docs/FORMATS.md, "Bytes of a header").
ghost use Rattle.std.specs.Prelude.{◌≡◌, ◌<◌, ◌^◌};
ghost use Rattle.tt_codec.specs.Header.{IsHeaderRead, start_behind, format_1_at, format_2_at, format_3_at, format_4_at};

use crate::entry::HeaderEntry;
use crate::form::{HIGH_BITS, KIND_BITS, KIND_MASK, LOW_DISTANCE_BITS, PART_BITS, PART_MASK};
use crate::kinds::delimiter_kind_from;
use crate::span::{SpanNumbers, Spanned};
use crate::words::{split_byte, split_half, split_word};

// Returns the offset that is `distance` after a start, if four bytes can hold it.
#[tactic(auto, unfolding(crate::specs::Header::start_behind))]
fn start_behind(start: u32, distance: u64) -> Option<u32>
    requires { distance < 2 ^ 63 }
    ensures { result ≡ start_behind start distance }
{
    u32::try_from(start as u64 + distance).ok()
}

/// Reads a header of the first format, after its span and one byte are read. `high` has the high bits of that byte.
#[inline(always)]
pub(crate) fn read_format_1(
    opening: SpanNumbers,
    high: u8,
    from: &[u8],
) -> Option<(HeaderEntry, &[u8])>
    ensures { IsHeaderRead (format_1_at high opening from.now) result }
{
    let kind = delimiter_kind_from(high & KIND_MASK)?;
    let high_distance = ((high >> KIND_BITS) as u64) << LOW_DISTANCE_BITS;
    let start = start_behind(opening.start, opening.length as u64 + high_distance)?;
    let (len, rest) = split_byte(from)?;
    let (child_bytes, rest) = split_byte(rest)?;
    let header = HeaderEntry {
        opening: SpanNumbers {
            length: 1,
            ..opening
        },
        closing: SpanNumbers {
            start,
            length: 1,
            ..opening
        },
        kind,
        len: len as u32,
        child_bytes: child_bytes as u32,
    };
    Some((header, rest))
}

/// The same for the second format.
#[inline(always)]
pub(crate) fn read_format_2(
    opening: SpanNumbers,
    high: u8,
    from: &[u8],
) -> Option<(HeaderEntry, &[u8])>
    ensures { IsHeaderRead (format_2_at high opening from.now) result }
{
    let kind = delimiter_kind_from(high & KIND_MASK)?;
    let start = start_behind(opening.start, (high >> KIND_BITS) as u64)?;
    let (len, rest) = split_byte(from)?;
    let (child_bytes, rest) = split_byte(rest)?;
    let header = HeaderEntry {
        opening,
        closing: SpanNumbers { start, ..opening },
        kind,
        len: len as u32,
        child_bytes: child_bytes as u32,
    };
    Some((header, rest))
}

/// The same for the third format.
#[inline(always)]
pub(crate) fn read_format_3(
    opening: SpanNumbers,
    high: u8,
    from: &[u8],
) -> Option<(HeaderEntry, &[u8])>
    ensures { IsHeaderRead (format_3_at high opening from.now) result }
{
    let kind = delimiter_kind_from(high & KIND_MASK)?;
    let (distance, rest) = split_byte(from)?;
    let start = start_behind(opening.start, distance as u64)?;
    let (len, rest) = split_byte(rest)?;
    let (half, rest) = split_half(rest)?;
    let header = HeaderEntry {
        opening,
        closing: SpanNumbers {
            part: (high >> KIND_BITS) as u32 + (((half & PART_MASK) as u32) << HIGH_BITS),
            start,
            length: opening.length,
        },
        kind,
        len: len as u32,
        child_bytes: (half >> PART_BITS) as u32,
    };
    Some((header, rest))
}

/// The same for the fourth format.
#[inline(always)]
pub(crate) fn read_format_4(
    opening: SpanNumbers,
    high: u8,
    from: &[u8],
) -> Option<(HeaderEntry, &[u8])>
    ensures { IsHeaderRead (format_4_at high opening from.now) result }
{
    let kind = delimiter_kind_from(high)?;
    let (closing, rest) = Spanned::read(from)?;
    let (len, rest) = split_word(rest)?;
    let (child_bytes, rest) = split_word(rest)?;
    let header = HeaderEntry {
        opening,
        closing: closing.numbers,
        kind,
        len,
        child_bytes,
    };
    Some((header, rest))
}
