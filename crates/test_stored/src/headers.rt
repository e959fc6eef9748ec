//! Headers in each format, and at its limits.
ghost use Rattle.std.specs.Prelude.{◌<◌, ◌^◌};
ghost use Rattle.tt_codec.specs.Header.{HeaderFits};

use crate::holds::holds;
use crate::written::{MOST_TOKEN_BYTES, is_read, is_written};
use std::alloc::Global;
use std::test::Fail;
use tt_back_buf::BackBuf;
use tt_base::{DelimiterKind, TtFault};
use tt_codec::{Entry, HeaderEntry, SpanNumbers};

// The part, the start and the length of a span.
type Extent = (u8, u32, u32);

// The span of these numbers.
fn numbers(extent: Extent) -> SpanNumbers
    ensures { result.part < 2 ^ 28 }
{
    SpanNumbers {
        part: extent.0 as u32,
        start: extent.1,
        length: extent.2,
    }
}

// A header that opens and closes there, and holds so many tokens in so many bytes.
fn header(
    kind: DelimiterKind,
    opening: Extent,
    closing: Extent,
    children: (u32, u32),
) -> HeaderEntry
    ensures { HeaderFits result }
{
    HeaderEntry {
        opening: numbers(opening),
        closing: numbers(closing),
        kind,
        len: children.0,
        child_bytes: children.1,
    }
}

// Where parentheses open and close, how many tokens they hold in how many bytes, and the bytes of their header.
type Parentheses<'a> = (Extent, Extent, (u32, u32), &'a [u8]);

const PARENTHESES: [Parentheses<'_>; 29] = [
    // both delimiters have one length
    (
        (0, 0, 1),
        (0, 1, 1),
        (0, 0),
        b"\x40\x00\x00\x00\x00\x00\x00",
    ),
    (
        (0, 0, 1),
        (0, 255, 1),
        (0, 0),
        b"\xc0\x3f\x00\x00\x00\x00\x00",
    ),
    (
        (0, 0, 1),
        (0, 256, 1),
        (0, 0),
        b"\x00\x00\x00\x00\x20\x00\x00",
    ),
    (
        (0, 0, 1),
        (0, 300, 1),
        (0, 0),
        b"\x00\x0b\x00\x00\x20\x00\x00",
    ),
    (
        (0, 0, 1),
        (0, 2047, 1),
        (0, 0),
        b"\xc0\x3f\x00\x00\xe0\x00\x00",
    ),
    (
        (0, 0, 1),
        (0, 2048, 1),
        (0, 0),
        b"\x40\x00\x00\x00\x05\x40\x00\x00\x04\x00\x00\x00\x00\x00\x00\x00\x00",
    ),
    (
        (0, 0, 2),
        (0, 7, 2),
        (0, 0),
        b"\x80\x00\x00\x00\xe1\x00\x00",
    ),
    (
        (0, 0, 2),
        (0, 8, 2),
        (0, 0),
        b"\x80\x00\x00\x00\x02\x08\x00\x00\x00",
    ),
    (
        (0, 0, 2),
        (0, 255, 2),
        (0, 0),
        b"\x80\x00\x00\x00\x02\xff\x00\x00\x00",
    ),
    (
        (0, 0, 2),
        (0, 256, 2),
        (0, 0),
        b"\x80\x00\x00\x00\x05\x80\x00\x80\x00\x00\x00\x00\x00\x00\x00\x00\x00",
    ),
    // two lengths, a close before the open, and other parts
    (
        (0, 0, 1),
        (0, 1, 2),
        (0, 0),
        b"\x40\x00\x00\x00\x05\x80\x80\x00\x00\x00\x00\x00\x00\x00\x00\x00\x00",
    ),
    (
        (0, 5, 1),
        (0, 0, 1),
        (0, 0),
        b"\x40\x80\x02\x00\x05\x40\x00\x00\x00\x00\x00\x00\x00\x00\x00\x00\x00",
    ),
    (
        (0, 10, 1),
        (1, 20, 1),
        (0, 0),
        b"\x40\x00\x05\x00\x22\x0a\x00\x00\x00",
    ),
    (
        (0, 0, 1),
        (127, 1, 1),
        (0, 0),
        b"\x40\x00\x00\x00\xe2\x01\x00\x0f\x00",
    ),
    (
        (0, 0, 1),
        (128, 1, 1),
        (0, 0),
        b"\x40\x00\x00\x00\x05\x40\xc0\x00\x00\x10\x00\x00\x00\x00\x00\x00\x00\x00\x00\x00\x00",
    ),
    (
        (200, 0, 1),
        (200, 1, 1),
        (0, 0),
        b"\x60\x40\x00\x00\x18\x00\x00\x00\x00\x00\x00",
    ),
    // tokens in three formats and past them
    (
        (0, 0, 1),
        (0, 1, 1),
        (51, 255),
        b"\x40\x00\x00\x00\x00\x33\xff",
    ),
    (
        (0, 0, 1),
        (0, 1, 1),
        (52, 260),
        b"\x40\x00\x00\x00\x02\x01\x34\x40\x10",
    ),
    (
        (0, 0, 1),
        (0, 1, 1),
        (0, 256),
        b"\x40\x00\x00\x00\x02\x01\x00\x00\x10",
    ),
    (
        (0, 0, 1),
        (0, 1, 1),
        (255, 0),
        b"\x40\x00\x00\x00\x00\xff\x00",
    ),
    (
        (0, 0, 1),
        (0, 1, 1),
        (256, 0),
        b"\x40\x00\x00\x00\x05\x40\x80\x00\x00\x00\x01\x00\x00\x00\x00\x00\x00",
    ),
    (
        (0, 0, 2),
        (0, 7, 2),
        (255, 0),
        b"\x80\x00\x00\x00\xe1\xff\x00",
    ),
    (
        (0, 0, 2),
        (0, 7, 2),
        (256, 0),
        b"\x80\x00\x00\x00\x05\x80\x80\x03\x00\x00\x01\x00\x00\x00\x00\x00\x00",
    ),
    (
        (0, 0, 2),
        (0, 7, 2),
        (0, 255),
        b"\x80\x00\x00\x00\xe1\x00\xff",
    ),
    (
        (0, 0, 2),
        (0, 7, 2),
        (0, 256),
        b"\x80\x00\x00\x00\x02\x07\x00\x00\x10",
    ),
    (
        (0, 0, 2),
        (0, 8, 2),
        (255, 0),
        b"\x80\x00\x00\x00\x02\x08\xff\x00\x00",
    ),
    (
        (0, 0, 2),
        (0, 8, 2),
        (256, 0),
        b"\x80\x00\x00\x00\x05\x80\x00\x04\x00\x00\x01\x00\x00\x00\x00\x00\x00",
    ),
    (
        (0, 0, 2),
        (0, 8, 2),
        (0, 4095),
        b"\x80\x00\x00\x00\x02\x08\x00\xf0\xff",
    ),
    (
        (0, 0, 2),
        (0, 8, 2),
        (0, 4096),
        b"\x80\x00\x00\x00\x05\x80\x00\x04\x00\x00\x00\x00\x00\x00\x10\x00\x00",
    ),
];

// The same of other kinds. The last two have all numbers but the opening at the limit of their format, which is the third and the
// fourth.
const KINDS: [(DelimiterKind, Parentheses<'_>); 6] = [
    (
        DelimiterKind::Brace,
        (
            (0, 5, 4),
            (0, 5, 4),
            (1, 5),
            b"\x00\x81\x02\x00\x09\x01\x05",
        ),
    ),
    (
        DelimiterKind::Bracket,
        (
            (0, 0, 1),
            (0, 1, 1),
            (0, 0),
            b"\x40\x00\x00\x00\x10\x00\x00",
        ),
    ),
    (
        DelimiterKind::Invisible,
        (
            (0, 0, 1),
            (0, 2047, 1),
            (0, 0),
            b"\xc0\x3f\x00\x00\xf8\x00\x00",
        ),
    ),
    (
        DelimiterKind::InvisibleOpaque,
        (
            (0, 0, 1),
            (0, 1, 1),
            (0, 0),
            b"\x40\x00\x00\x00\x25\x40\x80\x00\x00\x00\x00\x00\x00\x00\x00\x00\x00",
        ),
    ),
    (
        DelimiterKind::Invisible,
        (
            (3, 1, 5),
            (127, 256, 5),
            (255, 4095),
            b"\x4c\x81\x00\x00\xfa\xff\xff\xff\xff",
        ),
    ),
    (
        DelimiterKind::Invisible,
        (
            (0, 0, 1),
            (0, 4294967295, 0),
            (4294967295, 4294967295),
            b"\x40\x00\x00\x00\x1d\x00\xc0\xff\xff\x01\x00\xfe\xff\x00\x00\x00\x00\xff\xff\xff\xff\xff\xff\xff\xff",
        ),
    ),
];

// Whether the header of that kind is written so, and read.
fn is_header(alloc: Global, kind: DelimiterKind, row: &Parentheses<'_>) -> Result<bool, TtFault> {
    let (opening, closing, children, bytes) = row;
    let header = header(kind, *opening, *closing, *children);
    is_written(alloc, Entry::Header(header), bytes)
}

#[test]
fn headers(rt: HostRuntime) -> Result<(), Fail> {
    for row in &PARENTHESES {
        holds(is_header(rt.alloc(), DelimiterKind::Parenthesis, row))?;
    }
    for (kind, row) in &KINDS {
        holds(is_header(rt.alloc(), *kind, row))?;
    }
    Ok(())
}

// A header in the form of a top.
#[test]
fn in_full(rt: HostRuntime) -> Result<(), Fail> {
    let header = header(DelimiterKind::Parenthesis, (0, 0, 1), (1, 3, 1), (2, 10));
    let bytes =
        b"\x40\x40\x00\x00\x01\x00\x00\x00\x00\x00\x00\x00\x05\x44\xc0\x01\x00\x01\x00\x00\x00\x00\x00\x00\x00\x02\x00\x00\x00\x0a\x00\x00\x00";
    let mut written = BackBuf::with_room(rt.alloc(), MOST_TOKEN_BYTES)?;
    header.write_in_full(&mut written, true);
    let found = written.into_vec()?;
    holds(Ok(found.as_slice() == bytes.as_slice()))?;
    holds(Ok(is_read(Entry::Header(header), bytes)))
}
