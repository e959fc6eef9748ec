//! Leaves in each form, and at its limits.
ghost use Rattle.std.specs.Prelude.{◌≡◌, ◌-◌, ◌<◌, ◌^◌};
ghost use Rattle.tt_codec.specs.declared.entry.Entry.TheVariants.{Leaf as of_leaf};
ghost use Rattle.tt_codec.specs.SpanNumbers.{numbers_at};

use crate::holds::holds;
use crate::written::is_written;
use std::test::Fail;
use tt_base::{IdentIsRaw, LitKind, Spacing};
use tt_codec::{Entry, LeafEntry, SpanNumbers};

// A span of the first part, from 0 on.
fn at(length: u32) -> SpanNumbers
    ensures { result ≡ numbers_at 0 0 length }
{
    SpanNumbers {
        part: 0,
        start: 0,
        length,
    }
}

const PUNCTS: [(char, Spacing, &[u8]); 6] = [
    (';', Spacing::Alone, b"\x41\x00\x00\x00\x76"),
    ('=', Spacing::Joint, b"\x41\x00\x00\x00\x7b"),
    ('+', Spacing::JointHidden, b"\x43\x00\x00\x00\x56"),
    ('→', Spacing::Alone, b"\x40\x00\x00\x00\x06\x92\x21\x00\x00"),
    ('→', Spacing::Joint, b"\x40\x00\x00\x00\x0e\x92\x21\x00\x00"),
    (
        '→',
        Spacing::JointHidden,
        b"\x40\x00\x00\x00\x16\x92\x21\x00\x00",
    ),
];

// The kind of a literal of the first symbol, the length of its suffix and of its span, and its bytes.
type Row<'a> = (LitKind, u8, u32, &'a [u8]);

// A suffix of 16 bytes is too long for the short form. Behind these, both sides of the limit of each short form.
const LITERALS: [Row<'_>; 21] = [
    (LitKind::Byte, 16, 20, b"\x00\x05\x00\x00\x07\x10\x00"),
    (LitKind::Char, 16, 20, b"\x00\x05\x00\x00\x0f\x10\x00"),
    (LitKind::Integer, 16, 20, b"\x00\x05\x00\x00\x17\x10\x00"),
    (LitKind::Float, 16, 20, b"\x00\x05\x00\x00\x1f\x10\x00"),
    (LitKind::Str, 16, 20, b"\x00\x05\x00\x00\x27\x10\x00"),
    (
        LitKind::StrRaw(1),
        16,
        20,
        b"\x00\x05\x00\x00\x2f\x01\x10\x00",
    ),
    (LitKind::ByteStr, 16, 20, b"\x00\x05\x00\x00\x37\x10\x00"),
    (
        LitKind::ByteStrRaw(0),
        16,
        20,
        b"\x00\x05\x00\x00\x3f\x00\x10\x00",
    ),
    (LitKind::CStr, 16, 20, b"\x00\x05\x00\x00\x47\x10\x00"),
    (
        LitKind::CStrRaw(255),
        16,
        20,
        b"\x00\x05\x00\x00\x4f\xff\x10\x00",
    ),
    (LitKind::Err(()), 16, 20, b"\x00\x05\x00\x00\x57\x10\x00"),
    (LitKind::Integer, 15, 16, b"\x00\x04\x00\x00\xfc\x00"),
    (LitKind::Integer, 16, 17, b"\x40\x04\x00\x00\x17\x10\x00"),
    (LitKind::Str, 15, 17, b"\x40\x04\x00\x00\xf3\x00"),
    (LitKind::Str, 16, 18, b"\x80\x04\x00\x00\x27\x10\x00"),
    (LitKind::StrRaw(0), 15, 18, b"\x80\x04\x00\x00\xf4\x00"),
    (
        LitKind::StrRaw(0),
        16,
        19,
        b"\xc0\x04\x00\x00\x2f\x00\x10\x00",
    ),
    (LitKind::StrRaw(1), 15, 20, b"\x00\x05\x00\x00\xfb\x00"),
    (
        LitKind::StrRaw(1),
        16,
        21,
        b"\x40\x05\x00\x00\x2f\x01\x10\x00",
    ),
    (LitKind::Integer, 2, 3, b"\xc0\x00\x00\x00\x2c\x00"),
    (
        LitKind::StrRaw(2),
        0,
        8,
        b"\x00\x02\x00\x00\x2f\x02\x00\x00",
    ),
];

#[test]
fn leaves(rt: HostRuntime) -> Result<(), Fail> {
    for (char, spacing, bytes) in &PUNCTS {
        let punct = LeafEntry::Punct(*char, *spacing, at(1));
        holds(is_written(rt.alloc(), Entry::Leaf(punct), bytes))?;
    }
    for (kind, suffix_len, length, bytes) in &LITERALS {
        let literal = LeafEntry::Literal(0, *kind, *suffix_len, at(*length));
        holds(is_written(rt.alloc(), Entry::Leaf(literal), bytes))?;
    }
    let raw = Entry::Leaf(LeafEntry::Ident(0, IdentIsRaw::Yes, at(6)));
    holds(is_written(rt.alloc(), raw, b"\x82\x01\x00\x00\x01"))
}
