//! The bytes of references and of spans at the limits of their forms.
use crate::holds::holds;
use std::alloc::Global;
use std::test::Fail;
use tt_base::TtFault;
use tt_pack::laws;

// Whether a reference has these bytes, and its numbers can be written.
fn is_reference(alloc: Global, index: u32, tag: u32, bytes: &[u8]) -> Result<bool, TtFault> {
    if index >= 536870912 || tag >= 2 {
        return Ok(false);
    }
    Ok(laws::symbol_bytes(alloc, index, tag)?.as_slice() == bytes)
}

// The number of a reference, its tag, and its bytes.
const REFERENCES: [(u32, u32, &[u8]); 9] = [
    (0, 0, b"\x00"),
    (63, 0, b"\xfc"),
    (63, 1, b"\xfd"),
    (64, 0, b"\x02\x02"),
    (64, 1, b"\x03\x02"),
    (8191, 0, b"\xfe\xfe"),
    (8192, 0, b"\x02\x01\x01\x00"),
    (536870911, 0, b"\xfe\xff\xff\xff"),
    (536870911, 1, b"\xff\xff\xff\xff"),
];

#[test]
fn references(rt: HostRuntime) -> Result<(), Fail> {
    for (index, tag, bytes) in &REFERENCES {
        holds(is_reference(rt.alloc(), *index, *tag, bytes))?;
    }
    Ok(())
}

// Whether a span of that part, start and length has these bytes, with no extra bits, and its numbers can be written.
fn is_span(alloc: Global, numbers: (u32, u32, u32), bytes: &[u8]) -> Result<bool, TtFault> {
    let (part, start, length) = numbers;
    if part >= 268435456 || length > u32::MAX - start {
        return Ok(false);
    }
    let found = laws::span_bytes(alloc, part, start, length, 0, false)?;
    Ok(found.as_slice() == bytes)
}

// The part, the start and the length of a span, and its bytes.
const SPANS: [((u32, u32, u32), &[u8]); 17] = [
    ((15, 0, 1), b"\x7c\x00\x00\x00"),
    ((16, 0, 1), b"\x40\x40\x00\x00\x02\x00\x00\x00"),
    ((32767, 0, 1), b"\x7c\x40\x00\x00\xfe\x0f\x00\x00"),
    (
        (32768, 0, 1),
        b"\x40\x40\x00\x00\x01\x00\x00\x00\x00\x08\x00\x00",
    ),
    ((0, 0, 255), b"\xc0\x3f\x00\x00"),
    ((0, 0, 256), b"\x00\x40\x00\x00\x00\x10\x00\x00"),
    ((0, 0, 262143), b"\xc0\x7f\x00\x00\x00\xf0\x3f\x00"),
    (
        (0, 0, 262144),
        b"\x00\x40\x00\x00\x09\x00\x00\x00\x00\x00\x00\x00",
    ),
    ((0, 131071, 1), b"\x40\x80\xff\xff"),
    ((0, 131072, 1), b"\x40\x40\x00\x00\x00\x00\x40\x00"),
    ((0, 134217727, 1), b"\x40\xc0\xff\xff\x00\x00\xc0\xff"),
    (
        (0, 134217728, 1),
        b"\x40\x40\x00\x00\x01\x00\x00\x08\x00\x00\x00\x00",
    ),
    (
        (0, 2147483648, 1),
        b"\x40\x40\x00\x00\x01\x00\x00\x80\x00\x00\x00\x00",
    ),
    (
        (268435455, 0, 0),
        b"\x3c\x40\x00\x00\x01\x00\x00\x00\xff\xff\xff\x00",
    ),
    (
        (0, 4294967295, 0),
        b"\x00\xc0\xff\xff\x01\x00\xfe\xff\x00\x00\x00\x00",
    ),
    (
        (0, 0, 4294967295),
        b"\xc0\x7f\x00\x00\xff\xff\x01\x00\x00\x00\x00\xff",
    ),
    (
        (268435455, 4294967295, 0),
        b"\x3c\xc0\xff\xff\x01\x00\xfe\xff\xff\xff\xff\x00",
    ),
];

#[test]
fn spans(rt: HostRuntime) -> Result<(), Fail> {
    for (numbers, bytes) in &SPANS {
        holds(is_span(rt.alloc(), *numbers, bytes))?;
    }
    // an empty span in the longest form, with both extra bits
    let longest = laws::span_bytes(rt.alloc(), 0, 0, 0, 3, true)?;
    let bytes = b"\x03\x40\x00\x00\x01\x00\x00\x00\x00\x00\x00\x00";
    holds(Ok(longest.as_slice() == bytes.as_slice()))
}
