//! The bytes of tokens under given tables.
use crate::holds::holds;
use crate::lists::{header, ident, punct};
use crate::tables::{Spot, Tables, span};
use crate::texts::letters;
use std::alloc::Global;
use std::test::Fail;
use tt_base::{DelimiterKind, Leaf, LitKind, Literal, Spacing, TokenTree, TtFault};

// A span of one character.
const SHORT: Spot = (0, 0, 1);

// What kind a header is of, where it opens and closes, how many tokens it holds, in how many bytes, and its own bytes.
type Header<'a> = (DelimiterKind, Spot, Spot, (u32, u32), &'a [u8]);

const HEADERS: [Header<'_>; 4] = [
    (
        DelimiterKind::Parenthesis,
        (0, 10, 11),
        (1, 20, 21),
        (0, 0),
        b"\x40\x00\x05\x00\x22\x0a\x00\x00\x00",
    ),
    (
        DelimiterKind::Parenthesis,
        SHORT,
        (127, 1, 2),
        (0, 0),
        b"\x40\x00\x00\x00\xe2\x01\x00\x0f\x00",
    ),
    (
        DelimiterKind::Parenthesis,
        SHORT,
        (128, 1, 2),
        (0, 0),
        b"\x40\x00\x00\x00\x05\x40\xc0\x00\x00\x10\x00\x00\x00\x00\x00\x00\x00\x00\x00\x00\x00",
    ),
    (
        DelimiterKind::Brace,
        (0, 5, 9),
        (0, 5, 9),
        (1, 5),
        b"\x00\x81\x02\x00\x09\x01\x05",
    ),
];

#[test]
fn headers(rt: HostRuntime) -> Result<(), Fail> {
    let tables = Tables::new(rt.alloc(), 129, &[])?;
    for (kind, opening, closing, (len, child_bytes), bytes) in &HEADERS {
        let token = header(*kind, *opening, *closing, *len);
        holds(tables.give(rt.alloc(), &token, *child_bytes, bytes))?;
    }
    Ok(())
}

// Whether the token has these bytes where the tables have one part and that symbol.
fn is_written(
    alloc: Global,
    token: &TokenTree,
    symbol: &str,
    bytes: &[u8],
) -> Result<bool, TtFault> {
    Tables::new(alloc, 1, &[symbol])?.give(alloc, token, 0, bytes)
}

// The number 1 with that suffix, up to that offset.
fn number(alloc: Global, suffix: &str, end: u32) -> Result<TokenTree, TtFault> {
    let literal = Literal::new(alloc, "1", span((0, 0, end)), LitKind::Integer, suffix)?;
    Ok(Leaf::from(literal).into())
}

#[test]
fn leaves(rt: HostRuntime) -> Result<(), Fail> {
    let arrow = punct('→', Spacing::Joint, SHORT);
    let raw = ident(rt.alloc(), "r#type", (0, 0, 6))?;
    let short = number(rt.alloc(), "u8", 3)?;
    let bytes = b"\x40\x00\x00\x00\x0e\x92\x21\x00\x00";
    holds(is_written(rt.alloc(), &arrow, "", bytes))?;
    holds(is_written(rt.alloc(), &raw, "type", b"\x82\x01\x00\x00\x01"))?;
    holds(is_written(rt.alloc(), &short, "1u8", b"\xc0\x00\x00\x00\x2c\x00"))
}

#[test]
fn the_longest_suffix(rt: HostRuntime) -> Result<(), Fail> {
    let suffix = letters(rt.alloc(), 255)?;
    let whole = format!(in rt.alloc(); "1{suffix}")?;
    let number = number(rt.alloc(), suffix.as_str(), 256)?;
    let bytes = b"\x00\x40\x00\x00\x00\x10\x00\x00\x17\xff\x00";
    holds(is_written(rt.alloc(), &number, whole.as_str(), bytes))
}

// In which parts parentheses open and close, and whether two parts have these.
const PARTS: [(u32, u32, bool); 4] = [(0, 0, true), (1, 1, true), (0, 2, false), (2, 0, false)];

#[test]
fn parts_that_are_lacking(rt: HostRuntime) -> Result<(), Fail> {
    let tables = Tables::new(rt.alloc(), 2, &[])?;
    for (opening, closing, known) in &PARTS {
        let token = header(
            DelimiterKind::Bracket,
            (*opening, 0, 1),
            (*closing, 1, 2),
            0,
        );
        holds(Ok(tables.know(rt.alloc(), &token)? == *known))?;
    }
    Ok(())
}

// Tables of one part and the symbol `type` know these and no other part, no text that begins so, and no number.
#[test]
fn leaves_that_are_lacking(rt: HostRuntime) -> Result<(), Fail> {
    let tables = Tables::new(rt.alloc(), 1, &["type"])?;
    for (part, known) in &[(0, true), (1, false)] {
        let token = punct(';', Spacing::Alone, (*part, 0, 1));
        holds(Ok(tables.know(rt.alloc(), &token)? == *known))?;
    }
    for (text, known) in &[("type", true), ("typed", false)] {
        let token = ident(rt.alloc(), text, SHORT)?;
        holds(Ok(tables.know(rt.alloc(), &token)? == *known))?;
    }
    holds(Ok(!tables.know(rt.alloc(), &number(rt.alloc(), "u8", 3)?)?))
}
