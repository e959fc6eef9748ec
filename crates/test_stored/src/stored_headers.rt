//! How many bytes headers take in the trees that are stored.
use crate::holds::holds;
use crate::lists::{header, is_read, punct, stored, top, with_below};
use crate::tables::{Spot, span};
use std::alloc::{AllocError, Global};
use std::test::Fail;
use tt_base::{DelimiterKind, Leaf, LitKind, Literal, Spacing, TokenTree, TtFault};

// How many bytes the header of a top takes.
const TOP_BYTES: usize = 33;

// Whether a top over these tokens takes so many bytes, and is read back.
fn takes(alloc: Global, below: &[TokenTree], bytes: usize) -> Result<bool, TtFault> {
    let len = u32::try_from(below.len()).unwrap_or(u32::MAX);
    let tokens = with_below(alloc, top(len), below)?;
    let tree = stored(alloc, tokens.as_slice())?;
    Ok(tree.bytes().len() == bytes && is_read(&tree, tokens.as_slice()))
}

// A span of one character, and one of two.
const SHORT: Spot = (0, 0, 1);

const LONG: Spot = (0, 0, 2);

// Where parentheses over nothing open and close, and how many bytes they take with a top.
const OVER_NOTHING: [(Spot, Spot, usize); 15] = [
    (SHORT, SHORT, TOP_BYTES + 7),
    (SHORT, (0, 2047, 2048), TOP_BYTES + 7),
    (SHORT, (0, 2048, 2049), TOP_BYTES + 17),
    ((0, 1, 2), SHORT, TOP_BYTES + 17),
    (LONG, (0, 7, 9), TOP_BYTES + 7),
    (LONG, (0, 8, 10), TOP_BYTES + 9),
    (LONG, (0, 255, 257), TOP_BYTES + 9),
    (LONG, (0, 256, 258), TOP_BYTES + 17),
    (LONG, (0, 7, 8), TOP_BYTES + 17),
    ((0, 131072, 131073), (0, 131073, 131074), TOP_BYTES + 11),
    ((0, 131072, 131074), (0, 131080, 131082), TOP_BYTES + 13),
    ((0, 131072, 131073), (0, 133120, 133121), TOP_BYTES + 25),
    (
        (0, 134217728, 134217729),
        (0, 134217729, 134217730),
        TOP_BYTES + 15,
    ),
    (
        (0, 134217728, 134217730),
        (0, 134217736, 134217738),
        TOP_BYTES + 17,
    ),
    (
        (0, 134217728, 134217729),
        (0, 134219776, 134219777),
        TOP_BYTES + 33,
    ),
];

#[test]
fn parentheses_over_nothing(rt: HostRuntime) -> Result<(), Fail> {
    for (opening, closing, bytes) in &OVER_NOTHING {
        let token = header(DelimiterKind::Parenthesis, *opening, *closing, 0);
        holds(takes(rt.alloc(), std::slice::from_ref(&token), *bytes))?;
    }
    Ok(())
}

// A punct of 17 bytes, one of 5, and a number of 6.
fn sizes(alloc: Global) -> Result<[TokenTree; 3], TtFault> {
    let number = Literal::new_no_suffix(alloc, "1", span(SHORT), LitKind::Integer)?;
    Ok([
        punct('→', Spacing::Alone, (0, 134217728, 134217729)),
        punct(';', Spacing::Alone, SHORT),
        Leaf::from(number).into(),
    ])
}

// So many copies of a token go to the list.
fn push_copies(tokens: &mut Vec<TokenTree>, token: &TokenTree, count: u32) -> Result<(), TtFault> {
    for _ in 0..count {
        tokens.push(token.clone()?)?;
    }
    Ok(())
}

// Parentheses over so many tokens of each of these sizes.
fn holding(
    alloc: Global,
    sizes: &[TokenTree; 3],
    counts: (u32, u32, u32),
) -> Result<Vec<TokenTree>, TtFault> {
    let (large, small, numbers) = counts;
    let len = large.wrapping_add(small).wrapping_add(numbers);
    let mut tokens = vec![in alloc; header(DelimiterKind::Parenthesis, SHORT, (0, 1, 2), len)]?;
    push_copies(&mut tokens, &sizes[0], large)?;
    push_copies(&mut tokens, &sizes[1], small)?;
    push_copies(&mut tokens, &sizes[2], numbers)?;
    Ok(tokens)
}

// How many tokens of each size parentheses hold, and how many bytes they take with a top.
const HOLDING: [((u32, u32, u32), usize); 6] = [
    ((0, 51, 0), TOP_BYTES + 7 + 255),
    ((0, 50, 1), TOP_BYTES + 9 + 256),
    ((0, 255, 0), TOP_BYTES + 9 + 1275),
    ((0, 256, 0), TOP_BYTES + 17 + 1280),
    ((240, 3, 0), TOP_BYTES + 9 + 4095),
    ((240, 2, 1), TOP_BYTES + 17 + 4096),
];

#[test]
fn counts_and_bytes(rt: HostRuntime) -> Result<(), Fail> {
    let sizes = sizes(rt.alloc())?;
    for (counts, bytes) in &HOLDING {
        let below = holding(rt.alloc(), &sizes, *counts)?;
        holds(takes(rt.alloc(), below.as_slice(), *bytes))?;
    }
    Ok(())
}

// A punct of each of so many parts, and parentheses that close in one part more.
fn with_parts(alloc: Global, parts: u32) -> Result<Vec<TokenTree>, AllocError> {
    let mut found = Vec::new(alloc);
    for part in 0..parts {
        found.push(punct(';', Spacing::Alone, (part, 0, 1)))?;
    }
    found.push(header(DelimiterKind::Parenthesis, SHORT, (parts, 1, 2), 0))?;
    Ok(found)
}

// Such a number of parts, and how many bytes all take with the top: the format is one more behind the part 127.
const PARTS: [(u32, usize); 2] = [
    (127, TOP_BYTES + 16 * 5 + 111 * 9 + 9),
    (128, TOP_BYTES + 16 * 5 + 112 * 9 + 21),
];

#[test]
fn parts_of_closes(rt: HostRuntime) -> Result<(), Fail> {
    for (parts, bytes) in &PARTS {
        let below = with_parts(rt.alloc(), *parts)?;
        holds(takes(rt.alloc(), below.as_slice(), *bytes))?;
    }
    Ok(())
}
