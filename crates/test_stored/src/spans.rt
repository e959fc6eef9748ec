//! Sizes, ranges, spans and delimiters, and the numbers of kinds that docs/FORMATS.md gives.
ghost use Rattle.std.specs.Prelude.{◌≤◌};

use crate::holds::holds;
use std::test::Fail;
use tt_base::{
    DelimSpan, Delimiter, DelimiterKind, ErasedFileAstId, FileId, IdentIsRaw, Spacing, Span,
    SpanAnchor, SpanPart, Subtree, SyntaxContext, TextRange, TextSize, TokenTree,
};

/// A range.
pub(crate) fn range(start: u32, end: u32) -> TextRange
    requires { start ≤ end }
{
    TextRange::new(TextSize::new(start), TextSize::new(end))
}

/// A span of file 1, item 2 and context 3.
pub(crate) fn span(start: u32, end: u32) -> Span
    requires { start ≤ end }
{
    Span {
        range: range(start, end),
        anchor: SpanAnchor {
            file_id: FileId(1),
            ast_id: ErasedFileAstId(2),
        },
        ctx: SyntaxContext(3),
    }
}

// Two sizes, their sum and their difference, where there are such.
const SIZES: [(u32, u32, Option<u32>, Option<u32>); 3] = [
    (1, 1, Some(2), Some(0)),
    (u32::MAX, 1, None, Some(4294967294)),
    (1, u32::MAX, None, None),
];

// Whether that is a size, or none.
fn is_size(size: Option<TextSize>, expected: Option<u32>) -> bool {
    match size {
        Some(size) => Some(u32::from(size)) == expected,
        None => expected.is_none(),
    }
}

#[test]
fn sizes() -> Result<(), Fail> {
    for (left, right, sum, difference) in &SIZES {
        let (left, right) = (TextSize::from(*left), TextSize::new(*right));
        holds(Ok(is_size(left.checked_add(right), *sum)))?;
        holds(Ok(is_size(left.checked_sub(right), *difference)))?;
    }
    holds(Ok(TextSize::new(1) < TextSize::new(u32::MAX)))
}

// Whether what begins at 1 with that length ends there, or is no range.
fn is_range(length: u32, end: Option<u32>) -> bool {
    match TextRange::at(TextSize::new(1), TextSize::new(length)) {
        Some(found) => found.start().raw() == 1 && Some(found.end().raw()) == end,
        None => end.is_none(),
    }
}

#[test]
fn ranges() -> Result<(), Fail> {
    let found = range(1, 4);
    holds(Ok(found.start().raw() == 1 && found.end().raw() == 4))?;
    holds(Ok(found.len().raw() == 3 && !found.is_empty()))?;
    holds(Ok(TextRange::empty(TextSize::new(1)).is_empty()))?;
    holds(Ok(is_range(2, Some(3)) && is_range(u32::MAX, None)))
}

// An invisible delimiter of two spans.
fn delimiter() -> Delimiter {
    Delimiter::invisible_delim_spanned(DelimSpan::from_pair(span(0, 1), span(8, 9)))
}

// A part takes another range, and delimiters have the spans that they were made of.
#[test]
fn spans_of_delimiters() -> Result<(), Fail> {
    let part = SpanPart::from_span(&span(0, 1));
    let single = Delimiter::invisible_spanned(span(2, 3));
    let pair = DelimSpan::from_pair(span(0, 1), span(8, 9));
    holds(Ok(part.recombine(range(5, 9)) == span(5, 9)))?;
    holds(Ok(delimiter().delim_span() == pair))?;
    holds(Ok(delimiter().kind == DelimiterKind::Invisible))?;
    holds(Ok(single.delim_span() == DelimSpan::from_single(span(2, 3))))
}

#[test]
fn a_header_over_seven_tokens() -> Result<(), Fail> {
    let subtree = Subtree {
        delimiter: delimiter(),
        len: 7,
    };
    holds(Ok(subtree.usize_len() == 7 && subtree.count() == 7))?;
    holds(Ok(TokenTree::from(subtree).first_span() == span(0, 1)))
}

#[test]
fn numbers_of_kinds() -> Result<(), Fail> {
    let delimiters = [
        DelimiterKind::Parenthesis as u8,
        DelimiterKind::Brace as u8,
        DelimiterKind::Bracket as u8,
        DelimiterKind::Invisible as u8,
        DelimiterKind::InvisibleOpaque as u8,
    ];
    let spacings = [
        Spacing::Alone as u8,
        Spacing::Joint as u8,
        Spacing::JointHidden as u8,
    ];
    holds(Ok(delimiters == [0, 1, 2, 3, 4] && spacings == [0, 1, 2]))?;
    holds(Ok([IdentIsRaw::No as u8, IdentIsRaw::Yes as u8] == [0, 1]))?;
    holds(Ok(IdentIsRaw::Yes.yes() && IdentIsRaw::No.no()))
}
