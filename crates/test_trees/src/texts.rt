//! Literals from scans, and the texts of trees.
ghost use Rattle.std.specs.Prelude.{◌≤◌};

use crate::tokens::{holds, punct, span, under};
use std::alloc::{AllocError, Global};
use std::test::Fail;
use tt::{
    Delimiter, Ident, Leaf, LitKind, LiteralScan, Spacing, Span, SpanPart, TextRange, TextSize,
    TokenTree, TokenTreesView, TopSubtree, TopSubtreeBuilder, TransformTtAction, TtFault, TtIter,
    token_to_literal,
};

// The text, and as many letters as are more than a suffix may have.
fn with_long_suffix(alloc: Global, text: &str) -> Result<String, AllocError> {
    let mut long = String::from_str(alloc, text)?;
    for _ in 0..256u32 {
        long.push('a')?;
    }
    Ok(long)
}

// What a lexer found in a text, and where the suffix starts.
type Scan = Option<(LiteralScan, u32)>;

// Whether the text is a literal of that kind, with that value and that suffix.
fn is_read_as(
    alloc: Global,
    text: &str,
    scan: Scan,
    kind: LitKind,
    parts: (&str, &str),
) -> Result<bool, TtFault> {
    let literal = token_to_literal(alloc, text, span(0), scan)?;
    Ok(literal.kind() == kind && (literal.text(), literal.suffix()) == parts)
}

const NUMBER: Scan = Some((LiteralScan::Int, 1));

const CHARACTER: Scan = Some((LiteralScan::Char { terminated: true }, 3));

// A text, what a lexer found in it, and the kind, the value and the suffix of its literal.
const READ: [(&str, Scan, LitKind, &str, &str); 8] = [
    ("1u8", NUMBER, LitKind::Integer, "1", "u8"),
    ("1_", NUMBER, LitKind::Integer, "1", ""),
    (
        "b'x'",
        Some((LiteralScan::Byte { terminated: true }, 4)),
        LitKind::Byte,
        "x",
        "",
    ),
    (
        "\"ab",
        Some((LiteralScan::Str { terminated: false }, 3)),
        LitKind::Str,
        "ab",
        "",
    ),
    (
        "r#\"a\"#",
        Some((LiteralScan::RawStr { n_hashes: Some(1) }, 6)),
        LitKind::StrRaw(1),
        "a",
        "",
    ),
    (
        "cr##\"a\"##",
        Some((LiteralScan::RawCStr { n_hashes: Some(2) }, 9)),
        LitKind::CStrRaw(2),
        "a",
        "",
    ),
    ("'a'u8", CHARACTER, LitKind::Err(()), "'a'u8", ""),
    ("x", None, LitKind::Err(()), "x", ""),
];

// Whether each of them is read so.
fn are_read(alloc: Global) -> Result<bool, TtFault> {
    for (text, scan, kind, value, suffix) in &READ {
        if !is_read_as(alloc, text, *scan, *kind, (value, suffix))? {
            return Ok(false);
        }
    }
    Ok(true)
}

#[test]
fn literals_from_scans(rt: HostRuntime) -> Result<(), Fail> {
    holds(are_read(rt.alloc()))
}

#[test]
fn a_long_suffix_of_a_character(rt: HostRuntime) -> Result<(), Fail> {
    let long = with_long_suffix(rt.alloc(), "'a'")?;
    let text = long.as_str();
    holds(is_read_as(rt.alloc(), text, CHARACTER, LitKind::Err(()), (text, "")))
}

// Whether the text is no literal by a scan up to that place, for that fault.
fn is_refused(alloc: Global, text: &str, scan: LiteralScan, place: u32, expected: TtFault) -> bool {
    match token_to_literal(alloc, text, span(0), Some((scan, place))) {
        Ok(_) => false,
        Err(fault) => fault == expected,
    }
}

// Texts, and scans that do not fit them.
const REFUSED: [(&str, LiteralScan, u32); 4] = [
    ("1", LiteralScan::Int, 2),
    ("\u{e9}", LiteralScan::Int, 1),
    ("'", LiteralScan::Char { terminated: true }, 1),
    ("r\"", LiteralScan::RawStr { n_hashes: None }, 2),
];

// Whether each of them is refused.
fn are_refused(alloc: Global) -> bool {
    for (text, scan, place) in &REFUSED {
        if !is_refused(alloc, text, *scan, *place, TtFault::BadScan) {
            return false;
        }
    }
    true
}

// Whether a long suffix is refused, and a scan past it.
fn are_too_long(alloc: Global) -> Result<bool, TtFault> {
    let long = with_long_suffix(alloc, "1")?;
    let text = long.as_str();
    Ok(
        is_refused(alloc, text, LiteralScan::Int, 1, TtFault::SuffixTooLong)
            && is_refused(alloc, text, LiteralScan::Int, 300, TtFault::BadScan),
    )
}

#[test]
fn scans_that_are_refused(rt: HostRuntime) -> Result<(), Fail> {
    holds(Ok(are_refused(rt.alloc())))
}

#[test]
fn long_suffixes_that_are_refused(rt: HostRuntime) -> Result<(), Fail> {
    holds(are_too_long(rt.alloc()))
}

// An ident from there to there.
fn ident(alloc: Global, text: &str, start: u32, end: u32) -> Result<TokenTree, TtFault>
    requires { start ≤ end }
{
    let range = TextRange::new(TextSize::new(start), TextSize::new(end));
    let place: Span = SpanPart::from_span(&span(0)).recombine(range);
    Ok(Leaf::from(Ident::new(alloc, text, place)?).into())
}

// An invisible top over the idents `a` and `b`, and a plus between them that is joint and hidden.
fn sum(alloc: Global) -> Result<TopSubtree, TtFault> {
    let (a, b) = (ident(alloc, "a", 1, 2)?, ident(alloc, "b", 3, 4)?);
    under(alloc, &[a, punct('+', Spacing::JointHidden), b])
}

// Whether Display writes it so, as a tree and as what is below its top.
fn is_displayed(alloc: Global, tree: &TopSubtree) -> Result<bool, TtFault> {
    Ok(format!(in alloc; "{tree}{}", tree.token_trees())?.as_str() == "a +ba +b")
}

// The lines that Debug writes of it.
const LINES: &str =
    "SUBTREE $$ 0:0@0..0#0 0:0@0..0#0\n  IDENT   a 0:0@1..2#0\n  PUNCH   + [joint] 0:0@0..0#0\n  IDENT   b 0:0@3..4#0";

// Whether Debug does.
fn has_lines(alloc: Global, tree: &TopSubtree) -> Result<bool, TtFault> {
    Ok(format!(in alloc; "{tree:?}")?.as_str() == LINES)
}

#[test]
fn texts_of_a_tree(rt: HostRuntime) -> Result<(), Fail> {
    let tree = sum(rt.alloc())?;
    holds(is_displayed(rt.alloc(), &tree))?;
    holds(has_lines(rt.alloc(), &tree))
}

// Whether the Debug text of a builder says what it is. Of a builder, an iterator and an element no more is fixed.
fn is_told_as_a_builder(alloc: Global, builder: &TopSubtreeBuilder) -> Result<bool, TtFault> {
    Ok(
        format!(in alloc; "{builder:?}")?
            .as_str()
            .starts_with("TopSubtreeBuilder"),
    )
}

#[test]
fn the_debug_text_of_a_builder(rt: HostRuntime) -> Result<(), Fail> {
    let builder = TopSubtreeBuilder::new(rt.alloc(), Delimiter::invisible_spanned(span(0)))?;
    holds(is_told_as_a_builder(rt.alloc(), &builder))
}

// Whether the Debug text of an action is that.
fn is_told_as(alloc: Global, action: TransformTtAction<'_>, text: &str) -> Result<bool, TtFault> {
    Ok(format!(in alloc; "{action:?}")?.as_str() == text)
}

// Whether the Debug texts of actions say which they are, and the trees that they put: here a raw ident.
fn tell_their_trees(alloc: Global, trees: TokenTreesView<'_>) -> Result<bool, TtFault> {
    let put = TransformTtAction::ReplaceWith(trees);
    Ok(
        is_told_as(alloc, TransformTtAction::Keep, "Keep")?
            && is_told_as(alloc, TransformTtAction::remove(), "ReplaceWith()")?
            && is_told_as(alloc, put, "ReplaceWith(IDENT   r#a 0:0@1..4#0)")?,
    )
}

// Whether the Debug text of an iterator over a leaf says what it is.
fn is_told_as_siblings(alloc: Global, siblings: &TtIter<'_>) -> Result<bool, TtFault> {
    Ok(
        format!(in alloc; "{siblings:?}")?
            .as_str()
            .starts_with("TtIter"),
    )
}

// Whether the Debug text of what it gives does.
fn is_told_as_a_leaf(alloc: Global, siblings: &mut TtIter<'_>) -> Result<bool, TtFault> {
    let text = format!(in alloc; "{:?}", siblings.next())?;
    Ok(text.as_str().starts_with("Some(Leaf"))
}

// A raw ident below a top.
fn of_one_ident(alloc: Global) -> Result<TopSubtree, TtFault> {
    under(alloc, &[ident(alloc, "r#a", 1, 4)?])
}

// Whether Debug of what the tree gives writes the right texts.
fn are_told(alloc: Global, tree: &TopSubtree) -> Result<bool, TtFault> {
    let mut siblings = tree.iter();
    Ok(
        is_told_as_siblings(alloc, &siblings)?
            && is_told_as_a_leaf(alloc, &mut siblings)?
            && tell_their_trees(alloc, tree.token_trees())?,
    )
}

#[test]
fn debug_texts(rt: HostRuntime) -> Result<(), Fail> {
    let tree = of_one_ident(rt.alloc())?;
    holds(are_told(rt.alloc(), &tree))
}
