//! The texts of faults, leaves and suffixes, beside those that docs/FORMATS.md gives.
use crate::holds::holds;
use crate::spans::{range, span};
use std::alloc::{AllocError, Global};
use std::test::Fail;
use tt_base::{Ident, IdentIsRaw, Leaf, LitKind, Literal, Punct, Spacing, Symbol, TtFault};

const FAULTS: [(TtFault, &str); 11] = [
    (TtFault::Memory, "1 out of memory"),
    (TtFault::NotOneSubtree, "2 not one subtree"),
    (TtFault::NoSuchPlace, "3 no such place"),
    (TtFault::NotALeaf, "4 not a leaf"),
    (TtFault::SuffixTooLong, "5 suffix too long"),
    (TtFault::BadScan, "6 bad scan"),
    (TtFault::TooManyTokens, "7 too many tokens"),
    (TtFault::TooManySpanParts, "8 too many span parts"),
    (TtFault::TooManySymbols, "9 too many symbols"),
    (TtFault::TooManyBytes, "10 too many bytes"),
    (TtFault::PointsSpent, "11 points spent"),
];

// Whether the fault's number and its text are these.
fn is_told_as(alloc: Global, fault: TtFault, text: &str) -> Result<bool, TtFault> {
    Ok(format!(in alloc; "{} {fault}", fault.number())?.as_str() == text)
}

#[test]
fn faults(rt: HostRuntime) -> Result<(), Fail> {
    for (fault, text) in &FAULTS {
        holds(is_told_as(rt.alloc(), *fault, text))?;
    }
    Ok(())
}

// Whether the leaf is shown so, and has the span from 0 to 6.
fn is_shown(alloc: Global, leaf: &Leaf, text: &str) -> Result<bool, TtFault> {
    Ok(leaf.to_string(alloc)?.as_str() == text && *leaf.span() == span(0, 6))
}

// How an ident is written, whether it is raw, and its name.
const IDENTS: [(&str, IdentIsRaw, &str); 5] = [
    ("a", IdentIsRaw::No, "a"),
    ("r#type", IdentIsRaw::Yes, "type"),
    ("r#r#a", IdentIsRaw::Yes, "r#a"),
    ("r", IdentIsRaw::No, "r"),
    ("", IdentIsRaw::No, ""),
];

// The leaf of an ident that is written so.
fn ident(alloc: Global, written: &str) -> Result<Leaf, TtFault> {
    Ok(Leaf::from(Ident::new(alloc, written, span(0, 6))?))
}

// Whether the leaf is an ident that is raw or not, and has that name.
fn is_ident(leaf: &Leaf, is_raw: IdentIsRaw, name: &str) -> bool {
    match leaf {
        Leaf::Ident(ident) => ident.is_raw == is_raw && ident.sym.as_str() == name,
        _ => false,
    }
}

// Whether an ident that is written so is raw or not, has that name, and is shown as it was written.
fn is_read_as(
    alloc: Global,
    written: &str,
    is_raw: IdentIsRaw,
    name: &str,
) -> Result<bool, TtFault> {
    let leaf = ident(alloc, written)?;
    Ok(is_ident(&leaf, is_raw, name) && is_shown(alloc, &leaf, written)?)
}

#[test]
fn idents(rt: HostRuntime) -> Result<(), Fail> {
    for (written, is_raw, name) in &IDENTS {
        holds(is_read_as(rt.alloc(), written, *is_raw, name))?;
    }
    Ok(())
}

#[test]
fn puncts(rt: HostRuntime) -> Result<(), Fail> {
    let none = Punct::default();
    holds(Ok(none.char == '\0' && none.spacing == Spacing::Alone))?;
    holds(Ok(none.span.range == range(0, 0)))?;
    let arrow = Punct {
        char: '\u{2192}',
        spacing: Spacing::Joint,
        span: span(0, 6),
    };
    holds(is_shown(rt.alloc(), &Leaf::from(arrow), "\u{2192}"))
}

#[test]
fn a_raw_text_before_its_suffix(rt: HostRuntime) -> Result<(), Fail> {
    let literal = Literal::new(rt.alloc(), "a", span(0, 6), LitKind::StrRaw(1), "u8")?;
    holds(is_shown(rt.alloc(), &Leaf::from(literal), "r#\"a\"#u8"))
}

// Whether a suffix may begin at that byte from the end of `1é`.
fn is_suffix(alloc: Global, suffix_len: u8) -> Result<bool, TtFault> {
    let symbol = Symbol::new(alloc, "1\u{e9}")?;
    Ok(Literal::from_parts(symbol, span(0, 3), LitKind::Integer, suffix_len).is_some())
}

// `é` has two bytes: a suffix may begin before it or after it.
const SUFFIXES: [(u8, bool); 5] = [(0, true), (1, false), (2, true), (3, true), (4, false)];

#[test]
fn suffixes(rt: HostRuntime) -> Result<(), Fail> {
    for (suffix_len, fits) in &SUFFIXES {
        let found = is_suffix(rt.alloc(), *suffix_len)?;
        holds(Ok(found == *fits))?;
    }
    Ok(())
}

/// So many letters.
pub(crate) fn letters(alloc: Global, count: u32) -> Result<String, AllocError> {
    let mut text = String::new(alloc);
    for _ in 0..count {
        text.push('a')?;
    }
    Ok(text)
}

// The length of the suffix of a literal that is given so many letters as a suffix.
fn suffix_of(alloc: Global, count: u32) -> Result<u8, TtFault> {
    let suffix = letters(alloc, count)?;
    let literal = Literal::new(alloc, "1", span(0, 1), LitKind::Integer, suffix.as_str())?;
    Ok(literal.suffix_len())
}

#[test]
fn long_suffixes(rt: HostRuntime) -> Result<(), Fail> {
    holds(Ok(suffix_of(rt.alloc(), 255) == Ok(255)))?;
    holds(Ok(suffix_of(rt.alloc(), 256) == Err(TtFault::SuffixTooLong)))
}
