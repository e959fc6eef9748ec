//! Calls of tokens and of their parts that take no memory.
use crate::quiet_stored::hash_of;
use test_sweep::{plus, punct, span};
use tt::{
    DelimSpan, Delimiter, DelimiterKind, Ident, IdentIsRaw, Leaf, LitKind, Literal, Spacing,
    SpanPart, Subtree, TextRange, TextSize, TokenTree, TtFault,
};

/// Sizes and ranges.
pub fn ranges() -> bool {
    let one = TextSize::new(1);
    let two = TextSize::from(2);
    let empty = TextRange::empty(one);
    one.checked_add(one) == Some(two)
        && two.checked_sub(one) == Some(one)
        && u32::from(two) == two.raw()
        && TextRange::at(one, one).map(TextRange::end) == Some(two)
        && TextRange::new(one, one) == empty
        && empty.start() == one
        && empty.len().raw() == 0
        && empty.is_empty()
}

/// Spans and delimiters.
pub fn spans() -> bool {
    SpanPart::from_span(&span(1)).recombine(span(2).range) == span(1)
        && is_pair(DelimSpan::from_pair(span(1), span(2)))
        && is_single(Delimiter::invisible_spanned(span(3)))
        && TtFault::Memory.number() == 1
}

// A pair whose first span has the id 1, and a subtree between the two.
fn is_pair(pair: DelimSpan) -> bool {
    let delimiter = Delimiter::invisible_delim_spanned(pair);
    delimiter.delim_span() == pair && is_over_seven(Subtree { delimiter, len: 7 })
}

// A subtree of seven tokens, whose open span has the id 1.
fn is_over_seven(subtree: Subtree) -> bool {
    subtree.usize_len() == 7
        && subtree.count() == 7
        && TokenTree::from(subtree).first_span() == span(1)
}

// A delimiter whose spans both have the id 3.
fn is_single(delimiter: Delimiter) -> bool {
    delimiter.delim_span() == DelimSpan::from_single(span(3))
}

/// The ident `a`, as a leaf and as a token, with copies and hashes of both.
pub fn tokens(leaves: &[Leaf]) -> bool {
    match leaves {
        [leaf, _number] => is_leaf_a(leaf) && is_copied(leaf),
        _ => false,
    }
}

fn is_leaf_a(leaf: &Leaf) -> bool {
    match leaf {
        Leaf::Ident(ident) => *leaf.span() == span(1) && is_named_a(ident),
        _ => false,
    }
}

// Whether the ident is `a`, and its text is split right.
fn is_named_a(ident: &Ident) -> bool {
    let Ok(symbol) = ident.sym.clone() else {
        return false;
    };
    symbol == ident.sym && is_split(symbol.as_str()) && ident.is_raw.no() && !ident.is_raw.yes()
}

// Whether `r#` precedes a raw ident of that text.
fn is_split(text: &str) -> bool {
    IdentIsRaw::split_from_symbol("r#a") == (IdentIsRaw::Yes, text)
        && IdentIsRaw::Yes.as_str() == "r#"
}

// Whether a copy of the leaf is equal, and has the same hash.
fn is_copied(leaf: &Leaf) -> bool {
    match leaf.clone() {
        Ok(copy) => {
            copy == *leaf && hash_of(&copy) == hash_of(leaf) && is_token_copied(&copy.into())
        }
        Err(_) => false,
    }
}

// The same of a token that begins at 1.
fn is_token_copied(token: &TokenTree) -> bool {
    match token.clone() {
        Ok(copy) => {
            copy == *token && hash_of(&copy) == hash_of(token) && copy.first_span() == span(1)
        }
        Err(_) => false,
    }
}

/// The number `1u8`, and another leaf.
pub fn literals(leaves: &[Leaf]) -> bool {
    let [leaf, Leaf::Literal(literal)] = leaves else {
        return false;
    };
    let Ok(symbol) = literal.symbol().clone() else {
        return false;
    };
    let (kind, suffix_len) = (literal.kind(), literal.suffix_len());
    match Literal::from_parts(symbol, span(1), kind, suffix_len) {
        Some(again) => {
            let again = again.with_span(*literal.span());
            is_number(&again, literal) && Leaf::from(again) != *leaf
        }
        None => false,
    }
}

// Whether the number is made again.
fn is_number(again: &Literal, literal: &Literal) -> bool {
    again == literal
        && again.kind() == LitKind::Integer
        && again.text_and_suffix() == ("1", "u8")
        && again.text() == "1"
        && again.suffix() == "u8"
        && plus(1) != punct('+', Spacing::Alone, 1)
        && DelimiterKind::Brace != DelimiterKind::Bracket
}
