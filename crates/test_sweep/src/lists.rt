//! Flat lists that calls are given.
use crate::leaves::{leaf, plus, span};
use std::alloc::Global;
use tt::{Delimiter, DelimiterKind, Leaf, Subtree, TokenTree, TtFault};

/// A delimiter that opens and closes with these ids.
pub fn delimiter(kind: DelimiterKind, open: u32, close: u32) -> Delimiter {
    Delimiter {
        open_span: span(open),
        close: span(close),
        kind,
    }
}

/// The header of a subtree with that delimiter, over so many tokens.
pub fn header(delimiter: Delimiter, len: u32) -> TokenTree {
    Subtree { delimiter, len }.into()
}

/// The delimiter of the top of each long list.
pub fn braces() -> Delimiter {
    delimiter(DelimiterKind::Brace, 0, 0)
}

/// The delimiter of an invisible top.
pub fn invisible() -> Delimiter {
    delimiter(DelimiterKind::Invisible, 0, 0)
}

/// Appends leaves to a list.
pub fn push_all(list: &mut Vec<TokenTree>, leaves: &[Leaf]) -> Result<(), TtFault> {
    for leaf in leaves {
        list.push(leaf.clone()?.into())?;
    }
    Ok(())
}

// Each of these has a bracket of its own in a long list, so that there are more span parts than the short form of a span
// can name.
const NAMES: [&str; 8] = ["a", "b", "c", "d", "e", "f", "g", "h"];

// How many brackets a long list has.
const GROUPS: u32 = 8;

// How many ids one of them uses.
const IDS: u32 = 3;

/// A long list: braces over eight brackets, each over an ident and then these leaves. The first id is given, and each
/// bracket has three of its own.
pub fn long_list(alloc: Global, first: u32, ends: &[Leaf]) -> Result<Vec<TokenTree>, TtFault> {
    let below = u32::try_from(ends.len()).unwrap_or(0).saturating_add(1);
    let all = below.saturating_add(1).saturating_mul(GROUPS);
    let mut list = vec![in alloc; header(braces(), all)]?;
    let mut id = first;
    for name in NAMES.iter() {
        let brackets = delimiter(DelimiterKind::Bracket, id, id.saturating_add(1));
        list.push(header(brackets, below))?;
        list.push(leaf(alloc, name, id.saturating_add(2))?.into())?;
        push_all(&mut list, ends)?;
        id = id.saturating_add(IDS);
    }
    Ok(list)
}

/// The long list whose brackets end in a plus.
pub fn plus_list(alloc: Global) -> Result<Vec<TokenTree>, TtFault> {
    long_list(alloc, 1, &[plus(0)])
}
