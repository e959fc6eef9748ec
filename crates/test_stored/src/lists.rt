//! Tokens at given spots, and the trees that are stored for flat lists of them.

use crate::tables::{Spot, span};
use std::alloc::{AllocError, Global};
use tt_base::{Delimiter, DelimiterKind, Ident, Leaf, Punct, Spacing, Subtree, TokenTree, TtFault};
use tt_pack::{Packed, Reader};

/// A header that opens and closes there, and holds so many tokens.
pub(crate) fn header(kind: DelimiterKind, opening: Spot, closing: Spot, len: u32) -> TokenTree {
    let delimiter = Delimiter {
        open_span: span(opening),
        close: span(closing),
        kind,
    };
    Subtree { delimiter, len }.into()
}

/// An invisible header of part 0 that holds so many tokens.
pub(crate) fn top(len: u32) -> TokenTree {
    header(DelimiterKind::Invisible, (0, 0, 0), (0, 0, 0), len)
}

/// A punct there.
pub(crate) fn punct(char: char, spacing: Spacing, spot: Spot) -> TokenTree {
    let span = span(spot);
    Leaf::from(Punct {
        char,
        spacing,
        span,
    })
    .into()
}

/// An ident there.
pub(crate) fn ident(alloc: Global, text: &str, spot: Spot) -> Result<TokenTree, TtFault> {
    Ok(Leaf::from(Ident::new(alloc, text, span(spot))?).into())
}

/// The header of a brace from 0 to 6 over two tokens.
pub(crate) fn brace() -> TokenTree {
    header(DelimiterKind::Brace, (0, 0, 1), (0, 5, 6), 2)
}

/// A brace from 0 to 6 over the ident `a` and that token.
pub(crate) fn braces_over(alloc: Global, last: TokenTree) -> Result<Vec<TokenTree>, TtFault> {
    let name = ident(alloc, "a", (0, 2, 3))?;
    Ok(vec![in alloc; brace(), name, last]?)
}

/// A brace from 0 to 6 over the ident `a` and a semicolon.
pub(crate) fn braces(alloc: Global) -> Result<Vec<TokenTree>, TtFault> {
    braces_over(alloc, punct(';', Spacing::Alone, (0, 3, 4)))
}

/// A copy of the tokens behind a header.
pub(crate) fn with_below(
    alloc: Global,
    header: TokenTree,
    below: &[TokenTree],
) -> Result<Vec<TokenTree>, AllocError> {
    let mut tokens = vec![in alloc; header]?;
    tokens.append(&mut Vec::from_clones(alloc, below)?)?;
    Ok(tokens)
}

/// The tree that is stored for a copy of the list.
pub(crate) fn stored(alloc: Global, tokens: &[TokenTree]) -> Result<Packed, TtFault> {
    Ok(Packed::pack(alloc, Vec::from_clones(alloc, tokens)?)?)
}

/// Whether the reader gives that token.
pub(crate) fn gives(reader: &mut Reader<'_>, token: &TokenTree) -> bool {
    match reader.advance() {
        Some(found) => found == *token,
        None => false,
    }
}

/// Whether the reader is at that offset after so many steps.
pub(crate) fn is_at(reader: &Reader<'_>, place: usize, steps: u64) -> bool {
    reader.place() == place && reader.steps() == steps
}

/// Whether the reader is at that offset after so many steps, with no token ahead.
pub(crate) fn is_at_end(reader: &mut Reader<'_>, place: usize, steps: u64) -> bool {
    reader.advance().is_none() && is_at(reader, place, steps)
}

/// Whether a reader finds these tokens in the tree, one step each, and no others.
pub(crate) fn is_read(tree: &Packed, tokens: &[TokenTree]) -> bool {
    let mut reader = Reader::start(tree);
    for token in tokens {
        if !gives(&mut reader, token) {
            return false;
        }
    }
    tree.len() == tokens.len() && is_at_end(&mut reader, tree.bytes().len(), tokens.len() as u64)
}
