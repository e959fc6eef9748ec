//! Tokens to make trees of, and how a test passes.
use std::alloc::Global;
use std::test::Fail;
use tt::{
    Delimiter, DelimiterKind, ErasedFileAstId, Ident, Leaf, Punct, Spacing, Span, SpanPart,
    Subtree, TextRange, TextSize, TokenTree, TopSubtree, TtFault,
};

/// A test passes where what it asks is so.
pub(crate) fn holds(is_so: Result<bool, TtFault>) -> Result<(), Fail> {
    match is_so {
        Ok(true) => Ok(()),
        Ok(false) => Err(Fail::new("it is not so")),
        Err(fault) => Err(fault.into()),
    }
}

/// The empty span at that offset.
pub(crate) fn span(start: u32) -> Span {
    let range = TextRange::empty(TextSize::new(start));
    SpanPart::from_span(&Punct::default().span).recombine(range)
}

/// An empty span with that id.
pub(crate) fn span_with(id: u32) -> Span {
    let mut span = span(0);
    span.anchor.ast_id = ErasedFileAstId(id);
    span
}

/// A punct at offset 0.
pub(crate) fn punct(char: char, spacing: Spacing) -> TokenTree {
    let span = span(0);
    Leaf::from(Punct {
        char,
        spacing,
        span,
    })
    .into()
}

/// An ident at that offset, as a leaf.
pub(crate) fn ident_leaf(alloc: Global, text: &str, start: u32) -> Result<Leaf, TtFault> {
    Ok(Leaf::from(Ident::new(alloc, text, span(start))?))
}

/// An ident at that offset.
pub(crate) fn ident(alloc: Global, text: &str, start: u32) -> Result<TokenTree, TtFault> {
    Ok(ident_leaf(alloc, text, start)?.into())
}

/// Whether the leaf is that ident at that offset.
pub(crate) fn is_ident(leaf: &Leaf, text: &str, start: u32) -> bool {
    match leaf {
        Leaf::Ident(ident) => ident.sym.as_str() == text && ident.span == span(start),
        _ => false,
    }
}

/// The header of a subtree of that kind, which opens and closes at those offsets and holds so many tokens.
pub(crate) fn header(kind: DelimiterKind, open: u32, close: u32, len: u32) -> TokenTree {
    let delimiter = Delimiter {
        open_span: span(open),
        close: span(close),
        kind,
    };
    Subtree { delimiter, len }.into()
}

/// The header of parentheses that open and close at those offsets and hold so many tokens.
pub(crate) fn parentheses(open: u32, close: u32, len: u32) -> TokenTree {
    header(DelimiterKind::Parenthesis, open, close, len)
}

/// The tree of the list.
pub(crate) fn tree_of(alloc: Global, tokens: Vec<TokenTree>) -> Result<TopSubtree, TtFault> {
    Ok(TopSubtree::from_serialized(alloc, tokens)?)
}

/// The tree of these tokens under an invisible delimiter.
pub(crate) fn under(alloc: Global, below: &[TokenTree]) -> Result<TopSubtree, TtFault> {
    let len = u32::try_from(below.len()).unwrap_or(u32::MAX);
    let mut tokens = vec![in alloc; header(DelimiterKind::Invisible, 0, 0, len)]?;
    tokens.append(&mut Vec::from_clones(alloc, below)?)?;
    tree_of(alloc, tokens)
}
