//! Trees as texts.
use std::alloc::Global;
use tt::{DelimiterKind, Leaf, Subtree, TokenTree, TopSubtree};

// Writes a header: its bracket, and how many tokens it holds, fewer than 36, as one digit or letter.
fn push_header(text: &mut String, header: &Subtree) -> Option<()> {
    let bracket = match header.delimiter.kind {
        DelimiterKind::Parenthesis => '(',
        DelimiterKind::Brace => '{',
        DelimiterKind::Bracket => '[',
        DelimiterKind::Invisible | DelimiterKind::InvisibleOpaque => '<',
    };
    text.push(bracket).ok()?;
    text.push(char::from_digit(header.len, 36)?).ok()
}

// Writes a leaf: its text, and a space.
fn push_leaf(text: &mut String, leaf: &Leaf) -> Option<()> {
    match leaf {
        Leaf::Ident(ident) => text.push_str(ident.sym.as_str()).ok()?,
        Leaf::Punct(punct) => text.push(punct.char).ok()?,
        Leaf::Literal(literal) => text.push_str(literal.text()).ok()?,
    }
    text.push(' ').ok()
}

/// Returns the tokens of a tree as a text, its top's header too.
pub(crate) fn written(alloc: Global, tree: &TopSubtree) -> Option<String> {
    let mut text = String::new(alloc);
    push_header(&mut text, &tree.top_subtree())?;
    let mut tokens = tree.token_trees().iter_flat_tokens();
    for token in &mut tokens {
        match token {
            TokenTree::Subtree(header) => push_header(&mut text, &header)?,
            TokenTree::Leaf(leaf) => push_leaf(&mut text, &leaf)?,
        }
    }
    Some(text)
}
