//! The builder that grows by a call, and what it makes behind the call.
use crate::alike::{MARK, close_at};
use std::alloc::Global;
use test_sweep::{
    braces, delimiter, flat_tree, header, invisible, leaves_of, punct, push_all, span, tree_of,
};
use tt::{DelimiterKind, Leaf, Spacing, TokenTree, TopSubtree, TopSubtreeBuilder, TtFault};

// How many brackets are open in the builder, one in another.
const OPEN: u32 = 4;

// The id of their open spans.
const OPEN_ID: u32 = 0;

/// The id of a span whose part the builder does not use.
pub const NEW_ID: u32 = 50;

// The puncts and the idents in the innermost bracket, and the id of each. Each ident has a symbol and a span part of its own,
// of which the first is that of the headers too. With so many of them a builder has no room for one more symbol or one more
// part, and with the five headers they are the 25 tokens for which it makes room at first. The last ident brings the last
// value, so nothing is sought behind it.
const FIRST: [(&str, u32); 20] = [
    ("+", 0),
    ("+", 0),
    ("a", 0),
    ("b", 12),
    ("c", 13),
    ("d", 14),
    ("e", 15),
    ("f", 16),
    ("g", 17),
    ("h", 18),
    ("i", 19),
    ("j", 20),
    ("k", 21),
    ("l", 22),
    ("m", 23),
    ("n", 24),
    ("o", 25),
    ("p", 26),
    ("q", 27),
    ("r", 28),
];

/// An ident of a span part and a name that the builder does not use.
pub const NEW: [(&str, u32); 1] = [("new", NEW_ID)];

/// Ten idents of one span part, which the builder uses, and of names that it does not use.
pub const NEW_NAMES: [(&str, u32); 10] = [
    ("A", 0),
    ("B", 0),
    ("C", 0),
    ("D", 0),
    ("E", 0),
    ("F", 0),
    ("G", 0),
    ("H", 0),
    ("I", 0),
    ("J", 0),
];

// What `ten` has.
const TEN: [(&str, u32); 10] = [
    ("+", 1),
    ("+", 2),
    ("+", 3),
    ("+", 4),
    ("+", 5),
    ("+", 6),
    ("+", 7),
    ("+", 8),
    ("+", 9),
    ("+", 10),
];

/// How many restore points it has taken.
pub const TAKEN: u64 = 5;

/// A builder of braces over an empty invisible subtree and four open brackets, and in the innermost the puncts and the idents.
/// Of its five restore points the second is not valid. So it has 25 tokens, four open subtrees and four points, and no room
/// for one more of any.
pub fn builder(alloc: Global) -> Result<TopSubtreeBuilder, TtFault> {
    let mut builder = TopSubtreeBuilder::new(alloc, braces())?;
    fill(alloc, &mut builder)?;
    Ok(builder)
}

fn fill(alloc: Global, builder: &mut TopSubtreeBuilder) -> Result<(), TtFault> {
    builder.restore_point()?;
    builder.open(DelimiterKind::Invisible, span(OPEN_ID))?;
    builder.restore_point()?;
    close_at(builder, span(OPEN_ID))?;
    open_brackets(builder)?;
    push_leaves(builder, leaves_of(alloc, &FIRST)?)?;
    builder.restore_point()?;
    builder.restore_point()?;
    builder.restore_point()?;
    Ok(())
}

fn open_brackets(builder: &mut TopSubtreeBuilder) -> Result<(), TtFault> {
    for _ in 0..OPEN {
        builder.open(DelimiterKind::Bracket, span(OPEN_ID))?;
    }
    Ok(())
}

fn push_leaves(builder: &mut TopSubtreeBuilder, leaves: Vec<Leaf>) -> Result<(), TtFault> {
    for leaf in leaves {
        builder.push(leaf)?;
    }
    Ok(())
}

/// The tree that the builder makes behind the call, when the mark has closed all that is open.
pub fn after(alloc: Global, call: &str) -> Result<TopSubtree, TtFault> {
    if call == "TopSubtreeBuilder::new" {
        return flat_tree(alloc, &[]);
    }
    let mut below = Vec::new(alloc);
    push_all(&mut below, &leaves_of(alloc, &FIRST)?)?;
    push_all(&mut below, &appended(alloc, call)?)?;
    if call == "open" {
        let parentheses = delimiter(DelimiterKind::Parenthesis, NEW_ID, MARK);
        below.push(header(parentheses, 0))?;
    }
    let innermost = if call == "close" { NEW_ID } else { MARK };
    over(alloc, below, innermost)
}

// The leaves that the call appends.
fn appended(alloc: Global, call: &str) -> Result<Vec<Leaf>, TtFault> {
    match call {
        "push" => leaves_of(alloc, &NEW),
        "extend" | "extend_with_tt" => leaves_of(alloc, &TEN),
        "extend_with_tt_alone" => Ok(last_alone(leaves_of(alloc, &TEN)?)),
        "extend_by_names" => leaves_of(alloc, &NEW_NAMES),
        _ => Ok(Vec::new(alloc)),
    }
}

// Ten leaves, of which the last is alone.
fn last_alone(leaves: Vec<Leaf>) -> Vec<Leaf> {
    let mut leaves = leaves;
    if let Some(last) = leaves.last_mut() {
        *last = punct('+', Spacing::Alone, 10);
    }
    leaves
}

// The tree of the builder over what its innermost bracket holds, which is closed by a span of that id.
fn over(alloc: Global, below: Vec<TokenTree>, innermost: u32) -> Result<TopSubtree, TtFault> {
    let len = u32::try_from(below.len()).unwrap_or(0);
    let mut list = vec![in alloc; header(braces(), len.saturating_add(OPEN + 1))]?;
    list.push(header(invisible(), 0))?;
    for deeper in (0..OPEN).rev() {
        let close = if deeper == 0 { innermost } else { MARK };
        let brackets = delimiter(DelimiterKind::Bracket, OPEN_ID, close);
        list.push(header(brackets, len.saturating_add(deeper)))?;
    }
    list.extend(below.into_iter())?;
    tree_of(alloc, list)
}
