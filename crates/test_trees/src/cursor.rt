//! Cursors: what is here, what was passed, and an iterator that goes to a cursor.
use crate::tokens::{holds, ident, is_ident, parentheses, under};
use std::alloc::Global;
use std::test::Fail;
use tt::buffer::Cursor;
use tt::{Subtree, TokenTree, TopSubtree, TtElement, TtFault, TtIter};

// Parentheses from 0 to 2 over the ident `a`, with the ident `b` behind them.
fn one_inside(alloc: Global) -> Result<TopSubtree, TtFault> {
    let (a, b) = (ident(alloc, "a", 1)?, ident(alloc, "b", 3)?);
    under(alloc, &[parentheses(0, 2, 1), a, b])
}

// Whether the token is that ident at that offset.
fn is_token(token: Option<TokenTree>, text: &str, start: u32) -> bool {
    match token {
        Some(TokenTree::Leaf(leaf)) => is_ident(&leaf, text, start),
        _ => false,
    }
}

// Whether the cursor is at that ident, and not at two leaves.
fn is_at_one_leaf(cursor: &Cursor<'_>, text: &str, start: u32) -> bool {
    is_token(cursor.token_tree(), text, start) && cursor.peek_two_leaves().is_none()
}

// Whether the cursor is outside, behind the parentheses with that header and what they hold.
fn is_behind(left: Subtree, cursor: &Cursor<'_>) -> bool {
    TokenTree::from(left) == parentheses(0, 2, 1) && cursor.is_root() && cursor.crossed().len() == 2
}

// The header of the subtree at whose end the cursor is, which is left then.
fn leave(cursor: &mut Cursor<'_>) -> Option<Subtree> {
    if cursor.token_tree().is_some() || cursor.eof() {
        return None;
    }
    Some(cursor.end())
}

// Whether the cursor leaves the parentheses here.
fn leaves_them(cursor: &mut Cursor<'_>) -> bool {
    match leave(cursor) {
        Some(left) => is_behind(left, cursor),
        None => false,
    }
}

// Whether a cursor at the start goes into the parentheses over one ident, and out of them.
fn goes_in_and_out(cursor: &mut Cursor<'_>) -> Result<bool, TtFault> {
    cursor.bump_or_end()?;
    let is_inside = is_at_one_leaf(cursor, "a", 1);
    cursor.bump_or_end()?;
    Ok(is_inside && leaves_them(cursor))
}

#[test]
fn into_parentheses_and_out(rt: HostRuntime) -> Result<(), Fail> {
    let tree = one_inside(rt.alloc())?;
    holds(goes_in_and_out(&mut tree.token_trees().cursor(rt.alloc())))
}

// Parentheses over the idents `a` and `b`, with the ident `c` behind them.
fn two_inside(alloc: Global) -> Result<TopSubtree, TtFault> {
    let (a, b) = (ident(alloc, "a", 1)?, ident(alloc, "b", 2)?);
    let c = ident(alloc, "c", 4)?;
    under(alloc, &[parentheses(0, 3, 2), a, b, c])
}

// Whether the next sibling is that ident at that offset.
fn gives(siblings: &mut TtIter<'_>, text: &str, start: u32) -> bool {
    match siblings.next() {
        Some(TtElement::Leaf(leaf)) => is_ident(&leaf, text, start),
        _ => false,
    }
}

// Whether the siblings are the idents `b` and `c`.
fn are_the_last_two(siblings: &mut TtIter<'_>) -> bool {
    siblings.remaining().len() == 2
        && gives(siblings, "b", 2)
        && gives(siblings, "c", 4)
        && siblings.next().is_none()
}

// Whether an iterator goes to a cursor at the second token inside its first sibling.
fn go_to_a_cursor(alloc: Global, tree: &TopSubtree) -> Result<bool, TtFault> {
    let mut siblings = tree.iter();
    let mut cursor = tree.token_trees().cursor(alloc);
    cursor.bump_or_end()?;
    cursor.bump_or_end()?;
    siblings.flat_advance_to(&cursor);
    Ok(are_the_last_two(&mut siblings))
}

#[test]
fn an_iterator_goes_to_a_cursor(rt: HostRuntime) -> Result<(), Fail> {
    let tree = two_inside(rt.alloc())?;
    holds(go_to_a_cursor(rt.alloc(), &tree))
}
