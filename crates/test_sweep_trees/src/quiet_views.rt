//! Calls of trees, views, iterators and cursors that take no memory.
use crate::prepared::Prepared;
use std::alloc::Global;
use std::fmt;
use std::fmt::Write;
use test_sweep::{plus, span};
use tt::buffer::Cursor;
use tt::{Leaf, Span, TokenTreesView, TopSubtree, TransformTtAction, TtElement, TtFault, TtIter};

/// The views of a tree, and trees compared.
pub fn trees(given: &Prepared<'_>) -> bool {
    let tree = given.tree;
    *tree == *given.copy
        && *tree != *given.sum
        && tree.view().top_subtree() == tree.top_subtree()
        && tree.top_subtree().count() == tree.token_trees().len()
        && tree.view().token_trees().len() == tree.view().as_token_trees().len().saturating_sub(1)
        && tree.iter().remaining().len() == tree.view().iter().remaining().len()
}

/// The views of parentheses over an ident with the id 1 and a plus with the id 2.
pub fn views(given: &Prepared<'_>) -> bool {
    let whole = given.sum.as_token_trees();
    let below = given.sum.token_trees();
    TokenTreesView::empty().is_empty()
        && below.try_into_subtree().is_none()
        && whole.try_into_subtree().is_some()
        && whole.strip_invisible().len() == 3
        && given.empty.view().strip_invisible().len() == 0
        && below.first_span() == Some(span(1))
        && below.last_span() == Some(span(2))
        && below.iter_flat_tokens().last() == Some(plus(2).into())
        && has_two_pieces(below)
}

// Whether the view has two pieces between its pluses.
fn has_two_pieces(trees: TokenTreesView<'_>) -> bool {
    let mut pieces = trees.split(is_plus);
    pieces.next().is_some() && pieces.next().is_some() && pieces.next().is_none()
}

// Whether the element is a plus.
fn is_plus(element: TtElement<'_>) -> bool {
    match element {
        TtElement::Leaf(Leaf::Punct(punct)) => punct.char == '+',
        _ => false,
    }
}

// Counts bytes.
#[derive(Drop)]
struct Counter(usize);

impl fmt::Write for Counter {
    fn write_str(&mut self, text: &str) -> fmt::Result {
        self.0 = self.0.saturating_add(text.len());
        Ok(())
    }
}

/// Display and Debug, of trees and of what reads them.
pub fn texts(sum: &TopSubtree) -> bool {
    let mut counter = Counter(0);
    let display = write!(counter, "{sum}{}", sum.token_trees());
    // (a +) and a +
    let is_shown = display.is_ok() && counter.0 == 8;
    let siblings = sum.iter();
    let first = siblings.peek();
    let action = TransformTtAction::remove();
    let debug = write!(counter, "{sum:?}{siblings:?}{first:?}{action:?}");
    is_shown && debug.is_ok()
}

/// An iterator over an ident with the id 1 and a plus with the id 2.
pub fn siblings(siblings: TtIter<'_>) -> bool {
    let mut siblings = siblings;
    let steps = siblings.steps();
    let looked = starts_at(siblings.peek(), siblings.next_span());
    let start = siblings.savepoint();
    let has_passed_none = passes_none(&siblings) && is_copied(&siblings);
    siblings.next();
    let is_one = is_one_tree(siblings.next_as_view());
    looked
        && has_passed_none
        && is_one
        && siblings.is_empty()
        && start.remaining().len() == 2
        && siblings.steps() == steps.saturating_add(2)
}

// Whether a copy of an iterator begins as it does.
fn is_copied(siblings: &TtIter<'_>) -> bool {
    let copy: Result<TtIter<'_>, _> = siblings.clone();
    match (copy, siblings.peek()) {
        (Ok(copy), Some(first)) => is_element_copied(&first)
            && starts_at(copy.peek(), copy.next_span()),
        _ => false,
    }
}

// Whether a copy of the element begins as it does.
fn is_element_copied(element: &TtElement<'_>) -> bool {
    let copy: Result<TtElement<'_>, _> = element.clone();
    match copy {
        Ok(copy) => copy.first_span() == element.first_span(),
        Err(_) => false,
    }
}

// Whether no tree is between a place and itself.
fn passes_none(siblings: &TtIter<'_>) -> bool {
    let start = siblings.savepoint();
    siblings.from_savepoint(start).is_empty()
}

// Whether the element is one with the id 1, and the span is its.
fn starts_at(element: Option<TtElement<'_>>, next: Option<Span>) -> bool {
    match (element, next) {
        (Some(element), Some(next)) => element.first_span() == next && next == span(1),
        _ => false,
    }
}

// Whether the view has one token.
fn is_one_tree(view: Option<TokenTreesView<'_>>) -> bool {
    match view {
        Some(view) => view.len() == 1,
        None => false,
    }
}

/// Each expectation, of an ident and a plus.
pub fn expectations(trees: TokenTreesView<'_>) -> bool {
    let refused = [
        trees.iter().expect_char('+').is_err(),
        trees.iter().expect_any_char(&['+', '-']).is_err(),
        trees.iter().expect_subtree().is_err(),
        trees.iter().expect_dollar().is_err(),
        trees.iter().expect_comma().is_err(),
        trees.iter().expect_literal().is_err(),
        trees.iter().expect_single_punct().is_err(),
    ];
    let met = [
        trees.iter().expect_leaf().is_ok(),
        trees.iter().expect_ident().is_ok(),
        trees.iter().expect_ident_or_underscore().is_ok(),
    ];
    refused == [true, true, true, true, true, true, true]
        && met == [true, true, true]
        && glued(trees.iter()) == Some(1)
}

// Returns how many puncts of one operator come after the first sibling.
fn glued(siblings: TtIter<'_>) -> Option<usize> {
    let mut siblings = siblings;
    siblings.next();
    match siblings.expect_glued_punct() {
        Ok(puncts) => Some(puncts.len()),
        Err(()) => None,
    }
}

/// The walk through an ident and a plus.
pub fn cursors(alloc: Global, trees: TokenTreesView<'_>) -> Result<bool, TtFault> {
    let mut cursor = trees.cursor(alloc);
    walks(&mut cursor, trees)
}

// Whether a cursor in front of them goes through the trees.
fn walks<'a>(cursor: &mut Cursor<'a>, trees: TokenTreesView<'a>) -> Result<bool, TtFault> {
    let is_here = cursor.peek_two_leaves().is_some() && cursor.token_tree().is_some();
    cursor.bump_or_end()?;
    let left = left_at(cursor, trees);
    cursor.bump_or_end()?;
    Ok(is_here && left == 1 && cursor.eof() && is_back(cursor))
}

// How many trees are left to an iterator that goes to the place of the cursor.
fn left_at<'a>(cursor: &Cursor<'a>, trees: TokenTreesView<'a>) -> usize {
    let mut siblings = trees.iter();
    siblings.flat_advance_to(cursor);
    siblings.remaining().len()
}

// Whether the cursor has left all that it entered, and has crossed two trees.
fn is_back(cursor: &Cursor<'_>) -> bool {
    cursor.is_root() && cursor.crossed().len() == 2
}
