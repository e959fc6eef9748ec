//! Views: pieces, the last span, and one step for each sibling and each level.
ghost use Rattle.std.specs.Prelude.{◌≡◌};

use crate::tokens::{holds, ident, parentheses, punct, span, tree_of, under};
use std::alloc::{AllocError, Global};
use std::test::Fail;
use tt::{Spacing, TokenTree, TokenTreesView, TopSubtree, TtElement, TtFault, TtIter};

// The lengths of the pieces of a view whose siblings are in turn a separator and none.
fn piece_lengths_by_turns(
    alloc: Global,
    trees: TokenTreesView<'_>,
) -> Result<Vec<usize>, AllocError> {
    let mut found = Vec::new(alloc);
    let mut is_separator = false;
    let pieces = trees.split(
        |_element|
            ensures { is_separator.exit ≡ result }
        {
            is_separator = !is_separator;
            is_separator
        },
    );
    for piece in pieces {
        found.push(piece.len())?;
    }
    Ok(found)
}

// So many semicolons under a top.
fn semicolons(alloc: Global, count: u32) -> Result<TopSubtree, TtFault> {
    let mut tokens = Vec::new(alloc);
    for _ in 0..count {
        tokens.push(punct(';', Spacing::Alone))?;
    }
    under(alloc, tokens.as_slice())
}

// Whether four of them are cut into pieces of 0, 1 and 1.
fn are_pieces(alloc: Global) -> Result<bool, TtFault> {
    let tree = semicolons(alloc, 4)?;
    let found = piece_lengths_by_turns(alloc, tree.token_trees())?;
    Ok(found.as_slice() == [0, 1, 1].as_slice())
}

#[test]
fn pieces_of_a_changing_mind(rt: HostRuntime) -> Result<(), Fail> {
    holds(are_pieces(rt.alloc()))
}

// Whether the last span below an invisible top over these tokens is the empty one at that offset.
fn ends_at(alloc: Global, below: &[TokenTree], end: u32) -> Result<bool, TtFault> {
    let tree = under(alloc, below)?;
    Ok(tree.token_trees().last_span() == Some(span(end)))
}

// Whether the last span is that of a leaf, of a close where nothing is below, and none where there are no trees.
fn are_last(alloc: Global) -> Result<bool, TtFault> {
    let over_one = [parentheses(1, 9, 1), ident(alloc, "a", 5)?];
    Ok(
        ends_at(alloc, &over_one, 5)?
            && ends_at(alloc, &[parentheses(1, 9, 0)], 9)?
            && TokenTreesView::empty().last_span().is_none(),
    )
}

#[test]
fn last_spans(rt: HostRuntime) -> Result<(), Fail> {
    holds(are_last(rt.alloc()))
}

// So many parentheses over two puncts.
fn groups(alloc: Global, count: u32) -> Result<TopSubtree, TtFault> {
    let mut tokens = Vec::new(alloc);
    for _ in 0..count {
        tokens.push(parentheses(0, 3, 2))?;
        tokens.push(punct(',', Spacing::Alone))?;
        tokens.push(punct(';', Spacing::Alone))?;
    }
    under(alloc, tokens.as_slice())
}

// Whether the next sibling is a subtree of two tokens.
fn gives_a_group(siblings: &mut TtIter<'_>) -> bool {
    match siblings.next() {
        Some(TtElement::Subtree(subtree, _)) => subtree.count() == 2,
        _ => false,
    }
}

// Whether the siblings are so many subtrees of two tokens, of which each is passed by one step.
fn are_groups(siblings: &mut TtIter<'_>, count: u64) -> bool {
    let start = siblings.steps();
    for passed in 0..count {
        if siblings.steps().wrapping_sub(start) != passed || !gives_a_group(siblings) {
            return false;
        }
    }
    siblings.next().is_none() && siblings.steps().wrapping_sub(start) == count
}

#[test]
fn one_step_a_sibling(rt: HostRuntime) -> Result<(), Fail> {
    let tree = groups(rt.alloc(), 200)?;
    holds(Ok(are_groups(&mut tree.iter(), 200)))
}

// Parentheses in one another.
fn nest(alloc: Global, depth: u32) -> Result<TopSubtree, TtFault> {
    let mut tokens = Vec::new(alloc);
    for len in (0..depth).rev() {
        tokens.push(parentheses(0, 1, len))?;
    }
    tree_of(alloc, tokens)
}

// Whether flat reading gives these parentheses.
fn is_nest(trees: TokenTreesView<'_>, depth: u32) -> bool {
    let mut tokens = trees.iter_flat_tokens();
    for len in (0..depth).rev() {
        if tokens.next() != Some(parentheses(0, 1, len)) {
            return false;
        }
    }
    tokens.next().is_none()
}

// Whether each level is entered by one step, and the last one is empty.
fn is_entered(trees: TokenTreesView<'_>, depth: u32) -> bool {
    let mut level = trees.iter();
    let start = level.steps();
    for passed in 1..depth as u64 + 1 {
        let Some(TtElement::Subtree(_, below)) = level.next() else {
            return false;
        };
        level = below;
        if level.steps().wrapping_sub(start) != passed {
            return false;
        }
    }
    level.next().is_none()
}

#[test]
fn levels_entered(rt: HostRuntime) -> Result<(), Fail> {
    let tree = nest(rt.alloc(), 200000)?;
    let trees = tree.as_token_trees();
    holds(Ok(is_nest(trees, 200000) && is_entered(trees, 200000)))
}
