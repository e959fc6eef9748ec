//! Walks that own their tree: into a subtree and out of it, and past trees.
use crate::tokens::{holds, ident, is_ident, parentheses, under};
use std::alloc::Global;
use std::test::Fail;
use tt::{Subtree, TokenTree, TopSubtree, TreeWalk, TtElement, TtFault};

// Parentheses over the idents `a` and `b`, with the ident `c` behind them.
fn two_inside(alloc: Global) -> Result<TopSubtree, TtFault> {
    let (a, b) = (ident(alloc, "a", 1)?, ident(alloc, "b", 2)?);
    let c = ident(alloc, "c", 4)?;
    under(alloc, &[parentheses(0, 3, 2), a, b, c])
}

// Whether that ident comes first, and so many tokens are left.
fn is_at(walk: &TreeWalk, text: &str, start: u32, len: usize) -> bool {
    match walk.rest().next() {
        Some(TtElement::Leaf(leaf)) => {
            is_ident(&leaf, text, start) && walk.rest().remaining().len() == len
        }
        _ => false,
    }
}

// Whether the header is that of the parentheses.
fn is_theirs(header: Option<Subtree>) -> bool {
    match header {
        Some(header) => TokenTree::from(header) == parentheses(0, 3, 2),
        None => false,
    }
}

// Whether a walk enters the parentheses, passes `a`, enters no ident, and leaves with `b` left inside.
fn goes_in_and_out(walk: &mut TreeWalk) -> Result<bool, TtFault> {
    let header = walk.enter()?;
    let begins = is_theirs(header) && is_at(walk, "a", 1, 2);
    walk.pass(1);
    let stays = walk.enter()?.is_none() && is_at(walk, "b", 2, 1);
    let leaves = walk.leave() && is_at(walk, "c", 4, 1);
    Ok(begins && stays && leaves && !walk.leave() && is_at(walk, "c", 4, 1))
}

#[test]
fn a_walk_goes_into_a_subtree_and_out(rt: HostRuntime) -> Result<(), Fail> {
    let tree = two_inside(rt.alloc())?;
    holds(goes_in_and_out(&mut TreeWalk::new(rt.alloc(), tree)))
}

// Whether a walk passes the parentheses at once, and is at the end behind more trees than there are.
fn passes_all(walk: &mut TreeWalk) -> bool {
    walk.pass(1);
    let at_last = is_at(walk, "c", 4, 1);
    walk.pass(2);
    at_last && walk.rest().is_empty()
}

#[test]
fn a_walk_passes_trees(rt: HostRuntime) -> Result<(), Fail> {
    let tree = two_inside(rt.alloc())?;
    holds(Ok(passes_all(&mut TreeWalk::new(rt.alloc(), tree))))
}
