//! Ways to read a tree.
use crate::error::BenchError;
use crate::look::{AtStart, AtWhole, Look, start_of};
use std::alloc::Global;
use tt::{TopSubtree, TtElement, TtFault, TtIter};

// How deep a walk by siblings goes. Each level takes some hundred bytes of stack.
const MOST_DEPTH: u32 = 4096;

/// A way to read a tree.
#[derive(Clone, Copy)]
pub enum Walk {
    /// Each token in the order of the flat list.
    Flat,
    /// The same, with the whole of each token looked at.
    FlatWhole,
    /// The children of the top, each passed at once.
    Skip,
    /// Each token, by siblings: a subtree is passed, and then entered.
    Siblings,
    /// The same, with the whole of each token looked at.
    SiblingsWhole,
    /// Each place of the walk through the tree, by a cursor.
    Cursor,
}

impl Walk {
    /// The sum of the start offsets of the tokens that are read. `TooDeep` if a walk by siblings cannot enter all.
    pub fn sum(self, alloc: Global, tree: &TopSubtree) -> Result<u64, BenchError> {
        match self {
            Walk::Flat => Ok(flat::<AtStart>(tree)),
            Walk::FlatWhole => Ok(flat::<AtWhole>(tree)),
            Walk::Skip => Ok(skip(tree)),
            Walk::Siblings => siblings::<AtStart>(tree),
            Walk::SiblingsWhole => siblings::<AtWhole>(tree),
            Walk::Cursor => Ok(by_cursor(alloc, tree)?),
        }
    }
}

// Reads token by token.
#[inline(never)]
fn flat<L: Look>(tree: &TopSubtree) -> u64 {
    let mut sum = 0u64;
    for token in tree.as_token_trees().iter_flat_tokens() {
        sum = sum.wrapping_add(L::token(&token));
    }
    sum
}

// Passes the children of the top.
#[inline(never)]
fn skip(tree: &TopSubtree) -> u64 {
    let mut sum = 0u64;
    for child in tree.iter() {
        sum = sum.wrapping_add(start_of(&child.first_span()));
    }
    sum
}

// Passes the top, enters it, and so on below.
#[inline(never)]
fn siblings<L: Look>(tree: &TopSubtree) -> Result<u64, BenchError> {
    let all = tree.as_token_trees().iter();
    sum_of::<L>(all, MOST_DEPTH).ok_or(BenchError::TooDeep)
}

// The sum of siblings and of all that they hold. `None` if they hold more levels than so many.
fn sum_of<L: Look>(siblings: TtIter<'_>, levels: u32) -> Option<u64> {
    if levels == 0 {
        return None;
    }
    let mut sum = 0u64;
    for sibling in siblings {
        match sibling {
            TtElement::Leaf(leaf) => sum = sum.wrapping_add(L::leaf(&leaf)),
            TtElement::Subtree(subtree, below) => {
                let inside = sum_of::<L>(below, levels - 1)?;
                sum = sum.wrapping_add(L::subtree(&subtree));
                sum = sum.wrapping_add(inside);
            }
        }
    }
    Some(sum)
}

// Goes from place to place, and looks at the token there, if there is one.
#[inline(never)]
fn by_cursor(alloc: Global, tree: &TopSubtree) -> Result<u64, TtFault> {
    let mut cursor = tree.as_token_trees().cursor(alloc);
    let mut sum = 0u64;
    while !cursor.eof() {
        if let Some(token) = cursor.token_tree() {
            sum = sum.wrapping_add(AtStart::token(&token));
        }
        cursor.bump_or_end()?;
    }
    Ok(sum)
}
