//! Texts with the number of trees that a fragment takes, and whether `reach` returns the same number.
use crate::texts::tree_of;
use mbe_grammar::reach;
use mbe_pattern::GrammarFragment;
use std::alloc::Global;

/// A fragment, and texts with the number of trees that it takes of each; 0 if it takes none.
pub(crate) struct Row {
    pub(crate) fragment: GrammarFragment,
    pub(crate) texts: &'static [(&'static str, usize)],
}

// Returns how many trees of the text the fragment takes; 0 if it takes none.
fn taken(alloc: Global, fragment: GrammarFragment, text: &str) -> Option<usize> {
    let tree = tree_of(alloc, text)?;
    let count = reach(alloc, fragment, tree.token_trees().iter()).ok()?;
    Some(count.unwrap_or(0))
}

// Returns whether the fragment takes that number of trees of each text.
fn are_taken(alloc: Global, row: &Row) -> bool {
    for (text, count) in row.texts {
        if taken(alloc, row.fragment, text) != Some(*count) {
            return false;
        }
    }
    true
}

/// Returns whether the fragments take that number of trees of all these texts.
pub(crate) fn all_are_taken(alloc: Global, rows: &[Row]) -> bool {
    for row in rows {
        if !are_taken(alloc, row) {
            return false;
        }
    }
    true
}
