//! Ways to print a tree.
use std::alloc::Global;
use tt::{TopSubtree, TtFault, debug_text, display_text, pretty};

/// A way to print a tree.
#[derive(Clone, Copy)]
pub enum Text {
    /// The Display text, as the program shows it.
    Show,
    /// The same, by the Display of the tree, which calls itself for each level.
    Display,
    /// The `pretty` text.
    Pretty,
    /// The Debug text.
    Debug,
}

impl Text {
    /// The length of the text, which is let go.
    pub fn len(self, alloc: Global, tree: &TopSubtree) -> Result<u64, TtFault> {
        let text = match self {
            Text::Show => display_text(alloc, tree.as_token_trees())?,
            Text::Display => format!(in alloc; "{tree}").map_err(|_error| TtFault::Memory)?,
            Text::Pretty => pretty(alloc, tree.as_token_trees())?,
            Text::Debug => debug_text(alloc, tree.as_token_trees())?,
        };
        Ok(text.len() as u64)
    }
}
