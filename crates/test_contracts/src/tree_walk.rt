//! A walk through the first tree of a tree alone.
ghost use Rattle.std.specs.Prelude.{◌≡◌};
ghost use Rattle.tt.specs.Siblings.{first_tree};
ghost use Rattle.tt.specs.TreeWalks.{innermost};

use std::alloc::Global;
use tt::{TopSubtree, TreeWalk};

/// Returns a walk through the first tree alone, if there is one.
pub fn walk_first(alloc: Global, tree: TopSubtree) -> TreeWalk
    ensures { innermost result ≡ first_tree tree.children }
{
    let len = match tree.iter().next_as_view() {
        Some(first) => first.len(),
        None => 0,
    };
    TreeWalk::through_front(alloc, tree, len)
}
