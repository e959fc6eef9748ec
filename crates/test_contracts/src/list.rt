//! From flat lists to trees and back, and whether two lists are the same.
ghost use Rattle.std.specs.Prelude.{◌≡◌, ◌↔◌, IfOk, IsTrue};
ghost use Rattle.tt.specs.Forest.{flat_root};

use std::alloc::Global;
use tt::{TokenTree, TopSubtree, TtFault};

/// Returns the flat list of a tree.
pub fn flat_list(alloc: Global, tree: &TopSubtree) -> Result<Vec<TokenTree>, TtFault>
    ensures { IfOk result (λ list. list.items ≡ flat_root tree.now) }
{
    let mut list = Vec::new(alloc);
    for token in tree.as_token_trees().iter_flat_tokens() {
        list.push(token)?;
    }
    Ok(list)
}

/// Packs a flat list and reads it back: the result is the same list.
pub fn round_trip(alloc: Global, tokens: Vec<TokenTree>) -> Result<Vec<TokenTree>, TtFault>
    ensures { IfOk result (λ list. list.items ≡ tokens.items) }
{
    let tree = TopSubtree::from_serialized(alloc, tokens)?;
    flat_list(alloc, &tree)
}

/// Returns whether two flat lists are the same. Packs them and compares what is stored.
pub fn same_tree(
    alloc: Global,
    left: Vec<TokenTree>,
    right: Vec<TokenTree>,
) -> Result<bool, TtFault>
    ensures { IfOk result (λ same. IsTrue same ↔ left.items ≡ right.items) }
{
    let left = TopSubtree::from_serialized(alloc, left)?;
    let right = TopSubtree::from_serialized(alloc, right)?;
    Ok(left == right)
}
