//! Trees that calls are given, and what they are compared with.
use crate::lists::{header, invisible, plus_list, push_all};
use std::alloc::Global;
use tt::{Leaf, TokenTree, TopSubtree, TtFault};

/// The tree of a list.
pub fn tree_of(alloc: Global, list: Vec<TokenTree>) -> Result<TopSubtree, TtFault> {
    Ok(TopSubtree::from_serialized(alloc, list)?)
}

/// The tree of a long list whose brackets end in a plus.
pub fn long_tree(alloc: Global) -> Result<TopSubtree, TtFault> {
    tree_of(alloc, plus_list(alloc)?)
}

/// The tree of an invisible top over leaves.
pub fn flat_tree(alloc: Global, leaves: &[Leaf]) -> Result<TopSubtree, TtFault> {
    let len = u32::try_from(leaves.len()).unwrap_or(0);
    let mut list = vec![in alloc; header(invisible(), len)]?;
    push_all(&mut list, leaves)?;
    tree_of(alloc, list)
}

/// Whether flat reading gives that list.
pub fn is_of(tree: &TopSubtree, list: &[TokenTree]) -> bool {
    let mut tokens = tree.as_token_trees().iter_flat_tokens();
    for token in list {
        if tokens.next().as_ref() != Some(token) {
            return false;
        }
    }
    tokens.next().is_none()
}
