//! Lists that come one after another.
use std::alloc::Global;
use tt::{TokenTree, TtFault};

/// Flat lists that come one after another, token by token. A list begins with its top, which says how many tokens belong to
/// it.
#[derive(Drop)]
pub struct Lists {
    lists: Vec<Vec<TokenTree>>,
    // how many tokens of the last list are still to come
    left: usize,
}

impl Lists {
    /// No token has come yet.
    pub fn new(alloc: Global) -> Lists {
        Lists {
            lists: Vec::new(alloc),
            left: 0,
        }
    }

    /// Takes the token that comes next.
    pub fn push(&mut self, alloc: Global, token: TokenTree) -> Result<(), TtFault> {
        if self.left == 0 {
            self.left = length(&token);
            self.lists.push(Vec::new(alloc))?;
        }
        self.left = self.left.saturating_sub(1);
        match self.lists.last_mut() {
            Some(list) => Ok(list.push(token)?),
            None => Err(TtFault::NotOneSubtree),
        }
    }

    /// The lists so far. Of the last one tokens may be missing.
    pub fn into_vec(self) -> Vec<Vec<TokenTree>> {
        self.lists
    }
}

// How many tokens belong to the list that begins with this one.
fn length(first: &TokenTree) -> usize {
    match first {
        TokenTree::Subtree(top) => top.usize_len().saturating_add(1),
        TokenTree::Leaf(_) => 1,
    }
}
