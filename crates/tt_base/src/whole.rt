//! Whether a flat list is one subtree.
ghost use Rattle.std.specs.Prelude.{◌↔◌, IsTrue, IfOk};
ghost use Rattle.tt_base.specs.Forest.{IsWhole, IsOneSubtree};

use crate::levels::Levels;
use crate::token_tree::TokenTree;
use std::alloc::{AllocError, Global};

/// Returns whether the list is the flat list of exactly one subtree. Makes one pass.
///
/// Takes memory for each open subtree that has tokens after the one that is open in it, and none if there is no such subtree. Fails only
/// if memory runs out; a failure says nothing of the list.
pub fn is_one_subtree(alloc: Global, tokens: &[TokenTree]) -> Result<bool, AllocError>
    ensures { IfOk result (λ one. IsTrue one ↔ IsOneSubtree tokens.now) }
{
    let Some((TokenTree::Subtree(top), below)) = tokens.split_first() else {
        return Ok(false);
    };
    if top.len as usize != below.len() {
        return Ok(false);
    }
    Ok(is_whole(alloc, below)?)
}

// Returns whether the list is the flat list of some trees.
fn is_whole(alloc: Global, tokens: &[TokenTree]) -> Result<bool, AllocError>
    ensures { IfOk result (λ whole. IsTrue whole ↔ IsWhole tokens.now) }
{
    let mut levels = Levels::new(alloc, tokens.len());
    for token in tokens {
        if !levels.take(token)? {
            return Ok(false);
        }
    }
    Ok(levels.is_done())
}
