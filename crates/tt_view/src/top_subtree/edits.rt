//! Changes one leaf of a tree.
ghost use Rattle.std.specs.Prelude.{◌≡◌, IfOk, IfErr, OnOk, OnErr};
ghost use Rattle.tt_base.specs.Edits.{HasLeafAt, leaf_set};
ghost use Rattle.tt_base.specs.Forest.{flat, flat_root};
ghost use Rattle.tt_tables.specs.Stored.{IsWithinLimits};
ghost use Rattle.tt_view.specs.TreeFault.{IsSetFault};
ghost use Rattle.tt_view.specs.Views.{trees_of};

use crate::top_subtree::TopSubtree;
use crate::view::TokenTreesView;
use std::alloc::{AllocError, Global};
use tt_base::{Leaf, Refused, TokenTree, TtFault};
use tt_pack::Packed;

// Returns all tokens of the trees, each header before all that its subtree holds.
fn flat_list(alloc: Global, trees: TokenTreesView<'_>) -> Result<Vec<TokenTree>, AllocError>
    ensures { IfOk result (λ list. list.items ≡ flat (trees_of trees.entry)) }
{
    let mut list = Vec::with_capacity(alloc, trees.len())?;
    for token in trees.iter_flat_tokens() {
        list.push(token)?;
    }
    Ok(list)
}

impl TopSubtree {
    /// Replaces the leaf at a place of the flat list, and stores the tree again. Place 0 is the top. Fails, and leaves the tree as it
    /// was, if there is no such place (`NoSuchPlace`), if a header is there (`NotALeaf`), if the new tree exceeds a limit, or if memory
    /// runs out. A failure returns the leaf.
    pub fn set_token(&mut self, alloc: Global, idx: usize, leaf: Leaf) -> Result<(), Refused<Leaf>>
        ensures there { OnOk result (HasLeafAt (flat_root self.old) idx) }
        ensures ok { OnOk result (self.new ≡ leaf_set idx leaf self.old) }
        ensures limits { OnOk result (IsWithinLimits self.new) }
        ensures err { OnErr result (self.new ≡ self.old) }
        ensures fault { IfErr result (λ refused. IsSetFault self.old idx leaf refused.fault) }
        ensures leaf { IfErr result (λ refused. refused.value ≡ leaf) }
    {
        match self.with_leaf(alloc, idx, &leaf) {
            Ok(packed) => {
                self.packed = packed;
                Ok(())
            }
            Err(fault) => Err(Refused { fault, value: leaf }),
        }
    }

    // Returns the tree with the leaf at that place, stored again.
    fn with_leaf(&self, alloc: Global, idx: usize, leaf: &Leaf) -> Result<Packed, TtFault>
        ensures ok { IfOk result (λ packed. HasLeafAt (flat_root self.now) idx × (packed ≡ leaf_set idx leaf.now self.now)) }
        ensures limits { IfOk result (λ packed. IsWithinLimits packed) }
        ensures err { IfErr result (IsSetFault self.now idx leaf.now) }
    {
        // the contract of `bytes` says that the tree is within the limits
        let _bytes = self.packed.bytes();
        let trees = self.as_token_trees();
        match trees.token_at(idx) {
            None => return Err(TtFault::NoSuchPlace),
            Some(TokenTree::Subtree(_)) => return Err(TtFault::NotALeaf),
            Some(TokenTree::Leaf(_)) => {}
        }
        let mut tokens = flat_list(alloc, trees)?;
        tokens[idx] = TokenTree::Leaf(leaf.clone()?);
        Ok(Packed::pack(alloc, tokens)?)
    }
}
