//! Rewrites trees by a callback.
ghost use Rattle.std.specs.Prelude.{◌≡◌, ◌⊎◌, IfOk, IfErr, OnOk, OnErr};
ghost use Rattle.std.specs.Fn.{CalledAt};
ghost use Rattle.tt_base.specs.declared.fault.TtFault.TheVariants.{Memory};
ghost use Rattle.tt_base.specs.Forest.{Forest, end, only, flat, flat_root};
ghost use Rattle.tt_base.specs.Rewriting.{replace};
ghost use Rattle.tt_view.specs.Stored.{IsWithinLimits};
ghost use Rattle.tt.specs.Rewrites.{action_of, Rewrites, IsResultFault, IsRewriteFault};

mod work;

use std::alloc::Global;
use tt_base::{TokenTree, TtFault};
use tt_view::{TokenTreesView, TopSubtree};
use work::rewritten_list;

/// What `transform_tt` does with a token.
#[derive(Clone, Copy, Debug)]
pub enum TransformTtAction<'a> {
    /// Keeps the token. If it is a header, the callback is called for what its subtree holds.
    Keep,
    /// Puts these trees in the place of the leaf, or of the whole subtree.
    ReplaceWith(TokenTreesView<'a>),
}

impl<'a> TransformTtAction<'a> {
    /// Returns the action that removes the leaf or the whole subtree.
    pub fn remove() -> TransformTtAction<'a>
        ensures { action_of result ≡ replace end }
    {
        TransformTtAction::ReplaceWith(TokenTreesView::empty())
    }
}

/// Calls the callback for each token in reading order, from the top on, and rewrites the tree by its answers. The callback sees each
/// header with its old count. It is not called for what a replaced subtree holds, nor for the trees of a replacement. The callback must
/// accept any token, as one without a `requires` does.
///
/// Fails, and leaves the tree as it was, if the result is not one subtree (`NotOneSubtree`), if it exceeds a limit of a tree, or if
/// memory runs out. Unless memory ran out, the callback was called for all tokens.
pub fn transform_tt<'b, F: FnMut(&TokenTree) -> TransformTtAction<'b>>(
    alloc: Global,
    tree: &mut TopSubtree,
    callback: F,
) -> Result<(), TtFault>
    requires { F.IsAlwaysCallable callback }
    ensures ok { OnOk result (Rewrites (CalledAt F.FnMut) callback (only tree.old) (only tree.new)) }
    ensures limits { OnOk result (IsWithinLimits tree.new) }
    ensures err { OnErr result (tree.new ≡ tree.old) }
    ensures fault { IfErr result (IsRewriteFault (CalledAt F.FnMut) callback tree.old) }
{
    *tree = rewritten(alloc, tree, callback)?;
    Ok(())
}

// Returns the rewritten tree.
fn rewritten<'b, F: FnMut(&TokenTree) -> TransformTtAction<'b>>(
    alloc: Global,
    tree: &TopSubtree,
    callback: F,
) -> Result<TopSubtree, TtFault>
    requires { F.IsAlwaysCallable callback }
    ensures ok { IfOk result (λ new. Rewrites (CalledAt F.FnMut) callback (only tree.now) (only new)) }
    ensures limits { IfOk result (λ new. IsWithinLimits new) }
    ensures fault { IfErr result (IsRewriteFault (CalledAt F.FnMut) callback tree.now) }
{
    match rewritten_list(alloc, tree.view(), callback)? {
        Some(list) => stored(alloc, list),
        None => Err(TtFault::TooManyTokens),
    }
}

// Returns the tree whose flat list this is. Fails if the list is not that of one subtree, exceeds a limit, or memory runs out.
fn stored(alloc: Global, list: Vec<TokenTree>) -> Result<TopSubtree, TtFault>
    ensures ok { IfOk result (λ tree. list.items ≡ flat_root tree) }
    ensures limits { IfOk result (λ tree. IsWithinLimits tree) }
    ensures fault { IfErr result (λ fault. (trees : Forest) → list.items ≡ flat trees → (fault ≡ Memory) ⊎ IsResultFault trees fault) }
{
    match list.split_first() {
        None => Err(TtFault::NotOneSubtree),
        Some((TokenTree::Leaf(_), _)) => Err(TtFault::NotOneSubtree),
        Some((TokenTree::Subtree(top), _)) => {
            // Reads the count, whose type shows that the list is short enough.
            let _len = top.len;
            Ok(TopSubtree::from_serialized(alloc, list)?)
        }
    }
}

// A kept subtree with trees that are not read yet: the place of its header in the list, and the trees after it.
#[derive(Clone, Copy)]
struct Frame<'t> {
    header: usize,
    rest: TokenTreesView<'t>,
}

// The state of a rewriting.
#[derive(Drop)]
struct Rewriting<'t> {
    // the tokens written so far; the headers of the open subtrees have their old counts
    list: Vec<TokenTree>,
    // the open subtrees, outermost first
    frames: Vec<Frame<'t>>,
    // the unread trees of the innermost open subtree
    rest: TokenTreesView<'t>,
    // no written subtree is too large; once one is, the list does not grow any more
    fits: bool,
}
