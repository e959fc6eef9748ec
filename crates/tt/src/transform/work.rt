//! Rewrites a tree token by token.
ghost use Rattle.std.specs.Prelude.{◌≡◌, ◌<◌, ◌++◌, ◌∷◌, [], true, MatchOption, IfOk, OnOk, length, get_or, set};
ghost use Rattle.std.specs.Fn.{CalledAt};
ghost use Rattle.tt_base.specs.declared.token_tree.TokenTree.{TokenTree as Token};
ghost use Rattle.tt_base.specs.Forest.{Forest, end, flat, only};
ghost use Rattle.tt_view.specs.SubtreeViews.{root_of};
ghost use Rattle.tt_view.specs.Views.{trees_of};
ghost use Rattle.tt.specs.Rewrites.{action_of, Rewrites};
ghost use Rattle.tt.specs.Work.{Work, lowest, given, kept, done, counted, token_of, below_of, IsTaken, IsTooLarge, StandsFor, GoesOn, IsEnded, Ends, Takes};

use super::{Frame, Rewriting, TransformTtAction};
use std::alloc::{AllocError, Global};
use tt_base::TokenTree;
use tt_view::{SubtreeView, TokenTreesView, TtElement};

// Sets the count of the header at a place.
fn set_count(list: &mut Vec<TokenTree>, header: usize, len: u32)
    requires { header < length list.old.items }
    ensures { (d : Token) → list.new.items ≡ set list.old.items header (counted len (get_or list.old.items header d)) }
{
    if let TokenTree::Subtree(subtree) = &mut list[header] {
        subtree.len = len;
    }
}

// Appends the tokens of the trees.
fn append(list: &mut Vec<TokenTree>, trees: TokenTreesView<'_>) -> Result<(), AllocError>
    ensures { OnOk result (list.new.items ≡ list.old.items ++ flat (trees_of trees.entry)) }
{
    for token in trees.iter_flat_tokens() {
        list.push(token)?;
    }
    Ok(())
}

// Returns the token of an element, and the trees below it.
fn parts<'t>(element: TtElement<'t>) -> (TokenTree, TokenTreesView<'t>)
    ensures token { result.0 ≡ token_of element.entry }
    ensures below { trees_of result.1 ≡ below_of element.entry }
{
    match element {
        TtElement::Leaf(leaf) => (TokenTree::Leaf(leaf), TokenTreesView::empty()),
        TtElement::Subtree(subtree, below) => (TokenTree::Subtree(subtree), below.remaining()),
    }
}

impl<'t> Rewriting<'t> {
    // Returns the state before the first token of the tree, with room for as many tokens as the tree has.
    fn new(alloc: Global, tree: SubtreeView<'t>) -> Result<Rewriting<'t>, AllocError>
        ensures { IfOk result (λ work. StandsFor work (lowest end (only (root_of tree.entry)))) }
    {
        Ok(Rewriting {
            list: Vec::with_capacity(alloc, tree.as_token_trees().len())?,
            frames: Vec::new(alloc),
            rest: tree.as_token_trees(),
            fits: true,
        })
    }

    // Returns the next token, and the trees below it. Closes each open subtree that has no unread trees before it.
    fn next(&mut self) -> Option<(TokenTree, TokenTreesView<'t>)>
        requires { (work : Work) × StandsFor self.old work }
        ensures { MatchOption result (Ends self.old self.new) (λ found. Takes self.old self.new found.0 (trees_of found.1)) }
    {
        loop {
            let mut siblings = self.rest.iter();
            if let Some(element) = siblings.next() {
                self.rest = siblings.remaining();
                return Some(parts(element));
            }
            let frame = self.frames.pop()?;
            self.close(frame);
        }
    }

    // Closes the innermost open subtree, which has this frame and no unread trees.
    fn close(&mut self, frame: Frame<'t>)
        requires { (work : Work) × IsEnded self.old frame work }
        ensures goes { (work : Work) → IsEnded self.old frame.entry work → GoesOn work self.new }
        ensures frames { self.new.frames.items ≡ self.old.frames.items }
    {
        self.rest = frame.rest;
        if !self.fits {
            return;
        }
        let count = self.list.len() - frame.header - 1;
        match u32::try_from(count) {
            Ok(len) => set_count(&mut self.list, frame.header, len),
            Err(_) => self.fits = false,
        }
    }

    // Keeps a token that was taken, with the trees below it.
    fn keep(&mut self, token: TokenTree, below: TokenTreesView<'t>) -> Result<(), AllocError>
        ensures { OnOk result ((work : Work) → IsTaken work → StandsFor self.old work → StandsFor self.new (kept token (trees_of below.entry) work)) }
    {
        if let TokenTree::Subtree(_) = &token {
            self.frames.push(Frame {
                header: self.list.len(),
                rest: self.rest,
            })?;
            self.rest = below;
        }
        if self.fits {
            self.list.push(token)?;
        }
        Ok(())
    }

    // Puts trees in the place of the subtree or leaf that was taken.
    fn replace(&mut self, trees: TokenTreesView<'_>) -> Result<(), AllocError>
        ensures { OnOk result ((work : Work) → IsTaken work → StandsFor self.old work → StandsFor self.new (given (trees_of trees.entry) work)) }
    {
        if self.fits {
            append(&mut self.list, trees)?;
        }
        Ok(())
    }

    // Applies the action to a token that was taken, with the trees below it.
    fn obey(
        &mut self,
        token: TokenTree,
        below: TokenTreesView<'t>,
        action: TransformTtAction<'_>,
    ) -> Result<(), AllocError>
        ensures { OnOk result ((work : Work) → IsTaken work → StandsFor self.old work → StandsFor self.new (done (action_of action.entry) token (trees_of below.entry) work)) }
    {
        match action {
            TransformTtAction::Keep => self.keep(token, below),
            TransformTtAction::ReplaceWith(trees) => self.replace(trees),
        }
    }
}

/// Calls the callback for the tokens of the tree. Returns the flat list of the result, or `None` if a subtree of the result has too many
/// tokens. Fails only if memory runs out.
pub(super) fn rewritten_list<'b, F: FnMut(&TokenTree) -> TransformTtAction<'b>>(
    alloc: Global,
    tree: SubtreeView<'_>,
    mut callback: F,
) -> Result<Option<Vec<TokenTree>>, AllocError>
    requires { F.IsAlwaysCallable callback }
    ensures { IfOk result (λ list. (result : Forest) × Rewrites (CalledAt F.FnMut) callback (only (root_of tree.entry)) result × MatchOption list (IsTooLarge result) (λ list. list.items ≡ flat result)) }
{
    let mut work = Rewriting::new(alloc, tree)?;
    while let Some((token, below)) = work.next() {
        let action = callback(&token);
        work.obey(token, below, action)?;
    }
    if work.fits {
        return Ok(Some(work.list));
    }
    Ok(None)
}
