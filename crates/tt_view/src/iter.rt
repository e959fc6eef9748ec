//! An iterator over the trees of a list.
ghost use Rattle.std.specs.Prelude.{◌≡◌, IfSome, MatchOption, Some, None, false, option_map};
ghost use Rattle.tt_base.specs.Forest.{Forest, end, join, flat, IsWhole};
ghost use Rattle.tt_base.specs.Walk.{events_ahead, tokens_of, flat_left};
ghost use Rattle.tt_base.specs.Token.{first_span as token_span};
ghost use Rattle.tt_base.specs.Moves.{first_token, after_tree, step_after};
ghost use Rattle.tt_base.specs.Siblings.{first_tree, is_end, tree_span};

use crate::cursor::Cursor;
use crate::view::TokenTreesView;
use tt_base::{Leaf, Span, Subtree, TokenTree};
use tt_pack::TokenKind;

/// An iterator over the trees of a list. It decodes one token for each tree that it passes, whatever the size of the tree.
#[derive(Debug, Clone, Drop)]
pub struct TtIter<'a> {
    inner: TokenTreesView<'a>,
}

/// A tree of a list.
#[derive(Debug, Clone, Drop)]
pub enum TtElement<'a> {
    Leaf(Leaf),
    /// A header, and the trees below it.
    Subtree(Subtree, TtIter<'a>),
}

/// The trees that an iterator had left.
#[derive(Clone, Copy)]
pub struct TtIterSavepoint<'a>(TokenTreesView<'a>);

impl<'a> Iterator for TtIter<'a> {
    ghost use Rattle.std.specs.Iterator.{item_count};
    ghost use Rattle.tt_base.specs.Siblings.{list_of};
    ghost use Rattle.tt_view.specs.Iters.{rest_of, GivesSibling};

    type Item = TtElement<'a>;

    ghost next_gives = { GivesSibling };

    ghost remaining = { item_count (λ iter. list_of (rest_of iter)) };

    #[inline(always)]
    fn next(&mut self) -> Option<TtElement<'a>> {
        self.take_element()
    }
}

impl<'a> TtElement<'a> {
    ghost use Rattle.tt_view.specs.Iters.{tree_of};

    /// Returns a leaf's span, or a header's open span.
    pub fn first_span(&self) -> Span
        ensures { result ≡ tree_span (tree_of self.now) }
    {
        match self {
            TtElement::Leaf(leaf) => *leaf.span(),
            TtElement::Subtree(subtree, _) => subtree.delimiter.open_span,
        }
    }
}

impl<'a> TtIterSavepoint<'a> {
    ghost use Rattle.tt_view.specs.Iters.{saved_of};
    ghost use Rattle.tt_view.specs.Views.{trees_of};

    /// Returns the trees that the iterator had left.
    pub fn remaining(self) -> TokenTreesView<'a>
        ensures { trees_of result ≡ saved_of self.entry }
    {
        self.0
    }
}

impl<'a> TtIter<'a> {
    ghost use Rattle.tt_view.specs.Iters.{rest_of, saved_of, steps_of_iter, IsFirstElement, GivesSibling};
    ghost use Rattle.tt_view.specs.FirstKinds.{IsFirstKind};
    ghost use Rattle.tt_view.specs.Views.{trees_of};

    pub(crate) fn over(inner: TokenTreesView<'a>) -> TtIter<'a>
        ensures { rest_of result ≡ trees_of inner.entry }
    {
        TtIter { inner }
    }

    // Returns a second iterator at the same place.
    pub(crate) fn fork(&self) -> TtIter<'a>
        ensures { result ≡ self.now }
    {
        TtIter { inner: self.inner }
    }

    // The same as `next`; its contract is a clause.
    #[inline(always)]
    pub(crate) fn take_element(&mut self) -> Option<TtElement<'a>>
        ensures { GivesSibling self.old result self.new }
    {
        let (token, below) = self.inner.next_tree()?;
        Some(match token {
            TokenTree::Leaf(leaf) => TtElement::Leaf(leaf),
            TokenTree::Subtree(subtree) => TtElement::Subtree(subtree, TtIter { inner: below }),
        })
    }

    /// Returns how many tokens were decoded on the way to this place. The count stays at the largest `u64` once it is that.
    pub fn steps(&self) -> u64
        ensures { result ≡ steps_of_iter self.now }
    {
        self.inner.steps()
    }

    /// Returns the element that `next` would return, and takes nothing.
    pub fn peek(&self) -> Option<TtElement<'a>>
        ensures { IsFirstElement (rest_of self.now) result }
    {
        self.fork().take_element()
    }

    /// Returns whether no tree is left.
    pub fn is_empty(&self) -> bool
        ensures { result ≡ is_end (rest_of self.now) }
    {
        self.inner.is_empty()
    }

    /// Returns the first span of the element that `next` would return.
    pub fn next_span(&self) -> Option<Span>
        ensures { result ≡ option_map token_span (first_token (rest_of self.now)) }
    {
        self.inner.first_span()
    }

    /// Returns the trees that are left.
    pub fn remaining(&self) -> TokenTreesView<'a>
        ensures { trees_of result ≡ rest_of self.now }
    {
        self.inner
    }

    /// Returns this place, for `from_savepoint`.
    pub fn savepoint(&self) -> TtIterSavepoint<'a>
        ensures { saved_of result ≡ rest_of self.now }
    {
        TtIterSavepoint(self.inner)
    }

    /// Returns the trees between a savepoint and this place. This place is after none, one or more of the trees that were left at the
    /// savepoint. That is so if this iterator, or the one that it is a clone of, passed only siblings since then: by `next`,
    /// `next_kind`, `next_as_view` and the `expect_` calls.
    pub fn from_savepoint(&self, savepoint: TtIterSavepoint<'a>) -> TokenTreesView<'a>
        requires { (given : Forest) × (saved_of savepoint ≡ join given (rest_of self.now)) }
        ensures { join (trees_of result) (rest_of self.now) ≡ saved_of savepoint.entry }
    {
        savepoint.0.before(self.inner)
    }

    /// Takes the next tree, and returns what it is. Costs less than `next`: it makes no span, and copies no symbol.
    #[inline(always)]
    pub fn next_kind(&mut self) -> Option<TokenKind<'a>>
        ensures kind { IsFirstKind (rest_of self.old) result }
        ensures rest { rest_of self.new ≡ after_tree (rest_of self.old) }
        ensures steps { steps_of_iter self.new ≡ step_after (steps_of_iter self.old) (rest_of self.old) }
    {
        self.inner.next_kind()
    }

    /// Takes the next tree, and returns it as a list of one.
    pub fn next_as_view(&mut self) -> Option<TokenTreesView<'a>>
        ensures first { MatchOption result (rest_of self.old ≡ end) (λ view. trees_of view ≡ first_tree (rest_of self.old)) }
        ensures some { IfSome result (λ _. is_end (rest_of self.old) ≡ false) }
        ensures rest { rest_of self.new ≡ after_tree (rest_of self.old) }
        ensures steps { steps_of_iter self.new ≡ step_after (steps_of_iter self.old) (rest_of self.old) }
    {
        let whole = self.inner;
        self.inner.next_tree()?;
        Some(whole.before(self.inner))
    }

    /// Goes to the cursor's place. All tokens ahead of the cursor are then left, also those after the subtrees that it is in. These are
    /// whole trees at any place of the cursor.
    pub fn flat_advance_to(&mut self, cursor: &Cursor<'a>)
        ensures left { flat (rest_of self.new) ≡ flat_left cursor.now }
        ensures tokens { flat (rest_of self.new) ≡ tokens_of (events_ahead cursor.now) }
        ensures whole { IsWhole (flat_left cursor.now) }
    {
        self.inner = cursor.flat_rest();
    }
}
