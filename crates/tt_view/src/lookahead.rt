//! The tokens ahead of a cursor. The first one is decoded.
ghost use Rattle.std.specs.Prelude.{◌≡◌, MatchOption, Some};
ghost use Rattle.tt_base.specs.Forest.{size};
ghost use Rattle.tt_base.specs.Moves.{first_token, after_token};
ghost use Rattle.tt_base.specs.Siblings.{is_end};
ghost use Rattle.tt_base.specs.declared.delimiter.Subtree.{Subtree};
ghost use Rattle.tt_base.specs.declared.leaf.Leaf.{Leaf};
ghost use Rattle.tt_base.specs.declared.token_tree.TokenTree.TheVariants as token;

use crate::view::TokenTreesView;
use std::marker::Model;
use tt_base::{Leaf, Subtree, TokenTree};

/// All tokens ahead of a cursor. It keeps the first one, and so decodes it once, however many calls read it.
#[derive(Drop)]
pub(crate) struct Lookahead<'a> {
    trees: TokenTreesView<'a>,
    first: Option<TokenTree>,
    // the tokens after the first
    rest: TokenTreesView<'a>,
}

impl<'a> Model for Lookahead<'a> {
    ghost use Rattle.tt_base.specs.Forest.{Forest};
    ghost use Rattle.tt_base.specs.Unflat.{forest_code};

    ghost Value = { Forest };

    ghost coded = { forest_code };

    ghost use Rattle.tt_view.specs.Views.{trees_of};

    ghost view = { λ ahead. trees_of ahead.trees };

    ghost use Rattle.tt_view.specs.Lookahead.{KeepsFirst};

    ghost invariant = { KeepsFirst };
}

// Returns a copy of the token. Takes no memory: the proof shows that the arm that would take some is never reached.
#[inline(always)]
fn copy_of(token: &TokenTree) -> TokenTree
    ensures { result ≡ token.now }
{
    match token.clone() {
        Ok(copy) => copy,
        Err(_) => unreachable!(),
    }
}

impl<'a> Lookahead<'a> {
    ghost use Rattle.tt_view.specs.Views.{trees_of};

    pub(crate) fn over(trees: TokenTreesView<'a>) -> Lookahead<'a>
        ensures { result ≡ trees_of trees.entry }
    {
        let mut rest = trees;
        let first = rest.next_token();
        Lookahead { trees, first, rest }
    }

    /// Returns all tokens, as trees.
    pub(crate) fn trees(&self) -> TokenTreesView<'a>
        ensures { trees_of result ≡ self.now }
    {
        self.trees
    }

    /// Returns the number of tokens.
    pub(crate) fn len(&self) -> usize
        ensures { result ≡ size self.now }
    {
        self.trees.len()
    }

    /// Returns whether there is no token.
    pub(crate) fn is_empty(&self) -> bool
        ensures { result ≡ is_end self.now }
    {
        self.trees.is_empty()
    }

    /// Returns the first token.
    pub(crate) fn token(&self) -> Option<TokenTree>
        ensures { result ≡ first_token self.now }
    {
        self.first.as_ref().map(copy_of)
    }

    /// Returns the first token if it is a header.
    pub(crate) fn header(&self) -> Option<Subtree>
        ensures { MatchOption result ((it : Subtree) → first_token self.now ≡ Some (token.Subtree it) → ⊥) (λ header. first_token self.now ≡ Some (token.Subtree header)) }
    {
        match &self.first {
            Some(TokenTree::Subtree(header)) => Some(*header),
            _ => None,
        }
    }

    /// Returns the first token if it is a leaf, and the trees after it.
    pub(crate) fn leaf(&self) -> Option<(Leaf, TokenTreesView<'a>)>
        ensures { MatchOption result ((it : Leaf) → first_token self.now ≡ Some (token.Leaf it) → ⊥) (λ found. (first_token self.now ≡ Some (token.Leaf found.0)) × (trees_of found.1 ≡ after_token self.now)) }
    {
        match self.token()? {
            TokenTree::Leaf(leaf) => Some((leaf, self.rest)),
            TokenTree::Subtree(_) => None,
        }
    }

    /// Passes the first token, if there is one.
    #[inline(always)]
    pub(crate) fn pass(&mut self)
        ensures { self.new ≡ after_token self.old }
    {
        self.trees = self.rest;
        self.first = self.rest.next_token();
    }
}
