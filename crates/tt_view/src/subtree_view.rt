//! A view of one subtree of a stored tree.
ghost use Rattle.std.specs.Prelude.{◌≡◌, Some, if◌then◌else◌};
ghost use Rattle.tt_base.specs.Forest.{only, size};
ghost use Rattle.tt_view.specs.Cuts.{HoldsRoot, HoldsRoot-prop};
ghost use Rattle.tt_base.specs.OneRoot.{one_root, stripped};
ghost use Rattle.tt_view.specs.Views.{trees_of};

use crate::iter::TtIter;
use crate::view::TokenTreesView;
use tt_base::{DelimiterKind, Subtree, TokenTree};

/// A view of one subtree.
#[derive(Clone, Copy)]
pub struct SubtreeView<'a> {
    // the list whose only tree is the subtree
    whole: TokenTreesView<'a>,
    pub ghost root: { HoldsRoot (trees_of whole) } by { HoldsRoot-prop (trees_of whole) },
}

impl<'a> SubtreeView<'a> {
    ghost use Rattle.tt_view.specs.SubtreeViews.{root_of};
    ghost use Rattle.tt_view.specs.Iters.{rest_of};

    pub(crate) fn of_one(whole: TokenTreesView<'a>) -> SubtreeView<'a>
        requires { HoldsRoot (trees_of whole) }
        ensures { only (root_of result) ≡ trees_of whole.entry }
    {
        SubtreeView { whole }
    }

    /// Returns the subtree as a list of one.
    pub fn as_token_trees(self) -> TokenTreesView<'a>
        ensures { trees_of result ≡ only (root_of self.entry) }
    {
        self.whole
    }

    // Returns the header, and the trees below it.
    fn parts(self) -> (Subtree, TokenTreesView<'a>)
        ensures delimiter { result.0.delimiter ≡ (root_of self.entry).delimiter }
        ensures len { result.0.len ≡ size (root_of self.entry).children }
        ensures children { trees_of result.1 ≡ (root_of self.entry).children }
    {
        let mut rest = self.whole;
        match rest.next_tree() {
            Some((TokenTree::Subtree(top), below)) => (top, below),
            _ => unreachable!(),
        }
    }

    /// Returns the header.
    pub fn top_subtree(&self) -> Subtree
        ensures delimiter { result.delimiter ≡ (root_of self.now).delimiter }
        ensures len { result.len ≡ size (root_of self.now).children }
    {
        self.parts().0
    }

    /// Returns the trees below the header.
    pub fn token_trees(&self) -> TokenTreesView<'a>
        ensures { trees_of result ≡ (root_of self.now).children }
    {
        self.parts().1
    }

    /// Returns an iterator over the trees below the header.
    pub fn iter(&self) -> TtIter<'a>
        ensures { rest_of result ≡ (root_of self.now).children }
    {
        self.token_trees().iter()
    }

    /// Returns the trees below the header if the subtree is invisible, otherwise the subtree as a list of one.
    pub fn strip_invisible(&self) -> TokenTreesView<'a>
        ensures { trees_of result ≡ stripped (only (root_of self.now)) }
    {
        let (top, below) = self.parts();
        match top.delimiter.kind {
            DelimiterKind::Invisible => below,
            DelimiterKind::Parenthesis
            | DelimiterKind::Brace
            | DelimiterKind::Bracket
            | DelimiterKind::InvisibleOpaque => self.whole,
        }
    }
}
