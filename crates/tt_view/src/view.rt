//! A view of a list of trees in a stored tree.
ghost use Rattle.std.specs.Prelude.{◌≡◌, ◌+◌, ◌-◌, ◌^◌, ◌<◌, min, ℕ, IfSome, MatchOption, Some, None, option_map, slice_get, false};
ghost use Rattle.tt_base.specs.Forest.{Forest, end, only, size, join, flat};
ghost use Rattle.tt_base.specs.Token.{first_span as token_span};
ghost use Rattle.tt_base.specs.Moves.{first_token, after_token, after_tree, step_after};
ghost use Rattle.tt_pack.specs.ReaderOf.{ahead_of};
ghost use Rattle.tt_base.specs.declared.leaf.Leaf.{Leaf};
ghost use Rattle.tt_base.specs.declared.token_tree.TokenTree.TheVariants as token;
ghost use Rattle.tt_view.specs.Cuts.{HoldsTrees, HoldsTrees-prop};
ghost use Rattle.tt_view.specs.HeldPlaces.{IsHeld, trees_at};
ghost use Rattle.tt_base.specs.Siblings.{children_of, is_end};
ghost use Rattle.tt_base.specs.OneRoot.{one_root, stripped};
ghost use Rattle.tt_base.specs.Token.{count_below, close_span};
ghost use Rattle.tt_base.specs.LastSpan.{last_span as last_span_of};
ghost use Rattle.tt_base.specs.Walk.{begun};

use crate::cursor::Cursor;
use crate::flat::FlatTokens;
use crate::iter::{TtElement, TtIter};
use crate::split::Split;
use crate::subtree_view::SubtreeView;
use crate::top_subtree::TopSubtree;
use std::alloc::Global;
use tt_base::{Leaf, Span, TokenTree};
use tt_pack::{Packed, Reader, TokenKind};

/// A view of a list of trees, which follow one another in a stored tree.
#[derive(Clone, Copy)]
pub struct TokenTreesView<'a> {
    reader: Reader<'a>,
    // the number of tokens of the trees, at any depth
    len: usize,
    pub ghost trees: { HoldsTrees (ahead_of reader) len } by { HoldsTrees-prop (ahead_of reader) len },
}

// Returns the number of tokens below a token, by its header; 0 for a leaf.
pub(crate) fn count_below(token: &TokenTree) -> usize
    ensures { result ≡ count_below token.now }
{
    match token {
        TokenTree::Leaf(_) => 0,
        TokenTree::Subtree(subtree) => subtree.usize_len(),
    }
}

// Returns a leaf's span, or a header's close span.
fn close_span(token: &TokenTree) -> Span
    ensures { result ≡ close_span token.now }
{
    match token {
        TokenTree::Leaf(leaf) => *leaf.span(),
        TokenTree::Subtree(subtree) => subtree.delimiter.close,
    }
}

impl<'a> TokenTreesView<'a> {
    ghost use Rattle.tt_view.specs.Views.{trees_of, steps_of_view};
    ghost use Rattle.tt_view.specs.SubtreeViews.{root_of, flat_rest};
    ghost use Rattle.tt_view.specs.Iters.{rest_of};
    ghost use Rattle.tt_view.specs.FirstKinds.{IsFirstKind};
    ghost use Rattle.tt_view.specs.Pieces.{left_in, is_done, asks_by};

    /// Returns the empty list.
    pub fn empty() -> TokenTreesView<'a>
        ensures { trees_of result ≡ end }
    {
        TokenTreesView {
            reader: Reader::empty(),
            len: 0,
        }
    }

    // Returns the trees of the first `len` tokens at an offset of a stored tree.
    pub(crate) fn at(tree: &'a TopSubtree, offset: usize, len: usize) -> TokenTreesView<'a>
        requires { IsHeld tree.now (record { offset = offset; len = len }) }
        ensures { (held : IsHeld tree.now (record { offset = offset; len = len })) → trees_of result ≡ trees_at tree.now _ held }
    {
        TokenTreesView {
            reader: Reader::at(tree.packed(), offset),
            len,
        }
    }

    // Returns a whole stored tree as a list of one.
    pub(crate) fn whole(packed: &'a Packed) -> TokenTreesView<'a>
        ensures { trees_of result ≡ only packed.now }
    {
        TokenTreesView {
            reader: Reader::start(packed),
            len: packed.len(),
        }
    }

    // Returns the trees below the top of a stored tree, without decoding the top's header.
    pub(crate) fn below_top(packed: &'a Packed) -> TokenTreesView<'a>
        ensures { trees_of result ≡ packed.now.children }
    {
        TokenTreesView {
            reader: Reader::below_top(packed),
            len: packed.len() - 1,
        }
    }

    /// Returns the number of tokens of the trees, at any depth.
    pub fn len(&self) -> usize
        ensures { result ≡ size (trees_of self.now) }
    {
        self.len
    }

    /// Returns whether there is no tree.
    pub fn is_empty(&self) -> bool
        ensures { result ≡ is_end (trees_of self.now) }
    {
        self.len == 0
    }

    // Returns how many tokens were decoded on the way to this list.
    pub(crate) fn steps(&self) -> u64
        ensures { result ≡ steps_of_view self.now }
    {
        self.reader.steps()
    }

    /// Returns an iterator over the trees.
    pub fn iter(&self) -> TtIter<'a>
        ensures { rest_of result ≡ trees_of self.now }
    {
        TtIter::over(*self)
    }

    /// Returns a cursor at the start of the walk through the trees. Takes no memory.
    pub fn cursor(&self, alloc: Global) -> Cursor<'a>
        ensures { result ≡ begun (trees_of self.now) }
    {
        Cursor::new(alloc, *self)
    }

    /// Returns an iterator over the tokens, each header before all that its subtree holds.
    pub fn iter_flat_tokens(&self) -> FlatTokens<'a>
        ensures { flat_rest result ≡ trees_of self.now }
    {
        FlatTokens::over(*self)
    }

    /// Returns an iterator over the pieces between the trees for which `is_separator` returns true.
    pub fn split<F: FnMut(TtElement<'a>) -> bool + Drop>(self, is_separator: F) -> Split<'a, F>
        ensures rest { left_in result ≡ trees_of self.entry }
        ensures done { is_done result ≡ false }
        ensures asks { asks_by result ≡ is_separator }
    {
        Split::over(self.iter(), is_separator)
    }

    /// Returns the subtree if the list is exactly one subtree.
    pub fn try_into_subtree(self) -> Option<SubtreeView<'a>>
        ensures { option_map root_of result ≡ one_root (trees_of self.entry) }
    {
        let mut behind = self;
        let (token, _) = behind.next_tree()?;
        match token {
            TokenTree::Leaf(_) => None,
            TokenTree::Subtree(_) => {
                if behind.is_empty() {
                    Some(SubtreeView::of_one(self))
                } else {
                    None
                }
            }
        }
    }

    /// Returns the trees inside if the list is exactly one invisible subtree, otherwise the list itself.
    pub fn strip_invisible(self) -> TokenTreesView<'a>
        ensures { trees_of result ≡ stripped (trees_of self.entry) }
    {
        match self.try_into_subtree() {
            Some(subtree) => subtree.strip_invisible(),
            None => self,
        }
    }

    /// Returns the first span of the first token, or `None` for the empty list.
    pub fn first_span(&self) -> Option<Span>
        ensures { result ≡ option_map token_span (first_token (trees_of self.now)) }
    {
        let mut rest = *self;
        let token = rest.next_token()?;
        Some(token.first_span())
    }

    /// Returns the span of the last token if it is a leaf, or its close span if it is a header, whose subtree is then empty. Returns
    /// `None` for the empty list.
    pub fn last_span(&self) -> Option<Span>
        ensures { result ≡ last_span_of (trees_of self.now) }
    {
        let mut last = None;
        let mut rest = *self;
        while let Some((token, below)) = rest.next_tree() {
            if rest.is_empty() {
                last = Some(close_span(&token));
                rest = below;
            }
        }
        last
    }

    // Returns the trees before `rest`. The list ends in `rest`.
    pub(crate) fn before(self, rest: TokenTreesView<'a>) -> TokenTreesView<'a>
        requires { (given : Forest) × (trees_of self ≡ join given (trees_of rest)) }
        ensures { join (trees_of result) (trees_of rest.entry) ≡ trees_of self.entry }
    {
        TokenTreesView {
            reader: self.reader,
            len: self.len - rest.len,
        }
    }

    // Takes and returns the first token. The trees below it are then the first ones left. With `?` in place of the `else`, the code would
    // copy the token once more.
    #[inline(always)]
    pub(crate) fn next_token(&mut self) -> Option<TokenTree>
        ensures token { result ≡ first_token (trees_of self.old) }
        ensures rest { trees_of self.new ≡ after_token (trees_of self.old) }
    {
        if self.len == 0 {
            return None;
        }
        let Some(token) = self.reader.advance() else {
            return None;
        };
        self.len -= 1;
        Some(token)
    }

    // Returns the token at a place of the flat list. Passes each tree that ends before that place by decoding one token.
    pub(crate) fn token_at(self, place: usize) -> Option<TokenTree>
        ensures { result ≡ slice_get (flat (trees_of self.entry)) place }
    {
        let mut rest = self;
        let mut left = place;
        while let Some((token, below)) = rest.next_tree() {
            if left == 0 {
                return Some(token);
            }
            left -= 1;
            if left < below.len {
                rest = below;
            } else {
                left -= below.len;
            }
        }
        None
    }

    // Takes the first tree, and returns its token and the trees below it.
    #[inline(always)]
    pub(crate) fn next_tree(&mut self) -> Option<(TokenTree, TokenTreesView<'a>)>
        ensures tree { MatchOption result (trees_of self.old ≡ end) (λ found. (first_token (trees_of self.old) ≡ Some found.0) × (trees_of found.1 ≡ children_of (trees_of self.old))) }
        ensures rest { trees_of self.new ≡ after_tree (trees_of self.old) }
        ensures steps { steps_of_view self.new ≡ step_after (steps_of_view self.old) (trees_of self.old) }
    {
        if self.len == 0 {
            return None;
        }
        let (token, below) = self.reader.advance_skip()?;
        let len = count_below(&token);
        self.len -= 1 + len;
        Some((token, TokenTreesView { reader: below, len }))
    }

    // Takes the first tree, and returns what it is. Makes no token.
    #[inline(always)]
    pub(crate) fn next_kind(&mut self) -> Option<TokenKind<'a>>
        ensures kind { IsFirstKind (trees_of self.old) result }
        ensures rest { trees_of self.new ≡ after_tree (trees_of self.old) }
        ensures steps { steps_of_view self.new ≡ step_after (steps_of_view self.old) (trees_of self.old) }
    {
        if self.len == 0 {
            return None;
        }
        let (kind, _) = self.reader.advance_skip_kind()?;
        let len = kind.count_below();
        self.len -= 1 + len;
        Some(kind)
    }

    // Returns the first token if it is a leaf, and the trees after it.
    pub(crate) fn flat_leaf(self) -> Option<(Leaf, TokenTreesView<'a>)>
        ensures { MatchOption result ((it : Leaf) → first_token (trees_of self.entry) ≡ Some (token.Leaf it) → ⊥) (λ found. (first_token (trees_of self.entry) ≡ Some (token.Leaf found.0)) × (trees_of found.1 ≡ after_token (trees_of self.entry))) }
    {
        let mut rest = self;
        match rest.next_token()? {
            TokenTree::Leaf(leaf) => Some((leaf, rest)),
            TokenTree::Subtree(_) => None,
        }
    }
}
