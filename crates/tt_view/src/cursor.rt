//! A place in a walk through a list of trees.
ghost use Rattle.std.specs.Prelude.{◌≡◌, ◌==◌, ◌++◌, ◌∷◌, List, reverse, true, false, IfErr, OnOk, OnErr};
ghost use Rattle.tt_base.specs.declared.fault.TtFault.TheVariants.{Memory};
ghost use Rattle.tt_base.specs.Forest.{flat};
ghost use Rattle.tt_view.specs.Innermost.{is_end_of};
ghost use Rattle.tt_base.specs.Walk.{Event, closes, walk, begun, events_ahead, is_over, is_at_close, is_at_open, token_at, two_leaves_at, open_nodes, one_on, tokens_of, flat_left};

use crate::lookahead::Lookahead;
use crate::view::TokenTreesView;
use std::alloc::Global;
use std::marker::Model;
use tt_base::{Leaf, Subtree, TokenTree, TtFault};

/// A subtree that a cursor entered.
#[derive(Clone, Copy)]
struct Frame {
    header: Subtree,
    // the number of tokens after all that the subtree holds
    behind: usize,
}

// Returns whether exactly `ahead` tokens follow the innermost subtree.
fn ends_node(stack: &[Frame], ahead: usize) -> bool
    ensures { result ≡ is_end_of (reverse stack.now) ahead }
{
    match stack.last() {
        Some(frame) => frame.behind == ahead,
        None => false,
    }
}

/// A place in a walk through a list of trees. The walk passes each leaf, and goes into and out of each subtree. It decodes each token
/// once. Only to enter a subtree may take memory, for the stack of the open subtrees.
#[derive(Drop)]
pub struct Cursor<'a> {
    origin: TokenTreesView<'a>,
    // all tokens ahead, also those after the open subtrees
    ahead: Lookahead<'a>,
    stack: Vec<Frame>,
}

impl<'a> Model for Cursor<'a> {
    ghost use Rattle.tt_base.specs.Walk.{Walked, walked_code};

    ghost Value = { Walked };

    ghost coded = { walked_code };

    ghost use Rattle.tt_view.specs.Frames.{walked, StandsInWalk};

    ghost view = { walked };

    ghost invariant = { StandsInWalk };
}

impl<'a> Cursor<'a> {
    ghost use Rattle.tt_view.specs.Views.{trees_of};

    /// Returns a cursor at the start of the walk. Takes no memory.
    pub fn new(alloc: Global, origin: TokenTreesView<'a>) -> Cursor<'a>
        ensures { result ≡ begun (trees_of origin.entry) }
    {
        Cursor {
            origin,
            ahead: Lookahead::over(origin),
            stack: Vec::new(alloc),
        }
    }

    // Returns whether the next place is the end of a subtree.
    fn is_at_close(&self) -> bool
        ensures { result ≡ is_at_close (events_ahead self.now) }
    {
        ends_node(self.stack.as_slice(), self.ahead.len())
    }

    /// Returns whether the walk is at its end.
    pub fn eof(&self) -> bool
        ensures { result ≡ is_over (events_ahead self.now) }
    {
        self.stack.is_empty() && self.ahead.is_empty()
    }

    /// Returns whether the cursor is in no subtree.
    pub fn is_root(&self) -> bool
        ensures { result ≡ (open_nodes (events_ahead self.now) == 0) }
    {
        self.stack.is_empty()
    }

    /// Returns the leaf or the header at this place, or `None` at the end of a subtree and at the end of the walk.
    pub fn token_tree(&self) -> Option<TokenTree>
        ensures { result ≡ token_at (events_ahead self.now) }
    {
        if self.is_at_close() {
            return None;
        }
        self.ahead.token()
    }

    /// Goes one place on; if a header is at this place, into its subtree. The cursor is not at the end of a subtree: `is_root` returns
    /// true, or `token_tree` returns a token. At the end of a subtree, call `end` or `bump_or_end`. At the end of the walk, does nothing.
    /// Fails, and changes nothing, only if a header is here and memory runs out.
    #[inline(always)]
    pub fn bump(&mut self) -> Result<(), TtFault>
        requires { is_at_close (events_ahead self.old) ≡ false }
        ensures ok { OnOk result (self.new ≡ one_on self.old) }
        ensures err { OnErr result (self.new ≡ self.old) }
        ensures opens { OnErr result (is_at_open (events_ahead self.old) ≡ true) }
        ensures fault { IfErr result (λ fault. fault ≡ Memory) }
    {
        if let Some(header) = self.ahead.header() {
            self.stack.push(Frame {
                header,
                behind: self.ahead.len() - 1 - header.usize_len(),
            })?;
        }
        self.ahead.pass();
        Ok(())
    }

    /// Goes one place on, at the end of a subtree out of it. Fails as `bump` does.
    #[inline(always)]
    pub fn bump_or_end(&mut self) -> Result<(), TtFault>
        ensures ok { OnOk result (self.new ≡ one_on self.old) }
        ensures err { OnErr result (self.new ≡ self.old) }
        ensures opens { OnErr result (is_at_open (events_ahead self.old) ≡ true) }
        ensures fault { IfErr result (λ fault. fault ≡ Memory) }
    {
        if self.is_at_close() {
            self.end();
            return Ok(());
        }
        self.bump()
    }

    /// Goes out of a subtree, and returns its header. The cursor is at the end of a subtree: `token_tree` returns `None`, and `eof`
    /// returns false.
    pub fn end(&mut self) -> Subtree
        requires { is_at_close (events_ahead self.old) ≡ true }
        ensures header { (events : List Event) × (events_ahead self.old ≡ closes result ∷ events) }
        ensures place { self.new ≡ one_on self.old }
    {
        match self.stack.pop() {
            Some(frame) => frame.header,
            None => unreachable!(),
        }
    }

    /// Returns the leaf at this place and the leaf at the next place, or `None` if one of the two places has no leaf, as at the end of a
    /// subtree.
    pub fn peek_two_leaves(&self) -> Option<[Leaf; 2]>
        ensures { result ≡ two_leaves_at (events_ahead self.now) }
    {
        if self.is_at_close() {
            return None;
        }
        let (first, rest) = self.ahead.leaf()?;
        if ends_node(self.stack.as_slice(), rest.len()) {
            return None;
        }
        let (second, _) = rest.flat_leaf()?;
        Some([first, second])
    }

    /// Returns the trees that the cursor passed. It is in no subtree: `is_root` returns true.
    pub fn crossed(&self) -> TokenTreesView<'a>
        requires { open_nodes (events_ahead self.now) ≡ 0 }
        ensures { walk (trees_of result) ++ events_ahead self.now ≡ walk self.now.origin }
    {
        self.origin.before(self.ahead.trees())
    }

    // Returns all tokens ahead, as trees.
    pub(crate) fn flat_rest(&self) -> TokenTreesView<'a>
        ensures tokens { flat (trees_of result) ≡ tokens_of (events_ahead self.now) }
        ensures left { flat (trees_of result) ≡ flat_left self.now }
    {
        self.ahead.trees()
    }
}
