//! A walk through a tree that it owns.
ghost use Rattle.std.specs.Prelude.{◌≡◌, ◌∷◌, [], reverse, IfOk, IfErr, OnErr, IfSome, MatchOption, Some};
ghost use Rattle.tt_base.specs.Forest.{Forest, end};
ghost use Rattle.tt_base.specs.Gluing.{after_trees};
ghost use Rattle.tt_base.specs.Moves.{first_token, after_tree};
ghost use Rattle.tt_base.specs.Siblings.{children_of};
ghost use Rattle.tt_base.specs.declared.fault.TtFault.TheVariants.{Memory};
ghost use Rattle.tt_view.specs.HeldPlaces.{IsHeld, AreHeld, AreHeld-prop, HasTrees, trees_at};

use crate::iter::TtIter;
use crate::top_subtree::TopSubtree;
use crate::view::{TokenTreesView, count_below};
use std::alloc::Global;
use tt_base::{Subtree, TokenTree, TtFault};
use tt_pack::Reader;

/// A place in the bytes of a stored tree, and the number of tokens from there that are whole trees.
#[derive(Clone, Copy)]
pub(crate) struct Place {
    offset: usize,
    len: usize,
}

impl Place {
    // Passes the first tree. Returns its token and the place of the trees below it.
    fn pass_tree(&mut self, tree: &TopSubtree) -> Option<(TokenTree, Place)>
        requires { IsHeld tree.now self.old }
        ensures token { (held : IsHeld tree.now self.old) → MatchOption result (trees_at tree.now self.old held ≡ end) (λ found. first_token (trees_at tree.now self.old held) ≡ Some found.0) }
        ensures below { IfSome result (λ found. (held : IsHeld tree.now self.old) → HasTrees tree.now found.1 (children_of (trees_at tree.now self.old held))) }
        ensures rest { (held : IsHeld tree.now self.old) → HasTrees tree.now self.new (after_tree (trees_at tree.now self.old held)) }
    {
        if self.len == 0 {
            return None;
        }
        let mut reader = Reader::at(tree.packed(), self.offset);
        let (token, below) = reader.advance_skip()?;
        let len = count_below(&token);
        self.len -= 1 + len;
        self.offset = reader.place();
        Some((
            token,
            Place {
                offset: below.place(),
                len,
            },
        ))
    }
}

/// A walk through a tree that it owns: the trees that are left of the innermost subtree, and of each subtree around it. A walk can wait
/// while others go on, since it borrows nothing.
#[derive(Drop)]
pub struct TreeWalk {
    tree: TopSubtree,
    place: Place,
    // the places of the outer levels, the innermost last
    outer: Vec<Place>,
    pub ghost held: { AreHeld tree (place ∷ reverse outer.items) } by { AreHeld-prop tree (place ∷ reverse outer.items) },
}

impl TreeWalk {
    ghost use Rattle.tt_view.specs.Iters.{rest_of};
    ghost use Rattle.tt_view.specs.TreeWalks.{innermost, outer_levels, first_header, IsFront, IsSame, IsEntered, IsLeft};

    /// Returns a walk through all trees below the top of a tree.
    pub fn new(alloc: Global, tree: TopSubtree) -> TreeWalk
        ensures innermost { innermost result ≡ tree.children }
        ensures outer { outer_levels result ≡ [] }
    {
        let len = tree.packed().len() - 1;
        TreeWalk::through_front(alloc, tree, len)
    }

    /// Returns a walk through the first trees below the top of a tree, those that have `len` tokens together, as `TokenTreesView::len` counts
    /// them.
    pub fn through_front(alloc: Global, tree: TopSubtree, len: usize) -> TreeWalk
        requires { (front : Forest) × IsFront tree.children len front }
        ensures innermost { (front : Forest) → IsFront tree.children len front → innermost result ≡ front }
        ensures outer { outer_levels result ≡ [] }
    {
        let offset = Reader::below_top(tree.packed()).place();
        TreeWalk {
            tree,
            place: Place { offset, len },
            outer: Vec::new(alloc),
        }
    }

    /// Returns the trees that are left of the innermost subtree.
    pub fn rest(&self) -> TtIter<'_>
        ensures { rest_of result ≡ innermost self.now }
    {
        TtIter::over(TokenTreesView::at(&self.tree, self.place.offset, self.place.len))
    }

    /// Passes so many trees of the innermost subtree, or all if it has fewer.
    pub fn pass(&mut self, count: usize)
        ensures innermost { innermost self.new ≡ after_trees count (innermost self.old) }
        ensures outer { outer_levels self.new ≡ outer_levels self.old }
    {
        let mut place = self.place;
        for _ in 0..count {
            place.pass_tree(&self.tree);
        }
        self.place = place;
    }

    /// Enters the first tree of the innermost subtree and returns its header, if it is a subtree. Otherwise does nothing. Fails, and
    /// changes nothing, only if memory runs out.
    pub fn enter(&mut self) -> Result<Option<Subtree>, TtFault>
        ensures header { IfOk result (λ header. header ≡ first_header (innermost self.old)) }
        ensures entered { IfOk result (λ header. IsEntered self.old header self.new) }
        ensures err { OnErr result (IsSame self.old self.new) }
        ensures fault { IfErr result (λ fault. fault ≡ Memory) }
    {
        let mut behind = self.place;
        let Some((first, inside)) = behind.pass_tree(&self.tree) else {
            return Ok(None);
        };
        let TokenTree::Subtree(header) = first else {
            return Ok(None);
        };
        self.outer.push(behind)?;
        self.place = inside;
        Ok(Some(header))
    }

    /// Leaves the innermost subtree, with what is left of it, and returns true, if there is a level around it. Otherwise does nothing.
    pub fn leave(&mut self) -> bool
        ensures { IsLeft self.old result self.new }
    {
        match self.outer.pop() {
            Some(place) => {
                self.place = place;
                true
            }
            None => false,
        }
    }
}
