//! The subtrees that are open at a token of a flat list.
ghost use Rattle.std.specs.Prelude.{◌≡◌, ◌<◌, ◌∷◌, ◌↔◌, [], IsTrue, IfOk, OnOk, OnErr};
ghost use Rattle.std.specs.Bool.{OnTrue};
ghost use Rattle.std.specs.List.{All};
ghost use Rattle.tt_base.specs.Forest.{AreLevels};

use crate::token_tree::TokenTree;
use std::alloc::{AllocError, Global};

/// Checks in one pass whether a flat list is that of some trees. For each open subtree it has the number of tokens that are still to
/// come. It takes memory only if a subtree has tokens to come after one that is opened in it.
#[derive(Drop)]
pub struct Levels {
    // the number for the innermost subtree
    left: usize,
    // the numbers for the subtrees around it, the innermost last: each counts the tokens after the subtree inside; no number is 0
    outer: Vec<usize>,
    ghost some: { All (λ n. 0 < n) outer.items },
}

impl Levels {
    ghost use Rattle.tt_base.specs.Levels.{open_levels, GoesBack, IsSameQuestion, Opens, TakesToken};

    /// Returns one level of `len` tokens. Takes no memory.
    pub fn new(alloc: Global, len: usize) -> Levels
        ensures { open_levels result ≡ len ∷ [] }
    {
        Levels {
            left: len,
            outer: Vec::new(alloc),
        }
    }

    // Goes to the innermost subtree with tokens to come. Returns whether there is one.
    #[inline(always)]
    fn go_back(&mut self) -> bool
        ensures levels { GoesBack (open_levels self.old) (open_levels self.new) result }
        ensures room { OnTrue result (0 < self.new.left) }
    {
        if self.left > 0 {
            return true;
        }
        let Some(after) = self.outer.pop() else {
            return false;
        };
        self.left = after;
        true
    }

    // Opens a subtree with `below` tokens below its header, which is the next token.
    fn open(&mut self, below: usize) -> Result<(), AllocError>
        requires { below < self.old.left }
        ensures ok { OnOk result (Opens (open_levels self.old) below (open_levels self.new)) }
        ensures err { OnErr result (open_levels self.new ≡ open_levels self.old) }
    {
        let after = self.left - 1 - below;
        if after == 0 {
            self.left = below;
            return Ok(());
        }
        self.outer.push(after)?;
        self.left = below;
        Ok(())
    }

    /// Takes the next token. Returns whether the token fits at this place. If memory runs out, fails and does not take the token; the
    /// caller may pass it again. The call is inline, so that a caller that knows the kind of the token does not test it again.
    #[inline(always)]
    pub fn take(&mut self, token: &TokenTree) -> Result<bool, AllocError>
        ensures ok { IfOk result (TakesToken (open_levels self.old) token.now (open_levels self.new)) }
        ensures err { OnErr result (IsSameQuestion (open_levels self.old) (open_levels self.new)) }
    {
        if !self.go_back() {
            return Ok(false);
        }
        let TokenTree::Subtree(subtree) = token else {
            self.left -= 1;
            return Ok(true);
        };
        let below = subtree.usize_len();
        if self.left <= below {
            return Ok(false);
        }
        self.open(below)?;
        Ok(true)
    }

    /// Returns whether no token is to come.
    pub fn is_done(&self) -> bool
        ensures { IsTrue result ↔ AreLevels [] (open_levels self.now) }
    {
        if self.left > 0 {
            return false;
        }
        self.outer.is_empty()
    }
}
