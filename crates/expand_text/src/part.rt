//! Trees that are passed together.
ghost use Rattle.std.specs.Prelude.{◌≡◌};
ghost use Rattle.tt.specs.Gluing.{after_trees};
ghost use Rattle.tt.specs.Iters.{rest_of};

use expand_items::Position;
use mbe_pattern::pass;
use tt::TtIter;

/// Trees that are passed together: `len` trees, and a `;` behind them if it is a part of them.
#[derive(Clone, Copy)]
pub(crate) struct Part {
    pub(crate) len: usize,
    pub(crate) semicolon: bool,
    /// The position behind them.
    pub(crate) position: Position,
    /// How many trees behind them are taken as they are.
    pub(crate) plain: usize,
}

impl Part {
    ghost use Rattle.expand_text.specs.Parts.{more_in, trees_in};

    /// Passes the part that comes first.
    pub(crate) fn pass(&self, trees: &mut TtIter<'_>)
        ensures { rest_of trees.new ≡ after_trees (trees_in self.now) (rest_of trees.old) }
    {
        pass(trees, self.len);
        pass(trees, self.more());
    }

    /// Returns how many trees more it has than `len`.
    pub(crate) fn more(&self) -> usize
        ensures { result ≡ more_in self.now }
    {
        if self.semicolon { 1 } else { 0 }
    }
}
