//! Trees at the front of others: passed, or taken.
ghost use Rattle.std.specs.Prelude.{◌≡◌, ◌≤◌};
ghost use Rattle.tt.specs.Forest.{size};
ghost use Rattle.tt.specs.Gluing.{after_trees};
ghost use Rattle.tt.specs.Iters.{rest_of};
ghost use Rattle.tt.specs.Views.{trees_of};
ghost use Rattle.mbe_pattern.specs.Units.{front_trees};

use tt::{TokenTreesView, TtIter};

/// Passes that many trees, or all if there are fewer.
pub fn pass(trees: &mut TtIter<'_>, count: usize)
    ensures rest { rest_of trees.new ≡ after_trees count (rest_of trees.old) }
    ensures less { size (rest_of trees.new) ≤ size (rest_of trees.old) }
{
    for _ in 0..count {
        trees.next();
    }
}

/// Passes that many trees and returns them.
pub fn take<'i>(trees: &mut TtIter<'i>, count: usize) -> TokenTreesView<'i>
    ensures taken { trees_of result ≡ front_trees count (rest_of trees.old) }
    ensures rest { rest_of trees.new ≡ after_trees count (rest_of trees.old) }
{
    let start = trees.savepoint();
    pass(trees, count);
    trees.from_savepoint(start)
}
