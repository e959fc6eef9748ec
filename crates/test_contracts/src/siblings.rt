//! In how many steps an iterator over siblings passes a tree, and from which savepoint it may return trees.
ghost use Rattle.std.specs.Prelude.{◌≡◌};
ghost use Rattle.tt.specs.Forest.{flat, join};
ghost use Rattle.tt.specs.Iters.{rest_of, steps_of_iter};
ghost use Rattle.tt.specs.Moves.{step_after};
ghost use Rattle.tt.specs.Views.{trees_of};
ghost use Rattle.tt.specs.Walk.{flat_left};

use std::alloc::Global;
use tt::buffer::Cursor;
use tt::{TokenTreesView, TtIter};

/// Passes the next tree, in one step whatever its size, and returns a cursor over the trees behind it.
pub fn pass_one<'a>(alloc: Global, siblings: &mut TtIter<'a>) -> Cursor<'a>
    ensures { steps_of_iter siblings.new ≡ step_after (steps_of_iter siblings.old) (rest_of siblings.old) }
{
    siblings.next();
    siblings.remaining().cursor(alloc)
}

/// Goes to the cursor, takes the next tree there, and returns it as the trees behind a savepoint. The cursor may be in a subtree, so
/// the savepoint has to be behind the going.
pub fn take_at<'a>(siblings: &mut TtIter<'a>, cursor: &Cursor<'a>) -> TokenTreesView<'a>
    ensures { flat (join (trees_of result) (rest_of siblings.new)) ≡ flat_left cursor.now }
{
    siblings.flat_advance_to(cursor);
    let start = siblings.savepoint();
    siblings.next_as_view();
    siblings.from_savepoint(start)
}
