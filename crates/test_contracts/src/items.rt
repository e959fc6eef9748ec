//! Trees, each with an optional comma after it.
ghost use Rattle.std.specs.Prelude.{◌≡◌};
ghost use Rattle.tt.specs.Forest.{join};
ghost use Rattle.tt.specs.Iters.{rest_of};
ghost use Rattle.tt.specs.Moves.{after_tree};
ghost use Rattle.tt.specs.Views.{trees_of};
ghost use Rattle.test_contracts.specs.Commas.{after_comma};

use tt::{TokenTreesView, TtIter};

// Passes a comma if one is next, and else goes back to where it was.
fn pass_comma(siblings: &mut TtIter<'_>)
    ensures { rest_of siblings.new ≡ after_comma (rest_of siblings.old) }
{
    let before = siblings.savepoint();
    if siblings.expect_comma().is_err() {
        *siblings = before.remaining().iter();
    }
}

/// Returns the next tree, with the comma after it if there is one. The iterator passes both.
pub fn item<'a>(siblings: &mut TtIter<'a>) -> TokenTreesView<'a>
    ensures rest { rest_of siblings.new ≡ after_comma (after_tree (rest_of siblings.old)) }
    ensures passed { join (trees_of result) (rest_of siblings.new) ≡ rest_of siblings.old }
{
    let start = siblings.savepoint();
    siblings.next();
    pass_comma(siblings);
    siblings.from_savepoint(start)
}
