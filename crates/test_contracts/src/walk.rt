//! A walk by a cursor, one place after the other.
ghost use Rattle.std.specs.Prelude.{◌≡◌, false, IfOk, OnOk};
ghost use Rattle.tt.specs.Views.{trees_of};
ghost use Rattle.tt.specs.Walk.{events_ahead, is_over, one_on, walk};

use std::alloc::Global;
use tt::buffer::Cursor;
use tt::{TokenTreesView, TtFault};

// Goes one place on: over a leaf, into a subtree, or out of the one that ends here.
fn go_on(cursor: &mut Cursor<'_>) -> Result<(), TtFault>
    requires { is_over (events_ahead cursor.old) ≡ false }
    ensures { OnOk result (cursor.new ≡ one_on cursor.old) }
{
    if cursor.token_tree().is_some() {
        return cursor.bump();
    }
    cursor.end();
    Ok(())
}

/// Goes through all places of the walk, and returns the trees that were crossed, which are all of them.
pub fn crossed_by_walk<'a>(
    alloc: Global,
    trees: TokenTreesView<'a>,
) -> Result<TokenTreesView<'a>, TtFault>
    ensures { IfOk result (λ crossed. walk (trees_of crossed) ≡ walk (trees_of trees.entry)) }
{
    let mut cursor = trees.cursor(alloc);
    while !cursor.eof() {
        go_on(&mut cursor)?;
    }
    Ok(cursor.crossed())
}
