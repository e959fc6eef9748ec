//! How far a cursor goes.
ghost use Rattle.std.specs.Prelude.{◌≡◌, OnOk};
ghost use Rattle.tt.specs.Walk.{one_on};

use tt::TtFault;
use tt::buffer::Cursor;

/// Goes one place on, and no further out of subtrees that end together.
pub fn bump_or_end(cursor: &mut Cursor<'_>) -> Result<(), TtFault>
    ensures { OnOk result (cursor.new ≡ one_on cursor.old) }
{
    cursor.bump_or_end()?;
    Ok(())
}
