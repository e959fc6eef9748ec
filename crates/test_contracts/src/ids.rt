//! Which ids a stored tree takes in place.
ghost use Rattle.std.specs.Prelude.{◌≡◌, IfOk, MatchBool, length};
ghost use Rattle.tt_tables.specs.AstIds.{ids_changed};
ghost use Rattle.tt_tables.specs.Stored.{root_parts};

use std::alloc::{AllocError, Global};
use tt_base::ErasedFileAstId;
use tt_pack::Packed;

/// Changes the ids in place, and returns whether it did. Changes nothing if two parts below the top would become equal. There is one
/// id for each part.
pub fn set_ids(
    alloc: Global,
    packed: &mut Packed,
    ids: &[ErasedFileAstId],
) -> Result<bool, AllocError>
    requires { length ids.now ≡ length (root_parts packed.old) }
    ensures { IfOk result (λ changed. MatchBool changed (packed.new ≡ ids_changed ids.now packed.old) (packed.new ≡ packed.old)) }
{
    if packed.ids_keep_apart(alloc, ids)? {
        packed.set_ids(ids);
        return Ok(true);
    }
    Ok(false)
}
