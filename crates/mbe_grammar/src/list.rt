//! Lists that mostly have room.
ghost use Rattle.std.specs.Prelude.{◌≡◌, ◌++◌, ◌∷◌, [], if◌then◌else◌, is_ok};

use std::alloc::AllocError;

/// Adds an item at the end of a list. If memory runs out, the list stays as it was.
#[inline(always)]
pub(crate) fn put<T: Copy>(list: &mut Vec<T>, item: T) -> Result<(), AllocError>
    ensures items { list.new.items ≡ (if is_ok result then list.old.items ++ item ∷ [] else list.old.items) }
{
    list.reserve(1)?;
    list.push_reserved(item);
    Ok(())
}
