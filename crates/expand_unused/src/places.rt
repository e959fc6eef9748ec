//! The places of the definitions in a text, as a set.
ghost use Rattle.std.specs.Prelude.{ℕ, IfOk};
ghost use Rattle.tt.specs.Views.{trees_of};
ghost use Rattle.expand_unused.specs.Places.{defined_in, AreDefined, HasPlaces};

use expand_items::macro_rules_places;
use indexmap::IndexSet;
use std::alloc::{AllocError, Global};
use tt::TokenTreesView;

// Returns the set of these places.
fn set_of(alloc: Global, places: &[usize]) -> Result<IndexSet<usize>, AllocError>
    ensures { IfOk result (λ set. HasPlaces places.now (defined_in set)) }
{
    let mut set = IndexSet::with_capacity(alloc, places.len())?;
    for place in places {
        set.insert(*place)?;
    }
    Ok(set)
}

/// Returns the set of the places of the definitions in trees.
pub(crate) fn places_in(
    alloc: Global,
    trees: TokenTreesView<'_>,
) -> Result<IndexSet<usize>, AllocError>
    ensures { IfOk result (λ set. AreDefined (trees_of trees.entry) (defined_in set)) }
{
    let places = macro_rules_places(alloc, trees)?;
    set_of(alloc, places.as_slice())
}
