//! Trees cut at their commas.
ghost use Rattle.std.specs.List.{slice_split};
ghost use Rattle.std.specs.Prelude.{◌≡◌, IfOk, map};
ghost use Rattle.tt.specs.Iters.{tree_of};
ghost use Rattle.tt.specs.Siblings.{list_of};
ghost use Rattle.test_contracts.specs.Commas.{is_comma};
ghost use Rattle.test_contracts.specs.ViewTrees.{view_trees};

use std::alloc::Global;
use tt::{Leaf, TokenTreesView, TtElement, TtFault};

/// Returns the arguments of a call: the pieces between its commas, one more than there are commas.
pub fn arguments<'a>(
    alloc: Global,
    trees: TokenTreesView<'a>,
) -> Result<Vec<TokenTreesView<'a>>, TtFault>
    ensures { IfOk result (λ list. map view_trees list.items ≡ slice_split is_comma (view_trees trees.entry)) }
{
    let mut list = Vec::new(alloc);
    let pieces = trees.split(
        |element|
            ensures { result ≡ is_comma (tree_of element.entry) }
        {
            match element {
                TtElement::Leaf(Leaf::Punct(punct)) => punct.char == ',',
                _ => false,
            }
        },
    );
    for piece in pieces {
        list.push(piece)?;
    }
    Ok(list)
}
