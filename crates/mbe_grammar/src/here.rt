//! A unit among trees, and its entry in the log.
ghost use Rattle.std.specs.Prelude.{◌≡◌};
ghost use Rattle.tt.specs.Views.{trees_of};
ghost use Rattle.mbe_grammar.specs.Kinds.{kind_of};
ghost use Rattle.mbe_grammar.specs.Units.{first_unit};

use crate::entry::Entry;
use crate::test::Test;
use crate::unit::Unit;
use tt::{TokenTreesView, TtElement};

/// A unit, its kind, and the trees from it on.
#[derive(Clone, Copy)]
pub(crate) struct Here<'t> {
    pub rest: TokenTreesView<'t>,
    pub unit: Unit,
    pub kind: u32,
    pub ghost is_kind: { kind ≡ kind_of unit },
    pub ghost is_first: { unit ≡ first_unit (trees_of rest) },
}

impl<'t> Here<'t> {
    ghost use Rattle.mbe_grammar.specs.Places.{entry};
    ghost use Rattle.mbe_grammar.specs.Positions.{entry_of};
    ghost use Rattle.mbe_grammar.specs.Tests.{named};

    /// Returns the entry of the unit, which has that many trees.
    #[inline(always)]
    pub fn entry(&self, test: Test, count: usize) -> Entry<'t>
        ensures { entry result ≡ entry_of (named test) count (trees_of self.now.rest) }
    {
        let Some(name) = test.named() else {
            return Entry::Unit(count);
        };
        match self.rest.iter().next() {
            Some(TtElement::Subtree(subtree, children)) => {
                Entry::Holds(children.remaining(), subtree.delimiter.close, name)
            }
            _ => Entry::Unit(count),
        }
    }
}
