//! For which tokens a callback is called.
ghost use Rattle.std.specs.Prelude.{OnOk};
ghost use Rattle.std.specs.Fn.{CalledAt};
ghost use Rattle.tt.specs.Forest.{only};
ghost use Rattle.tt.specs.Rewrites.{Rewrites};

use std::alloc::Global;
use tt::{TokenTree, TopSubtree, TransformTtAction, TtFault, transform_tt};

/// Rewrites a tree by a callback, which is called for the tree's tokens alone.
pub fn transform<'b, F: FnMut(&TokenTree) -> TransformTtAction<'b>>(
    alloc: Global,
    tree: &mut TopSubtree,
    callback: F,
) -> Result<(), TtFault>
    requires { F.IsAlwaysCallable callback }
    ensures { OnOk result (Rewrites (CalledAt F.FnMut) callback (only tree.old) (only tree.new)) }
{
    transform_tt(alloc, tree, callback)
}
