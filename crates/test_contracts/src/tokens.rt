//! Trees read sibling by sibling, and each subtree by an iterator of its own.
ghost use Rattle.std.specs.Prelude.{◌≡◌};
ghost use Rattle.tt.specs.Forest.{size};
ghost use Rattle.tt.specs.Iters.{rest_of};
ghost use Rattle.tt.specs.Views.{trees_of};
ghost use Rattle.test_contracts.specs.Names.{is_name, names};

use tt::{Leaf, TokenTreesView, TtElement, TtIter};

// Returns whether the leaf is an ident with that text.
fn is_name(leaf: &Leaf, name: &str) -> bool
    ensures { result ≡ is_name name.now leaf.now }
{
    match leaf {
        Leaf::Ident(ident) => ident.sym.as_str() == name,
        Leaf::Literal(_) | Leaf::Punct(_) => false,
    }
}

/// Returns whether an ident with that text is anywhere in the trees.
pub fn mentions(siblings: TtIter<'_>, name: &str) -> bool
    ensures { result ≡ names name.now (rest_of siblings.entry) }
{
    for sibling in siblings {
        let found = match sibling {
            TtElement::Leaf(leaf) => is_name(&leaf, name),
            TtElement::Subtree(_header, children) => mentions(children, name),
        };
        if found {
            return true;
        }
    }
    false
}

/// Returns how many tokens the trees have. A header gives the number of tokens that it holds, so nothing below the siblings is read.
pub fn count_tokens(trees: TokenTreesView<'_>) -> usize
    ensures { result ≡ size (trees_of trees.entry) }
{
    let all = trees.len();
    let mut count = 0;
    for sibling in trees.iter() {
        count += match sibling {
            TtElement::Leaf(_) => 1,
            TtElement::Subtree(header, _) => 1 + header.count(),
        };
    }
    prove!(count == all);
    count
}
