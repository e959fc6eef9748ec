//! Compares leaves; spans and spacing do not count.
ghost use Rattle.std.specs.Prelude.{◌≡◌, ◌↔◌, IsTrue};
ghost use Rattle.tt.specs.Iters.{rest_of};
ghost use Rattle.tt.specs.Moves.{after_tree};
ghost use Rattle.mbe_pattern.specs.Units.{IsSameLeaf, IsLeafLike};

use tt::{Leaf, TtIter};

/// Returns whether the leaves are the same; spans and spacing do not count.
pub fn is_same_leaf(leaf: &Leaf, other: &Leaf) -> bool
    ensures { IsTrue result ↔ IsSameLeaf leaf.now other.now }
{
    match (leaf, other) {
        (Leaf::Literal(left), Leaf::Literal(right)) => {
            left.kind() == right.kind()
                && left.text() == right.text()
                && left.suffix() == right.suffix()
        }
        (Leaf::Punct(left), Leaf::Punct(right)) => left.char == right.char,
        (Leaf::Ident(left), Leaf::Ident(right)) => {
            left.sym == right.sym && left.is_raw == right.is_raw
        }
        _ => false,
    }
}

/// Passes the next tree and returns whether it is such a leaf.
pub fn passes_leaf(leaf: &Leaf, trees: &mut TtIter<'_>) -> bool
    ensures answer { IsTrue result ↔ IsLeafLike leaf.now (rest_of trees.old) }
    ensures rest { rest_of trees.new ≡ after_tree (rest_of trees.old) }
{
    match trees.expect_leaf() {
        Ok(other) => is_same_leaf(leaf, &other),
        Err(()) => false,
    }
}
