//! The puncts between the trees of arms.
ghost use Rattle.std.specs.Prelude.{◌≡◌};
ghost use Rattle.tt.specs.Iters.{rest_of};
ghost use Rattle.mbe_rules.specs.Arrows.{is_punct_in, is_arrow_in};

use mbe_pattern::unit_size;
use tt::{Leaf, TtElement, TtIter};

/// How many puncts `=>` has.
pub(crate) const ARROW_LEN: usize = 2;

/// Returns whether the first tree is a punct of that character.
pub(crate) fn is_punct_in(mut trees: TtIter<'_>, char: char) -> bool
    ensures { result ≡ is_punct_in char (rest_of trees.entry) }
{
    match trees.next() {
        Some(TtElement::Leaf(Leaf::Punct(punct))) => punct.char == char,
        _ => false,
    }
}

/// Returns whether `=>` comes first, as one token.
pub(crate) fn is_arrow_in(mut trees: TtIter<'_>) -> bool
    ensures { result ≡ is_arrow_in (rest_of trees.entry) }
{
    if unit_size(trees.remaining().iter()) != ARROW_LEN {
        return false;
    }
    if !is_punct_in(trees.remaining().iter(), '=') {
        return false;
    }
    trees.next();
    is_punct_in(trees, '>')
}
