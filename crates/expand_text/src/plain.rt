//! How many trees are taken as they are, because no call can begin at them.
ghost use Rattle.std.specs.Prelude.{◌≡◌};
ghost use Rattle.tt.specs.Iters.{rest_of};
ghost use Rattle.expand_text.specs.Meaning.{named_behind, plain_behind_part};

use mbe_pattern::{is_at_punct, pass};
use tt::{Leaf, TtElement, TtIter};

/// Returns the number of trees after a leaf that begin no call: the name of a lifetime, or after a literal a `.` and the name of a field.
pub(crate) fn named_behind(leaf: &Leaf, behind: TtIter<'_>) -> usize
    ensures { result ≡ named_behind leaf.now (rest_of behind.entry) }
{
    match leaf {
        Leaf::Punct(punct) => { if punct.char == '\'' { 1 } else { 0 } }
        Leaf::Literal(_) => { if is_at_punct(behind, '.') { 2 } else { 0 } }
        Leaf::Ident(_) => 0,
    }
}

/// Returns how many trees after an item or a statement of so many trees are taken as they are.
pub(crate) fn plain_behind_part(len: usize, mut trees: TtIter<'_>) -> usize
    ensures { result ≡ plain_behind_part len (rest_of trees.entry) }
{
    pass(&mut trees, len.saturating_sub(1));
    let is_closing = match trees.next() {
        Some(TtElement::Subtree(_, _)) => true,
        Some(TtElement::Leaf(Leaf::Punct(punct))) => punct.char == ';',
        _ => false,
    };
    if is_closing { 0 } else { 2 }
}
