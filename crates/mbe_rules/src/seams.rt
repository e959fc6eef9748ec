//! Keeps puncts apart where trees come next to others, so that they do not form one token.
ghost use Rattle.std.specs.Prelude.{◌≡◌, IfOk};
ghost use Rattle.tt.specs.Building.{leaf_alone};
ghost use Rattle.tt.specs.Iters.{rest_of};
ghost use Rattle.mbe_rules.specs.Spelling.{is_dollar_in, last_alone, seamed};

use mbe_pattern::is_dollar;
use std::alloc::AllocError;
use tt::{Leaf, Punct, Spacing, TtElement, TtIter};

// Returns the leaf; a punct gets the spacing `Alone`.
fn alone(leaf: Leaf) -> Leaf
    ensures { result ≡ leaf_alone leaf }
{
    match leaf {
        Leaf::Punct(punct) => Leaf::Punct(Punct {
            spacing: Spacing::Alone,
            ..punct
        }),
        other => other,
    }
}

/// Returns the leaves; the last one gets the spacing `Alone`, if it is a punct.
pub(crate) fn last_alone(leaves: Vec<Leaf>) -> Result<Vec<Leaf>, AllocError>
    ensures { IfOk result (λ made. made.items ≡ last_alone leaves.items) }
{
    let mut leaves = leaves;
    let Some(last) = leaves.pop() else {
        return Ok(leaves);
    };
    leaves.push(alone(last))?;
    Ok(leaves)
}

// Returns whether the first tree is a `$`.
fn is_dollar_in(mut trees: TtIter<'_>) -> bool
    ensures { result ≡ is_dollar_in (rest_of trees.entry) }
{
    match trees.next() {
        Some(TtElement::Leaf(leaf)) => is_dollar(&leaf),
        _ => false,
    }
}

/// Returns the leaf before these trees: alone before a `$`, because other trees may replace the `$`.
pub(crate) fn seamed(leaf: Leaf, behind: TtIter<'_>) -> Leaf
    ensures { result ≡ seamed leaf (rest_of behind.entry) }
{
    if is_dollar_in(behind) {
        alone(leaf)
    } else {
        leaf
    }
}
