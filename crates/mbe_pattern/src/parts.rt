//! Reads a pattern's trees, part by part, without places.
ghost use Rattle.std.specs.Prelude.{◌≡◌, IfOk};
ghost use Rattle.tt.specs.Forest.{size};
ghost use Rattle.tt.specs.Iters.{rest_of};
ghost use Rattle.mbe_pattern.specs.Dollars.{IsPart, held_size, AreLess};
ghost use Rattle.mbe_pattern.specs.Placed.{pattern_of};

use crate::dollar::{Tail, front_leaves};
use crate::first::{First, next_first};
use crate::pattern::Variable;
use std::alloc::{AllocError, Global};
use tt::{DelimiterKind, Leaf, TtIter};

/// The first part of a pattern.
#[derive(Drop)]
pub enum Part<'p> {
    /// There is no part.
    End,
    /// A variable: `$name:fragment`.
    Variable(Variable),
    /// The leaves of a token. A `$` that begins nothing is one.
    Token(Vec<Leaf>),
    /// A subtree of that kind, and what it holds.
    Subtree(DelimiterKind, TtIter<'p>),
    /// What a repetition holds, and what follows that.
    Repetition(TtIter<'p>, Tail),
}

/// Reads and passes the first part of the pattern that these trees spell. Fails only if memory runs out.
pub fn next_part<'p>(alloc: Global, trees: &mut TtIter<'p>) -> Result<Part<'p>, AllocError>
    ensures part { IfOk result (λ part. IsPart (pattern_of (rest_of trees.old)) part (pattern_of (rest_of trees.new))) }
    ensures less { IfOk result (λ part. AreLess (held_size part) (size (rest_of trees.new)) (size (rest_of trees.old))) }
{
    let before = trees.remaining().iter();
    let first = next_first(alloc, 0, trees)?;
    match first {
        First::End => Ok(Part::End),
        First::Variable(_, variable) => Ok(Part::Variable(variable)),
        First::Wrong(_, dollar) => Ok(Part::Token(vec![in alloc; dollar]?)),
        First::Token(count) => Ok(Part::Token(front_leaves(alloc, count, before)?)),
        First::Subtree(kind, inner, _) => Ok(Part::Subtree(kind, inner)),
        First::Repetition(_, inner, _, tail) => Ok(Part::Repetition(inner, tail)),
    }
}
