//! Reads a pattern's trees, part by part, with the places of what a `$` begins.
ghost use Rattle.std.specs.Prelude.{◌≡◌, ◌-◌, true, IfOk};
ghost use Rattle.tt.specs.Forest.{leaf, size};
ghost use Rattle.tt.specs.Iters.{rest_of};
ghost use Rattle.mbe_pattern.specs.Dollars.{AreLess};
ghost use Rattle.mbe_pattern.specs.Validating.{IsFirst, held_in};
ghost use Rattle.mbe_pattern.specs.Placed.{fault_in};
ghost use Rattle.mbe_pattern.specs.Spelling.{is_dollar};

use crate::dollar::{Dollar, Tail, dollar_in, is_dollar};
use crate::error::PatternError;
use crate::front::pass;
use crate::pattern::Variable;
use crate::units::unit_size;
use std::alloc::{AllocError, Global};
use tt::{DelimiterKind, Leaf, TtElement, TtIter};

/// The first part of a pattern. A variable and a repetition have the flat place of their `$`. The inside of a subtree or a repetition has
/// the flat place after its last token.
#[derive(Drop)]
pub(crate) enum First<'p> {
    /// There is no part.
    End,
    Variable(usize, Variable),
    /// A `$` that begins nothing, and what is wrong with it.
    Wrong(PatternError, Leaf),
    /// A token of that many leaves.
    Token(usize),
    Subtree(DelimiterKind, TtIter<'p>, usize),
    Repetition(usize, TtIter<'p>, usize, Tail),
}

// Returns what is wrong with a `$` at that place that begins nothing; the siblings follow it.
fn fault_in(at: usize, mut siblings: TtIter<'_>) -> PatternError
    ensures { result ≡ fault_in at (rest_of siblings.entry) }
{
    if siblings.expect_ident_or_underscore().is_err() || siblings.expect_char(':').is_err() {
        return PatternError::BeginsNothing(at);
    }
    match siblings.expect_ident_or_underscore() {
        Ok(_) => PatternError::UnknownFragment(at),
        Err(()) => PatternError::BeginsNothing(at),
    }
}

// Returns the flat place before these trees, given the place after the last of them.
fn place_before(until: usize, trees: &TtIter<'_>) -> usize
    ensures { result ≡ until - size (rest_of trees.now) }
{
    until.saturating_sub(trees.remaining().len())
}

// Reads the part that a `$` begins. The siblings follow the `$` and end before that flat place.
fn dollar_first<'p>(
    alloc: Global,
    until: usize,
    dollar: Leaf,
    siblings: &mut TtIter<'p>,
) -> Result<First<'p>, AllocError>
    requires { is_dollar dollar ≡ true }
    ensures part { IfOk result (λ part. IsFirst until (leaf dollar (rest_of siblings.old)) part (rest_of siblings.new)) }
    ensures less { IfOk result (λ part. AreLess (held_in part) (size (rest_of siblings.new)) (size (leaf dollar (rest_of siblings.old)))) }
{
    let at = place_before(until, siblings).saturating_sub(1);
    match dollar_in(alloc, siblings.remaining().iter())? {
        Dollar::Variable(variable) => {
            pass(siblings, 3);
            Ok(First::Variable(at, variable))
        }
        Dollar::Repetition(tail) => match siblings.expect_subtree() {
            Ok((_, inner)) => {
                let inside = place_before(until, siblings);
                siblings.next();
                pass(siblings, tail.separator.len());
                Ok(First::Repetition(at, inner, inside, tail))
            }
            Err(()) => unreachable!(),
        },
        Dollar::Token => Ok(First::Token(1)),
        Dollar::Nothing => {
            let fault = fault_in(at, siblings.remaining().iter());
            Ok(First::Wrong(fault, dollar))
        }
    }
}

/// Reads and passes the first part of the pattern that these trees spell. They end before that flat place. The call is inline, so that no
/// caller moves a part to look at it.
#[inline(always)]
pub(crate) fn next_first<'p>(
    alloc: Global,
    until: usize,
    trees: &mut TtIter<'p>,
) -> Result<First<'p>, AllocError>
    ensures part { IfOk result (λ part. IsFirst until (rest_of trees.old) part (rest_of trees.new)) }
    ensures less { IfOk result (λ part. AreLess (held_in part) (size (rest_of trees.new)) (size (rest_of trees.old))) }
{
    let before = trees.remaining().iter();
    match trees.next() {
        None => Ok(First::End),
        Some(TtElement::Subtree(header, inner)) => {
            let inside = place_before(until, trees);
            Ok(First::Subtree(header.delimiter.kind, inner, inside))
        }
        Some(TtElement::Leaf(leaf)) => {
            if is_dollar(&leaf) {
                let part = dollar_first(alloc, until, leaf, trees)?;
                return Ok(part);
            }
            let count = unit_size(before);
            pass(trees, count.saturating_sub(1));
            Ok(First::Token(count))
        }
    }
}
