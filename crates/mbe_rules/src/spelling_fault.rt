//! What is wrong with a `$` of a template.
ghost use Rattle.std.specs.Prelude.{◌≡◌, IfOk};
ghost use Rattle.tt.specs.Iters.{rest_of};
ghost use Rattle.tt.specs.Moves.{after_tree};
ghost use Rattle.mbe_pattern.specs.Spelling.{repetition_in};
ghost use Rattle.mbe_rules.specs.SpellingFaults.{place, operator_place, separator_fault, tail_fault, may_follow, dollar_fault};

use crate::error::TemplateError;
use mbe_pattern::{RepeatKind, Tail, is_dollar, pass, repetition_in, unit_size};
use std::alloc::{AllocError, Global};
use tt::{DelimiterKind, Leaf, TtElement, TtIter};

/// Returns the flat place before these trees, given the place after the last of them.
pub(crate) fn place_before(until: usize, trees: &TtIter<'_>) -> usize
    ensures { result ≡ place until (rest_of trees.now) }
{
    until.saturating_sub(trees.remaining().len())
}

// Returns where an operator is missing behind the parentheses at that place.
fn operator_place(until: usize, at: usize, mut behind: TtIter<'_>) -> usize
    ensures { result ≡ operator_place until at (rest_of behind.entry) }
{
    let here = place_before(until, &behind);
    let count = unit_size(behind.remaining().iter());
    match behind.remaining().iter().next() {
        None => at,
        Some(TtElement::Subtree(_, _)) => here,
        Some(TtElement::Leaf(_)) => {
            pass(&mut behind, count);
            if behind.is_empty() {
                here
            } else {
                place_before(until, &behind)
            }
        }
    }
}

// Returns the fault if a repetition with that tail has a separator but never two rounds. The tail is at that place.
fn separator_fault(at: usize, tail: &Tail) -> Option<TemplateError>
    ensures { result ≡ separator_fault at tail.now.separator.items tail.now.kind }
{
    if tail.separator.is_empty() {
        return None;
    }
    match tail.kind {
        RepeatKind::ZeroOrOne => Some(TemplateError::NeedlessSeparator(at)),
        RepeatKind::ZeroOrMore | RepeatKind::OneOrMore => None,
    }
}

// Returns whether a `$` may stand before that leaf.
fn may_follow(leaf: &Leaf) -> bool
    ensures { result ≡ may_follow leaf.now }
{
    match leaf {
        Leaf::Literal(_) => false,
        Leaf::Punct(_) => is_dollar(leaf),
        Leaf::Ident(_) => true,
    }
}

// Returns what is wrong with the tail behind the first sibling of a `$`, which is in parentheses.
fn tail_fault(
    alloc: Global,
    until: usize,
    mut siblings: TtIter<'_>,
) -> Result<Option<TemplateError>, AllocError>
    ensures { IfOk result (λ fault. fault ≡ tail_fault until (place until (rest_of siblings.entry)) (repetition_in (rest_of siblings.entry)) (after_tree (rest_of siblings.entry))) }
{
    let at = place_before(until, &siblings);
    let tail = repetition_in(alloc, siblings.remaining().iter())?;
    siblings.next();
    match tail {
        None => Ok(Some(TemplateError::NoOperator(operator_place(until, at, siblings)))),
        Some(tail) => Ok(separator_fault(place_before(until, &siblings), &tail)),
    }
}

/// Returns what is wrong with a `$` before these siblings, which end before that flat place. Fails only if memory runs out.
pub(crate) fn dollar_fault(
    alloc: Global,
    until: usize,
    siblings: TtIter<'_>,
) -> Result<Option<TemplateError>, AllocError>
    ensures { IfOk result (λ fault. fault ≡ dollar_fault until (rest_of siblings.entry)) }
{
    let at = place_before(until, &siblings);
    match siblings.remaining().iter().next() {
        None => Ok(None),
        Some(TtElement::Leaf(leaf)) if may_follow(&leaf) => Ok(None),
        Some(TtElement::Leaf(_)) => Ok(Some(TemplateError::BeginsNothing(at))),
        Some(TtElement::Subtree(header, _)) => match header.delimiter.kind {
            DelimiterKind::Parenthesis => tail_fault(alloc, until, siblings),
            DelimiterKind::Bracket => Ok(Some(TemplateError::BeginsNothing(at))),
            DelimiterKind::Brace | DelimiterKind::Invisible | DelimiterKind::InvisibleOpaque => {
                Ok(None)
            }
        },
    }
}
