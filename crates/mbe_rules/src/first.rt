//! Reads a template's trees, part by part.
ghost use Rattle.std.specs.Prelude.{◌≡◌, ◌∷◌, [], true, None, map, IfOk, IfErr};
ghost use Rattle.std.specs.List.{position};
ghost use Rattle.tt.specs.Forest.{leaf};
ghost use Rattle.tt.specs.Iters.{rest_of};
ghost use Rattle.mbe_pattern.specs.Spelling.{is_dollar};
ghost use Rattle.mbe_matcher.specs.Binders.{where_of};
ghost use Rattle.mbe_rules.specs.Spelling.{template_until, dollar_of, has_name, variable_in, mark_in};
ghost use Rattle.mbe_rules.specs.SpellingFaults.{dollar_fault, fault_until, IsFault};
ghost use Rattle.mbe_rules.specs.Stepping.{IsFirst, fault_from};
ghost use Rattle.mbe_rules.specs.Marks.{mark_of};

use crate::error::TemplateError;
use crate::seams::{last_alone, seamed};
use crate::spelling_fault::{dollar_fault, place_before};
use mbe_matcher::Binder;
use mbe_pattern::{Tail, is_at_punct, is_crate_in, is_dollar, pass, repetition_in};
use std::alloc::{AllocError, Global};
use tt::{Delimiter, Leaf, Symbol, TtElement, TtIter};

/// The first part of a template. A use and a repetition have the flat place of their `$`, and a use says whether a `<` follows it. The
/// inside of a subtree or a repetition has the flat place after its last token.
#[derive(Drop)]
pub(crate) enum First<'t> {
    /// There is no part.
    End,
    Use(usize, usize, bool),
    Token(Leaf),
    Subtree(Delimiter, TtIter<'t>, usize),
    Repetition(usize, TtIter<'t>, usize, Tail),
}

/// What a `$` begins; a use says whether a `<` follows it.
#[derive(Drop)]
pub(crate) enum Mark {
    Use(usize, bool),
    Repetition(Tail),
    /// Another `$`.
    Second(Leaf),
    Nothing,
}

// Returns whether the binder is the variable of that name.
fn has_name(binder: &Binder, name: &Symbol) -> bool
    ensures { result ≡ has_name name.now (where_of binder.now) }
{
    name.as_str() == binder.name.as_str()
}

// Returns the index of the first variable of that name.
fn named(binders: &[Binder], name: &Symbol) -> Option<usize>
    ensures { result ≡ position (has_name name.now) (map where_of binders.now) }
{
    binders.iter().position(|binder| has_name(binder, name))
}

// Returns the index of the first variable whose name is the first tree.
fn variable_in(binders: &[Binder], mut siblings: TtIter<'_>) -> Option<usize>
    ensures { result ≡ variable_in (map where_of binders.now) (rest_of siblings.entry) }
{
    let ident = siblings.expect_ident_or_underscore().ok()?;
    named(binders, &ident.sym)
}

// Returns the first tree, if it is a `$`.
fn dollar_of(mut siblings: TtIter<'_>) -> Option<Leaf>
    ensures { result ≡ dollar_of (rest_of siblings.entry) }
{
    match siblings.next() {
        Some(TtElement::Leaf(leaf)) if is_dollar(&leaf) => Some(leaf),
        _ => None,
    }
}

// Returns what a `$` before these siblings begins.
fn mark_in(alloc: Global, binders: &[Binder], siblings: TtIter<'_>) -> Result<Mark, AllocError>
    ensures { IfOk result (λ mark. mark_of mark ≡ mark_in (map where_of binders.now) (rest_of siblings.entry)) }
{
    if let Some(second) = dollar_of(siblings.remaining().iter()) {
        return Ok(Mark::Second(second));
    }
    if let Some(tail) = repetition_in(alloc, siblings.remaining().iter())? {
        return Ok(Mark::Repetition(tail));
    }
    if is_crate_in(siblings.remaining().iter()) {
        return Ok(Mark::Nothing);
    }
    let mut behind = siblings.remaining().iter();
    behind.next();
    match variable_in(binders, siblings) {
        Some(number) => Ok(Mark::Use(number, is_at_punct(behind, '<'))),
        None => Ok(Mark::Nothing),
    }
}

// Reads the part that a `$` begins, which is sound. The siblings follow the `$` and end before that flat place.
fn marked_part<'t>(
    alloc: Global,
    binders: &[Binder],
    until: usize,
    dollar: Leaf,
    siblings: &mut TtIter<'t>,
) -> Result<First<'t>, AllocError>
    requires dollar { is_dollar dollar ≡ true }
    requires sound { dollar_fault until (rest_of siblings.now) ≡ None }
    ensures part { IfOk result (λ part. IsFirst (map where_of binders.now) (template_until (map where_of binders.now) until (leaf dollar (rest_of siblings.old))) part (template_until (map where_of binders.now) until (rest_of siblings.new))) }
    ensures fault { IfOk result (λ part. fault_until until (leaf dollar (rest_of siblings.old)) ≡ fault_from part (fault_until until (rest_of siblings.new))) }
{
    let at = place_before(until, siblings).saturating_sub(1);
    match mark_in(alloc, binders, siblings.remaining().iter())? {
        Mark::Use(number, less_follows) => {
            siblings.next();
            Ok(First::Use(at, number, less_follows))
        }
        Mark::Repetition(tail) => match siblings.expect_subtree() {
            Ok((_, inner)) => {
                let inside = place_before(until, siblings);
                siblings.next();
                pass(siblings, tail.separator.len());
                let separator = last_alone(tail.separator)?;
                let kind = tail.kind;
                Ok(First::Repetition(at, inner, inside, Tail { separator, kind }))
            }
            Err(()) => unreachable!(),
        },
        Mark::Second(second) => {
            siblings.next();
            Ok(First::Token(second))
        }
        Mark::Nothing => Ok(First::Token(dollar)),
    }
}

/// Reads and passes the first part of the template that these trees spell. They end before that flat place. Returns the fault of a `$`
/// that comes first; fails also if memory runs out.
pub(crate) fn next_part<'t>(
    alloc: Global,
    binders: &[Binder],
    until: usize,
    trees: &mut TtIter<'t>,
) -> Result<First<'t>, TemplateError>
    ensures part { IfOk result (λ part. IsFirst (map where_of binders.now) (template_until (map where_of binders.now) until (rest_of trees.old)) part (template_until (map where_of binders.now) until (rest_of trees.new))) }
    ensures fault { IfOk result (λ part. fault_until until (rest_of trees.old) ≡ fault_from part (fault_until until (rest_of trees.new))) }
    ensures err { IfErr result (IsFault (fault_until until (rest_of trees.old))) }
{
    match trees.next() {
        None => Ok(First::End),
        Some(TtElement::Subtree(header, inner)) => {
            let inside = place_before(until, trees);
            Ok(First::Subtree(header.delimiter, inner, inside))
        }
        Some(TtElement::Leaf(leaf)) => {
            if !is_dollar(&leaf) {
                return Ok(First::Token(seamed(leaf, trees.remaining().iter())));
            }
            if let Some(fault) = dollar_fault(alloc, until, trees.remaining().iter())? {
                return Err(fault);
            }
            let part = marked_part(alloc, binders, until, leaf, trees)?;
            Ok(part)
        }
    }
}
