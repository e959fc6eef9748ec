//! Matches a pattern's siblings with those of an input, side by side.
ghost use Rattle.std.specs.Prelude.{◌≡◌, ◌↔◌, IsTrue, IfOk, MatchOption, map, Some, true, false};
ghost use Rattle.tt.specs.Iters.{rest_of, PassesOne};
ghost use Rattle.tt.specs.Moves.{after_tree};
ghost use Rattle.tt.specs.Siblings.{first_tree};
ghost use Rattle.tt.specs.Views.{trees_of};
ghost use Rattle.mbe_rule.specs.Instances.{takes, pattern_of};
ghost use Rattle.mbe_rule.specs.Matching.{Matches, trees_bound, Advances};

use crate::variable::{Fragment, variable_at};
use mbe_pattern::passes_leaf;
use std::alloc::{AllocError, Global};
use tt::{Leaf, TokenTreesView, TtElement, TtIter};

/// What is left of a pattern's siblings, and of an input's siblings that must agree with them.
#[derive(Drop)]
pub(crate) struct Pair<'p, 'i> {
    pattern: TtIter<'p>,
    input: TtIter<'i>,
}

/// What the next sibling of a pattern finds in an input.
#[derive(Drop)]
pub(crate) enum Progress<'p, 'i> {
    /// There is no sibling, and no tree of the input is left either.
    Ends,
    /// The sibling agrees, and is passed with what it takes.
    Passes,
    /// Both are subtrees of one kind: what they hold must agree.
    Enters(Pair<'p, 'i>),
    /// The input is no instance.
    Differs,
}

// Returns whether the fragment takes the first of these trees.
fn is_taken(fragment: Fragment, mut input: TtIter<'_>) -> bool
    ensures { result ≡ takes fragment (rest_of input.entry) }
{
    match fragment {
        Fragment::Ident => input.expect_ident().is_ok(),
        Fragment::Literal => input.expect_literal().is_ok(),
        Fragment::Tt => !input.is_empty(),
    }
}

// Takes and returns the next tree, if the fragment takes it.
fn take<'i>(fragment: Fragment, input: &mut TtIter<'i>) -> Option<TokenTreesView<'i>>
    ensures tree { MatchOption result (takes fragment (rest_of input.old) ≡ false) (λ view. (takes fragment (rest_of input.old) ≡ true) × (trees_of view ≡ first_tree (rest_of input.old)) × (rest_of input.new ≡ after_tree (rest_of input.old))) }
{
    if is_taken(fragment, input.remaining().iter()) {
        input.next_as_view()
    } else {
        None
    }
}

// Passes the next sibling of the pattern with what it takes from the input.
fn advance<'p, 'i>(
    pair: &mut Pair<'p, 'i>,
    taken: &mut Vec<TokenTreesView<'i>>,
) -> Result<Progress<'p, 'i>, AllocError>
    ensures { IfOk result (λ progress. Advances pair.old (map trees_of taken.old.items) progress pair.new (map trees_of taken.new.items)) }
{
    match pair.pattern.next() {
        None => {
            if pair.input.is_empty() {
                Ok(Progress::Ends)
            } else {
                Ok(Progress::Differs)
            }
        }
        Some(TtElement::Leaf(leaf)) => match variable_at(&leaf, &mut pair.pattern) {
            Some(variable) => match take(variable.fragment, &mut pair.input) {
                Some(tree) => {
                    taken.push(tree)?;
                    Ok(Progress::Passes)
                }
                None => Ok(Progress::Differs),
            },
            None => {
                if passes_leaf(&leaf, &mut pair.input) {
                    Ok(Progress::Passes)
                } else {
                    Ok(Progress::Differs)
                }
            }
        },
        Some(TtElement::Subtree(header, pattern)) => match pair.input.expect_subtree() {
            Ok((other, input)) => {
                if other.delimiter.kind == header.delimiter.kind {
                    Ok(Progress::Enters(Pair { pattern, input }))
                } else {
                    Ok(Progress::Differs)
                }
            }
            Err(()) => Ok(Progress::Differs),
        },
    }
}

/// Returns the trees that the pattern's variables take, in reading order, if the input is an instance of the pattern.
pub(crate) fn trees_taken<'i>(
    alloc: Global,
    pattern: TtIter<'_>,
    input: TtIter<'i>,
) -> Result<Option<Vec<TokenTreesView<'i>>>, AllocError>
    ensures { IfOk result (λ answer. MatchOption answer (Matches (pattern_of (rest_of pattern.entry)) (rest_of input.entry) → ⊥) (λ taken. Matches (pattern_of (rest_of pattern.entry)) (rest_of input.entry) × (map trees_of taken.items ≡ trees_bound (pattern_of (rest_of pattern.entry)) (rest_of input.entry)))) }
{
    let mut taken = Vec::new(alloc);
    // The innermost last.
    let mut pairs = Vec::new(alloc);
    pairs.push(Pair { pattern, input })?;
    while let Some(mut pair) = pairs.pop() {
        match advance(&mut pair, &mut taken)? {
            Progress::Ends => {}
            Progress::Passes => pairs.push(pair)?,
            Progress::Enters(below) => {
                pairs.push(pair)?;
                pairs.push(below)?;
            }
            Progress::Differs => return Ok(None),
        }
    }
    Ok(Some(taken))
}
