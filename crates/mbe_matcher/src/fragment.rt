//! What comes first among trees: the tokens of a pattern, and what its fragments take.
ghost use Rattle.std.specs.Prelude.{◌≡◌, ◌↔◌, IfOk, IsTrue};
ghost use Rattle.tt.specs.Iters.{rest_of};
ghost use Rattle.tt.specs.Moves.{after_tree};
ghost use Rattle.tt.specs.Views.{trees_of};
ghost use Rattle.mbe_grammar.specs.Fragments.{ReachesDeep};
ghost use Rattle.mbe_matcher.specs.Fragments.{is_at_literal, is_at_negative, begins_literal, literal_size, is_literal, is_at_held_literal, is_at_lifetime, is_at_block, is_scope, is_at_scope, visibility_size, takes, reach};
ghost use Rattle.mbe_pattern.specs.Units.{is_at_word, unit_size, AreLeavesLike};
ghost use Rattle.mbe_matcher.specs.GrammarReach.{grammar_reach, is_block};

use mbe_grammar::{is_block as is_block_by_grammar, reach_deep};
use mbe_pattern::{Fragment, GrammarFragment, is_at_word, pass, passes_leaf, unit_size};
use std::alloc::{AllocError, Global};
use tt::{DelimiterKind, IdentIsRaw, Leaf, TokenTreesView, TtElement, TtIter};

/// Returns whether the first trees are such leaves, one by one.
pub fn are_leaves_like(leaves: &[Leaf], mut trees: TtIter<'_>) -> bool
    ensures { IsTrue result ↔ AreLeavesLike leaves.now (rest_of trees.entry) }
{
    for leaf in leaves {
        if !passes_leaf(leaf, &mut trees) {
            return false;
        }
    }
    true
}

// Returns whether the first tree is a literal or a truth value, which is not raw.
fn is_at_literal(mut trees: TtIter<'_>) -> bool
    ensures { result ≡ is_at_literal (rest_of trees.entry) }
{
    match trees.next() {
        Some(TtElement::Leaf(Leaf::Literal(_))) => true,
        Some(TtElement::Leaf(Leaf::Ident(ident))) => matches!(
            (ident.is_raw, ident.sym.as_str()),
            (IdentIsRaw::No, "true" | "false")
        ),
        _ => false,
    }
}

// Returns whether a `-` and a literal or a truth value come first.
fn is_at_negative(mut trees: TtIter<'_>) -> bool
    ensures { result ≡ is_at_negative (rest_of trees.entry) }
{
    trees.expect_char('-').is_ok() && is_at_literal(trees)
}

// Returns whether a literal or a truth value comes first, or follows a `-`.
fn begins_literal(trees: TtIter<'_>) -> bool
    ensures { result ≡ begins_literal (rest_of trees.entry) }
{
    is_at_literal(trees.remaining().iter()) || is_at_negative(trees)
}

// Returns how many trees a literal has.
fn literal_size(trees: TtIter<'_>) -> usize
    ensures { result ≡ literal_size (rest_of trees.entry) }
{
    if is_at_negative(trees) { 2 } else { 1 }
}

// Returns whether the trees are such a literal and nothing else.
fn is_literal(mut trees: TtIter<'_>) -> bool
    ensures { result ≡ is_literal (rest_of trees.entry) }
{
    let begins = begins_literal(trees.remaining().iter());
    let count = literal_size(trees.remaining().iter());
    pass(&mut trees, count);
    begins && trees.is_empty()
}

// Returns whether the first tree is an opaque subtree that holds a literal and nothing else.
fn is_at_held_literal(mut trees: TtIter<'_>) -> bool
    ensures { result ≡ is_at_held_literal (rest_of trees.entry) }
{
    match trees.next() {
        Some(TtElement::Subtree(header, inside)) => {
            header.delimiter.kind == DelimiterKind::InvisibleOpaque && is_literal(inside)
        }
        _ => false,
    }
}

// Returns whether a `'` and an ident come first.
fn is_at_lifetime(mut trees: TtIter<'_>) -> bool
    ensures { result ≡ is_at_lifetime (rest_of trees.entry) }
{
    trees.expect_char('\'').is_ok() && trees.expect_ident_or_underscore().is_ok()
}

// Returns whether the trees are the contents of a block.
fn is_block(alloc: Global, trees: TokenTreesView<'_>) -> Result<bool, AllocError>
    ensures { IfOk result (λ answer. answer ≡ is_block (trees_of trees.entry)) }
{
    is_block_by_grammar(alloc, trees)
}

// Returns whether the first tree is a block.
fn is_at_block(alloc: Global, mut trees: TtIter<'_>) -> Result<bool, AllocError>
    ensures { IfOk result (λ answer. answer ≡ is_at_block (rest_of trees.entry)) }
{
    match trees.next() {
        Some(TtElement::Subtree(header, inside)) => match header.delimiter.kind {
            DelimiterKind::Brace => is_block(alloc, inside.remaining()),
            _ => Ok(false),
        },
        _ => Ok(false),
    }
}

// Returns whether the trees are `in` and what follows it, or `crate`, `self` or `super` alone.
fn is_scope(mut trees: TtIter<'_>) -> bool
    ensures { result ≡ is_scope (rest_of trees.entry) }
{
    if is_at_word(trees.remaining().iter(), "in") {
        return true;
    }
    let is_root = is_at_word(trees.remaining().iter(), "crate")
        || is_at_word(trees.remaining().iter(), "self")
        || is_at_word(trees.remaining().iter(), "super");
    trees.next();
    is_root && trees.is_empty()
}

// Returns whether the first tree is a subtree in parentheses that holds such a scope.
fn is_at_scope(mut trees: TtIter<'_>) -> bool
    ensures { result ≡ is_at_scope (rest_of trees.entry) }
{
    match trees.next() {
        Some(TtElement::Subtree(header, inside)) => {
            header.delimiter.kind == DelimiterKind::Parenthesis && is_scope(inside)
        }
        _ => false,
    }
}

// Returns how many trees a visibility has: 2 for `pub` with such parentheses, 1 for `pub` alone, or 0.
fn visibility_size(mut trees: TtIter<'_>) -> usize
    ensures { result ≡ visibility_size (rest_of trees.entry) }
{
    if !is_at_word(trees.remaining().iter(), "pub") {
        return 0;
    }
    trees.next();
    if is_at_scope(trees) { 2 } else { 1 }
}

/// Returns how many trees the fragment of Rust's grammar takes from the front; none if it takes none there, or if a subtree that it takes
/// has other contents than its name in the grammar says. Fails only if memory runs out.
pub fn grammar_reach(
    alloc: Global,
    fragment: GrammarFragment,
    trees: TtIter<'_>,
) -> Result<Option<usize>, AllocError>
    ensures reaches { IfOk result (λ count. ReachesDeep fragment (rest_of trees.entry) count) }
    ensures count_is { IfOk result (λ count. count ≡ grammar_reach fragment (rest_of trees.entry)) }
{
    reach_deep(alloc, fragment, trees)
}

/// Returns whether the fragment takes the trees at the front. Fails only if memory runs out.
pub fn takes(alloc: Global, fragment: Fragment, mut trees: TtIter<'_>) -> Result<bool, AllocError>
    ensures { IfOk result (λ answer. answer ≡ takes fragment (rest_of trees.entry)) }
{
    match fragment {
        Fragment::Ident => Ok(trees.expect_ident().is_ok()),
        Fragment::Literal => {
            let begins = begins_literal(trees.remaining().iter());
            Ok(begins || is_at_held_literal(trees))
        }
        Fragment::Lifetime => Ok(is_at_lifetime(trees)),
        Fragment::Block => is_at_block(alloc, trees),
        Fragment::Vis | Fragment::Tt => Ok(!trees.is_empty()),
        Fragment::Grammar(which) => Ok(grammar_reach(alloc, which, trees)?.is_some()),
    }
}

/// Returns how many trees the fragment takes. Fails only if memory runs out.
pub fn reach(alloc: Global, fragment: Fragment, trees: TtIter<'_>) -> Result<usize, AllocError>
    ensures { IfOk result (λ count. count ≡ reach fragment (rest_of trees.entry)) }
{
    match fragment {
        Fragment::Ident | Fragment::Block => Ok(1),
        Fragment::Literal => Ok(literal_size(trees)),
        Fragment::Lifetime => Ok(2),
        Fragment::Vis => Ok(visibility_size(trees)),
        Fragment::Tt => Ok(unit_size(trees)),
        Fragment::Grammar(which) => Ok(grammar_reach(alloc, which, trees)?.unwrap_or(1)),
    }
}
