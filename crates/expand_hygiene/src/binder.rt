//! What an expansion binds, by its derivation.
ghost use Rattle.std.specs.Prelude.{◌≡◌, drop, List, IfOk};
ghost use Rattle.tt.specs.Forest.{flat};
ghost use Rattle.tt.specs.SubtreeViews.{flat_rest};
ghost use Rattle.tt.specs.Token.{count_below};
ghost use Rattle.tt.specs.Views.{trees_of};
ghost use Rattle.expand_hygiene.specs.declared.mention.Mention.{Mention as MentionOf};
ghost use Rattle.expand_hygiene.specs.Binders.{innermost, outer, binder_of, binders_in};
ghost use Rattle.expand_hygiene.specs.Captures.{capture_of, first_capture};
ghost use Rattle.expand_hygiene.specs.Given.{IsGiven};
ghost use Rattle.expand_hygiene.specs.Walks.{state, PassesTree, PassesUnit, PassesEvent};

use crate::captures::Capture;
use crate::given::Given;
use crate::mention::Mention;
use mbe_grammar::{Event, FIELD_PATTERN, IDENTIFIER_PATTERN, LABEL};
use std::alloc::{AllocError, Global};
use tt::{FlatTokens, TokenTree, TokenTreesView};

// Returns the number of tokens below a token; 0 for a leaf.
fn count_below(token: &TokenTree) -> usize
    ensures { result ≡ count_below token.now }
{
    match token {
        TokenTree::Leaf(_) => 0,
        TokenTree::Subtree(subtree) => subtree.usize_len(),
    }
}

// Passes that many tokens.
fn skip(tokens: &mut FlatTokens<'_>, count: usize)
    ensures { flat (flat_rest tokens.new) ≡ drop count (flat (flat_rest tokens.old)) }
{
    for _ in 0..count {
        tokens.next();
    }
}

// Returns what a token binds whose innermost name is this one.
fn binder_of(name: Option<usize>, token: TokenTree) -> Option<Mention>
    ensures { result ≡ binder_of name token }
{
    match name? {
        LABEL => Mention::of(true, token),
        IDENTIFIER_PATTERN | FIELD_PATTERN => Mention::of(false, token),
        _ => None,
    }
}

// Returns what a binding captures.
fn capture_of(given: &Given, it: Mention) -> Option<Capture>
    ensures { (mentions : List MentionOf) → IsGiven given.now mentions → result ≡ capture_of mentions it }
{
    let captured = given.captured(it.kind, &it.ident)?;
    Some(Capture {
        kind: it.kind,
        name: it.ident.sym,
        binding: it.ident.span,
        captured,
    })
}

// Passes a tree that this name took. Returns what it captures.
fn pass_tree(given: &Given, name: Option<usize>, tokens: &mut FlatTokens<'_>) -> Option<Capture>
    ensures { PassesTree given.now name (flat (flat_rest tokens.old)) result (flat (flat_rest tokens.new)) }
{
    let token = tokens.next()?;
    let below = count_below(&token);
    skip(tokens, below);
    capture_of(given, binder_of(name, token)?)
}

// Passes that many trees. Returns the first capture of those that this name took.
fn pass_unit(
    given: &Given,
    name: Option<usize>,
    count: usize,
    tokens: &mut FlatTokens<'_>,
) -> Option<Capture>
    ensures { PassesUnit given.now name count (flat (flat_rest tokens.old)) result (flat (flat_rest tokens.new)) }
{
    for _ in 0..count {
        if let Some(found) = pass_tree(given, name, tokens) {
            return Some(found);
        }
    }
    None
}

// Returns the innermost name.
fn innermost(names: &[usize]) -> Option<usize>
    ensures { result ≡ innermost names.now }
{
    names.last().copied()
}

// Leaves the innermost name.
fn leave(names: &mut Vec<usize>)
    ensures { names.new.items ≡ outer names.old.items }
{
    names.truncate(names.len().saturating_sub(1));
}

// Passes the tokens of an event. Returns the first capture of them.
fn pass(
    given: &Given,
    event: Event,
    names: &mut Vec<usize>,
    tokens: &mut FlatTokens<'_>,
) -> Result<Option<Capture>, AllocError>
    ensures { IfOk result (λ found. PassesEvent given.now event (state names.old.items (flat (flat_rest tokens.old))) found (state names.new.items (flat (flat_rest tokens.new)))) }
{
    match event {
        Event::Enter(name) => names.push(name)?,
        Event::Leave => leave(names),
        Event::Token(count) => {
            return Ok(pass_unit(given, innermost(names), count, tokens));
        }
        Event::Open => skip(tokens, 1),
        Event::Close => {}
    }
    Ok(None)
}

/// Returns the first capture in trees with that derivation. Fails only if memory runs out.
pub(crate) fn first_capture_in(
    alloc: Global,
    given: &Given,
    trees: TokenTreesView<'_>,
    events: &[Event],
) -> Result<Option<Capture>, AllocError>
    ensures { IfOk result (λ found. (mentions : List MentionOf) → IsGiven given.now mentions → found ≡ first_capture mentions (binders_in (trees_of trees.entry) events.now)) }
{
    let mut names = Vec::new(alloc);
    let mut tokens = trees.iter_flat_tokens();
    for event in events {
        if let Some(found) = pass(given, *event, &mut names, &mut tokens)? {
            return Ok(Some(found));
        }
    }
    Ok(None)
}
