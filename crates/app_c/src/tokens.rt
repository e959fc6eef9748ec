//! The tokens of a tree: their texts, and words about them.
ghost use Rattle.std.specs.Prelude.{◌≡◌, ◌∷◌, false, IfOk, IfErr, List, OnOk, length};
ghost use Rattle.tt_base.specs.Walk.{Event, events_ahead, is_at_close, is_over, one_on};
ghost use Rattle.tt_view.specs.Views.{trees_of};
ghost use Rattle.app_c.specs.Failures.{placeless};
ghost use Rattle.app_c.specs.Tokens.{closing, opening, seen_at, seen_first, seen_leaf, span_words, AreTokensIn, AreTokensOf, HaveNoTokens, IsPut};

use crate::bytes::tree_of_bytes;
use crate::failure::{Failure, limit_failure};
use crate::fault::Fault;
use crate::listing::Listing;
use std::alloc::{AllocError, Global};
use tt::{Delimiter, Leaf, Span, TokenTree, TokenTreesView};
use tt_codec::kind_number;
use tt_view::{Cursor, text};

// What a token is.
const OPEN: usize = 1;

const CLOSE: usize = 2;

const IDENT: usize = 3;

const PUNCT: usize = 4;

const LITERAL: usize = 5;

// Goes one place on, at no end of a subtree.
fn pass(cursor: &mut Cursor<'_>) -> Result<(), Failure>
    requires { is_at_close (events_ahead cursor.old) ≡ false }
    ensures ok { OnOk result (cursor.new ≡ one_on cursor.old) }
    ensures err { IfErr result (λ failure. failure ≡ placeless Fault.Memory) }
{
    match cursor.bump() {
        Ok(()) => Ok(()),
        Err(fault) => Err(limit_failure(fault)),
    }
}

impl Listing {
    // Adds a token.
    fn put_token(
        &mut self,
        sort: usize,
        kind: usize,
        text: &str,
        span: Span,
    ) -> Result<(), AllocError>
        ensures { OnOk result (IsPut (record { sort = sort; kind = kind; text = text.now; span = span }) self.old self.new) }
    {
        let words = [
            sort,
            kind,
            self.bytes.len(),
            text.len(),
            span.range.start().raw() as usize,
            span.range.end().raw() as usize,
            span.anchor.file_id.0 as usize,
            span.anchor.ast_id.0 as usize,
            span.ctx.0 as usize,
        ];
        self.bytes.extend_from_slice(text.as_bytes())?;
        self.words.extend_from_slice(&words)
    }

    // Adds a leaf.
    fn put_leaf(&mut self, alloc: Global, leaf: &Leaf) -> Result<(), AllocError>
        ensures { OnOk result (IsPut (seen_leaf leaf.now) self.old self.new) }
    {
        match leaf {
            Leaf::Ident(ident) => {
                let text = format!(in alloc; "{ident}")?;
                self.put_token(IDENT, ident.is_raw as usize, text.as_str(), ident.span)
            }
            Leaf::Punct(punct) => {
                let text = format!(in alloc; "{punct}")?;
                self.put_token(PUNCT, punct.spacing as usize, text.as_str(), punct.span)
            }
            Leaf::Literal(literal) => {
                let text = format!(in alloc; "{literal}")?;
                let kind = kind_number(literal.kind()) as usize;
                self.put_token(LITERAL, kind, text.as_str(), *literal.span())
            }
        }
    }

    // Adds the start of a subtree.
    fn put_opening(&mut self, it: Delimiter) -> Result<(), AllocError>
        ensures { OnOk result (IsPut (opening it) self.old self.new) }
    {
        self.put_token(OPEN, it.kind as usize, text::opening(it.kind), it.open_span)
    }

    // Adds the end of a subtree.
    fn put_closing(&mut self, it: Delimiter) -> Result<(), AllocError>
        ensures { OnOk result (IsPut (closing it) self.old self.new) }
    {
        self.put_token(CLOSE, it.kind as usize, text::closing(it.kind), it.close)
    }

    // Adds a leaf, or the start of a subtree.
    fn put_first(&mut self, alloc: Global, token: &TokenTree) -> Result<(), AllocError>
        ensures { OnOk result (IsPut (seen_first token.now) self.old self.new) }
    {
        match token {
            TokenTree::Leaf(leaf) => self.put_leaf(alloc, leaf),
            TokenTree::Subtree(subtree) => self.put_opening(subtree.delimiter),
        }
    }

    // Adds what the walk comes to, and goes one place on.
    fn put_here(&mut self, alloc: Global, cursor: &mut Cursor<'_>) -> Result<(), Failure>
        requires { is_over (events_ahead cursor.old) ≡ false }
        ensures place { OnOk result (cursor.new ≡ one_on cursor.old) }
        ensures put { OnOk result ((event : Event) × (events : List Event) × (events_ahead cursor.old ≡ event ∷ events) × IsPut (seen_at event) self.old self.new) }
        ensures err { IfErr result (λ failure. failure ≡ placeless Fault.Memory) }
    {
        match cursor.token_tree() {
            Some(token) => {
                self.put_first(alloc, &token)?;
                pass(cursor)
            }
            None => {
                let subtree = cursor.end();
                self.put_closing(subtree.delimiter)?;
                Ok(())
            }
        }
    }
}

// Returns the listing of the tokens of trees.
fn tokens_of(alloc: Global, trees: TokenTreesView<'_>) -> Result<Listing, Failure>
    ensures ok { IfOk result (λ it. AreTokensOf (trees_of trees.entry) it.bytes.items it.words.items) }
    ensures err { IfErr result (λ failure. failure ≡ placeless Fault.Memory) }
{
    let mut listing = Listing::new(alloc);
    let mut cursor = trees.cursor(alloc);
    'walk: while !cursor.eof() {
        listing.put_here(alloc, &mut cursor)?;
    }
    Ok(listing)
}

/// Returns the listing of the tokens of the tree that has these bytes.
pub(crate) fn tokens_of_bytes(alloc: Global, bytes: &[u8]) -> Result<Listing, Failure>
    ensures ok { IfOk result (λ it. AreTokensIn bytes.now it.bytes.items it.words.items) }
    ensures err { IfErr result (HaveNoTokens bytes.now) }
{
    let tree = tree_of_bytes(alloc, bytes)?;
    tokens_of(alloc, tree.token_trees())
}
