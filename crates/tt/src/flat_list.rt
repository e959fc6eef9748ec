//! The flat list that a flat builder holds.
ghost use Rattle.std.specs.Prelude.{◌≡◌, ◌-◌, ◌<◌, ◌≤◌, ◌++◌, ◌∷◌, [], drop, get_or, length, set, IfOk, IfErr, OnOk, OnErr};
ghost use Rattle.tt_base.specs.declared.delimiter.Delimiter.{Delimiter as Top};
ghost use Rattle.tt_base.specs.declared.token_tree.TokenTree.{TokenTree as Token};
ghost use Rattle.tt_base.specs.Forest.{flat_root, header, IsWhole};
ghost use Rattle.tt_tables.specs.SmallHeld.{closed_token};
ghost use Rattle.tt_view.specs.PackFault.{IsPackFault};
ghost use Rattle.tt_view.specs.Stored.{IsWithinLimits};
ghost use Rattle.tt.specs.FlatFields.{counted, counted_token};

use std::alloc::{AllocError, Global};
use std::marker::Model;
use tt_base::{Delimiter, Refused, Span, SpanPart, Subtree, TokenTree, TtFault};
use tt_tables::SmallTokens;
use tt_view::TopSubtree;

// The largest number of tokens that stay whole. A longer list takes less memory, and a little more time for each token.
const MOST_WHOLE: usize = 4096;

/// A flat list: the header of a top, and the tokens below it. A contract sees the tokens.
#[derive(Drop)]
pub(crate) struct FlatList {
    // the header of the top and the tokens below it, while they are few; then only that header
    whole: Vec<TokenTree>,
    // the tokens below the top, once they are many
    small: SmallTokens,
    alloc: Global,
    ghost some: { 0 < length whole.items },
    ghost moved: { 0 < length small → length whole.items ≡ 1 },
}

impl Model for FlatList {
    ghost use Rattle.std.specs.Prelude.{◌++◌, List};
    ghost use Rattle.tt_base.specs.declared.token_tree.TokenTree.{TokenTree};
    ghost use Rattle.tt_tables.specs.SmallHeld.{tokens_code};

    ghost Value = { List TokenTree };

    ghost coded = { tokens_code };

    ghost view = { λ list. list.whole.items ++ list.small };
}

// Returns the part of the first token's first span. There is a token.
fn first_part(tokens: &[TokenTree]) -> SpanPart
    requires { 0 < length tokens.now }
{
    match &tokens[0] {
        TokenTree::Leaf(leaf) => SpanPart::from_span(leaf.span()),
        TokenTree::Subtree(top) => SpanPart::from_span(&top.delimiter.open_span),
    }
}

// Appends a token. Fails only if memory runs out, and then changes nothing.
fn append(small: &mut SmallTokens, token: TokenTree) -> Result<(), AllocError>
    requires { length small.old < 4294967296 }
    ensures ok { OnOk result (small.new ≡ small.old ++ token ∷ []) }
    ensures err { OnErr result (small.new ≡ small.old) }
{
    match token {
        TokenTree::Leaf(leaf) => small.push_leaf(leaf),
        TokenTree::Subtree(subtree) => small.push_header(subtree),
    }
}

// Returns these tokens in little memory. Fails only if memory runs out.
fn made_small(
    alloc: Global,
    part: SpanPart,
    tokens: &[TokenTree],
) -> Result<SmallTokens, AllocError>
    requires { length tokens.now ≤ 4294967296 }
    ensures { IfOk result (λ small. small ≡ tokens.now) }
{
    let mut small = SmallTokens::new(alloc, part);
    for token in tokens {
        append(&mut small, token.clone()?)?;
    }
    Ok(small)
}

// Moves the tokens below the top to `small` if they are still whole. Fails only if memory runs out, and then changes nothing.
fn move_below(
    alloc: Global,
    whole: &mut Vec<TokenTree>,
    small: &mut SmallTokens,
) -> Result<(), AllocError>
    requires some { 0 < length whole.old.items }
    requires moved { 0 < length small.old → length whole.old.items ≡ 1 }
    requires few { length whole.old.items ≤ 4294967296 }
    ensures list { OnOk result (whole.new.items ++ small.new ≡ whole.old.items ++ small.old) }
    ensures one { OnOk result (length whole.new.items ≡ 1) }
    ensures err_whole { OnErr result (whole.new.items ≡ whole.old.items) }
    ensures err_small { OnErr result (small.new ≡ small.old) }
{
    if small.len() > 0 {
        return Ok(());
    }
    let part = first_part(whole);
    *small = made_small(alloc, part, &whole[1..])?;
    whole.truncate(1);
    Ok(())
}

// Sets the close span of the header at a place, and its count.
fn close_header(tokens: &mut Vec<TokenTree>, place: usize, close_span: Span, len: u32)
    requires { place < length tokens.old.items }
    ensures { (d : Token) → tokens.new.items ≡ set tokens.old.items place (closed_token close_span len (get_or tokens.old.items place d)) }
{
    if let TokenTree::Subtree(header) = &mut tokens[place] {
        header.delimiter.close = close_span;
        header.len = len;
    }
}

// Sets the count of the first header to the number of tokens after it.
fn count_below(tokens: &mut Vec<TokenTree>)
    requires some { 0 < length tokens.old.items }
    requires few { length tokens.old.items ≤ 4294967296 }
    ensures { (d : Token) → tokens.new.items ≡ set tokens.old.items 0 (counted_token (length tokens.old.items - 1) (get_or tokens.old.items 0 d)) }
{
    let len = (tokens.len() - 1) as u32;
    if let TokenTree::Subtree(header) = &mut tokens[0] {
        header.len = len;
    }
}

// Returns the tree of a list with the right count in its first header. Fails as `TopSubtree::from_serialized` does for that list.
fn build_whole(alloc: Global, tokens: Vec<TokenTree>) -> Result<TopSubtree, TtFault>
    requires some { 0 < length tokens.items }
    requires few { length tokens.items ≤ 4294967296 }
    ensures ok { IfOk result (λ tree. counted (length tokens.items - 1) tokens.items ≡ flat_root tree) }
    ensures limits { IfOk result (λ tree. IsWithinLimits tree) }
    ensures err { IfErr result (IsPackFault (counted (length tokens.items - 1) tokens.items)) }
{
    let mut counted_tokens = tokens;
    count_below(&mut counted_tokens);
    match TopSubtree::from_serialized(alloc, counted_tokens) {
        Ok(tree) => Ok(tree),
        Err(
            Refused {
                fault,
                value: _tokens,
            },
        ) => Err(fault),
    }
}

// Returns the delimiter of the first header. The first token is a header with the count 0.
fn first_delimiter(tokens: &[TokenTree]) -> Delimiter
    requires { (top : Top) × (tokens.now ≡ header top 0 ∷ drop 1 tokens.now) }
    ensures { tokens.now ≡ header result 0 ∷ drop 1 tokens.now }
{
    match &tokens[0] {
        TokenTree::Subtree(top) => top.delimiter,
        TokenTree::Leaf(_) => unreachable!(),
    }
}

impl FlatList {
    /// Returns the list of a top's header, with room for `tokens` tokens below it, or for as many as stay whole. Fails only if memory runs out.
    pub(crate) fn with_capacity(
        alloc: Global,
        top: Delimiter,
        tokens: usize,
    ) -> Result<FlatList, AllocError>
        ensures { IfOk result (λ list. list ≡ header top 0 ∷ []) }
    {
        let mut whole = Vec::with_capacity(alloc, tokens.min(MOST_WHOLE))?;
        whole.push(TokenTree::Subtree(Subtree {
            delimiter: top,
            len: 0,
        }))?;
        Ok(FlatList {
            whole,
            small: SmallTokens::new(alloc, SpanPart::from_span(&top.open_span)),
            alloc,
        })
    }

    /// Returns the number of tokens.
    #[inline(always)]
    pub(crate) fn len(&self) -> usize
        requires { length self.now ≤ 4294967296 }
        ensures { result ≡ length self.now }
    {
        self.whole.len() + self.small.len()
    }

    /// Appends a token. Fails only if memory runs out, and then changes nothing.
    #[inline]
    pub(crate) fn push(&mut self, token: TokenTree) -> Result<(), AllocError>
        requires { length self.old < 4294967296 }
        ensures ok { OnOk result (self.new ≡ self.old ++ token ∷ []) }
        ensures err { OnErr result (self.new ≡ self.old) }
    {
        if self.small.len() == 0 && self.whole.len() < MOST_WHOLE {
            self.whole.reserve(1)?;
            self.whole.push_reserved(token);
            return Ok(());
        }
        self.push_small(token)
    }

    // Appends a token in little memory, after it has moved the others.
    #[inline(never)]
    fn push_small(&mut self, token: TokenTree) -> Result<(), AllocError>
        requires { length self.old < 4294967296 }
        ensures ok { OnOk result (self.new ≡ self.old ++ token ∷ []) }
        ensures err { OnErr result (self.new ≡ self.old) }
    {
        move_below(self.alloc, &mut self.whole, &mut self.small)?;
        append(&mut self.small, token)
    }

    /// Gives the header at a place its close span and its count. Does nothing if a leaf is there.
    pub(crate) fn close(&mut self, place: usize, close_span: Span, len: u32)
        requires within { place < length self.old }
        ensures { (d : Token) → self.new ≡ set self.old place (closed_token close_span len (get_or self.old place d)) }
    {
        let kept = self.whole.len();
        if place < kept {
            close_header(&mut self.whole, place, close_span, len);
        } else {
            self.small.close(place - kept, close_span, len);
        }
    }

    /// Returns the tree of the list with the right count in its first header. Fails as `TopSubtree::from_serialized` does for that list.
    pub(crate) fn build(self) -> Result<TopSubtree, TtFault>
        requires few { length self ≤ 4294967296 }
        requires top { (top : Top) × (self ≡ header top 0 ∷ drop 1 self) }
        requires whole { IsWhole (drop 1 self) }
        ensures ok { IfOk result (λ tree. counted (length self - 1) self ≡ flat_root tree) }
        ensures limits { IfOk result (λ tree. IsWithinLimits tree) }
        ensures err { IfErr result (IsPackFault (counted (length self - 1) self)) }
    {
        let FlatList {
            whole,
            small,
            alloc,
            ..
        } = self;
        if small.len() == 0 {
            return build_whole(alloc, whole);
        }
        TopSubtree::from_small(alloc, first_delimiter(&whole), small)
    }
}
