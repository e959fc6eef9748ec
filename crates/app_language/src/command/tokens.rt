//! Tokens as the rest of a line.
ghost use Rattle.std.specs.Prelude.{◌≡◌, IfOk, IfErr, encode_utf8};
ghost use Rattle.std.specs.Char.{IsScalar};
ghost use Rattle.tt_base.specs.Fits.{LeafFits, TokenFits};
ghost use Rattle.tt_base.specs.declared.fault.TtFault.TheVariants.{Memory};
ghost use Rattle.tt_base.specs.declared.leaf.Leaf.TheVariants as leaf;
ghost use Rattle.tt_base.specs.declared.token_tree.TokenTree.TheVariants as token;
ghost use Rattle.app_language.specs.Reading.{Reads};
ghost use Rattle.app_language.specs.Token.{placed_words, PlacedFits, punct_words, ident_words, literal_words, leaf_words, subtree_words, token_words};

use crate::command::front::{after_ident, after_lit, after_punct, after_sub};
use crate::command::numbers::number;
use crate::command::word::Word;
use std::str::from_utf8;
use tt_base::{
    Delimiter, Ident, Leaf, Literal, Punct, Span, Subtree, Symbol, Texts, TokenTree, TtFault,
};

/// Reads the token that the text spells.
#[inline(always)]
pub fn token(texts: &mut Texts, text: &[u8]) -> Result<Option<TokenTree>, TtFault>
    ensures reads { IfOk result (Reads token_words TokenFits text.now) }
    ensures err { IfErr result (λ fault. fault ≡ Memory) }
{
    if let Some(rest) = after_sub(text) {
        return Ok(subtree(rest).map(TokenTree::Subtree));
    }
    Ok(leaf(texts, text)?.map(TokenTree::Leaf))
}

/// Reads the leaf that the text spells.
#[inline(always)]
pub fn leaf(texts: &mut Texts, text: &[u8]) -> Result<Option<Leaf>, TtFault>
    ensures reads { IfOk result (Reads leaf_words LeafFits text.now) }
    ensures err { IfErr result (λ fault. fault ≡ Memory) }
{
    if let Some(rest) = after_punct(text) {
        return Ok(punct(rest).map(Leaf::Punct));
    }
    if let Some(rest) = after_ident(text) {
        return Ok(ident(texts, rest)?.map(Leaf::Ident));
    }
    if let Some(rest) = after_lit(text) {
        return Ok(literal(texts, rest)?.map(Leaf::Literal));
    }
    Ok(None)
}

// Reads what follows `sub`.
fn subtree(text: &[u8]) -> Option<Subtree>
    ensures { Reads subtree_words (λ subtree. TokenFits (token.Subtree subtree)) text.now result }
{
    let (kind, rest) = Word::read_before_space(text)?;
    let (open_span, rest) = Word::read_before_space(rest)?;
    let (close, rest) = Word::read_before_space(rest)?;
    let len = number(rest)?;
    let delimiter = Delimiter {
        open_span,
        close,
        kind,
    };
    Some(Subtree { delimiter, len })
}

// Reads what follows `punct`.
fn punct(text: &[u8]) -> Option<Punct>
    ensures { Reads punct_words (λ punct. LeafFits (leaf.Punct punct)) text.now result }
{
    let (spacing, rest) = Word::read_before_space(text)?;
    let (span, rest) = Word::read_before_space(rest)?;
    let char = character(rest)?;
    Some(Punct {
        char,
        spacing,
        span,
    })
}

/// Reads the only character of the text.
pub fn character(text: &[u8]) -> Option<char>
    ensures { Reads encode_utf8 IsScalar text.now result }
{
    let Ok(text) = from_utf8(text) else {
        return None;
    };
    text.parse().ok()
}

// Reads what follows `ident`.
#[inline(always)]
fn ident(texts: &mut Texts, text: &[u8]) -> Result<Option<Ident>, TtFault>
    ensures reads { IfOk result (Reads ident_words (λ ident. LeafFits (leaf.Ident ident)) text.now) }
    ensures err { IfErr result (λ fault. fault ≡ Memory) }
{
    let Some((is_raw, rest)) = Word::read_before_space(text) else {
        return Ok(None);
    };
    let Some((span, sym)) = placed(texts, rest)? else {
        return Ok(None);
    };
    Ok(Some(Ident { sym, span, is_raw }))
}

// Reads what follows `lit`.
#[inline(always)]
fn literal(texts: &mut Texts, text: &[u8]) -> Result<Option<Literal>, TtFault>
    ensures reads { IfOk result (Reads literal_words (λ literal. LeafFits (leaf.Literal literal)) text.now) }
    ensures err { IfErr result (λ fault. fault ≡ Memory) }
{
    let Some((kind, rest)) = Word::read_before_space(text) else {
        return Ok(None);
    };
    let Some((suffix_len, rest)) = Word::read_before_space(rest) else {
        return Ok(None);
    };
    let Some((span, symbol)) = placed(texts, rest)? else {
        return Ok(None);
    };
    Ok(Literal::from_parts(symbol, span, kind, suffix_len))
}

// Reads a span, and the whole rest as a text.
#[inline(always)]
fn placed(texts: &mut Texts, text: &[u8]) -> Result<Option<(Span, Symbol)>, TtFault>
    ensures reads { IfOk result (Reads placed_words PlacedFits text.now) }
    ensures err { IfErr result (λ fault. fault ≡ Memory) }
{
    let Some((span, rest)) = Word::read_before_space(text) else {
        return Ok(None);
    };
    let Some(symbol) = texts.symbol_of_bytes(rest)? else {
        return Ok(None);
    };
    Ok(Some((span, symbol)))
}
