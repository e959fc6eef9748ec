//! Adds the leaves of a text to a builder.
ghost use Rattle.std.specs.Prelude.{◌≡◌, ◌+◌, ◌^◌, ◌<◌, ◌≤◌, [], ◌∷◌, length, Some, IfErr, OnOk};
ghost use Rattle.tt_base.specs.Scan.{FitsText, parts_told};
ghost use Rattle.syntax_parse.specs.Limits.{IsAddFault};
ghost use Rattle.syntax_parse.specs.Parsed.{Adds};
ghost use Rattle.syntax_parse.specs.Pieces.{leaves_of, lifetime, literal_of, name_of, piece, scan_of};
ghost use Rattle.syntax_parse.specs.Role.{role_in};
ghost use Rattle.syntax_parse.specs.Scanned.{IsScanned};
ghost use Rattle.syntax_parse.specs.Spelled.{at_span, piece_of, sign};
ghost use Rattle.syntax_parse.specs.declared.role.Role.TheVariants.{Leaf as IsLeaf};

use crate::doc::{add_doc, block_text, line_text};
use crate::leaves::{behind_apostrophe, punct_char, scan_of, spacing_before, span_at};
use std::alloc::Global;
use syntax_lex::{LiteralKind, TokenKind};
use tt::FlatBuilder;
use tt_base::{
    Ident, IdentIsRaw, Leaf, Punct, Spacing, Span, SpanPart, Texts, TtFault, token_to_literal,
};

/// Adds a leaf at the end.
#[tactic(auto, using(crate::proofs::StackFacts::adds_leaf, crate::proofs::LimitFacts::leaf_fault))]
pub fn add_leaf(builder: &mut FlatBuilder, leaf: Leaf) -> Result<(), TtFault>
    ensures ok { OnOk result (Adds (piece_of leaf ∷ []) builder.old builder.new) }
    ensures err { IfErr result (IsAddFault (piece_of leaf ∷ []) builder.old) }
{
    builder.push(leaf)?;
    Ok(())
}

/// Adds the name that a text spells at the end.
pub fn add_name(
    texts: &mut Texts,
    builder: &mut FlatBuilder,
    text: &str,
    span: Span,
) -> Result<(), TtFault>
    ensures err { IfErr result (IsAddFault (at_span (name_of text.now) span ∷ []) builder.old) }
    ensures ok { OnOk result (Adds (at_span (name_of text.now) span ∷ []) builder.old builder.new) }
{
    let (is_raw, name) = IdentIsRaw::split_from_symbol(text);
    let sym = texts.symbol(name)?;
    add_leaf(builder, Leaf::Ident(Ident { sym, span, is_raw }))
}

/// Adds a punct at the end.
pub fn add_punct(
    builder: &mut FlatBuilder,
    char: char,
    spacing: Spacing,
    span: Span,
) -> Result<(), TtFault>
    ensures err { IfErr result (IsAddFault (at_span (sign char spacing) span ∷ []) builder.old) }
    ensures ok { OnOk result (Adds (at_span (sign char spacing) span ∷ []) builder.old builder.new) }
{
    add_leaf(
        builder,
        Leaf::Punct(Punct {
            char,
            spacing,
            span,
        }),
    )
}

// Adds the literal that a text spells at the end.
#[tactic(auto, using(crate::proofs::Hashes::scan_fault))]
fn add_literal(
    alloc: Global,
    builder: &mut FlatBuilder,
    kind: LiteralKind,
    suffix_start: u32,
    text: &str,
    span: Span,
) -> Result<(), TtFault>
    requires scan { FitsText text.now (scan_of kind) suffix_start }
    requires short { length (parts_told text.now (Some (scan_of kind, suffix_start))).suffix ≤ 255 }
    ensures err { IfErr result (IsAddFault (at_span (literal_of (parts_told text.now (Some (scan_of kind, suffix_start)))) span ∷ []) builder.old) }
    ensures ok { OnOk result (Adds (at_span (literal_of (parts_told text.now (Some (scan_of kind, suffix_start)))) span ∷ []) builder.old builder.new) }
{
    let literal = token_to_literal(alloc, text, span, Some((scan_of(kind), suffix_start)))?;
    add_leaf(builder, Leaf::Literal(literal))
}

// Adds the quote of a lifetime and its name at the end.
fn add_lifetime(
    texts: &mut Texts,
    builder: &mut FlatBuilder,
    part: SpanPart,
    start: u32,
    text: &str,
) -> Result<(), TtFault>
    requires some { 0 < length text.now }
    requires fits { start + length text.now < 2 ^ 32 }
    ensures err { IfErr result (IsAddFault (lifetime part start text.now) builder.old) }
    ensures ok { OnOk result (Adds (lifetime part start text.now) builder.old builder.new) }
{
    let end = start + text.len() as u32;
    add_punct(
        builder,
        '\'',
        Spacing::Joint,
        span_at(part, start, start + 1),
    )?;
    add_name(
        texts,
        builder,
        behind_apostrophe(text),
        span_at(part, start + 1, end),
    )
}

/// A token and its place in a text.
#[derive(Clone, Copy)]
pub struct Placed<'a> {
    /// The kind of the token.
    pub kind: TokenKind,
    /// The kind of the token after it.
    pub next: Option<TokenKind>,
    /// The byte at which it begins.
    pub at: u32,
    /// Its text.
    pub text: &'a str,
}

/// Adds the leaves of a token at the end.
#[tactic(auto, using(crate::proofs::Hashes::block_few, crate::proofs::Hashes::short_suffix))]
pub fn add_leaves(
    texts: &mut Texts,
    builder: &mut FlatBuilder,
    part: SpanPart,
    token: Placed,
) -> Result<(), TtFault>
    requires some { 0 < length token.text.now }
    requires fits { token.at + length token.text.now < 2 ^ 32 }
    requires scan { IsScanned token.kind token.text.now }
    requires leaf { role_in token.kind token.text.now ≡ IsLeaf }
    ensures err { IfErr result (IsAddFault (leaves_of part token.entry.kind token.entry.next token.entry.at token.entry.text.now) builder.old) }
    ensures ok { OnOk result (Adds (leaves_of part token.entry.kind token.entry.next token.entry.at token.entry.text.now) builder.old builder.new) }
{
    let text = token.text;
    let at = token.at;
    let span = span_at(part, at, at + text.len() as u32);
    match token.kind {
        TokenKind::Lifetime { .. } => add_lifetime(texts, builder, part, at, text),
        TokenKind::RawLifetime => add_lifetime(texts, builder, part, at, text),
        TokenKind::LineComment {
            doc_style: Some(style),
        } => add_doc(texts, builder, style, line_text(style, text), span),
        TokenKind::BlockComment {
            doc_style: Some(style),
            ..
        } => add_doc(texts, builder, style, block_text(style, text), span),
        TokenKind::Ident => add_name(texts, builder, text, span),
        TokenKind::RawIdent => add_name(texts, builder, text, span),
        TokenKind::Literal { kind, suffix_start } => {
            add_literal(texts.alloc(), builder, kind, suffix_start, text, span)
        }
        _ => match punct_char(token.kind) {
            Some(char) => add_punct(builder, char, spacing_before(token.next), span),
            None => Ok(()),
        },
    }
}
