//! A token in twelve bytes: its numbers, or its place in a list of whole tokens.
ghost use Rattle.std.specs.Prelude.{◌≡◌, ◌-◌, ◌∷◌, [], List, ℕ, IfSome};
ghost use Rattle.tt_base.specs.declared.token_tree.TokenTree.TheVariants as token;
ghost use Rattle.tt_base.specs.declared.leaf.Leaf.{Leaf as LeafOf};
ghost use Rattle.tt_base.specs.declared.delimiter.Subtree.{Subtree as Header};
ghost use Rattle.tt_base.specs.Fits.{SpanInRange};
ghost use Rattle.tt_base.specs.Span.{part_of, start_of, end_of};
ghost use Rattle.tt_tables.specs.SmallMeaning.{Means, NamesSymbol, IsHeaderless};
ghost use Rattle.tt_tables.specs.Tables.{tables_from};

use tt_base::{IdentIsRaw, Leaf, LitKind, Spacing, Span, SpanPart};

/// What a small token is, besides its numbers.
#[derive(Debug, Clone, Copy)]
pub(crate) enum Form {
    /// An ASCII character, which is the value.
    Punct(Spacing),
    /// An ident, whose symbol has the value as its place.
    Ident(IdentIsRaw),
    /// A literal without a suffix, whose symbol has the value as its place.
    Literal(LitKind),
    /// A header: the value is its place among the headers.
    Header,
    /// A leaf of another kind: the value is its place among such leaves, and the start is the place of its symbol, if it has one.
    Odd,
}

/// A token in twelve bytes. Its span has the one part of its list.
#[derive(Debug, Clone, Copy)]
pub(crate) struct Small {
    pub(crate) value: u32,
    pub(crate) start: u32,
    pub(crate) length: u8,
    pub(crate) form: Form,
}

// The largest length of a span in a small token.
const MOST_LENGTH: u32 = 255;

// Returns the start and the length of a span, if it has that part and is short.
#[inline(always)]
fn short_span(part: &SpanPart, span: &Span) -> Option<(u32, u8)>
    ensures part { IfSome result (λ found. part_of span.now ≡ part.now) }
    ensures start { IfSome result (λ found. found.0 ≡ start_of span.now.range) }
    ensures length { IfSome result (λ found. found.1 ≡ end_of span.now.range - start_of span.now.range) }
    ensures range { IfSome result (λ found. SpanInRange span.now) }
{
    if SpanPart::from_span(span) != *part {
        return None;
    }
    let start = span.range.start().raw();
    let length = span.range.end().raw() - start;
    if length > MOST_LENGTH {
        return None;
    }
    Some((start, length as u8))
}

/// Returns a leaf in twelve bytes, if it has that part, a short span, no suffix, and no character beyond ASCII. Its symbol, if it has
/// one, is at that place.
#[inline(always)]
pub(crate) fn small_leaf(part: &SpanPart, leaf: &Leaf, place: u32) -> Option<Small>
    ensures leaf { IfSome result (λ small. IsHeaderless small.form) }
    ensures means { IfSome result (λ small. (symbols : List (List ℕ)) (headers : List Header) (leaves : List LeafOf) → NamesSymbol symbols place leaf.now → Means (tables_from (part.now ∷ []) symbols) headers leaves small (token.Leaf leaf.now)) }
{
    match leaf {
        Leaf::Punct(punct) => {
            if !punct.char.is_ascii() {
                return None;
            }
            let (start, length) = short_span(part, &punct.span)?;
            Some(Small {
                value: punct.char as u32,
                start,
                length,
                form: Form::Punct(punct.spacing),
            })
        }
        Leaf::Ident(ident) => {
            let (start, length) = short_span(part, &ident.span)?;
            Some(Small {
                value: place,
                start,
                length,
                form: Form::Ident(ident.is_raw),
            })
        }
        Leaf::Literal(literal) => {
            if literal.suffix_len() != 0 {
                return None;
            }
            let (start, length) = short_span(part, literal.span())?;
            Some(Small {
                value: place,
                start,
                length,
                form: Form::Literal(literal.kind()),
            })
        }
    }
}
