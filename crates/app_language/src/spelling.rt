//! Tokens as lines spell them.
ghost use Rattle.std.specs.Prelude.{◌≡◌, Some};
ghost use Rattle.std.specs.Fmt.{WritesOnOk};
ghost use Rattle.app_language.specs.Token.{kind_word, spacing_word, raw_word, literal_kind_word, punct_words, ident_words, literal_words, subtree_words, token_words};

use std::fmt;
use tt_base::{
    DelimiterKind, Ident, IdentIsRaw, Leaf, LitKind, Literal, Punct, Spacing, Subtree, TokenTree,
};

/// A token as a line of `item` spells it.
#[derive(Clone, Copy)]
pub struct Spelled<'a>(pub &'a TokenTree);

impl fmt::Display for Spelled<'_> {
    ghost output = { λ spelled. Some (token_words spelled.0.now) };

    fn fmt<W: fmt::Write>(&self, f: &mut fmt::Formatter<W>) -> fmt::Result {
        match self.0 {
            TokenTree::Leaf(Leaf::Punct(punct)) => write!(f, "punct {}", SpelledPunct(punct)),
            TokenTree::Leaf(Leaf::Ident(ident)) => write!(f, "ident {}", SpelledIdent(ident)),
            TokenTree::Leaf(Leaf::Literal(literal)) => {
                write!(f, "lit {}", SpelledLiteral(literal))
            }
            TokenTree::Subtree(subtree) => write!(f, "sub {}", SpelledSubtree(subtree)),
        }
    }
}

// The part of a line that follows `sub`.
#[derive(Clone, Copy)]
struct SpelledSubtree<'a>(&'a Subtree);

impl fmt::Display for SpelledSubtree<'_> {
    ghost output = { λ spelled. Some (subtree_words spelled.0.now) };

    fn fmt<W: fmt::Write>(&self, f: &mut fmt::Formatter<W>) -> fmt::Result {
        let delimiter = &self.0.delimiter;
        write!(
            f,
            "{} {:?} {:?} {}",
            kind_name(delimiter.kind),
            delimiter.open_span,
            delimiter.close,
            self.0.len
        )
    }
}

// The part of a line that follows `punct`.
#[derive(Clone, Copy)]
struct SpelledPunct<'a>(&'a Punct);

impl fmt::Display for SpelledPunct<'_> {
    ghost output = { λ spelled. Some (punct_words spelled.0.now) };

    fn fmt<W: fmt::Write>(&self, f: &mut fmt::Formatter<W>) -> fmt::Result {
        let Punct {
            char,
            spacing,
            span,
        } = self.0;
        write!(f, "{} {span:?} {char}", spacing_name(*spacing))
    }
}

// The part of a line that follows `ident`.
#[derive(Clone, Copy)]
struct SpelledIdent<'a>(&'a Ident);

impl fmt::Display for SpelledIdent<'_> {
    ghost output = { λ spelled. Some (ident_words spelled.0.now) };

    fn fmt<W: fmt::Write>(&self, f: &mut fmt::Formatter<W>) -> fmt::Result {
        let Ident { sym, span, is_raw } = self.0;
        write!(f, "{} {span:?} {sym}", raw_name(*is_raw))
    }
}

// The part of a line that follows `lit`.
#[derive(Clone, Copy)]
struct SpelledLiteral<'a>(&'a Literal);

impl fmt::Display for SpelledLiteral<'_> {
    ghost output = { λ spelled. Some (literal_words spelled.0.now) };

    fn fmt<W: fmt::Write>(&self, f: &mut fmt::Formatter<W>) -> fmt::Result {
        let literal = self.0;
        write!(
            f,
            "{} {} {:?} {}",
            SpelledKind(literal.kind()),
            literal.suffix_len(),
            literal.span(),
            literal.symbol()
        )
    }
}

// The kind of a literal.
#[derive(Clone, Copy)]
struct SpelledKind(LitKind);

impl fmt::Display for SpelledKind {
    ghost output = { λ spelled. Some (literal_kind_word spelled.0) };

    fn fmt<W: fmt::Write>(&self, f: &mut fmt::Formatter<W>) -> fmt::Result {
        match self.0 {
            LitKind::Byte => f.write_str("byte"),
            LitKind::Char => f.write_str("char"),
            LitKind::Integer => f.write_str("int"),
            LitKind::Float => f.write_str("float"),
            LitKind::Str => f.write_str("str"),
            LitKind::StrRaw(count) => write!(f, "rstr:{count}"),
            LitKind::ByteStr => f.write_str("bstr"),
            LitKind::ByteStrRaw(count) => write!(f, "rbstr:{count}"),
            LitKind::CStr => f.write_str("cstr"),
            LitKind::CStrRaw(count) => write!(f, "rcstr:{count}"),
            LitKind::Err(()) => f.write_str("err"),
        }
    }
}

/// Returns the word that spells a kind of delimiter.
pub fn kind_name(kind: DelimiterKind) -> &'static str
    ensures { result.now ≡ kind_word kind }
{
    match kind {
        DelimiterKind::Parenthesis => "paren",
        DelimiterKind::Brace => "brace",
        DelimiterKind::Bracket => "bracket",
        DelimiterKind::Invisible => "invisible",
        DelimiterKind::InvisibleOpaque => "opaque",
    }
}

fn spacing_name(spacing: Spacing) -> &'static str
    ensures { result.now ≡ spacing_word spacing }
{
    match spacing {
        Spacing::Alone => "alone",
        Spacing::Joint => "joint",
        Spacing::JointHidden => "hidden",
    }
}

fn raw_name(is_raw: IdentIsRaw) -> &'static str
    ensures { result.now ≡ raw_word is_raw }
{
    match is_raw {
        IdentIsRaw::No => "plain",
        IdentIsRaw::Yes => "raw",
    }
}
