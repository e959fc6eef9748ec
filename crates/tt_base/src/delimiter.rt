//! Delimiters, and the header of a subtree.
ghost use Rattle.std.specs.Prelude.{◌≡◌, ◌<◌, ◌^◌};

use crate::span::Span;

/// The brackets around a subtree. The numbers are those of `docs/FORMATS.md`, "Numbers of kinds".
#[derive(Debug, Clone, Copy, PartialEq, Eq, Hash)]
pub enum DelimiterKind {
    Parenthesis = 0,
    Brace = 1,
    Bracket = 2,
    /// No brackets: `Display` writes nothing for it.
    Invisible = 3,
    /// No brackets: `Display` writes nothing for it, and `strip_invisible` keeps it.
    InvisibleOpaque = 4,
}

/// The spans of an opening and a closing bracket.
#[derive(Debug, Clone, Copy, PartialEq)]
pub struct DelimSpan {
    pub open_span: Span,
    pub close: Span,
}

impl DelimSpan {
    ghost use Rattle.tt_base.specs.Token.{delim_span};

    /// Returns the pair in which both spans are `span`.
    pub fn from_single(span: Span) -> Self
        ensures { result ≡ delim_span span span }
    {
        DelimSpan::from_pair(span, span)
    }

    /// Returns the pair of these spans.
    pub fn from_pair(open_span: Span, close: Span) -> Self
        ensures { result ≡ delim_span open_span close }
    {
        DelimSpan { open_span, close }
    }
}

/// A kind of brackets, and the spans of the opening and the closing one.
#[derive(Debug, Clone, Copy, PartialEq, Eq, Hash)]
pub struct Delimiter {
    pub open_span: Span,
    pub close: Span,
    pub kind: DelimiterKind,
}

impl Delimiter {
    ghost use Rattle.tt_base.specs.Token.{delimiter, delim_span};

    /// Returns the invisible delimiter with that span at both ends.
    pub fn invisible_spanned(span: Span) -> Self
        ensures { result ≡ delimiter DelimiterKind.Invisible span span }
    {
        Delimiter::invisible_delim_spanned(DelimSpan::from_single(span))
    }

    /// Returns the invisible delimiter with these spans.
    pub fn invisible_delim_spanned(span: DelimSpan) -> Self
        ensures { result ≡ delimiter DelimiterKind.Invisible span.open_span span.close }
    {
        Delimiter {
            open_span: span.open_span,
            close: span.close,
            kind: DelimiterKind::Invisible,
        }
    }

    /// Returns both spans.
    pub fn delim_span(&self) -> DelimSpan
        ensures { result ≡ delim_span self.now.open_span self.now.close }
    {
        DelimSpan {
            open_span: self.open_span,
            close: self.close,
        }
    }
}

/// The header of a subtree. In a flat list, all that the subtree holds follows it.
#[derive(Debug, Clone, Copy, PartialEq, Eq, Hash)]
pub struct Subtree {
    pub delimiter: Delimiter,
    /// The number of tokens that the subtree holds, at any depth.
    pub len: u32,
}

impl Subtree {
    /// Returns `len` as a `usize`.
    pub fn usize_len(&self) -> usize
        ensures value { result ≡ self.now.len }
        ensures bound { result < 2 ^ 32 }
    {
        self.len as usize
    }

    /// Returns `len`: the number of tokens below the header, at any depth, without the header.
    pub fn count(&self) -> usize
        ensures value { result ≡ self.now.len }
        ensures bound { result < 2 ^ 32 }
    {
        self.usize_len()
    }
}
