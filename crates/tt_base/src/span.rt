//! The source of a token.
ghost use Rattle.std.specs.Prelude.{◌≡◌, Some};

use crate::text_range::TextRange;
use std::fmt;

#[derive(Debug, Clone, Copy, PartialEq, Eq, Hash)]
pub struct FileId(pub u32);

#[derive(Debug, Clone, Copy, PartialEq, Eq, Hash)]
pub struct ErasedFileAstId(pub u32);

#[derive(Debug, Clone, Copy, PartialEq, Eq, Hash)]
pub struct SyntaxContext(pub u32);

/// The file and the item in it at whose start a range begins to count.
#[derive(Debug, Clone, Copy, PartialEq, Eq, Hash)]
pub struct SpanAnchor {
    pub file_id: FileId,
    pub ast_id: ErasedFileAstId,
}

/// The source of a token. `Debug` writes `file:ast@start..end#ctx`, in decimal.
#[derive(Clone, Copy, PartialEq, Eq, Hash)]
pub struct Span {
    /// The range in bytes from the start of the anchor's item.
    pub range: TextRange,
    pub anchor: SpanAnchor,
    pub ctx: SyntaxContext,
}

impl fmt::Debug for Span {
    ghost use Rattle.tt_base.specs.Span.{span_text};

    ghost debug_output = { λ span. Some (span_text span) };

    fn fmt<W: fmt::Write>(&self, f: &mut fmt::Formatter<W>) -> fmt::Result {
        let Span { range, anchor, ctx } = self;
        write!(
            f,
            "{}:{}@{}..{}#{}",
            anchor.file_id.0,
            anchor.ast_id.0,
            range.start().raw(),
            range.end().raw(),
            ctx.0
        )
    }
}

/// A span without its range. Many spans of a tree have the same part.
#[derive(Debug, Clone, Copy, PartialEq, Eq, Hash)]
pub struct SpanPart {
    pub anchor: SpanAnchor,
    pub ctx: SyntaxContext,
}

impl SpanPart {
    ghost use Rattle.tt_base.specs.Span.{part_of, span_in};

    /// Returns the part of a span.
    pub fn from_span(span: &Span) -> Self
        ensures { result ≡ part_of span.now }
    {
        SpanPart {
            anchor: span.anchor,
            ctx: span.ctx,
        }
    }

    /// Returns the span with this part and that range.
    pub fn recombine(&self, range: TextRange) -> Span
        ensures { result ≡ span_in self.now range }
    {
        Span {
            range,
            anchor: self.anchor,
            ctx: self.ctx,
        }
    }
}
