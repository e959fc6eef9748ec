//! The places of tokens and trees in a text.
ghost use Rattle.std.specs.Prelude.{◌≡◌, IfOk, IfErr};
ghost use Rattle.tt.specs.Iters.{rest_of};
ghost use Rattle.tt.specs.Span.{start_of, end_of};
ghost use Rattle.syntax_edit.specs.Places.{begin_at, text_part};
ghost use Rattle.syntax_parse.specs.Parsed.{IsParse};
ghost use Rattle.syntax_parse.specs.Refusal.{IsRefusal};

use std::alloc::Global;
use syntax_parse::{TextFault, parse_to_token_tree};
use tt::{ErasedFileAstId, FileId, Span, SpanAnchor, SyntaxContext, TopSubtree, TtIter};

/// Returns the tree of a text, whose spans are bytes of the first file, or why it has none.
pub fn parse(alloc: Global, text: &str) -> Result<TopSubtree, TextFault>
    ensures ok { IfOk result (IsParse text_part text.now) }
    ensures err { IfErr result (IsRefusal text_part text.now) }
{
    let anchor = SpanAnchor {
        file_id: FileId(0),
        ast_id: ErasedFileAstId(0),
    };
    parse_to_token_tree(alloc, anchor, SyntaxContext(0), text)
}

/// Returns the span where trees begin, or `instead` if there are none.
pub fn begin_at(trees: &TtIter<'_>, instead: Span) -> Span
    ensures { result ≡ begin_at (rest_of trees.now) instead }
{
    match trees.next_span() {
        Some(span) => span,
        None => instead,
    }
}

/// Returns the byte where a span begins.
pub fn start_of(span: Span) -> u32
    ensures { result ≡ start_of span.range }
{
    span.range.start().raw()
}

/// Returns the byte where a span ends.
pub fn end_of(span: Span) -> u32
    ensures { result ≡ end_of span.range }
{
    span.range.end().raw()
}
