//! A span, as one word.
ghost use Rattle.tt_base.specs.Fits.{SpanFits};
ghost use Rattle.tt_base.specs.Span.{span_text};
ghost use Rattle.app_language.specs.Reading.{ReadsFront};
ghost use Rattle.app_language.specs.WordLaws.{spaceless_span};

use crate::command::front::after_byte;
use crate::command::numbers::{leading_number, number_before};
use crate::command::word::Word;
use tt_base::{ErasedFileAstId, FileId, Span, SpanAnchor, SyntaxContext, TextRange, TextSize};

impl Word for Span {
    ghost spelling = { span_text };

    ghost fits = { SpanFits };

    fn read(word: &[u8]) -> Option<Span> {
        let (span, rest) = leading_span(word)?;
        if !rest.is_empty() {
            return None;
        }
        Some(span)
    }

    #[inline(always)]
    fn read_before_space(text: &[u8]) -> Option<(Span, &[u8])> {
        let (span, rest) = leading_span(text)?;
        let rest = after_byte(rest, b' ')?;
        Some((span, rest))
    }

    ghost has_no_space = { spaceless_span };
}

// Returns the span at the beginning of the text, and what follows its last digit.
fn leading_span(text: &[u8]) -> Option<(Span, &[u8])>
    ensures { ReadsFront span_text SpanFits text.now result }
{
    let (file, rest) = number_before(text, b':')?;
    let (ast, rest) = number_before(rest, b'@')?;
    let (start, rest) = number_before(rest, b'.')?;
    let rest = after_byte(rest, b'.')?;
    let (end, rest) = number_before(rest, b'#')?;
    let (ctx, rest) = leading_number(rest)?;
    if end < start {
        return None;
    }
    let anchor = SpanAnchor {
        file_id: FileId(file),
        ast_id: ErasedFileAstId(ast),
    };
    let span = Span {
        range: TextRange::new(TextSize::new(start), TextSize::new(end)),
        anchor,
        ctx: SyntaxContext(ctx),
    };
    Some((span, rest))
}
