//! Punctuation, one character at a time.
ghost use Rattle.std.specs.Prelude.{◌≡◌, Some, encode_utf8};

use crate::span::{ErasedFileAstId, FileId, Span, SpanAnchor, SyntaxContext};
use crate::text_range::{TextRange, TextSize};
use std::fmt;

/// What follows a punct. The numbers are those of `docs/FORMATS.md`, "Numbers of kinds".
#[derive(Debug, Clone, Copy, PartialEq, Eq, Hash)]
pub enum Spacing {
    /// It is not joined to the next token.
    Alone = 0,
    /// The next token is a punct, and follows directly.
    Joint = 1,
    /// Another token follows directly. Macros do not see this.
    JointHidden = 2,
}

/// One character of punctuation.
#[derive(Debug, Clone, Copy, PartialEq, Eq, Hash)]
pub struct Punct {
    pub char: char,
    pub spacing: Spacing,
    pub span: Span,
}

impl fmt::Display for Punct {
    ghost use Rattle.tt_base.specs.LeafText.{punct_text};

    ghost output = { λ punct. Some (punct_text punct) };

    fn fmt<W: fmt::Write>(&self, f: &mut fmt::Formatter<W>) -> fmt::Result {
        fmt::Display::fmt(&self.char, f)
    }
}

/// U+0000, alone, with a span of zeros. It fills the free places of an array of puncts.
impl Default for Punct {
    ghost use Rattle.tt_base.specs.Token.{zero_punct};

    ghost is_default = { λ punct. punct ≡ zero_punct };

    fn default() -> Self {
        let anchor = SpanAnchor {
            file_id: FileId(0),
            ast_id: ErasedFileAstId(0),
        };
        let span = Span {
            range: TextRange::empty(TextSize::new(0)),
            anchor,
            ctx: SyntaxContext(0),
        };
        Punct {
            char: '\0',
            spacing: Spacing::Alone,
            span,
        }
    }
}
