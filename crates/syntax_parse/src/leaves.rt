//! The parts of the leaves of a text.
ghost use Rattle.std.specs.Prelude.{◌≡◌, ◌≤◌, codes};
ghost use Rattle.tt_base.specs.Span.{start_of, end_of, part_of};
ghost use Rattle.syntax_parse.specs.Doc.{without_prefix};
ghost use Rattle.syntax_parse.specs.Pieces.{punct_char, scan_of, spacing_before};
ghost use Rattle.syntax_parse.specs.RawName.{behind_apostrophe};

use syntax_lex::{LiteralKind, TokenKind};
use tt_base::{LiteralScan, Spacing, Span, SpanPart, TextRange, TextSize};

/// Returns the span of a part of a text, by its first byte and the byte after its last.
pub fn span_at(part: SpanPart, start: u32, end: u32) -> Span
    requires { start ≤ end }
    ensures part { part_of result ≡ part }
    ensures start { start_of result.range ≡ start }
    ensures end { end_of result.range ≡ end }
{
    Span {
        range: TextRange::new(TextSize::new(start), TextSize::new(end)),
        anchor: part.anchor,
        ctx: part.ctx,
    }
}

/// Returns the scan for a lexer's kind.
pub fn scan_of(kind: LiteralKind) -> LiteralScan
    ensures { result ≡ scan_of kind }
{
    match kind {
        LiteralKind::Int { .. } => LiteralScan::Int,
        LiteralKind::Float { .. } => LiteralScan::Float,
        LiteralKind::Char { terminated } => LiteralScan::Char { terminated },
        LiteralKind::Byte { terminated } => LiteralScan::Byte { terminated },
        LiteralKind::Str { terminated } => LiteralScan::Str { terminated },
        LiteralKind::ByteStr { terminated } => LiteralScan::ByteStr { terminated },
        LiteralKind::CStr { terminated } => LiteralScan::CStr { terminated },
        LiteralKind::RawStr { n_hashes } => LiteralScan::RawStr { n_hashes },
        LiteralKind::RawByteStr { n_hashes } => LiteralScan::RawByteStr { n_hashes },
        LiteralKind::RawCStr { n_hashes } => LiteralScan::RawCStr { n_hashes },
    }
}

/// Returns what follows the quote of a lifetime.
pub fn behind_apostrophe(text: &str) -> &str
    ensures { result.now ≡ behind_apostrophe text.now }
{
    match text.strip_prefix("'") {
        Some(name) => name,
        None => text,
    }
}

/// Returns the character of a punct, and `None` for a bracket.
pub fn punct_char(kind: TokenKind) -> Option<char>
    ensures { result ≡ punct_char kind }
{
    match kind {
        TokenKind::Semi => Some(';'),
        TokenKind::Comma => Some(','),
        TokenKind::Dot => Some('.'),
        TokenKind::At => Some('@'),
        TokenKind::Pound => Some('#'),
        TokenKind::Tilde => Some('~'),
        TokenKind::Question => Some('?'),
        TokenKind::Colon => Some(':'),
        TokenKind::Dollar => Some('$'),
        TokenKind::Eq => Some('='),
        TokenKind::Bang => Some('!'),
        TokenKind::Lt => Some('<'),
        TokenKind::Gt => Some('>'),
        TokenKind::Minus => Some('-'),
        TokenKind::And => Some('&'),
        TokenKind::Or => Some('|'),
        TokenKind::Plus => Some('+'),
        TokenKind::Star => Some('*'),
        TokenKind::Slash => Some('/'),
        TokenKind::Caret => Some('^'),
        TokenKind::Percent => Some('%'),
        _ => None,
    }
}

/// Returns the spacing of a punct before the next token.
pub fn spacing_before(next: Option<TokenKind>) -> Spacing
    ensures { result ≡ spacing_before next }
{
    match next {
        Some(TokenKind::Lifetime { .. }) => Spacing::Joint,
        Some(TokenKind::RawLifetime) => Spacing::Joint,
        Some(kind) => {
            if punct_char(kind).is_some() {
                Spacing::Joint
            } else {
                Spacing::Alone
            }
        }
        None => Spacing::Alone,
    }
}
