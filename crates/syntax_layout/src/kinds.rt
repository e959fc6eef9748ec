//! What a token's kind says about what may stand beside it.
ghost use Rattle.std.specs.Prelude.{◌≡◌};
ghost use Rattle.syntax_edit.specs.Kept.{is_line, is_parting};
ghost use Rattle.syntax_edit.specs.Whole.{is_whole};
ghost use Rattle.syntax_lex.specs.Stops.{is_closed};
ghost use Rattle.syntax_layout.specs.Gap.{is_blank};
ghost use Rattle.syntax_layout.specs.Layout.{joins, joins_before};

use syntax_lex::{LiteralKind, TokenKind};
use syntax_parse::punct_char;

/// Returns whether a token means nothing: white space, or a comment that is closed and documents nothing.
pub fn is_blank(kind: TokenKind) -> bool
    ensures { result ≡ is_blank kind }
{
    match kind {
        TokenKind::LineComment { doc_style: None } => true,
        TokenKind::BlockComment {
            doc_style: None,
            terminated,
        } => terminated,
        TokenKind::Whitespace => true,
        _ => false,
    }
}

/// Returns whether a token is a comment to the end of a line.
pub fn is_line(kind: TokenKind) -> bool
    ensures { result ≡ is_line kind }
{
    matches!(kind, TokenKind::LineComment { .. })
}

// Returns whether a literal has its last quote.
fn is_closed(kind: LiteralKind) -> bool
    ensures { result ≡ is_closed kind }
{
    match kind {
        LiteralKind::Int { .. } | LiteralKind::Float { .. } => true,
        LiteralKind::Char { terminated }
        | LiteralKind::Byte { terminated }
        | LiteralKind::Str { terminated }
        | LiteralKind::ByteStr { terminated }
        | LiteralKind::CStr { terminated } => terminated,
        LiteralKind::RawStr { n_hashes }
        | LiteralKind::RawByteStr { n_hashes }
        | LiteralKind::RawCStr { n_hashes } => n_hashes.is_some(),
    }
}

/// Returns whether a token depends only on its own text.
pub fn is_whole(kind: TokenKind) -> bool
    ensures { result ≡ is_whole kind }
{
    match kind {
        TokenKind::LineComment { .. }
        | TokenKind::BlockComment { .. }
        | TokenKind::Whitespace
        | TokenKind::InvalidIdent
        | TokenKind::UnknownPrefix
        | TokenKind::UnknownPrefixLifetime
        | TokenKind::GuardedStrPrefix => false,
        TokenKind::Literal { kind, .. } => is_closed(kind),
        _ => true,
    }
}

// Returns whether a punct right before a token of this kind is joint.
fn joins_before(kind: TokenKind) -> bool
    ensures { result ≡ joins_before kind }
{
    match kind {
        TokenKind::Lifetime { .. } => true,
        TokenKind::RawLifetime => true,
        _ => punct_char(kind).is_some(),
    }
}

/// Returns whether the first of two tokens is a joint punct if it touches the second.
pub fn joins(kind: TokenKind, next: TokenKind) -> bool
    ensures { result ≡ joins kind next }
{
    punct_char(kind).is_some() && joins_before(next)
}

/// Returns whether a byte ends each token before it: white space of ASCII, a bracket, a comma or a semicolon.
pub fn is_parting(byte: u8) -> bool
    ensures { result ≡ is_parting byte }
{
    matches!(
        byte,
        b'\t' | b'\n' | b'\r' | b',' | b';' | b' ' | b'(' | b')' | b'[' | b']' | b'{' | b'}'
    )
}
