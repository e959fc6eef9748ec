//! Tokens that mean nothing.
ghost use Rattle.std.specs.Prelude.{◌≡◌};
ghost use Rattle.app_files.specs.TokenWords.{is_trivia};

use syntax_lex::TokenKind;

/// Returns whether a token is white space or a comment.
pub fn is_trivia(kind: TokenKind) -> bool
    ensures { result ≡ is_trivia kind }
{
    matches!(
        kind,
        TokenKind::Whitespace | TokenKind::LineComment { .. } | TokenKind::BlockComment { .. }
    )
}
