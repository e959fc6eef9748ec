//! Identifiers.
ghost use Rattle.std.specs.Prelude.{◌≡◌, ◌≤◌, length};
ghost use Rattle.std.specs.Str.{chars};
ghost use Rattle.syntax_lex.specs.Class.{is_emoji_mark};
ghost use Rattle.syntax_lex.specs.Front.{first};
ghost use Rattle.syntax_lex.specs.Word.{begins_literal, word};

use crate::class::{CharClass, is_emoji_mark};
use crate::front::{begins_wide, begins_with, first};
use crate::runs::past;
use crate::token::TokenKind;

// Returns whether the text after an identifier makes the identifier a prefix.
#[inline(always)]
fn begins_literal(text: &str) -> bool
    ensures { result ≡ begins_literal (first (chars text.now)) }
{
    begins_with(text, b'#') | begins_with(text, b'"') | begins_with(text, b'\'')
}

// Returns whether a text begins with an emoji beyond ASCII.
#[inline(always)]
fn begins_with_emoji(text: &str) -> bool
    ensures { result ≡ is_emoji_mark (first (chars text.now)) }
{
    begins_wide(text) && is_emoji_mark(first(text))
}

/// Returns an identifier, and what follows it. Its first character comes before the text.
#[tactic(auto, unfolding(crate::specs::Word::word))]
#[inline(always)]
pub fn word(text: &str) -> (TokenKind, &str)
    ensures value { word (chars text.now) ≡ (result.0, chars result.1.now) }
    ensures len { length result.1.now ≤ length text.now }
{
    let rest = past(text, CharClass::IdContinue);
    if begins_literal(rest) {
        return (TokenKind::UnknownPrefix, rest);
    }
    if begins_with_emoji(rest) {
        return (TokenKind::InvalidIdent, past(rest, CharClass::OddRest));
    }
    (TokenKind::Ident, rest)
}
