//! Literals in quotes, and lifetimes.
ghost use Rattle.std.specs.Prelude.{◌≡◌, ◌≤◌, ◌<◌, ◌^◌, false, length};
ghost use Rattle.std.specs.Str.{chars};
ghost use Rattle.syntax_lex.specs.Quoted.{apostrophe, begins_lifetime, begins_raw_lifetime, behind_apostrophe, gives_up, literal, quoted_char};

use crate::class::{CharClass, is_decimal, is_id_start};
use crate::front::{begins_with, bytes_before, first, goes_on_with, skip, split_first};
use crate::runs::{past, past_name};
use crate::token::{LiteralKind, TokenKind};

/// Returns a literal of a text, and what follows it. Reads a suffix if the literal may have one.
#[tactic(auto, unfolding(crate::specs::Quoted::literal))]
pub fn literal<'a>(
    text: &str,
    kind: LiteralKind,
    suffixed: bool,
    rest: &'a str,
) -> (TokenKind, &'a str)
    requires { length text.now < 2 ^ 32 }
    ensures value { literal (chars text.now) kind suffixed (chars rest.now) ≡ (result.0, chars result.1.now) }
    ensures len { length result.1.now ≤ length rest.now }
{
    let suffix_start = bytes_before(text, rest);
    let token = TokenKind::Literal { kind, suffix_start };
    if suffixed {
        (token, past_name(rest))
    } else {
        (token, rest)
    }
}

// Returns whether the reader of a character gives up at this one; `next` follows it.
fn gives_up(c: char, next: char) -> bool
    ensures { result ≡ gives_up c next }
{
    (c == '/') | ((c == '\n') & (next != '\''))
}

// Takes the text after a quote. Returns whether the character is closed, and what follows it.
fn past_apostrophe(text: &str) -> (bool, &str)
    ensures value { behind_apostrophe false (chars text.now) ≡ (result.0, chars result.1.now) }
    ensures len { length result.1.now ≤ length text.now }
{
    let mut rest = text;
    while let Some((c, more)) = split_first(rest) {
        if c == '\'' {
            return (true, more);
        }
        if gives_up(c, first(more)) {
            return (false, rest);
        }
        rest = if c == '\\' { skip(more) } else { more };
    }
    (false, rest)
}

/// Takes the text after a quote. Returns whether the character is closed, and what follows it. One character and a quote are closed,
/// whatever the character; a backslash is the exception.
#[tactic(auto, unfolding(crate::specs::Quoted::quoted_char))]
pub fn quoted_char(text: &str) -> (bool, &str)
    ensures value { quoted_char (chars text.now) ≡ (result.0, chars result.1.now) }
    ensures len { length result.1.now ≤ length text.now }
{
    if goes_on_with(text, b'\'') && !begins_with(text, b'\\') {
        (true, skip(skip(text)))
    } else {
        past_apostrophe(text)
    }
}

// Returns whether the text after a quote may be a lifetime.
fn begins_lifetime(text: &str) -> bool
    ensures { result ≡ begins_lifetime (chars text.now) }
{
    let name = first(text);
    !goes_on_with(text, b'\'') && (is_id_start(name) | is_decimal(name))
}

// Returns whether the text after a quote is a raw lifetime.
fn begins_raw_lifetime(text: &str) -> bool
    ensures { result ≡ begins_raw_lifetime (chars text.now) }
{
    begins_with(text, b'r') && goes_on_with(text, b'#') && is_id_start(first(skip(skip(text))))
}

/// Returns a character or a lifetime of a text, and what follows it. The text begins with a quote, and `rest` follows that quote.
#[inline(never)]
#[tactic(auto, unfolding(crate::specs::Quoted::apostrophe))]
pub fn apostrophe<'a>(text: &str, rest: &'a str) -> (TokenKind, &'a str)
    requires { length text.now < 2 ^ 32 }
    ensures value { apostrophe (chars text.now) (chars rest.now) ≡ (result.0, chars result.1.now) }
    ensures len { length result.1.now ≤ length rest.now }
{
    if !begins_lifetime(rest) {
        let (terminated, tail) = quoted_char(rest);
        return literal(text, LiteralKind::Char { terminated }, terminated, tail);
    }
    if begins_raw_lifetime(rest) {
        return (
            TokenKind::RawLifetime,
            past(skip(skip(skip(rest))), CharClass::IdContinue),
        );
    }
    let starts_with_number = is_decimal(first(rest));
    let tail = past(skip(rest), CharClass::IdContinue);
    if begins_with(tail, b'\'') {
        return literal(
            text,
            LiteralKind::Char { terminated: true },
            false,
            skip(tail),
        );
    }
    if begins_with(tail, b'#') && !starts_with_number {
        return (TokenKind::UnknownPrefixLifetime, tail);
    }
    (TokenKind::Lifetime { starts_with_number }, tail)
}
