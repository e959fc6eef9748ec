//! The tokens of a text.
ghost use Rattle.std.specs.Prelude.{◌≡◌, ◌≢◌, ◌≤◌, ◌<◌, ◌^◌, [], length};
ghost use Rattle.std.specs.Str.{chars};
ghost use Rattle.syntax_lex.specs.Front.{first};
ghost use Rattle.syntax_lex.specs.Reading.{first_token_of, reading, reading_of};

use crate::class::CharClass;
use crate::comments::{block_comment, line_comment};
use crate::front::{bytes_before, skip, split_first};
use crate::literals::{
    byte_literal, byte_str_literal, c_str_literal, number_literal, raw_byte_str_literal,
    raw_c_str_literal, raw_str_literal, str_literal,
};
use crate::opening::{Family, opening, symbol};
use crate::quoted::apostrophe;
use crate::runs::{past, past_name};
use crate::token::{Token, TokenKind};
use crate::tokens::Tokenize;
use crate::word::word;

// Returns the first token of a text by its family, and the rest after it. `c` is the first character, and `rest` is the text after it.
#[inline(never)]
#[tactic(auto, unfolding(crate::specs::Reading::reading_of))]
fn read_any<'a>(family: Family, c: char, text: &str, rest: &'a str) -> (TokenKind, &'a str)
    requires first { c ≡ first (chars text.now) }
    requires fits { length text.now < 2 ^ 32 }
    ensures value { reading_of family (chars text.now) (chars rest.now) ≡ (result.0, chars result.1.now) }
    ensures len { length result.1.now ≤ length rest.now }
{
    match family {
        Family::LineComment => line_comment(skip(rest)),
        Family::BlockComment => block_comment(skip(rest)),
        Family::Whitespace => (TokenKind::Whitespace, past(rest, CharClass::Whitespace)),
        Family::RawIdent => (TokenKind::RawIdent, past_name(skip(rest))),
        Family::RawStr => raw_str_literal(text, rest),
        Family::Byte => byte_literal(text, skip(rest)),
        Family::ByteStr => byte_str_literal(text, skip(rest)),
        Family::RawByteStr => raw_byte_str_literal(text, skip(rest)),
        Family::CStr => c_str_literal(text, skip(rest)),
        Family::RawCStr => raw_c_str_literal(text, skip(rest)),
        Family::Word => word(rest),
        Family::Number => number_literal(text, rest),
        Family::Guarded => (TokenKind::GuardedStrPrefix, skip(rest)),
        Family::Apostrophe => apostrophe(text, rest),
        Family::Str => str_literal(text, rest),
        Family::OddWord => (TokenKind::InvalidIdent, past(rest, CharClass::OddRest)),
        Family::Symbol => (symbol(c), rest),
    }
}

// Returns the same. It reads the families of nearly all tokens in place. It takes the result of the others apart and puts it together
// again, so that it can stay in registers.
#[inline(always)]
#[tactic(auto, unfolding(crate::specs::Reading::reading_of))]
fn read_as<'a>(family: Family, c: char, text: &str, rest: &'a str) -> (TokenKind, &'a str)
    requires first { c ≡ first (chars text.now) }
    requires fits { length text.now < 2 ^ 32 }
    ensures value { reading_of family (chars text.now) (chars rest.now) ≡ (result.0, chars result.1.now) }
    ensures len { length result.1.now ≤ length rest.now }
{
    match family {
        Family::Whitespace => (TokenKind::Whitespace, past(rest, CharClass::Whitespace)),
        Family::Word => word(rest),
        Family::Symbol => (symbol(c), rest),
        _ => {
            let (kind, tail) = read_any(family, c, text, rest);
            (kind, tail)
        }
    }
}

/// Returns the first token of a text, and the rest after it.
#[inline(always)]
#[tactic(auto, unfolding(crate::specs::Reading::reading))]
pub fn read(text: &str) -> (TokenKind, &str)
    requires { length text.now < 2 ^ 32 }
    ensures value { reading (chars text.now) ≡ (result.0, chars result.1.now) }
    ensures len { length result.1.now ≤ length text.now }
    ensures smaller { 0 < length text.now → length result.1.now < length text.now }
    ensures some { 0 < length text.now → chars text.now ≢ [] }
{
    match split_first(text) {
        Some((c, rest)) => read_as(opening(c, rest), c, text, rest),
        None => (TokenKind::Unknown, text),
    }
}

/// The most bytes of a text whose tokens can be read, so that a `u32` can hold each length.
pub const MOST_TEXT_BYTES: usize = 4_294_967_295;

/// Returns the first token of a text: its kind, and how many bytes it takes.
///
/// Conditions: the text is not empty, and has at most [`MOST_TEXT_BYTES`] bytes. The tests `!text.is_empty()` and
/// `text.len() <= MOST_TEXT_BYTES` check them. The compiler rejects a call if neither a test nor a contract shows that it
/// meets them, so no longer text gets here.
#[tactic(auto, unfolding(crate::specs::Reading::first_token_of))]
pub fn first_token(text: &str) -> Token
    requires some { 0 < length text.now }
    requires fits { length text.now < 2 ^ 32 }
    ensures { result ≡ first_token_of (chars text.now) }
{
    let (kind, rest) = read(text);
    let len = bytes_before(text, rest);
    Token { kind, len }
}

/// Returns the tokens of a text, in order. Their lengths add up to that of the text.
///
/// Condition: the text has at most `MOST_TEXT_BYTES` bytes, which `text.len() <= MOST_TEXT_BYTES` tests. The compiler rejects a call if
/// neither a test nor a contract shows that it meets the condition, so no longer text gets here.
pub fn tokenize(text: &str) -> Tokenize<'_>
    requires { length text.now < 2 ^ 32 }
    ensures { result.rest.now ≡ text.now }
{
    Tokenize::new(text)
}
