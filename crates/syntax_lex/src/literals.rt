//! Literals of a text; `rest` is the text after the characters that open them.
ghost use Rattle.std.specs.Prelude.{◌≡◌, ◌≤◌, ◌<◌, ◌^◌, length};
ghost use Rattle.std.specs.Str.{chars};
ghost use Rattle.syntax_lex.specs.Literals.{byte_literal, byte_str_literal, c_str_literal, number_literal, raw_byte_str_literal, raw_c_str_literal, raw_str_literal, str_literal};

use crate::closing::{past_quote, past_raw_text};
use crate::front::first;
use crate::number::number;
use crate::quoted::{literal, quoted_char};
use crate::token::{LiteralKind, TokenKind};

/// Returns the number, after its first digit.
#[inline(never)]
pub fn number_literal<'a>(text: &str, rest: &'a str) -> (TokenKind, &'a str)
    requires { length text.now < 2 ^ 32 }
    ensures value { number_literal (chars text.now) (chars rest.now) ≡ (result.0, chars result.1.now) }
    ensures len { length result.1.now ≤ length rest.now }
{
    let (kind, tail) = number(first(text), rest);
    literal(text, kind, true, tail)
}

/// Returns the byte, after `b'`.
#[inline(never)]
pub fn byte_literal<'a>(text: &str, rest: &'a str) -> (TokenKind, &'a str)
    requires { length text.now < 2 ^ 32 }
    ensures value { byte_literal (chars text.now) (chars rest.now) ≡ (result.0, chars result.1.now) }
    ensures len { length result.1.now ≤ length rest.now }
{
    let (terminated, tail) = quoted_char(rest);
    literal(text, LiteralKind::Byte { terminated }, terminated, tail)
}

/// Returns the string, after its quote.
#[inline(never)]
pub fn str_literal<'a>(text: &str, rest: &'a str) -> (TokenKind, &'a str)
    requires { length text.now < 2 ^ 32 }
    ensures value { str_literal (chars text.now) (chars rest.now) ≡ (result.0, chars result.1.now) }
    ensures len { length result.1.now ≤ length rest.now }
{
    let (terminated, tail) = past_quote(rest);
    literal(text, LiteralKind::Str { terminated }, terminated, tail)
}

/// Returns the byte string, after `b"`.
#[inline(never)]
pub fn byte_str_literal<'a>(text: &str, rest: &'a str) -> (TokenKind, &'a str)
    requires { length text.now < 2 ^ 32 }
    ensures value { byte_str_literal (chars text.now) (chars rest.now) ≡ (result.0, chars result.1.now) }
    ensures len { length result.1.now ≤ length rest.now }
{
    let (terminated, tail) = past_quote(rest);
    literal(text, LiteralKind::ByteStr { terminated }, terminated, tail)
}

/// Returns the C string, after `c"`.
#[inline(never)]
pub fn c_str_literal<'a>(text: &str, rest: &'a str) -> (TokenKind, &'a str)
    requires { length text.now < 2 ^ 32 }
    ensures value { c_str_literal (chars text.now) (chars rest.now) ≡ (result.0, chars result.1.now) }
    ensures len { length result.1.now ≤ length rest.now }
{
    let (terminated, tail) = past_quote(rest);
    literal(text, LiteralKind::CStr { terminated }, terminated, tail)
}

/// Returns the raw string, after its `r`.
#[inline(never)]
pub fn raw_str_literal<'a>(text: &str, rest: &'a str) -> (TokenKind, &'a str)
    requires { length text.now < 2 ^ 32 }
    ensures value { raw_str_literal (chars text.now) (chars rest.now) ≡ (result.0, chars result.1.now) }
    ensures len { length result.1.now ≤ length rest.now }
{
    let (n_hashes, tail) = past_raw_text(rest);
    literal(
        text,
        LiteralKind::RawStr { n_hashes },
        n_hashes.is_some(),
        tail,
    )
}

/// Returns the raw byte string, after its `br`.
#[inline(never)]
pub fn raw_byte_str_literal<'a>(text: &str, rest: &'a str) -> (TokenKind, &'a str)
    requires { length text.now < 2 ^ 32 }
    ensures value { raw_byte_str_literal (chars text.now) (chars rest.now) ≡ (result.0, chars result.1.now) }
    ensures len { length result.1.now ≤ length rest.now }
{
    let (n_hashes, tail) = past_raw_text(rest);
    literal(
        text,
        LiteralKind::RawByteStr { n_hashes },
        n_hashes.is_some(),
        tail,
    )
}

/// Returns the raw C string, after its `cr`.
#[inline(never)]
pub fn raw_c_str_literal<'a>(text: &str, rest: &'a str) -> (TokenKind, &'a str)
    requires { length text.now < 2 ^ 32 }
    ensures value { raw_c_str_literal (chars text.now) (chars rest.now) ≡ (result.0, chars result.1.now) }
    ensures len { length result.1.now ≤ length rest.now }
{
    let (n_hashes, tail) = past_raw_text(rest);
    literal(
        text,
        LiteralKind::RawCStr { n_hashes },
        n_hashes.is_some(),
        tail,
    )
}
