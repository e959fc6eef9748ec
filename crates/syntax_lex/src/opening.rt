//! The family of the first token, by the first characters of a text.
ghost use Rattle.std.specs.Prelude.{◌≡◌, ◌≤◌, ℕ};
ghost use Rattle.std.specs.Str.{chars};
ghost use Rattle.syntax_lex.specs.Front.{first, second};
ghost use Rattle.syntax_lex.specs.Opening.{begins_raw, opening, opening_b, opening_c, opening_r, opening_slash, symbol};

use crate::class::{is_decimal, is_emoji_mark, is_id_start, is_whitespace};
use crate::front::{begins_with, first, skip};
use crate::token::TokenKind;

/// A family of tokens.
#[derive(Clone, Copy)]
pub enum Family {
    LineComment,
    BlockComment,
    Whitespace,
    RawIdent,
    RawStr,
    Byte,
    ByteStr,
    RawByteStr,
    CStr,
    RawCStr,
    Word,
    Number,
    Guarded,
    Apostrophe,
    Str,
    OddWord,
    Symbol,
}

// Returns whether a raw text may continue with this text after its letters.
#[inline(always)]
fn begins_raw(text: &str) -> bool
    ensures { result ≡ begins_raw (first (chars text.now)) }
{
    begins_with(text, b'"') | begins_with(text, b'#')
}

// Returns the family after a `/`.
#[inline(always)]
fn opening_slash(rest: &str) -> Family
    ensures { result ≡ opening_slash (first (chars rest.now)) }
{
    if begins_with(rest, b'/') {
        Family::LineComment
    } else if begins_with(rest, b'*') {
        Family::BlockComment
    } else {
        Family::Symbol
    }
}

// Returns the family after an `r`.
#[inline(always)]
fn opening_r(rest: &str) -> Family
    ensures { result ≡ opening_r (first (chars rest.now)) (second (chars rest.now)) }
{
    if begins_with(rest, b'#') && is_id_start(first(skip(rest))) {
        Family::RawIdent
    } else if begins_raw(rest) {
        Family::RawStr
    } else {
        Family::Word
    }
}

// Returns the family after a `b`.
#[inline(always)]
fn opening_b(rest: &str) -> Family
    ensures { result ≡ opening_b (first (chars rest.now)) (second (chars rest.now)) }
{
    if begins_with(rest, b'\'') {
        Family::Byte
    } else if begins_with(rest, b'"') {
        Family::ByteStr
    } else if begins_with(rest, b'r') && begins_raw(skip(rest)) {
        Family::RawByteStr
    } else {
        Family::Word
    }
}

// Returns the family after a `c`.
#[inline(always)]
fn opening_c(rest: &str) -> Family
    ensures { result ≡ opening_c (first (chars rest.now)) (second (chars rest.now)) }
{
    if begins_with(rest, b'"') {
        Family::CStr
    } else if begins_with(rest, b'r') && begins_raw(skip(rest)) {
        Family::RawCStr
    } else {
        Family::Word
    }
}

// Returns the family for an ASCII character and the first characters of the rest after it. The result is right for any character.
#[inline(always)]
#[tactic(auto, unfolding(crate::specs::Opening::opening))]
fn ascii_opening(c: char, rest: &str) -> Family
    ensures { result ≡ opening c (first (chars rest.now)) (second (chars rest.now)) }
{
    if is_whitespace(c) {
        Family::Whitespace
    } else if c == '/' {
        opening_slash(rest)
    } else if c == 'r' {
        opening_r(rest)
    } else if c == 'b' {
        opening_b(rest)
    } else if c == 'c' {
        opening_c(rest)
    } else if is_id_start(c) {
        Family::Word
    } else if is_decimal(c) {
        Family::Number
    } else if c == '\'' {
        Family::Apostrophe
    } else if c == '"' {
        Family::Str
    } else if c == '#' && begins_raw(rest) {
        Family::Guarded
    } else if is_emoji_mark(c) {
        Family::OddWord
    } else {
        Family::Symbol
    }
}

// Returns the family for a character beyond ASCII.
#[inline(never)]
fn wide_opening(c: char) -> Family
    requires { 128 ≤ c }
    ensures { (d e : ℕ) → result ≡ opening c d e }
{
    if is_whitespace(c) {
        Family::Whitespace
    } else if is_id_start(c) {
        Family::Word
    } else if is_emoji_mark(c) {
        Family::OddWord
    } else {
        Family::Symbol
    }
}

/// Returns the family for the first three characters: the first one, and those of the rest after it.
#[inline(always)]
pub fn opening(c: char, rest: &str) -> Family
    ensures { result ≡ opening c (first (chars rest.now)) (second (chars rest.now)) }
{
    if c < '\u{80}' {
        ascii_opening(c, rest)
    } else {
        wide_opening(c)
    }
}

/// Returns the token of a single character that begins no other.
#[inline(always)]
#[tactic(auto, unfolding(crate::specs::Opening::symbol))]
pub fn symbol(c: char) -> TokenKind
    ensures { result ≡ symbol c }
{
    match c {
        ';' => TokenKind::Semi,
        ',' => TokenKind::Comma,
        '.' => TokenKind::Dot,
        '(' => TokenKind::OpenParen,
        ')' => TokenKind::CloseParen,
        '{' => TokenKind::OpenBrace,
        '}' => TokenKind::CloseBrace,
        '[' => TokenKind::OpenBracket,
        ']' => TokenKind::CloseBracket,
        '@' => TokenKind::At,
        '#' => TokenKind::Pound,
        '~' => TokenKind::Tilde,
        '?' => TokenKind::Question,
        ':' => TokenKind::Colon,
        '$' => TokenKind::Dollar,
        '=' => TokenKind::Eq,
        '!' => TokenKind::Bang,
        '<' => TokenKind::Lt,
        '>' => TokenKind::Gt,
        '-' => TokenKind::Minus,
        '&' => TokenKind::And,
        '|' => TokenKind::Or,
        '+' => TokenKind::Plus,
        '*' => TokenKind::Star,
        '/' => TokenKind::Slash,
        '^' => TokenKind::Caret,
        '%' => TokenKind::Percent,
        _ => TokenKind::Unknown,
    }
}
