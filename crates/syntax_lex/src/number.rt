//! Numbers.
ghost use Rattle.std.specs.Prelude.{◌≡◌, ◌≤◌, length};
ghost use Rattle.std.specs.Str.{chars};
ghost use Rattle.syntax_lex.specs.Number.{base_of, class_of, begins_exponent, begins_fraction, behind_sign, has_digit, number, with_exponent, with_fraction};

use crate::class::{CharClass, is_decimal, is_hex, is_id_start};
use crate::front::{begins_with, first, skip};
use crate::runs::past;
use crate::token::{Base, LiteralKind};

// Returns the base for the first digit and the character after it.
fn base_of(digit: char, letter: char) -> Base
    ensures { result ≡ base_of digit letter }
{
    match (digit, letter) {
        ('0', 'b') => Base::Binary,
        ('0', 'o') => Base::Octal,
        ('0', 'x') => Base::Hexadecimal,
        _ => Base::Decimal,
    }
}

// Returns the digits of a base, with `_`. Those of base 2 and 8 are lexed as decimal ones.
fn class_of(base: Base) -> CharClass
    ensures { result ≡ class_of base }
{
    match base {
        Base::Hexadecimal => CharClass::HexPart,
        _ => CharClass::DecimalPart,
    }
}

// Returns whether a digit comes first, after any `_`.
fn has_digit(base: Base, text: &str) -> bool
    ensures { result ≡ has_digit base (chars text.now) }
{
    let digit = first(past(text, CharClass::Underscore));
    match base {
        Base::Hexadecimal => is_hex(digit),
        _ => is_decimal(digit),
    }
}

// Returns whether a point at the front belongs to a number.
fn begins_fraction(text: &str) -> bool
    ensures { result ≡ begins_fraction (chars text.now) }
{
    if !begins_with(text, b'.') {
        return false;
    }
    let next = first(skip(text));
    (next != '.') & !is_id_start(next)
}

// Returns whether a letter at the front begins an exponent.
fn begins_exponent(text: &str) -> bool
    ensures { result ≡ begins_exponent (chars text.now) }
{
    begins_with(text, b'e') | begins_with(text, b'E')
}

// Returns the rest after a sign, if one comes first.
fn past_sign(text: &str) -> &str
    ensures rest { chars result.now ≡ behind_sign (chars text.now) }
    ensures len { length result.now ≤ length text.now }
{
    if begins_with(text, b'+') | begins_with(text, b'-') {
        skip(text)
    } else {
        text
    }
}

// Returns a number, and what follows it. The number is read up to its exponent, and the text begins there.
#[tactic(auto, unfolding(crate::specs::Number::with_exponent))]
fn with_exponent(base: Base, kind: LiteralKind, text: &str) -> (LiteralKind, &str)
    ensures value { with_exponent base kind (chars text.now) ≡ (result.0, chars result.1.now) }
    ensures len { length result.1.now ≤ length text.now }
{
    if !begins_exponent(text) {
        return (kind, text);
    }
    let digits = past_sign(skip(text));
    let empty_exponent = !has_digit(Base::Decimal, digits);
    (
        LiteralKind::Float {
            base,
            empty_exponent,
        },
        past(digits, CharClass::DecimalPart),
    )
}

// Returns a number, and what follows it. The number is read up to its point, and the text begins there.
#[tactic(auto, unfolding(crate::specs::Number::with_fraction))]
fn with_fraction(base: Base, text: &str) -> (LiteralKind, &str)
    ensures value { with_fraction base (chars text.now) ≡ (result.0, chars result.1.now) }
    ensures len { length result.1.now ≤ length text.now }
{
    if !begins_fraction(text) {
        return with_exponent(
            base,
            LiteralKind::Int {
                base,
                empty_int: false,
            },
            text,
        );
    }
    let float = LiteralKind::Float {
        base,
        empty_exponent: false,
    };
    let digits = skip(text);
    if is_decimal(first(digits)) {
        with_exponent(base, float, past(digits, CharClass::DecimalPart))
    } else {
        (float, digits)
    }
}

/// Returns the number that begins with a digit, and what follows it; the text begins after that digit.
#[tactic(auto, unfolding(crate::specs::Number::number))]
pub fn number(digit: char, text: &str) -> (LiteralKind, &str)
    ensures value { number digit (chars text.now) ≡ (result.0, chars result.1.now) }
    ensures len { length result.1.now ≤ length text.now }
{
    let base = base_of(digit, first(text));
    if let Base::Decimal = base {
        return with_fraction(base, past(text, CharClass::DecimalPart));
    }
    let digits = skip(text);
    let rest = past(digits, class_of(base));
    if has_digit(base, digits) {
        with_fraction(base, rest)
    } else {
        (
            LiteralKind::Int {
                base,
                empty_int: true,
            },
            rest,
        )
    }
}
