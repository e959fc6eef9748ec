//! The text between quotes: characters and escapes.
ghost use Rattle.std.specs.Prelude.{◌≡◌, ◌<◌, MatchOption, ⊤};
ghost use Rattle.syntax_parse.specs.Escapes.{begins_one, behind_one, between_quotes, count_fault, counted, end_fault, escape_fault, escape_step, fault_behind, hex_digit, hex_first, hex_second, is_escape, is_scalar, is_single, plain_step, step, takes_high, takes_null, takes_unicode, unicode_end, unicode_first, unicode_more, unicode_open, unicode_step, wants_escape, with_digit, without_last};
ghost use Rattle.syntax_parse.specs.declared.escapes.Reached.TheVariants.{Plain};

use crate::fault::BadToken;
use syntax_lex::LiteralKind;

/// What was read last between the quotes of a literal.
#[derive(Clone, Copy)]
pub enum Reached {
    /// A whole character or a whole escape, or nothing yet.
    Plain,
    /// A backslash.
    Backslash,
    /// `\x`
    Hex,
    /// `\x` and a digit.
    HexDigit(u32),
    /// `\u`
    Unicode,
    /// `\u{`
    UnicodeOpen,
    /// `\u{` and digits.
    UnicodeDigits {
        /// How many digits.
        count: u32,
        /// Their value.
        value: u32,
    },
    /// A fault: something that no literal may hold.
    Wrong(BadToken),
}

// Returns whether a literal holds one character.
fn is_single(kind: LiteralKind) -> bool
    ensures { result ≡ is_single kind }
{
    matches!(kind, LiteralKind::Char { .. } | LiteralKind::Byte { .. })
}

// Returns whether a literal takes `\u{..}`.
fn takes_unicode(kind: LiteralKind) -> bool
    ensures { result ≡ takes_unicode kind }
{
    !matches!(kind, LiteralKind::Byte { .. } | LiteralKind::ByteStr { .. })
}

// Returns whether a literal takes `\x80` to `\xff`.
fn takes_high(kind: LiteralKind) -> bool
    ensures { result ≡ takes_high kind }
{
    !matches!(kind, LiteralKind::Char { .. } | LiteralKind::Str { .. })
}

// Returns whether a literal takes a null.
fn takes_null(kind: LiteralKind) -> bool
    ensures { result ≡ takes_null kind }
{
    !matches!(kind, LiteralKind::CStr { .. })
}

// Returns the value of a digit of base 16.
fn hex_digit(byte: u8) -> Option<u32>
    ensures value { result ≡ hex_digit byte }
    ensures small { MatchOption result ⊤ (λ digit. digit < 16) }
{
    if 48 <= byte && byte <= 57 {
        Some((byte - 48) as u32)
    } else if 97 <= byte && byte <= 102 {
        Some((byte - 87) as u32)
    } else if 65 <= byte && byte <= 70 {
        Some((byte - 55) as u32)
    } else {
        None
    }
}

// Returns whether a byte needs a backslash in a literal of one character.
fn wants_escape(byte: u8) -> bool
    ensures { result ≡ wants_escape byte }
{
    (byte == b'\'') | ((byte == b'\n') | ((byte == b'\r') | (byte == b'\t')))
}

// Returns whether a backslash and this byte are an escape.
fn is_escape(byte: u8) -> bool
    ensures { result ≡ is_escape byte }
{
    (byte == b'n')
        | ((byte == b'r')
            | ((byte == b't') | ((byte == b'\\') | ((byte == b'\'') | (byte == b'"')))))
}

// Returns the state after a character, which may be a null.
fn behind_one(kind: LiteralKind, null: bool) -> Reached
    ensures { result ≡ behind_one kind null }
{
    if null & !takes_null(kind) {
        Reached::Wrong(BadToken::NullInCStr)
    } else {
        Reached::Plain
    }
}

// Returns the state after a byte outside of an escape.
fn plain_step(kind: LiteralKind, byte: u8) -> Reached
    ensures { result ≡ plain_step kind byte }
{
    if byte == b'\\' {
        Reached::Backslash
    } else if is_single(kind) & wants_escape(byte) {
        Reached::Wrong(BadToken::WantsEscape)
    } else {
        behind_one(kind, byte == 0)
    }
}

// Returns the state after a backslash and a byte. A string omits the end of a line.
fn escape_step(kind: LiteralKind, byte: u8) -> Reached
    ensures { result ≡ escape_step kind byte }
{
    if is_escape(byte) {
        Reached::Plain
    } else if byte == b'0' {
        behind_one(kind, true)
    } else if byte == b'x' {
        Reached::Hex
    } else if (byte == b'u') & takes_unicode(kind) {
        Reached::Unicode
    } else if ((byte == b'\n') | (byte == b'\r')) & !is_single(kind) {
        Reached::Plain
    } else {
        Reached::Wrong(BadToken::UnknownEscape)
    }
}

// Returns the state after `\x` and a digit.
fn hex_first(digit: Option<u32>) -> Reached
    ensures { result ≡ hex_first digit }
{
    match digit {
        None => Reached::Wrong(BadToken::BadHexEscape),
        Some(digit) => Reached::HexDigit(digit),
    }
}

// Returns the state after `\x` and two digits.
fn hex_second(kind: LiteralKind, high: u32, digit: Option<u32>) -> Reached
    ensures { result ≡ hex_second kind high digit }
{
    match digit {
        None => Reached::Wrong(BadToken::BadHexEscape),
        Some(low) => {
            if (8 <= high) & !takes_high(kind) {
                Reached::Wrong(BadToken::HexEscapeTooLarge)
            } else {
                behind_one(kind, (high == 0) & (low == 0))
            }
        }
    }
}

// Returns the state after `\u` and a brace.
fn unicode_open(byte: u8) -> Reached
    ensures { result ≡ unicode_open byte }
{
    if byte == b'{' {
        Reached::UnicodeOpen
    } else {
        Reached::Wrong(BadToken::BadUnicodeEscape)
    }
}

// Returns the state after `\u{` and a digit.
fn unicode_first(digit: Option<u32>) -> Reached
    ensures { result ≡ unicode_first digit }
{
    match digit {
        None => Reached::Wrong(BadToken::BadUnicodeEscape),
        Some(value) => Reached::UnicodeDigits { count: 1, value },
    }
}

// Returns a number with one digit more. A number that is too large for a character stays as it is.
fn with_digit(value: u32, digit: u32) -> u32
    requires { digit < 16 }
    ensures { result ≡ with_digit value digit }
{
    if value < 1114112 {
        value * 16 + digit
    } else {
        value
    }
}

// Returns the state after one digit more. There are at most six.
fn unicode_more(count: u32, value: u32, digit: Option<u32>) -> Reached
    requires { MatchOption digit ⊤ (λ it. it < 16) }
    ensures { result ≡ unicode_more count value digit }
{
    match digit {
        None => Reached::Wrong(BadToken::BadUnicodeEscape),
        Some(digit) => {
            if count < 6 {
                Reached::UnicodeDigits {
                    count: count + 1,
                    value: with_digit(value, digit),
                }
            } else {
                Reached::Wrong(BadToken::BadUnicodeEscape)
            }
        }
    }
}

// Returns whether a number is that of a character.
fn is_scalar(value: u32) -> bool
    ensures { result ≡ is_scalar value }
{
    (value < 55296) | ((57344 <= value) & (value < 1114112))
}

// Returns the state after the brace that closes `\u{..}`.
fn unicode_end(kind: LiteralKind, value: u32) -> Reached
    ensures { result ≡ unicode_end kind value }
{
    if is_scalar(value) {
        behind_one(kind, value == 0)
    } else {
        Reached::Wrong(BadToken::BadUnicodeEscape)
    }
}

// Returns the state after the digits of `\u{..}` and a byte.
fn unicode_step(kind: LiteralKind, count: u32, value: u32, byte: u8) -> Reached
    ensures { result ≡ unicode_step kind count value byte }
{
    if byte == b'_' {
        Reached::UnicodeDigits { count, value }
    } else if byte == b'}' {
        unicode_end(kind, value)
    } else {
        unicode_more(count, value, hex_digit(byte))
    }
}

// Returns the state after one byte more.
fn step(kind: LiteralKind, reached: Reached, byte: u8) -> Reached
    ensures { result ≡ step kind reached byte }
{
    match reached {
        Reached::Plain => plain_step(kind, byte),
        Reached::Backslash => escape_step(kind, byte),
        Reached::Hex => hex_first(hex_digit(byte)),
        Reached::HexDigit(high) => hex_second(kind, high, hex_digit(byte)),
        Reached::Unicode => unicode_open(byte),
        Reached::UnicodeOpen => unicode_first(hex_digit(byte)),
        Reached::UnicodeDigits { count, value } => unicode_step(kind, count, value, byte),
        Reached::Wrong(why) => Reached::Wrong(why),
    }
}

// Returns whether a character begins with a byte.
fn begins_one(reached: Reached, byte: u8) -> bool
    ensures { result ≡ begins_one reached byte }
{
    match reached {
        Reached::Plain => (byte < 128) | (192 <= byte),
        _ => false,
    }
}

// Returns the number of characters with one more: 0, 1, or 2 for several.
fn counted(begins: bool, count: u32) -> u32
    ensures { result ≡ counted begins count }
{
    if begins {
        if count == 0 { 1 } else { 2 }
    } else {
        count
    }
}

// Returns what is wrong with this number of characters.
fn count_fault(kind: LiteralKind, count: u32) -> Option<BadToken>
    ensures { result ≡ count_fault kind count }
{
    if is_single(kind) {
        if count == 0 {
            Some(BadToken::EmptyChar)
        } else if count == 1 {
            None
        } else {
            Some(BadToken::SeveralChars)
        }
    } else {
        None
    }
}

// Returns what is wrong with a text that ends in this state.
fn end_fault(kind: LiteralKind, reached: Reached, count: u32) -> Option<BadToken>
    ensures { result ≡ end_fault kind reached count }
{
    match reached {
        Reached::Plain => count_fault(kind, count),
        Reached::Backslash => Some(BadToken::UnknownEscape),
        Reached::Hex | Reached::HexDigit(_) => Some(BadToken::BadHexEscape),
        Reached::Unicode | Reached::UnicodeOpen | Reached::UnicodeDigits { .. } => {
            Some(BadToken::BadUnicodeEscape)
        }
        Reached::Wrong(why) => Some(why),
    }
}

// Returns what is wrong with the text between quotes.
fn text_fault(kind: LiteralKind, text: &[u8]) -> Option<BadToken>
    ensures { result ≡ fault_behind kind Plain 0 text.now }
{
    let mut reached = Reached::Plain;
    let mut count = 0u32;
    for byte in text {
        count = counted(begins_one(reached, *byte), count);
        reached = step(kind, reached, *byte);
    }
    end_fault(kind, reached, count)
}

// Returns a text without its last byte.
fn without_last(text: &[u8]) -> &[u8]
    ensures { result.now ≡ without_last text.now }
{
    let end = text.len().saturating_sub(1);
    &text[..end]
}

// Returns the text between the quotes of a literal without suffix, whose first quote ends `opening` bytes from its start.
fn between_quotes(opening: usize, text: &[u8]) -> &[u8]
    ensures { result.now ≡ between_quotes opening text.now }
{
    let front = without_last(text);
    let start = opening.min(front.len());
    &front[start..]
}

/// Returns what is wrong between the quotes of a literal without suffix, whose first quote ends `opening` bytes from its start.
pub fn escape_fault(kind: LiteralKind, opening: usize, text: &[u8]) -> Option<BadToken>
    ensures { result ≡ escape_fault kind opening text.now }
{
    text_fault(kind, between_quotes(opening, text))
}
