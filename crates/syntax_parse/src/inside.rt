//! What no literal may hold.
ghost use Rattle.std.specs.Prelude.{◌≡◌};
ghost use Rattle.syntax_parse.specs.Escapes.{escape_fault};
ghost use Rattle.syntax_parse.specs.declared.fault.BadToken.TheVariants.{NullInCStr};
ghost use Rattle.syntax_parse.specs.Inside.{first_of, has_null, quoted_fault, inner_return, block_fault, line_fault, literal_fault, suffix_fault, takes_suffix, hashes_fault, before_suffix, beyond_ascii, bytes_fault, bare_return, fault_if, foreign_digit, inside_fault, is_foreign_digit, return_fault};

use crate::doc::{block_text, hashes_wanted, line_text};
use crate::escapes::escape_fault;
use crate::fault::BadToken;
use syntax_lex::{Base, DocStyle, LiteralKind};

// Returns whether a byte is a decimal digit that a base does not have.
fn is_foreign_digit(base: Base, byte: u8) -> bool
    ensures { result ≡ is_foreign_digit base byte }
{
    match base {
        Base::Binary => (50 <= byte) & (byte <= 57),
        Base::Octal => (56 <= byte) & (byte <= 57),
        Base::Decimal => false,
        Base::Hexadecimal => false,
    }
}

// Returns whether a text has a digit that a base does not have.
fn foreign_digit(base: Base, text: &[u8]) -> bool
    ensures { result ≡ foreign_digit base text.now }
{
    let mut found = false;
    for byte in text {
        found = found | is_foreign_digit(base, *byte);
    }
    found
}

// Returns whether a text has a character beyond ASCII.
fn beyond_ascii(text: &[u8]) -> bool
    ensures { result ≡ beyond_ascii text.now }
{
    let mut found = false;
    for byte in text {
        found = found | (128 <= *byte);
    }
    found
}

// Returns whether a text has a carriage return with no line feed right after it.
fn bare_return(text: &[u8]) -> bool
    ensures { result ≡ bare_return text.now }
{
    let mut found = false;
    let mut pending = false;
    for byte in text {
        found = found | (pending & (*byte != 10));
        pending = *byte == 13;
    }
    found | pending
}

// Returns the same for a text that a line feed may follow.
fn inner_return(text: &[u8]) -> bool
    ensures { result ≡ inner_return text.now }
{
    let mut found = false;
    let mut pending = false;
    for byte in text {
        found = found | (pending & (*byte != 10));
        pending = *byte == 13;
    }
    found
}

// Returns this fault if something is wrong.
fn fault_if(wrong: bool, why: BadToken) -> Option<BadToken>
    ensures { result ≡ fault_if wrong why }
{
    if wrong { Some(why) } else { None }
}

// Returns what is wrong with a text that holds a bare carriage return.
fn return_fault(text: &[u8]) -> Option<BadToken>
    ensures { result ≡ return_fault text.now }
{
    fault_if(bare_return(text), BadToken::BareReturn)
}

// Returns what is wrong with the text of a literal of bytes.
fn bytes_fault(text: &[u8]) -> Option<BadToken>
    ensures { result ≡ bytes_fault text.now }
{
    if beyond_ascii(text) {
        Some(BadToken::BeyondAscii)
    } else {
        return_fault(text)
    }
}

// Returns what is wrong with a text in quotes, whose first quote ends `opening` bytes from its start.
fn quoted_fault(kind: LiteralKind, opening: usize, text: &[u8]) -> Option<BadToken>
    ensures { result ≡ quoted_fault kind opening text.now }
{
    match return_fault(text) {
        None => escape_fault(kind, opening, text),
        Some(why) => Some(why),
    }
}

// Returns what is wrong with bytes in quotes.
fn quoted_bytes_fault(kind: LiteralKind, text: &[u8]) -> Option<BadToken>
    ensures { result ≡ first_of (bytes_fault text.now) (escape_fault kind 2 text.now) }
{
    match bytes_fault(text) {
        None => escape_fault(kind, 2, text),
        Some(why) => Some(why),
    }
}

// Returns whether a text has a null.
fn has_null(text: &[u8]) -> bool
    ensures { result ≡ has_null text.now }
{
    let mut found = false;
    for byte in text {
        found = found | (*byte == 0);
    }
    found
}

// Returns what is wrong with a raw C string.
fn raw_c_fault(text: &[u8]) -> Option<BadToken>
    ensures { result ≡ first_of (return_fault text.now) (fault_if (has_null text.now) NullInCStr) }
{
    match return_fault(text) {
        None => fault_if(has_null(text), BadToken::NullInCStr),
        Some(why) => Some(why),
    }
}

// Returns what is wrong with a comment that has this text. Only a long text can need many hashes.
#[tactic(auto, using(crate::proofs::Hashes::few_wanted))]
fn hashes_fault(text: &str) -> Option<BadToken>
    ensures { result ≡ hashes_fault text.now }
{
    if text.len() <= 255 {
        return None;
    }
    fault_if(hashes_wanted(text) > 255, BadToken::TooManyHashes)
}

/// Returns what is wrong inside of a documenting comment of one line.
pub fn line_fault(style: DocStyle, text: &str) -> Option<BadToken>
    ensures { result ≡ line_fault style text.now }
{
    if inner_return(text.as_bytes()) {
        return Some(BadToken::BareReturn);
    }
    hashes_fault(line_text(style, text))
}

/// Returns what is wrong inside of a documenting block comment.
pub fn block_fault(style: DocStyle, text: &str) -> Option<BadToken>
    ensures { result ≡ block_fault style text.now }
{
    match return_fault(text.as_bytes()) {
        None => hashes_fault(block_text(style, text)),
        Some(why) => Some(why),
    }
}

// Returns a literal without its suffix, which begins at byte `place`.
fn before_suffix(place: u32, text: &str) -> &[u8]
    ensures { result.now ≡ before_suffix place text.now }
{
    let end = (place as usize).min(text.len());
    &text.as_bytes()[..end]
}

// Returns what is wrong inside of a literal without its suffix.
fn inside_fault(kind: LiteralKind, text: &[u8]) -> Option<BadToken>
    ensures { result ≡ inside_fault kind text.now }
{
    match kind {
        LiteralKind::Int { base, .. } => {
            fault_if(foreign_digit(base, text), BadToken::ForeignDigit)
        }
        LiteralKind::Float { .. } => None,
        LiteralKind::Char { .. } => quoted_fault(kind, 1, text),
        LiteralKind::Byte { .. } => quoted_bytes_fault(kind, text),
        LiteralKind::Str { .. } => quoted_fault(kind, 1, text),
        LiteralKind::ByteStr { .. } => quoted_bytes_fault(kind, text),
        LiteralKind::CStr { .. } => quoted_fault(kind, 2, text),
        LiteralKind::RawStr { .. } => return_fault(text),
        LiteralKind::RawByteStr { .. } => bytes_fault(text),
        LiteralKind::RawCStr { .. } => raw_c_fault(text),
    }
}

// Returns whether a literal may have a suffix.
fn takes_suffix(kind: LiteralKind) -> bool
    ensures { result ≡ takes_suffix kind }
{
    matches!(kind, LiteralKind::Int { .. } | LiteralKind::Float { .. })
}

// Returns what is wrong with the suffix of a literal, which begins at byte `place`.
fn suffix_fault(kind: LiteralKind, place: u32, text: &str) -> Option<BadToken>
    ensures { result ≡ suffix_fault kind place text.now }
{
    let suffix_len = text.len().saturating_sub(place as usize);
    fault_if(
        takes_suffix(kind) & (suffix_len > 255),
        BadToken::SuffixTooLong,
    )
}

/// Returns what is wrong with a literal whose suffix begins at byte `place`: inside of it, or with its suffix.
pub fn literal_fault(kind: LiteralKind, place: u32, text: &str) -> Option<BadToken>
    ensures { result ≡ literal_fault kind place text.now }
{
    match inside_fault(kind, before_suffix(place, text)) {
        None => suffix_fault(kind, place, text),
        Some(why) => Some(why),
    }
}
