//! What is wrong with raw literals and raw names.
ghost use Rattle.std.specs.Prelude.{◌≡◌, drop};
ghost use Rattle.syntax_lex.specs.Closing.{hashes_of};
ghost use Rattle.syntax_parse.specs.RawLiteral.{raw_fault};
ghost use Rattle.syntax_parse.specs.RawName.{is_never_raw, raw_name_fault};

use crate::fault::BadToken;
use tt_base::IdentIsRaw;

/// Returns what follows the first `letters` letters.
pub fn behind_letters(letters: usize, text: &str) -> &[u8]
    ensures { result.now ≡ drop letters text.now }
{
    let start = letters.min(text.len());
    &text.as_bytes()[start..]
}

// Returns how many hashes come first.
fn hashes_of(text: &[u8]) -> usize
    ensures { result ≡ hashes_of text.now }
{
    for (i, byte) in text.iter().enumerate() {
        if *byte != b'#' {
            return i;
        }
    }
    text.len()
}

/// Returns why a raw literal is not valid, by the text after its letters.
pub fn raw_fault(text: &[u8]) -> BadToken
    ensures { result ≡ raw_fault text.now }
{
    let hashes = hashes_of(text);
    if text.get(hashes).copied() != Some(b'"') {
        return BadToken::RawWithoutQuote;
    }
    if hashes > 255 {
        BadToken::TooManyHashes
    } else {
        BadToken::UnterminatedLiteral
    }
}

// Returns whether a name is never raw.
fn is_never_raw(name: &str) -> bool
    ensures { result ≡ is_never_raw name.now }
{
    matches!(name, "_" | "crate" | "self" | "super" | "Self")
}

/// Returns what is wrong with a raw name of this text.
pub fn raw_name_fault(text: &str) -> Option<BadToken>
    ensures { result ≡ raw_name_fault text.now }
{
    let (_, name) = IdentIsRaw::split_from_symbol(text);
    if is_never_raw(name) {
        Some(BadToken::NeverRaw)
    } else {
        None
    }
}
