//! The front of a text, and the rest after it.
ghost use Rattle.std.specs.Prelude.{◌≡◌, ◌-◌, ◌<◌, ◌≤◌, ◌^◌, ◌==◌, [], ◌∷◌, nat_le, length, MatchOption};
ghost use Rattle.std.specs.Str.{chars};
ghost use Rattle.syntax_lex.specs.Front.{first, second, skip, byte_length};

/// Returns the first character, and the rest after it.
#[inline(always)]
pub fn split_first(text: &str) -> Option<(char, &str)>
    ensures { MatchOption result (chars text.now ≡ [])
        (λ (c, rest). (chars text.now ≡ c ∷ chars rest.now) × (length rest.now < length text.now)) }
{
    let mut chars = text.chars();
    match chars.next() {
        Some(c) => Some((c, chars.as_str())),
        None => None,
    }
}

/// Returns the first character, or the null character of an empty text.
#[inline(always)]
pub fn first(text: &str) -> char
    ensures { result ≡ first (chars text.now) }
{
    match split_first(text) {
        Some((c, _)) => c,
        None => '\0',
    }
}

/// Returns whether a text begins with an ASCII character that is not null, without decoding a character.
#[inline(always)]
pub fn begins_with(text: &str, ascii: u8) -> bool
    requires some { 0 < ascii }
    requires ascii { ascii < 128 }
    ensures { result ≡ (first (chars text.now) == ascii) }
{
    let bytes = text.as_bytes();
    !bytes.is_empty() && bytes[0] == ascii
}

/// Returns whether a text begins with a character beyond ASCII, without decoding a character.
#[inline(always)]
pub fn begins_wide(text: &str) -> bool
    ensures { result ≡ nat_le 128 (first (chars text.now)) }
{
    let bytes = text.as_bytes();
    !bytes.is_empty() && bytes[0] >= 128
}

/// Returns the rest after the first character.
#[inline(always)]
pub fn skip(text: &str) -> &str
    ensures rest { chars result.now ≡ skip (chars text.now) }
    ensures len { length result.now ≤ length text.now }
{
    match split_first(text) {
        Some((_, rest)) => rest,
        None => text,
    }
}

/// Returns whether the second character of a text is an ASCII one that is not null.
#[inline(always)]
pub fn goes_on_with(text: &str, ascii: u8) -> bool
    requires some { 0 < ascii }
    requires ascii { ascii < 128 }
    ensures { result ≡ (second (chars text.now) == ascii) }
{
    begins_with(skip(text), ascii)
}

/// Returns how many bytes precede the rest of a text.
#[inline(always)]
pub fn bytes_before(text: &str, rest: &str) -> u32
    requires { length text.now < 2 ^ 32 }
    ensures { result ≡ byte_length (chars text.now) - byte_length (chars rest.now) }
{
    text.len().saturating_sub(rest.len()) as u32
}
