//! Numbers at the front of bytes.
ghost use Rattle.std.specs.Prelude.{◌≡◌, Some, None, MatchOption};
ghost use Rattle.tt_codec.specs.Read.{byte_at, half_at, word_at};

/// Returns the first byte, and the bytes after it, or `None` if there is none.
pub(crate) fn split_byte(from: &[u8]) -> Option<(u8, &[u8])>
    ensures { MatchOption result (byte_at from.now ≡ None) (λ read. byte_at from.now ≡ Some (read.0, read.1.now)) }
{
    match from {
        [byte, rest @ ..] => Some((*byte, rest)),
        _ => None,
    }
}

/// Returns the number in the first two bytes, and the bytes after it, or `None` if there are fewer.
pub(crate) fn split_half(from: &[u8]) -> Option<(u16, &[u8])>
    ensures { MatchOption result (half_at from.now ≡ None) (λ read. half_at from.now ≡ Some (read.0, read.1.now)) }
{
    let (bytes, rest) = from.split_first_chunk::<2>()?;
    Some((u16::from_le_bytes(*bytes), rest))
}

/// Returns the number in the first four bytes, and the bytes after it, or `None` if there are fewer.
pub(crate) fn split_word(from: &[u8]) -> Option<(u32, &[u8])>
    ensures { MatchOption result (word_at from.now ≡ None) (λ read. word_at from.now ≡ Some (read.0, read.1.now)) }
{
    let (bytes, rest) = from.split_first_chunk::<4>()?;
    Some((u32::from_le_bytes(*bytes), rest))
}
