//! The largest number of bytes that a token can take. The code takes this room before it knows the token's numbers (docs/FORMATS.md).
ghost use Rattle.std.specs.Prelude.{◌≡◌};
ghost use Rattle.tt_codec.specs.Leaf.{most_punct_bytes};

/// An ident: a span of at most 12 bytes, as each leaf has, and a reference of at most four.
pub(crate) const MOST_IDENT_BYTES: usize = 16;
/// A literal: up to three bytes for its form, and a span and a reference as for an ident.
pub(crate) const MOST_LITERAL_BYTES: usize = 19;
// A punct that is an ASCII character: its span and one byte. Any other punct: its span and five bytes.
const MOST_ASCII_BYTES: usize = 13;

const MOST_PUNCT_BYTES: usize = 17;
/// A header in its longest format: two spans, its kind, and two numbers of four bytes.
pub(crate) const MOST_HEADER_BYTES: usize = 33;

/// Returns the largest number of bytes that a punct of this character can take.
#[inline(always)]
pub(crate) fn most_punct_bytes(char: char) -> usize
    ensures { result ≡ most_punct_bytes char }
{
    if char.is_ascii() {
        MOST_ASCII_BYTES
    } else {
        MOST_PUNCT_BYTES
    }
}
