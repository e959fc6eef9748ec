//! Writes the top's header over the bytes of another one.
ghost use Rattle.std.specs.Int.{w32, to_le_bytes};
ghost use Rattle.std.specs.Prelude.{◌≡◌, ◌+◌, ◌<◌, ◌≤◌, ◌^◌, ◌++◌, length, drop, true};
ghost use Rattle.tt_codec.specs.Header.{HeaderFits, format_4};
ghost use Rattle.tt_codec.specs.Overwriting.{overwritten};
ghost use Rattle.tt_codec.specs.SpanNumbers.{heavy_span};

use crate::entry::HeaderEntry;
use crate::form::FORMAT_4;
use crate::header_write::control;
use crate::span::SpanNumbers;

// The place of the kind. It follows the open span, which takes 12 bytes in three words.
const KIND_AT: usize = 12;
// The place of the close span.
const CLOSE_AT: usize = 13;
// The place of the count of tokens.
const LEN_AT: usize = 25;
// The place of the number of bytes.
const CHILD_BYTES_AT: usize = 29;

// Writes a number over the four bytes at an offset.
fn overwrite_word(bytes: &mut [u8], offset: usize, word: u32)
    requires { offset + 4 ≤ length bytes.old }
    ensures { bytes.new ≡ overwritten offset (to_le_bytes w32 word) bytes.old }
{
    bytes[offset..offset + 4].copy_from_slice(&word.to_le_bytes());
}

impl SpanNumbers {
    // Writes the span in three words over the bytes at an offset.
    fn overwrite(self, bytes: &mut [u8], offset: usize)
        requires part { self.part < 2 ^ 28 }
        requires room { offset + 12 ≤ length bytes.old }
        ensures { bytes.new ≡ overwritten offset (heavy_span 0 self) bytes.old }
    {
        let (first, second, third) = self.heavy_words(0);
        overwrite_word(bytes, offset, first);
        overwrite_word(bytes, offset + 4, second);
        overwrite_word(bytes, offset + 8, third);
    }
}

impl HeaderEntry {
    /// Writes the header over the first 33 bytes, in its longest format with both spans in three words. There are at least 33 bytes. The
    /// indices of its parts are less than 2^28, and its spans end below 2^32.
    pub fn overwrite(self, bytes: &mut [u8])
        requires fits { HeaderFits self }
        requires room { 33 ≤ length bytes.old }
        ensures { bytes.new ≡ format_4 true self ++ drop 33 bytes.old }
    {
        self.opening.overwrite(bytes, 0);
        bytes[KIND_AT] = control(FORMAT_4, self.kind, 0);
        self.closing.overwrite(bytes, CLOSE_AT);
        overwrite_word(bytes, LEN_AT, self.len);
        overwrite_word(bytes, CHILD_BYTES_AT, self.child_bytes);
    }
}
