//! Tokens in numbers: leaves and headers.
ghost use Rattle.std.specs.Prelude.{◌≡◌, ◌≤◌, ◌+◌, ◌++◌};
ghost use Rattle.tt_back_buf.specs.Bytes.{bytes_of, room_of};
ghost use Rattle.tt_codec.specs.Entry.{EntryFits, entry_bytes, most_entry_bytes};

use crate::span::SpanNumbers;
use tt_back_buf::BackBuf;
use tt_base::{DelimiterKind, IdentIsRaw, LitKind, Spacing};

/// A leaf in numbers. Its symbol is an index in a table.
#[derive(Debug, Clone, Copy, PartialEq)]
pub enum LeafEntry {
    /// The character, its spacing, and the span.
    Punct(char, Spacing, SpanNumbers),
    /// The symbol, whether it is raw, and the span.
    Ident(u32, IdentIsRaw, SpanNumbers),
    /// The symbol, the kind, the number of bytes of the symbol that are the suffix, and the span.
    Literal(u32, LitKind, u8, SpanNumbers),
}

/// A header in numbers.
#[derive(Debug, Clone, Copy, PartialEq)]
pub struct HeaderEntry {
    pub opening: SpanNumbers,
    pub closing: SpanNumbers,
    pub kind: DelimiterKind,
    /// The number of tokens below the header, at any depth.
    pub len: u32,
    /// The number of bytes of these tokens.
    pub child_bytes: u32,
}

/// A token in numbers.
#[derive(Debug, Clone, Copy, PartialEq)]
pub enum Entry {
    Leaf(LeafEntry),
    Header(HeaderEntry),
}

impl Entry {
    /// Puts the token's bytes before the others. The indices of its parts are less than 2^28, that of its symbol is less than 2^29, and
    /// each span ends below 2^32, as in the result of `Tables::entry`. There is room for 33 bytes; `BackBuf::with_room` makes room. This
    /// is inline, so that code that has just made the numbers of a token does not test its kind again.
    #[inline(always)]
    pub fn write(self, into: &mut BackBuf)
        requires fits { EntryFits self }
        requires room { 33 ≤ room_of into.old }
        ensures bytes { bytes_of into.new ≡ entry_bytes self ++ bytes_of into.old }
        ensures room { room_of into.old ≤ room_of into.new + most_entry_bytes self }
    {
        match self {
            Entry::Leaf(leaf) => leaf.write(into),
            Entry::Header(header) => header.write(into),
        }
    }
}
