//! Writes a header in the first of four formats that can hold it (docs/FORMATS.md, "Bytes of a header").
ghost use Rattle.std.specs.Prelude.{◌≡◌, ◌≤◌, ◌<◌, ◌^◌, ◌+◌, ◌*◌, ◌++◌, IsTrue};
ghost use Rattle.tt_back_buf.specs.Bytes.{bytes_of, room_of};
ghost use Rattle.tt_base.specs.declared.token_tree.TokenTree.TheVariants as token;
ghost use Rattle.tt_base.specs.Fits.{TokenInRange};
ghost use Rattle.tt_codec.specs.Kinds.{delimiter_number};
ghost use Rattle.tt_codec.specs.Header.{HeaderFits, is_within, is_short, is_small, has_format_1, has_format_2, has_format_3, format_1, format_2, format_3, format_4, header_bytes, top_entry};

use crate::entry::HeaderEntry;
use crate::form::{
    FORM_BITS, FORMAT_1, FORMAT_2, FORMAT_3, FORMAT_4, HIGH_AT, HIGH_BITS, HIGH_MASK, KIND_MASK,
    LOW_DISTANCE_BITS, PART_BITS, PLAIN,
};
use crate::kinds::delimiter_number;
use crate::span::SpanNumbers;
use tt_back_buf::BackBuf;
use tt_base::{DelimiterKind, Subtree};

// The largest count, the largest number of bytes of a small header, and the largest distance in the third format: each has one byte.
const MOST_IN_BYTE: u32 = u8::MAX as u32;
// The largest distance in the first format. The span has its low bits, and the bits after the kind have the others.
const FORMAT_1_DISTANCE: u32 = (1 << (LOW_DISTANCE_BITS + HIGH_BITS)) - 1;
// The mask of those low bits.
const LOW_DISTANCE_MASK: u32 = (1 << LOW_DISTANCE_BITS) - 1;
// The largest distance in the second format. The bits after the kind have it.
const FORMAT_2_DISTANCE: u32 = HIGH_MASK as u32;
// The largest number of bytes in the third format. It fills two bytes, together with bits of the index of the close part.
const FORMAT_3_BYTES: u32 = (1 << (16 - PART_BITS)) - 1;
// The largest index of the close part in the third format. The bits after the kind have its low bits, and the others come before the
// number of bytes.
const FORMAT_3_PART: u32 = (1 << (HIGH_BITS + PART_BITS)) - 1;

// Returns the byte after the open span: the form, the kind, and the high bits of that format.
pub(crate) fn control(form: u8, kind: DelimiterKind, high: u8) -> u8
    requires form { form < 8 }
    requires high { delimiter_number kind + high * 4 < 32 }
    ensures { result ≡ form + delimiter_number kind * 8 + high * 32 }
{
    form + (delimiter_number(kind) << FORM_BITS) + (high << HIGH_AT)
}

impl HeaderEntry {
    /// Returns the top's header in numbers. Its two parts have the indices `part` and `part + 1`, both less than 2^28. The tokens below
    /// it take `child_bytes` bytes.
    pub fn of_top(part: u32, top: Subtree, child_bytes: u32) -> HeaderEntry
        requires { part + 1 < 2 ^ 28 }
        ensures value { result ≡ top_entry part top.delimiter top.len child_bytes }
        ensures fits { HeaderFits result }
        ensures range { TokenInRange (token.Subtree top) }
    {
        HeaderEntry {
            opening: SpanNumbers::of_span(part, &top.delimiter.open_span),
            closing: SpanNumbers::of_span(part + 1, &top.delimiter.close),
            kind: top.delimiter.kind,
            len: top.len,
            child_bytes,
        }
    }

    // Returns whether the close span starts at most `most` bytes after the start of the open span, and not before it.
    fn is_within(self, most: u32) -> bool
        ensures { result ≡ is_within self most }
    {
        self.opening.start <= self.closing.start && self.closing.start - self.opening.start <= most
    }

    // Returns whether one byte can hold the count, and two bits the kind.
    fn is_short(self) -> bool
        ensures { result ≡ is_short self }
    {
        self.len <= MOST_IN_BYTE && delimiter_number(self.kind) <= KIND_MASK
    }

    // Returns whether the header is short, both spans have one part, and the number of bytes is small.
    fn is_small(self) -> bool
        ensures { result ≡ is_small self }
    {
        self.is_short()
            && self.opening.part == self.closing.part
            && self.child_bytes <= MOST_IN_BYTE
    }

    // Returns whether the first format can hold the header.
    fn has_format_1(self) -> bool
        ensures { result ≡ has_format_1 self }
    {
        self.is_small()
            && self.opening.length == 1
            && self.closing.length == 1
            && self.is_within(FORMAT_1_DISTANCE)
    }

    // Returns whether the second format can hold the header.
    fn has_format_2(self) -> bool
        ensures { result ≡ has_format_2 self }
    {
        self.is_small()
            && self.opening.length == self.closing.length
            && self.is_within(FORMAT_2_DISTANCE)
    }

    // Returns whether the third format can hold the header.
    fn has_format_3(self) -> bool
        ensures { result ≡ has_format_3 self }
    {
        self.is_short()
            && self.child_bytes <= FORMAT_3_BYTES
            && self.opening.length == self.closing.length
            && self.is_within(MOST_IN_BYTE)
            && self.closing.part <= FORMAT_3_PART
    }

    // Puts the header before the bytes in the first format.
    fn write_format_1(self, into: &mut BackBuf)
        requires fits { HeaderFits self }
        requires format { IsTrue (has_format_1 self) }
        requires room { 15 ≤ room_of into.old }
        ensures bytes { bytes_of into.new ≡ format_1 self ++ bytes_of into.old }
        ensures room { room_of into.old ≤ room_of into.new + 15 }
    {
        let distance = self.closing.start - self.opening.start;
        let span = SpanNumbers {
            length: distance & LOW_DISTANCE_MASK,
            ..self.opening
        };
        into.put_byte(self.child_bytes as u8);
        into.put_byte(self.len as u8);
        let high = (distance >> LOW_DISTANCE_BITS) as u8;
        into.put_byte(control(FORMAT_1, self.kind, high));
        span.write(into, PLAIN, false)
    }

    // Puts the header before the bytes in the second format.
    fn write_format_2(self, into: &mut BackBuf)
        requires fits { HeaderFits self }
        requires format { IsTrue (has_format_2 self) }
        requires room { 15 ≤ room_of into.old }
        ensures bytes { bytes_of into.new ≡ format_2 self ++ bytes_of into.old }
        ensures room { room_of into.old ≤ room_of into.new + 15 }
    {
        let distance = (self.closing.start - self.opening.start) as u8;
        into.put_byte(self.child_bytes as u8);
        into.put_byte(self.len as u8);
        into.put_byte(control(FORMAT_2, self.kind, distance));
        self.opening.write(into, PLAIN, false)
    }

    // Puts the header before the bytes in the third format.
    fn write_format_3(self, into: &mut BackBuf)
        requires fits { HeaderFits self }
        requires format { IsTrue (has_format_3 self) }
        requires room { 17 ≤ room_of into.old }
        ensures bytes { bytes_of into.new ≡ format_3 self ++ bytes_of into.old }
        ensures room { room_of into.old ≤ room_of into.new + 17 }
    {
        let distance = (self.closing.start - self.opening.start) as u8;
        let part = self.closing.part as u8;
        into.put_half((part >> HIGH_BITS) as u16 | (self.child_bytes as u16) << PART_BITS);
        into.put_byte(self.len as u8);
        into.put_byte(distance);
        into.put_byte(control(FORMAT_3, self.kind, part & HIGH_MASK));
        self.opening.write(into, PLAIN, false)
    }

    /// Puts the header before the bytes in the fourth format. `heavy` demands three words for both spans. The indices of its parts are
    /// less than 2^28, and its spans end below 2^32. There is room for 33 bytes; `BackBuf::with_room` makes room.
    pub fn write_in_full(self, into: &mut BackBuf, heavy: bool)
        requires fits { HeaderFits self }
        requires room { 33 ≤ room_of into.old }
        ensures bytes { bytes_of into.new ≡ format_4 heavy self ++ bytes_of into.old }
        ensures room { room_of into.old ≤ room_of into.new + 33 }
    {
        into.put_word(self.child_bytes);
        into.put_word(self.len);
        self.closing.write(into, PLAIN, heavy);
        into.put_byte(control(FORMAT_4, self.kind, 0));
        self.opening.write(into, PLAIN, heavy)
    }

    /// Puts the header before the bytes in the first format that can hold it.
    #[tactic(auto, unfolding(crate::specs::Header::header_bytes))]
    #[inline(always)]
    pub(crate) fn write(self, into: &mut BackBuf)
        requires fits { HeaderFits self }
        requires room { 33 ≤ room_of into.old }
        ensures bytes { bytes_of into.new ≡ header_bytes self ++ bytes_of into.old }
        ensures room { room_of into.old ≤ room_of into.new + 33 }
    {
        if self.has_format_1() {
            return self.write_format_1(into);
        }
        if self.has_format_2() {
            return self.write_format_2(into);
        }
        if self.has_format_3() {
            return self.write_format_3(into);
        }
        self.write_in_full(into, false)
    }
}
