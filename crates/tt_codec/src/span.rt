//! The numbers of a span, in one, two or three words (docs/FORMATS.md, "Bytes of a span").
ghost use Rattle.std.specs.Prelude.{◌≡◌, ◌≤◌, ◌+◌, ◌<◌, ◌^◌, ◌++◌, IsTrue};
ghost use Rattle.tt_back_buf.specs.Bytes.{bytes_of, room_of};
ghost use Rattle.tt_base.specs.Fits.{SpanInRange};
ghost use Rattle.tt_codec.specs.SpanNumbers.{span_numbers, SpanFits, first_word, middle_word, rests, fits_one_word, fits_two_words, middle_span, heavy_span, span_bytes, word, part_rest, length_rest, start_rest, SpansAgain, spanned, from_rests, after_one_word, after_two_words, span_at};
ghost use Rattle.tt_codec.specs.Read.{IsRead};

use crate::words::split_word;
use tt_back_buf::BackBuf;
use tt_base::Span;

/// The largest number of parts: three words have room for an index of 28 bits.
pub const MOST_PARTS: usize = 1 << 28;

// The mask of the extra bits, which are the lowest bits of the first word.
const EXTRA_MASK: u32 = 0b11;
// The place of the low bits of the part in the first word.
const PART_AT: u32 = 2;
// The number of these bits. The other bits of the part are its rest.
const PART_BITS: u32 = 4;
// The mask of these bits.
const PART_MASK: u32 = (1 << PART_BITS) - 1;
// The place of the low bits of the length.
const LENGTH_AT: u32 = PART_AT + PART_BITS;
// The number of these bits. The other bits of the length are its rest.
const LENGTH_BITS: u32 = 8;
// The mask of these bits.
const LENGTH_MASK: u32 = (1 << LENGTH_BITS) - 1;
// The place of the bit that says whether another word follows.
const MORE_AT: u32 = LENGTH_AT + LENGTH_BITS;
// The place of the low bits of the start, which come last.
const START_AT: u32 = MORE_AT + 1;
// The number of these bits, which fill the word. The other bits of the start are its rest.
const START_BITS: u32 = 32 - START_AT;
// The mask of these bits.
const START_MASK: u32 = (1 << START_BITS) - 1;

// The place of the part's rest in the second of two words. Before it is a bit that is 0.
const MIDDLE_PART_AT: u32 = 1;
// The largest rest of a part in two words: 11 bits.
const MIDDLE_PART_MASK: u32 = (1 << 11) - 1;
// The place of the length's rest.
const MIDDLE_LENGTH_AT: u32 = 12;
// The largest rest of a length in two words: 10 bits.
const MIDDLE_LENGTH_MASK: u32 = (1 << 10) - 1;
// The place of the start's rest, which comes last.
const MIDDLE_START_AT: u32 = 22;
// The largest rest of a start in two words: 10 bits.
const MIDDLE_START_MASK: u32 = (1 << 10) - 1;

// The place of the length's rest in the one number that three words have for all rests. The part's rest is before it.
const RESTS_LENGTH_AT: u32 = 24;
// The place of the start's rest in that number, which comes last.
const RESTS_START_AT: u32 = 48;
// The mask of the part's rest and of the length's. A part has 4 + 24 bits, and a length has 8 + 24.
const REST_MASK: u64 = (1 << 24) - 1;
// The number of low bits of that number in the last of three words. The second word has a bit that is 1, and after it the other bits.
const WORD_BITS: u32 = 32;
// The mask of these low bits.
const WORD_MASK: u64 = (1 << WORD_BITS) - 1;

/// A span in numbers: the index of its part, its start in bytes, and its length in bytes.
#[derive(Debug, Clone, Copy, PartialEq)]
pub struct SpanNumbers {
    pub part: u32,
    pub start: u32,
    pub length: u32,
}

/// The numbers of a span, with the two extra bits that are stored beside them.
#[derive(Debug, Clone, Copy, PartialEq)]
pub(crate) struct Spanned {
    pub(crate) extra: u32,
    pub(crate) numbers: SpanNumbers,
}

impl SpanNumbers {
    /// Returns the numbers of a span. The index of its part is `part`, which is less than 2^28.
    pub fn of_span(part: u32, span: &Span) -> SpanNumbers
        requires { part < 2 ^ 28 }
        ensures value { result ≡ span_numbers part span.now }
        ensures fits { SpanFits result }
        ensures range { SpanInRange span.now }
    {
        let start = span.range.start().raw();
        let end = span.range.end().raw();
        SpanNumbers {
            part,
            start,
            length: end - start,
        }
    }

    // Returns the first word. Its bit `more` says whether another word follows.
    fn first_word(self, extra: u32, more: u32) -> u32
        requires extra { extra < 4 }
        requires more { more < 2 }
        ensures { result ≡ first_word extra more self }
    {
        extra
            | (self.part & PART_MASK) << PART_AT
            | (self.length & LENGTH_MASK) << LENGTH_AT
            | more << MORE_AT
            | (self.start & START_MASK) << START_AT
    }

    // Returns the second of two words.
    fn middle_word(self) -> u32
        requires part { part_rest self < 2048 }
        requires length { length_rest self < 1024 }
        requires start { start_rest self < 1024 }
        ensures { result ≡ middle_word self }
    {
        (self.part >> PART_BITS) << MIDDLE_PART_AT
            | (self.length >> LENGTH_BITS) << MIDDLE_LENGTH_AT
            | (self.start >> START_BITS) << MIDDLE_START_AT
    }

    // Returns all rests as one number.
    fn rests(self) -> u64
        requires { self.part < 2 ^ 28 }
        ensures value { result ≡ rests self }
        ensures bound { result < 2 ^ 63 }
    {
        (self.part >> PART_BITS) as u64
            | ((self.length >> LENGTH_BITS) as u64) << RESTS_LENGTH_AT
            | ((self.start >> START_BITS) as u64) << RESTS_START_AT
    }

    // Returns whether all rests are 0.
    fn fits_one_word(self) -> bool
        ensures { result ≡ fits_one_word self }
    {
        self.part >> PART_BITS == 0
            && self.length >> LENGTH_BITS == 0
            && self.start >> START_BITS == 0
    }

    // Returns whether one more word can hold the rests.
    fn fits_two_words(self) -> bool
        ensures { result ≡ fits_two_words self }
    {
        self.part >> PART_BITS <= MIDDLE_PART_MASK
            && self.length >> LENGTH_BITS <= MIDDLE_LENGTH_MASK
            && self.start >> START_BITS <= MIDDLE_START_MASK
    }

    // Puts the span before the bytes, in two words.
    #[inline(always)]
    fn write_middle(self, into: &mut BackBuf, extra: u32)
        requires extra { extra < 4 }
        requires fits { IsTrue (fits_two_words self) }
        requires room { 8 ≤ room_of into.old }
        ensures bytes { bytes_of into.new ≡ middle_span extra self ++ bytes_of into.old }
        ensures room { room_of into.old ≤ room_of into.new + 8 }
    {
        into.put_word(self.middle_word());
        into.put_word(self.first_word(extra, 1))
    }

    /// Returns the span in three words, the first one first.
    #[inline(always)]
    pub(crate) fn heavy_words(self, extra: u32) -> (u32, u32, u32)
        requires part { self.part < 2 ^ 28 }
        requires extra { extra < 4 }
        ensures { word result.0 ++ word result.1 ++ word result.2 ≡ heavy_span extra self }
    {
        let rests = self.rests();
        let second = ((rests >> WORD_BITS) as u32) << 1 | 1;
        let third = (rests & WORD_MASK) as u32;
        (self.first_word(extra, 1), second, third)
    }

    // Puts the span before the bytes, in three words.
    #[inline(never)]
    fn write_heavy(self, into: &mut BackBuf, extra: u32)
        requires part { self.part < 2 ^ 28 }
        requires extra { extra < 4 }
        requires room { 12 ≤ room_of into.old }
        ensures bytes { bytes_of into.new ≡ heavy_span extra self ++ bytes_of into.old }
        ensures room { room_of into.old ≤ room_of into.new + 12 }
    {
        let (first, second, third) = self.heavy_words(extra);
        into.put_word(third);
        into.put_word(second);
        into.put_word(first)
    }

    /// Puts the span before the bytes. `heavy` demands three words. The index of the part is less than 2^28, and the extra bits are less
    /// than 4. There is room for 12 bytes; `BackBuf::with_room` makes room. Most spans take one word or two, so the code for these is
    /// inline, and that for three words is a call.
    #[inline(always)]
    #[tactic(auto, unfolding(crate::specs::SpanNumbers::span_bytes))]
    pub fn write(self, into: &mut BackBuf, extra: u32, heavy: bool)
        requires part { self.part < 2 ^ 28 }
        requires extra { extra < 4 }
        requires room { 12 ≤ room_of into.old }
        ensures bytes { bytes_of into.new ≡ span_bytes heavy extra self ++ bytes_of into.old }
        ensures room { room_of into.old ≤ room_of into.new + 12 }
    {
        if heavy {
            return self.write_heavy(into, extra);
        }
        if self.fits_one_word() {
            return into.put_word(self.first_word(extra, 0));
        }
        if self.fits_two_words() {
            return self.write_middle(into, extra);
        }
        self.write_heavy(into, extra)
    }
}

impl Spanned {
    // Returns the span of a first word and the three rests.
    fn from_rests(first: u32, part_rest: u32, length_rest: u32, start_rest: u32) -> Spanned
        requires part { part_rest < 2 ^ 24 }
        requires length { length_rest < 2 ^ 24 }
        requires start { start_rest < 2 ^ 15 }
        ensures { result ≡ spanned first part_rest length_rest start_rest }
    {
        let numbers = SpanNumbers {
            part: (first >> PART_AT) & PART_MASK | part_rest << PART_BITS,
            start: first >> START_AT | start_rest << START_BITS,
            length: (first >> LENGTH_AT) & LENGTH_MASK | length_rest << LENGTH_BITS,
        };
        Spanned {
            extra: first & EXTRA_MASK,
            numbers,
        }
    }

    // Returns the span of a first word and of all rests as one number.
    fn from_one_rest(first: u32, rests: u64) -> Spanned
        requires { rests < 2 ^ 63 }
        ensures { result ≡ from_rests first rests }
    {
        let part_rest = (rests & REST_MASK) as u32;
        let length_rest = ((rests >> RESTS_LENGTH_AT) & REST_MASK) as u32;
        let start_rest = (rests >> RESTS_START_AT) as u32;
        Spanned::from_rests(first, part_rest, length_rest, start_rest)
    }

    // Returns the span and the bytes after it, after two words are read.
    fn after_two_words(first: u32, second: u32, rest: &[u8]) -> Option<(Spanned, &[u8])>
        ensures { IsRead (after_two_words first second rest.now) result }
    {
        if second & 1 == 0 {
            let part_rest = (second >> MIDDLE_PART_AT) & MIDDLE_PART_MASK;
            let length_rest = (second >> MIDDLE_LENGTH_AT) & MIDDLE_LENGTH_MASK;
            let start_rest = second >> MIDDLE_START_AT;
            let span = Spanned::from_rests(first, part_rest, length_rest, start_rest);
            return Some((span, rest));
        }
        let (third, rest) = split_word(rest)?;
        let rests = ((second >> 1) as u64) << WORD_BITS | third as u64;
        Some((Spanned::from_one_rest(first, rests), rest))
    }

    // Returns the span and the bytes after it, after one word is read.
    #[inline(always)]
    fn after_one_word(first: u32, rest: &[u8]) -> Option<(Spanned, &[u8])>
        ensures { IsRead (after_one_word first rest.now) result }
    {
        if (first >> MORE_AT) & 1 == 0 {
            return Some((Spanned::from_rests(first, 0, 0, 0), rest));
        }
        let (second, rest) = split_word(rest)?;
        Spanned::after_two_words(first, second, rest)
    }

    // Returns the span at the front of the bytes, and the bytes after it.
    #[inline(always)]
    #[tactic(auto, unfolding(crate::specs::SpanNumbers::span_at))]
    fn split(from: &[u8]) -> Option<(Spanned, &[u8])>
        ensures { IsRead (span_at from.now) result }
    {
        let (first, rest) = split_word(from)?;
        Spanned::after_one_word(first, rest)
    }

    /// Returns the span at the front of the bytes, and the bytes after it, or `None` if the bytes end too soon.
    #[inline(always)]
    pub(crate) fn read(from: &[u8]) -> Option<(Spanned, &[u8])>
        ensures value { IsRead (span_at from.now) result }
        ensures again { SpansAgain from.now result }
    {
        Spanned::split(from)
    }
}
