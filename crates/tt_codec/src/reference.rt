//! References to symbols (docs/FORMATS.md, "Bytes of a reference").
ghost use Rattle.std.specs.Prelude.{◌≡◌, ◌≤◌, ◌+◌, ◌<◌, ◌^◌, ◌++◌};
ghost use Rattle.tt_back_buf.specs.Bytes.{bytes_of, room_of};
ghost use Rattle.tt_codec.specs.Reference.{reference_bytes, after_one_byte, after_two_bytes, reference_at, ReferencesAgain};
ghost use Rattle.tt_codec.specs.Read.{IsRead};

use crate::words::{split_byte, split_half};
use tt_back_buf::BackBuf;

/// The largest number of symbols: four bytes have room for an index of 29 bits.
pub const MOST_SYMBOLS: usize = 1 << 29;

// The place of the bit of the first byte that says whether another byte follows. The tag is before it.
const MORE_AT: u32 = 1;
// The place of the low bits of the index, which come last.
const FIRST_AT: u32 = 2;
// The number of these bits.
const FIRST_BITS: u32 = 6;
// The mask of these bits.
const FIRST_MASK: u32 = (1 << FIRST_BITS) - 1;
// The place of the next bits of the index in the second byte. Before them is the bit that says whether two more bytes follow.
const SECOND_AT: u32 = 1;
// The number of these bits.
const SECOND_BITS: u32 = 7;
// The mask of these bits.
const SECOND_MASK: u32 = (1 << SECOND_BITS) - 1;
// The number of index bits in the first two bytes. The two bytes after them have 16 more.
const BOTH_BITS: u32 = FIRST_BITS + SECOND_BITS;

/// A symbol, as its index in a table, with one tag bit.
#[derive(Debug, Clone, Copy, PartialEq)]
pub struct Reference {
    pub index: u32,
    pub tag: u32,
}

impl Reference {
    /// Puts the reference's bytes before the others. The index is less than 2^29, and the tag is 0 or 1. There is room for four bytes;
    /// `BackBuf::with_room` makes room.
    #[tactic(auto, unfolding(crate::specs::Reference::reference_bytes))]
    pub fn write(self, into: &mut BackBuf)
        requires index { self.index < 2 ^ 29 }
        requires tag { self.tag < 2 }
        requires room { 4 ≤ room_of into.old }
        ensures bytes { bytes_of into.new ≡ reference_bytes self.index self.tag ++ bytes_of into.old }
        ensures room { room_of into.old ≤ room_of into.new + 4 }
    {
        if self.index < 1 << FIRST_BITS {
            return into.put_byte((self.tag | self.index << FIRST_AT) as u8);
        }
        let middle = self.index >> FIRST_BITS;
        if self.index < 1 << BOTH_BITS {
            into.put_byte((middle << SECOND_AT) as u8);
        } else {
            into.put_half((self.index >> BOTH_BITS) as u16);
            into.put_byte(((middle & SECOND_MASK) << SECOND_AT | 1) as u8);
        }
        into.put_byte((self.tag | 1 << MORE_AT | (self.index & FIRST_MASK) << FIRST_AT) as u8)
    }

    // Returns the reference and the bytes after it, after two bytes are read.
    fn after_two_bytes(first: u8, second: u8, rest: &[u8]) -> Option<(Reference, &[u8])>
        ensures { IsRead (after_two_bytes first second rest.now) result }
    {
        let index = first as u32 >> FIRST_AT | (second as u32 >> SECOND_AT) << FIRST_BITS;
        let tag = first as u32 & 1;
        if second & 1 == 0 {
            return Some((Reference { index, tag }, rest));
        }
        let (half, rest) = split_half(rest)?;
        let index = index | (half as u32) << BOTH_BITS;
        Some((Reference { index, tag }, rest))
    }

    // Returns the reference and the bytes after it, after one byte is read.
    #[inline(always)]
    fn after_one_byte(first: u8, rest: &[u8]) -> Option<(Reference, &[u8])>
        ensures { IsRead (after_one_byte first rest.now) result }
    {
        if (first >> MORE_AT) & 1 == 0 {
            let index = first as u32 >> FIRST_AT;
            let tag = first as u32 & 1;
            return Some((Reference { index, tag }, rest));
        }
        let (second, rest) = split_byte(rest)?;
        Reference::after_two_bytes(first, second, rest)
    }

    // Returns the reference at the front of the bytes, and the bytes after it.
    #[inline(always)]
    #[tactic(auto, unfolding(crate::specs::Reference::reference_at))]
    fn split(from: &[u8]) -> Option<(Reference, &[u8])>
        ensures { IsRead (reference_at from.now) result }
    {
        let (first, rest) = split_byte(from)?;
        Reference::after_one_byte(first, rest)
    }

    /// Returns the reference at the front of the bytes, and the bytes after it, or `None` if the bytes end too soon.
    #[inline(always)]
    pub(crate) fn read(from: &[u8]) -> Option<(Reference, &[u8])>
        ensures value { IsRead (reference_at from.now) result }
        ensures again { ReferencesAgain from.now result }
    {
        Reference::split(from)
    }
}
