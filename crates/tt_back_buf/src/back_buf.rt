//! Bytes written from the last to the first.
ghost use Rattle.std.specs.Int.{w16, w32, to_le_bytes};
ghost use Rattle.std.specs.Prelude.{◌≡◌, ◌+◌, ◌^◌, ◌<◌, ◌≤◌, [], ◌∷◌, ◌++◌, length, IfOk};

use crate::region::{Lease, Region};
use std::alloc::{AllocError, Global};

/// Bytes written from the last to the first. A header says how many bytes it holds, and this is known once they are written. A contract
/// sees the bytes from the first on, and the number of bytes for which there is still room.
pub struct BackBuf {
    region: Region,
    lease: Lease<Global>,
    alloc: Global,
    size: usize,
    room: usize,
    ghost room_is: { room ≡ region.room },
    ghost size_is: { room + length region.bytes ≡ size },
    ghost lease_is: { (lease.alloc ≡ alloc) × (lease.at ≡ region.at) × (lease.size ≡ size) },
}

impl BackBuf {
    ghost use Rattle.tt_back_buf.specs.Bytes.{bytes_of, room_of};

    /// Returns a buffer without bytes, and with room for `room` bytes. Fails only if memory runs out.
    pub fn with_room(alloc: Global, room: usize) -> Result<BackBuf, AllocError>
        ensures bytes { IfOk result (λ buf. bytes_of buf ≡ []) }
        ensures room { IfOk result (λ buf. (room_of buf ≡ room) × (room < 2 ^ 63)) }
    {
        if room > isize::MAX as usize {
            return Err(AllocError);
        }
        let Some((region, lease)) = Region::new(&alloc, room) else {
            return Err(AllocError);
        };
        Ok(BackBuf {
            region,
            lease,
            alloc,
            size: room,
            room,
        })
    }

    /// Returns the number of bytes.
    pub fn len(&self) -> usize
        ensures { result ≡ length (bytes_of self.now) }
    {
        self.size - self.room
    }

    /// Puts one byte before the others. There is room for it: `len` is less than the room at first.
    #[inline(always)]
    pub fn put_byte(&mut self, byte: u8)
        requires { 1 ≤ room_of self.old }
        ensures bytes { bytes_of self.new ≡ byte ∷ bytes_of self.old }
        ensures room { room_of self.new + 1 ≡ room_of self.old }
    {
        self.room -= 1;
        self.region.put(self.room, byte);
    }

    /// Puts two bytes before the others, the lowest first. There is room for them: `len` is at least two less than the room at first.
    #[inline(always)]
    pub fn put_half(&mut self, half: u16)
        requires { 2 ≤ room_of self.old }
        ensures bytes { bytes_of self.new ≡ to_le_bytes w16 half ++ bytes_of self.old }
        ensures room { room_of self.new + 2 ≡ room_of self.old }
    {
        self.room -= 2;
        let low = (half & 0xff) as u8;
        self.region.put_two(self.room, low, (half >> 8) as u8);
    }

    /// Puts four bytes before the others, the lowest first. There is room for them: `len` is at least four less than the room at first.
    #[inline(always)]
    pub fn put_word(&mut self, word: u32)
        requires { 4 ≤ room_of self.old }
        ensures bytes { bytes_of self.new ≡ to_le_bytes w32 word ++ bytes_of self.old }
        ensures room { room_of self.new + 4 ≡ room_of self.old }
    {
        self.room -= 4;
        let first = (word & 0xff) as u8;
        let second = ((word >> 8) & 0xff) as u8;
        let third = ((word >> 16) & 0xff) as u8;
        let fourth = (word >> 24) as u8;
        self.region
            .put_four(self.room, first, second, third, fourth);
    }

    /// Returns the bytes in a vector of exactly their size. Fails only if memory runs out.
    pub fn into_vec(self) -> Result<Vec<u8>, AllocError>
        ensures { IfOk result (λ vec. vec.items ≡ bytes_of self) }
    {
        Vec::from_slice(self.alloc, self.region.bytes(self.room, self.len()))
    }
}

impl Drop for BackBuf {
    fn drop(self) {
        let BackBuf {
            region,
            lease,
            alloc,
            size,
            room: _,
        } = self;
        region.free(lease, &alloc, size);
    }
}
