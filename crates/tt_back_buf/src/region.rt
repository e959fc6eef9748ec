//! Raw memory, filled from its end. Only this crate and `tt_shared` have raw pointers.
ghost use Rattle.std.specs.Prelude.{◌≡◌, ℕ, ◌+◌, ◌^◌, ◌<◌, List, [], ◌∷◌, length, IfSome};
ghost use denote.RawPtr.{Ptr};
ghost use Rattle.tt_back_buf.specs.Ownership.{region_owns, region_lends, block_type};

use std::alloc::Allocator;
use std::marker::{Model, PhantomData};
use std::slice;

// A block. Its first `room` places are empty, and `bytes` follow them.
pub(crate) struct Region {
    at: *mut u8,
    pub(crate) ghost room: { ℕ },
    pub(crate) ghost bytes: { List ℕ },
    ghost fits: { room + length bytes < 2 ^ 63 },
}

impl Model for Region {
    ghost also_owns = { λ r. region_owns r.at r.room r.bytes };

    ghost also_shares = { λ r _ κ. region_lends r.at r.room r.bytes κ };
}

// The right to free a block of `size` bytes.
pub(crate) struct Lease<A: Allocator> {
    marker: PhantomData<A>,
    pub(crate) ghost alloc: { A },
    pub(crate) ghost at: { Ptr },
    pub(crate) ghost size: { ℕ },
}

impl<A: Allocator> Model for Lease<A> {
    ghost also_owns = { λ l. A.dealloc_token l.alloc (block_type l.size) l.at };
}

impl Region {
    // Returns an empty block of `size` bytes, or `None` if memory runs out.
    pub(crate) fn new<A: Allocator>(alloc: &A, size: usize) -> Option<(Region, Lease<A>)>
        requires { size < 2 ^ 63 }
        ensures { IfSome result (λ r. (r.0.room ≡ size) × (r.0.bytes ≡ []) × (r.1.alloc ≡ alloc.now) × (r.1.at ≡ r.0.at) × (r.1.size ≡ size)) }
    {
        match alloc.allocate(size, 1) {
            Ok(at) => {
                let marker = PhantomData;
                Some((Region { at }, Lease { marker }))
            }
            Err(_) => None,
        }
    }

    // Writes a byte to the last place of the room.
    pub(crate) fn put(&mut self, place: usize, byte: u8)
        requires { place + 1 ≡ self.old.room }
        ensures { (self.new.at ≡ self.old.at) × (self.new.room ≡ place) × (self.new.bytes ≡ byte ∷ self.old.bytes) }
    {
        unsafe { *self.at.add(place) = byte };
    }

    // Writes two bytes to the last places of the room.
    pub(crate) fn put_two(&mut self, place: usize, first: u8, second: u8)
        requires { place + 2 ≡ self.old.room }
        ensures { (self.new.at ≡ self.old.at) × (self.new.room ≡ place) × (self.new.bytes ≡ first ∷ second ∷ self.old.bytes) }
    {
        unsafe {
            let start = self.at.add(place);
            *start = first;
            *start.add(1) = second;
        }
    }

    // Writes four bytes to the last places of the room.
    pub(crate) fn put_four(&mut self, place: usize, first: u8, second: u8, third: u8, fourth: u8)
        requires { place + 4 ≡ self.old.room }
        ensures { (self.new.at ≡ self.old.at) × (self.new.room ≡ place) × (self.new.bytes ≡ first ∷ second ∷ third ∷ fourth ∷ self.old.bytes) }
    {
        unsafe {
            let start = self.at.add(place);
            *start = first;
            *start.add(1) = second;
            *start.add(2) = third;
            *start.add(3) = fourth;
        }
    }

    // Returns the bytes after the room.
    pub(crate) fn bytes(&self, room: usize, len: usize) -> &[u8]
        requires { (room ≡ self.now.room) × (len ≡ length self.now.bytes) }
        ensures { result.now ≡ self.now.bytes }
    {
        unsafe { slice::from_raw_parts(self.at.add(room), len) }
    }

    // Frees the block.
    pub(crate) fn free<A: Allocator>(self, lease: Lease<A>, alloc: &A, size: usize)
        requires { (lease.alloc ≡ alloc.now) × (lease.at ≡ self.at) × (lease.size ≡ size) × (self.room + length self.bytes ≡ size) }
    {
        let Region { at } = self;
        let Lease { marker: _ } = lease;
        unsafe { alloc.deallocate(at, size, 1) }
    }
}
