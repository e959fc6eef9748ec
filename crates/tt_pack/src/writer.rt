//! Writes a list of tokens, from the last to the first.
ghost use Rattle.std.specs.Prelude.{◌≡◌, ◌⊎◌, ◌+◌, ◌<◌, ◌≤◌, ◌^◌, ◌++◌, ◌∷◌, true, length, take, drop, IfOk, IfErr, OnOk, []};
ghost use Rattle.std.specs.List.{AllByRecursion};
ghost use Rattle.tt_back_buf.specs.Bytes.{bytes_of, room_of};
ghost use Rattle.tt_base.specs.declared.fault.TtFault.TheVariants.{Memory, TooManyBytes};
ghost use Rattle.tt_base.specs.Forest.{IsWhole};
ghost use Rattle.tt_codec.specs.Entry.{EntryFits, entry_bytes};
ghost use Rattle.tt_codec.specs.Header.{HeaderFits, format_4};
ghost use Rattle.tt_tables.specs.Stored.{most_bytes};
ghost use Rattle.tt_tables.specs.Tables.{Tables, Knows};
ghost use Rattle.tt_pack.specs.Room.{most_list_bytes};
ghost use Rattle.tt_pack.specs.Writing.{byte_count, CanHold, held_bytes};

use crate::numbered::Numbered;
use crate::room::MOST_HEADER_BYTES;
use std::alloc::Global;
use tt_back_buf::BackBuf;
use tt_base::TtFault;
use tt_codec::{Entry, HeaderEntry};

// The largest number of bytes below the top.
const MOST_BYTES: usize = 4294967295;

/// The bytes of the last tokens of a list.
#[derive(Drop)]
pub(crate) struct Writer {
    bytes: BackBuf,
    /// The number of bytes of the last n of these tokens, for each n, the smallest first.
    sums: Vec<u32>,
}

impl Writer {
    ghost use Rattle.tt_pack.specs.WriterOf.{HasWritten, HasPut};

    /// Returns a writer that has written nothing. It has room for `room` bytes and a top, and for the numbers of `tokens` tokens. Fails
    /// only if memory runs out.
    pub(crate) fn new(alloc: Global, room: usize, tokens: usize) -> Result<Writer, TtFault>
        ensures ok { IfOk result (λ writer. (tables : Tables) → HasWritten tables [] writer) }
        ensures room { IfOk result (λ writer. (room_of writer.bytes < 2 ^ 63) × (room + 33 ≤ room_of writer.bytes)) }
        ensures err { IfErr result (λ fault. fault ≡ Memory) }
    {
        let bytes = BackBuf::with_room(alloc, room.saturating_add(MOST_HEADER_BYTES))?;
        let mut sums = Vec::with_capacity(alloc, tokens.saturating_add(1))?;
        sums.push(0)?;
        Ok(Writer { bytes, sums })
    }

    /// Returns how many bytes the `len` tokens that were written last take.
    #[inline(always)]
    pub(crate) fn held_bytes(&self, len: usize) -> u32
        requires { CanHold self.now.sums.items len }
        ensures { result ≡ held_bytes self.now.sums.items len }
    {
        let last = self.sums.len() - 1;
        self.sums[last] - self.sums[last - len]
    }

    /// Writes a token in numbers before those that are written. Fails if the bytes are too many, or if memory runs out. This is inline,
    /// so the code tests the kind of the token only once.
    #[inline(always)]
    pub(crate) fn put(&mut self, entry: Entry) -> Result<(), TtFault>
        requires fits { EntryFits entry }
        requires room { 33 ≤ room_of self.old.bytes }
        ensures ok { OnOk result (HasPut entry self.old self.new) }
        ensures err { IfErr result (λ fault. (fault ≡ Memory) ⊎ ((fault ≡ TooManyBytes) × (most_bytes < length (entry_bytes entry ++ bytes_of self.old.bytes)))) }
    {
        entry.write(&mut self.bytes);
        if self.bytes.len() > MOST_BYTES {
            return Err(TtFault::TooManyBytes);
        }
        self.sums.push(self.bytes.len() as u32)?;
        Ok(())
    }

    // Writes the token at an index before those that are written.
    fn put_next<N: Numbered>(&mut self, numbers: &N, index: usize) -> Result<(), TtFault>
        requires index { index < length (N.list numbers.now) }
        requires few { length (N.list numbers.now) < 2 ^ 32 }
        requires whole { IsWhole (drop index (N.list numbers.now)) }
        requires known { AllByRecursion (Knows (N.tables numbers.now)) (drop index (N.list numbers.now)) }
        requires leads { N.leads numbers.now }
        requires written { HasWritten (N.tables numbers.now) (drop (index + 1) (N.list numbers.now)) self.old }
        requires room { most_list_bytes (take (index + 1) (N.list numbers.now)) + 33 ≤ room_of self.old.bytes }
        ensures ok { OnOk result (HasWritten (N.tables numbers.now) (drop index (N.list numbers.now)) self.new) }
        ensures room { OnOk result (most_list_bytes (take index (N.list numbers.now)) + 33 ≤ room_of self.new.bytes) }
        ensures err { IfErr result (λ fault. (fault ≡ Memory) ⊎ ((fault ≡ TooManyBytes) × (most_bytes < byte_count (N.tables numbers.now) (drop index (N.list numbers.now))))) }
    {
        let entry = numbers.entry(index, self);
        self.put(entry)
    }

    /// Returns all bytes, after a header in its longest format. Drops the numbers of bytes.
    pub(crate) fn finish(self, top: HeaderEntry) -> BackBuf
        requires fits { HeaderFits top }
        requires room { 33 ≤ room_of self.bytes }
        ensures { bytes_of result ≡ format_4 true top ++ bytes_of self.bytes }
    {
        let Writer { mut bytes, .. } = self;
        top.write_in_full(&mut bytes, true);
        bytes
    }

    /// Returns the number of bytes that are written.
    pub(crate) fn len(&self) -> usize
        ensures { result ≡ length (bytes_of self.now.bytes) }
    {
        self.bytes.len()
    }

    /// Writes all `len` tokens, from the last to the first. Fails if the bytes are too many, or if memory runs out. This is a call, as
    /// the passes before it are, so that each pass has the registers for itself.
    #[inline(never)]
    pub(crate) fn write_all<N: Numbered>(
        alloc: Global,
        numbers: &N,
        len: usize,
    ) -> Result<Writer, TtFault>
        requires len { len ≡ length (N.list numbers.now) }
        requires few { len < 2 ^ 32 }
        requires whole { IsWhole (N.list numbers.now) }
        requires known { AllByRecursion (Knows (N.tables numbers.now)) (N.list numbers.now) }
        requires leads { N.leads numbers.now }
        ensures ok { IfOk result (HasWritten (N.tables numbers.now) (N.list numbers.now)) }
        ensures room { IfOk result (λ writer. 33 ≤ room_of writer.bytes) }
        ensures err { IfErr result (λ fault. (fault ≡ Memory) ⊎ ((fault ≡ TooManyBytes) × (most_bytes < byte_count (N.tables numbers.now) (N.list numbers.now)))) }
    {
        let mut writer = Writer::new(alloc, numbers.room(), len)?;
        let mut index = len;
        while index > 0 {
            index -= 1;
            writer.put_next(numbers, index)?;
        }
        Ok(writer)
    }
}
