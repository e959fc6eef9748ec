//! Bytes that are written for numbers, and read back, and bytes that are of no token.
ghost use Rattle.tt_codec.specs.Entry.{EntryFits};

use crate::holds::holds;
use std::alloc::Global;
use std::test::Fail;
use tt_back_buf::BackBuf;
use tt_base::TtFault;
use tt_codec::{Encodable, Entry};

/// No token takes more bytes.
pub(crate) const MOST_TOKEN_BYTES: usize = 33;

/// Whether these bytes are written for the token, and it is read back from them.
pub(crate) fn is_written(alloc: Global, entry: Entry, bytes: &[u8]) -> Result<bool, TtFault>
    requires { EntryFits entry }
{
    let mut written = BackBuf::with_room(alloc, MOST_TOKEN_BYTES)?;
    entry.write(&mut written);
    let found = written.into_vec()?;
    Ok(found.as_slice() == bytes && is_read(entry, bytes))
}

/// Whether the token is read from these bytes, and nothing is left of them.
pub(crate) fn is_read(entry: Entry, bytes: &[u8]) -> bool {
    match Entry::read(bytes) {
        Some((found, rest)) => found == entry && rest.is_empty(),
        None => false,
    }
}

#[test]
fn the_last_byte_that_is_put_comes_first(rt: HostRuntime) -> Result<(), Fail> {
    let mut buf = BackBuf::with_room(rt.alloc(), 3)?;
    buf.put_byte(1);
    buf.put_byte(2);
    holds(Ok(buf.len() == 2))?;
    holds(Ok(buf.into_vec()?.as_slice() == [2, 1].as_slice()))
}

// Numbers of each size, and a character by its number, are written lowest byte first, and read back.
#[test]
fn numbers() -> Result<(), Fail> {
    let (mut word, mut char, mut half, mut byte) = ([0; 4], [0; 4], [0; 2], [0; 1]);
    0x12345678u32.write(&mut word);
    '→'.write(&mut char);
    0x1234u16.write(&mut half);
    7u8.write(&mut byte);
    holds(Ok(word == [0x78, 0x56, 0x34, 0x12] && u32::read(&word) == 0x12345678))?;
    holds(Ok(char == [0x92, 0x21, 0x00, 0x00] && char::read(&char) == '→'))?;
    holds(Ok(half == [0x34, 0x12] && u16::read(&half) == 0x1234))?;
    holds(Ok(byte == [7] && u8::read(&byte) == 7))
}

// Headers that are cut, of a kind that there is not, or with a close past the last start; leaves of a kind or a spacing
// that there is not, of no character, and with no reference.
const OF_NO_TOKEN: [&[u8]; 9] = [
    b"\x40\x00\x00\x00\x00\x00",
    b"\x40\x00\x00\x00\x2d\x40\x00\x00\x00\x00\x00\x00\x00\x00\x00\x00\x00",
    b"\x00\xc0\xff\xff\x01\x00\xfe\xff\x00\x00\x00\x00\x20\x00\x00",
    b"\x00\xc0\xff\xff\x01\x00\xfe\xff\x00\x00\x00\x00\x21\x00\x00",
    b"\x00\xc0\xff\xff\x01\x00\xfe\xff\x00\x00\x00\x00\x02\x01\x00\x00\x00",
    b"\x00\x05\x00\x00\x5f\x10\x00",
    b"\x40\x00\x00\x00\x1e\x92\x21\x00\x00",
    b"\x40\x00\x00\x00\x06\x00\xd8\x00\x00",
    b"\x82\x01\x00\x00",
];

#[test]
fn no_tokens() -> Result<(), Fail> {
    for bytes in &OF_NO_TOKEN {
        holds(Ok(Entry::read(bytes).is_none()))?;
    }
    Ok(())
}
