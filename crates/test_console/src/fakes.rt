//! A reader and a writer that fail at a given call.
use std::alloc::Global;
use std::io::{Error, ErrorKind, Read, Result, Write};

/// The read, counted from 1, at which a `FakeReader` fails, and how. At 0 it does not fail.
pub type ReadFailure = (u64, ErrorKind);

/// A reader that gives one byte for each read, and fails at one of its reads.
#[derive(Drop)]
pub struct FakeReader<'a> {
    rest: &'a [u8],
    reads: u64,
    failure: ReadFailure,
}

impl<'a> FakeReader<'a> {
    /// Returns a reader of that text with that failure.
    pub fn new(text: &'a [u8], failure: ReadFailure) -> FakeReader<'a> {
        FakeReader {
            rest: text,
            reads: 0,
            failure,
        }
    }
}

impl Read for FakeReader<'_> {
    fn read(&mut self, buf: &mut [u8]) -> Result<usize> {
        self.reads = self.reads.saturating_add(1);
        let (at, kind) = self.failure;
        if at == self.reads {
            return Err(Error::new(kind, "a fake failure"));
        }
        if let Some((first, rest)) = self.rest.split_first() {
            if let Some(place) = buf.first_mut() {
                *place = *first;
                self.rest = rest;
                return Ok(1);
            }
        }
        Ok(0)
    }
}

/// The call, counted from 1, at which a `FakeWriter` fails, and how.
#[derive(Clone, Copy, PartialEq, Eq)]
pub enum WriteFailure {
    Never,
    Error(u64),
    NoByte(u64),
    Flush(u64),
}

/// A writer that takes three bytes for each write.
#[derive(Drop)]
pub struct FakeWriter {
    taken: Vec<u8>,
    writes: u64,
    flushes: u64,
    failure: WriteFailure,
}

impl FakeWriter {
    /// Returns an empty writer with that failure.
    pub fn new(alloc: Global, failure: WriteFailure) -> FakeWriter {
        FakeWriter {
            taken: Vec::new(alloc),
            writes: 0,
            flushes: 0,
            failure,
        }
    }

    /// Returns the bytes that were taken.
    pub fn into_taken(self) -> Vec<u8> {
        self.taken
    }
}

impl Write for FakeWriter {
    fn write(&mut self, buf: &[u8]) -> Result<usize> {
        self.writes = self.writes.saturating_add(1);
        if self.failure == WriteFailure::Error(self.writes) {
            return Err(Error::new(ErrorKind::Interrupted, "a fake failure"));
        }
        if self.failure == WriteFailure::NoByte(self.writes) {
            return Ok(0);
        }
        let n = buf.len().min(3);
        self.taken.extend_from_slice(&buf[..n])?;
        Ok(n)
    }

    fn flush(&mut self) -> Result<()> {
        self.flushes = self.flushes.saturating_add(1);
        if self.failure == WriteFailure::Flush(self.flushes) {
            return Err(Error::new(ErrorKind::Other, "a fake failure"));
        }
        Ok(())
    }
}
