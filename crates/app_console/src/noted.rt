//! Readers and writers that note failures.
ghost use Rattle.std.specs.Prelude.{◌≡◌, ◌≢◌, ◌↔◌, ◌-◌, ◌^◌, ◌<◌, ◌||◌, ◌&&◌, ◌==◌, Bool, true, false, length, nat_lt, IfErr, IsErr, IsErrAnd, MatchResult, OnOk, OnErr};
ghost use Rattle.std.specs.Io.{ReadsAtMost, WritesAtMost};
ghost use Rattle.std.specs.IoError.{error_kind};
ghost use Rattle.std.specs.Io.KnownBytes.{Appends, Keeps, ReadConsumes, WriteAppends};
ghost use Rattle.app_console.specs.Noted.{noted_inner, noted_failed, reads_left};

use std::io::{Error, ErrorKind, Read, Result, Write};

/// A reader or a writer that passes on reads, writes and flushes, and notes the first of them that fails. After 2^64 - 1 reads each further
/// read fails, so a loop that reads until the end ends.
#[derive(Drop)]
pub struct Noted<T> {
    inner: T,
    failed: bool,
    // how many more reads it passes on
    left: u64,
}

impl<T> Noted<T> {
    /// Returns a reader or a writer that notes failures from now on.
    pub fn new(inner: T) -> Noted<T>
        ensures inner { noted_inner result ≡ inner }
        ensures failed { noted_failed result ≡ false }
        ensures left { reads_left result ≡ 2 ^ 64 - 1 }
    {
        Noted {
            inner,
            failed: false,
            left: u64::MAX,
        }
    }

    /// Returns whether a read, a write or a flush returned an error, or a write of some bytes took none.
    pub fn failed(&self) -> bool
        ensures { result ≡ noted_failed self.now }
    {
        self.failed
    }

    // Uses up one of the reads that are left. Fails if none is left; `Noted` itself causes no other failure.
    fn spend(&mut self) -> Result<()>
        ensures err { IsErr result ↔ (reads_left self.old ≡ 0) }
        ensures kind { IfErr result (λ error. error_kind error ≡ ErrorKind.TimedOut) }
        ensures left { reads_left self.new ≡ reads_left self.old - 1 }
        ensures inner { noted_inner self.new ≡ noted_inner self.old }
        ensures failed { MatchResult result
            (λ _. noted_failed self.new ≡ noted_failed self.old)
            (λ _. noted_failed self.new ≡ true) }
    {
        if self.left == 0 {
            self.failed = true;
            return Err(Error::new(ErrorKind::TimedOut, "too many reads"));
        }
        self.left -= 1;
        Ok(())
    }

    /// Returns the reader or the writer inside.
    pub fn into_inner(self) -> T
        ensures { result ≡ noted_inner self }
    {
        self.inner
    }
}

impl<R: Read> Read for Noted<R> {
    ghost remaining = { λ n. R.remaining (noted_inner n) };

    fn read(&mut self, buf: &mut [u8]) -> Result<usize>
        ensures bound { ReadsAtMost result buf.new }
        ensures bytes { ReadConsumes
            (R.remaining (noted_inner self.old)) (R.remaining (noted_inner self.new)) result buf.new }
        ensures failed { MatchResult result
            (λ _. noted_failed self.new ≡ noted_failed self.old)
            (λ _. noted_failed self.new ≡ true) }
        ensures spends { reads_left self.new ≡ reads_left self.old - 1 }
        ensures ends { OnOk result (reads_left self.new < reads_left self.old) }
        ensures none_left { reads_left self.old ≡ 0 →
            IsErrAnd result (λ error. error_kind error ≡ ErrorKind.TimedOut) × (noted_inner self.new ≡ noted_inner self.old) }
    {
        self.spend()?;
        let result = self.inner.read(buf);
        if result.is_err() {
            self.failed = true;
        }
        result
    }
}

impl<W: Write> Write for Noted<W> {
    ghost contents = { λ n. W.contents (noted_inner n) };

    fn write(&mut self, buf: &[u8]) -> Result<usize>
        ensures bound { WritesAtMost result buf.now }
        ensures bytes { WriteAppends
            (W.contents (noted_inner self.old)) (W.contents (noted_inner self.new)) result buf.now }
        ensures failed { MatchResult result
            (λ n. noted_failed self.new ≡ (noted_failed self.old || (n == 0 && nat_lt 0 (length buf.now))))
            (λ _. noted_failed self.new ≡ true) }
    {
        let result = self.inner.write(buf);
        match &result {
            Ok(n) => {
                if *n == 0 && !buf.is_empty() {
                    self.failed = true;
                }
            }
            Err(_) => self.failed = true,
        }
        result
    }

    fn flush(&mut self) -> Result<()>
        ensures bytes { Keeps (W.contents (noted_inner self.old)) (W.contents (noted_inner self.new)) }
        ensures failed { MatchResult result
            (λ _. noted_failed self.new ≡ noted_failed self.old)
            (λ _. noted_failed self.new ≡ true) }
    {
        let result = self.inner.flush();
        if result.is_err() {
            self.failed = true;
        }
        result
    }

    // Unlike the trait's own `write_all`, it does not retry after an error.
    fn write_all(&mut self, buf: &[u8]) -> Result<()>
        ensures bytes { OnOk result
            (Appends (W.contents (noted_inner self.old)) (W.contents (noted_inner self.new)) buf.now) }
        ensures failed { MatchResult result
            (λ _. noted_failed self.new ≡ noted_failed self.old)
            (λ _. noted_failed self.new ≡ true) }
    {
        let mut rest = buf;
        'writing: while !rest.is_empty() {
            let n = self.write(rest)?;
            if n == 0 {
                return Err(Error::new(ErrorKind::WriteZero, "a write took no byte"));
            }
            rest = &rest[n..];
        }
        Ok(())
    }
}
