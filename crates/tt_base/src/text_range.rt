//! Offsets and ranges in a text.
ghost use Rattle.std.specs.Prelude.{◌≡◌, ◌+◌, ◌-◌, ◌^◌, ◌<◌, ◌≤◌, ◌↔◌, IsTrue, MatchOption};

/// A place in a text, or a length, in bytes.
#[derive(Debug, Clone, Copy, PartialEq, Eq, PartialOrd, Ord, Hash)]
pub struct TextSize {
    raw: u32,
}

impl TextSize {
    ghost use Rattle.tt_base.specs.Span.{size_of};

    /// Returns the place, or the length, of `raw` bytes.
    pub fn new(raw: u32) -> Self
        ensures { size_of result ≡ raw }
    {
        TextSize { raw }
    }

    /// Returns the number of bytes.
    pub fn raw(self) -> u32
        ensures { result ≡ size_of self }
    {
        self.raw
    }

    /// Returns the sum, or `None` if a `u32` cannot hold it.
    pub fn checked_add(self, rhs: TextSize) -> Option<TextSize>
        ensures { MatchOption result
            (2 ^ 32 ≤ size_of self + size_of rhs)
            (λ sum. size_of sum ≡ size_of self + size_of rhs) }
    {
        self.raw.checked_add(rhs.raw).map(TextSize::new)
    }

    /// Returns the difference, or `None` if `rhs` is larger.
    pub fn checked_sub(self, rhs: TextSize) -> Option<TextSize>
        ensures { MatchOption result
            (size_of self < size_of rhs)
            (λ difference. size_of difference + size_of rhs ≡ size_of self) }
    {
        self.raw.checked_sub(rhs.raw).map(TextSize::new)
    }
}

impl From<u32> for TextSize {
    ghost use Rattle.tt_base.specs.Span.{size_of};

    ghost from_gives = { λ raw size. size_of size ≡ raw };

    fn from(raw: u32) -> Self {
        TextSize::new(raw)
    }
}

impl From<TextSize> for u32 {
    ghost use Rattle.tt_base.specs.Span.{size_of};

    ghost from_gives = { λ size raw. raw ≡ size_of size };

    fn from(size: TextSize) -> u32 {
        size.raw
    }
}

/// A part of a text: from its start up to its end, in bytes.
#[derive(Debug, Clone, Copy, PartialEq, Eq, Hash)]
pub struct TextRange {
    start: TextSize,
    end: TextSize,
    ghost ordered: { start.raw ≤ end.raw },
}

impl TextRange {
    ghost use Rattle.tt_base.specs.Span.{size_of, start_of, end_of};

    /// Returns the range from a place up to another. `start` is at most `end`. `at` takes a length, and has no such condition.
    pub fn new(start: TextSize, end: TextSize) -> Self
        requires { size_of start ≤ size_of end }
        ensures start { start_of result ≡ size_of start }
        ensures end { end_of result ≡ size_of end }
    {
        TextRange { start, end }
    }

    /// Returns the range of that length at a place, or `None` if a `u32` cannot hold its end.
    pub fn at(offset: TextSize, len: TextSize) -> Option<TextRange>
        ensures { MatchOption result
            (2 ^ 32 ≤ size_of offset + size_of len)
            (λ range. (start_of range ≡ size_of offset) × (end_of range ≡ size_of offset + size_of len)) }
    {
        let end = offset.checked_add(len)?;
        Some(TextRange::new(offset, end))
    }

    /// Returns the empty range at a place.
    pub fn empty(offset: TextSize) -> TextRange
        ensures start { start_of result ≡ size_of offset }
        ensures end { end_of result ≡ size_of offset }
    {
        TextRange::new(offset, offset)
    }

    /// Returns the start.
    pub fn start(self) -> TextSize
        ensures value { size_of result ≡ start_of self }
        ensures ordered { start_of self ≤ end_of self }
    {
        self.start
    }

    /// Returns the end: the place after the last byte.
    pub fn end(self) -> TextSize
        ensures value { size_of result ≡ end_of self }
        ensures ordered { start_of self ≤ end_of self }
    {
        self.end
    }

    /// Returns the number of bytes.
    pub fn len(self) -> TextSize
        ensures { start_of self + size_of result ≡ end_of self }
    {
        TextSize::new(self.end.raw - self.start.raw)
    }

    /// Returns whether the range is empty.
    pub fn is_empty(self) -> bool
        ensures { IsTrue result ↔ (start_of self ≡ end_of self) }
    {
        self.start == self.end
    }
}
