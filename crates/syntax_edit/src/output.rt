//! A text in which other texts replace parts of it.
ghost use Rattle.std.specs.Prelude.{◌≡◌, ◌≤◌, IfOk, OnOk, MatchBool, MatchOption, take, drop, slice_get, length, ◌-◌, string_bytes};
ghost use Rattle.syntax_edit.specs.Texts.{is_apart, is_separator, is_sign, may_touch, wants_space, joined, connected, IsRange};

use crate::lines::{behind_line, last_begin};
use std::alloc::{AllocError, Global};

/// The text that is written so far, and the rest of the source.
#[derive(Drop)]
pub struct Output<'t> {
    text: String,
    rest: &'t str,
    /// The byte at which the rest begins.
    at: usize,
    /// Whether a part was replaced.
    is_changed: bool,
}

// Returns whether a token ends before the byte, and one begins after it, whatever is around.
fn is_apart(byte: u8) -> bool
    ensures { result ≡ is_apart byte }
{
    matches!(
        byte,
        b' ' | b'\t' | b'\n' | b'\r' | b'(' | b')' | b'[' | b']' | b'{' | b'}'
    )
}

// Returns whether a byte is a comma or a semicolon.
fn is_separator(byte: u8) -> bool
    ensures { result ≡ is_separator byte }
{
    matches!(byte, b',' | b';')
}

// Returns whether a byte is a punct.
fn is_sign(byte: u8) -> bool
    ensures { result ≡ is_sign byte }
{
    matches!(
        byte,
        b',' | b';'
            | b'.'
            | b':'
            | b'@'
            | b'#'
            | b'~'
            | b'?'
            | b'$'
            | b'='
            | b'!'
            | b'<'
            | b'>'
            | b'-'
            | b'&'
            | b'|'
            | b'+'
            | b'*'
            | b'/'
            | b'^'
            | b'%'
    )
}

// Returns whether two tokens that touch stay as they are, if one ends with the byte `last` and the other begins with the byte `first`.
fn may_touch(last: u8, first: u8) -> bool
    ensures { result ≡ may_touch last first }
{
    if is_apart(last) || is_apart(first) {
        return true;
    }
    if is_separator(first) && !is_sign(last) {
        return true;
    }
    is_separator(last) && !is_sign(first) && first != b'\''
}

// Returns whether a space is needed between two texts.
fn wants_space(before: &str, behind: &str) -> bool
    ensures { result ≡ wants_space (slice_get before.now (length before.now - 1)) (slice_get behind.now 0) }
{
    let Some(last) = before.as_bytes().last() else {
        return false;
    };
    let Some(first) = behind.as_bytes().first() else {
        return false;
    };
    !may_touch(*last, *first)
}

// Adds a text, after a space if their tokens could become one, or a punct joint.
fn push_apart(text: &mut String, more: &str) -> Result<(), AllocError>
    ensures { OnOk result (string_bytes text.new ≡ joined (string_bytes text.old) more.now) }
{
    if wants_space(text.as_str(), more) {
        text.push(' ')?;
    }
    text.push_str(more)
}

// Adds a text. If the line in which the two meet is blank, it goes. `is_first` and `is_last` say that it may be the first line of all, and the
// last.
fn push_connected(
    is_first: bool,
    is_last: bool,
    text: &mut String,
    more: &str,
) -> Result<(), AllocError>
    ensures { OnOk result (string_bytes text.new ≡ connected is_first is_last (string_bytes text.old) more.now) }
{
    if let Some(rest) = behind_line(is_last, more) {
        if let Some(begin) = last_begin(is_first, text.as_str()) {
            text.truncate(begin);
            return text.push_str(rest);
        }
    }
    push_apart(text, more)
}

// Returns what precedes and what follows a range of a text, if the bytes are a range of it.
fn cut(text: &str, start: usize, end: usize) -> Option<(&str, &str)>
    ensures { MatchOption result (IsRange text.now start end → ⊥) (λ parts. IsRange text.now start end × (parts.0.now ≡ take start text.now) × (parts.1.now ≡ drop end text.now)) }
{
    if end < start {
        return None;
    }
    let (before, _) = text.split_at_checked(start)?;
    let (_, behind) = text.split_at_checked(end)?;
    Some((before, behind))
}

impl<'t> Output<'t> {
    ghost use Rattle.syntax_edit.specs.Texts.{begun, writing_of, replaced, finished, FitsIn};

    /// Returns an output with nothing of that source written.
    pub fn new(alloc: Global, source: &'t str) -> Output<'t>
        ensures { writing_of result ≡ begun source.entry.now }
    {
        Output {
            text: String::new(alloc),
            rest: source,
            at: 0,
            is_changed: false,
        }
    }

    // Returns the rest of the source before a range and after it, if the range is in the rest.
    fn cut(&self, start: usize, end: usize) -> Option<(&'t str, &'t str)>
        ensures { MatchOption result (FitsIn start end (writing_of self.now) → ⊥) (λ parts. FitsIn start end (writing_of self.now) × (parts.0.now ≡ take (start - self.now.at) self.now.rest.now) × (parts.1.now ≡ drop (end - self.now.at) self.now.rest.now)) }
    {
        let start = start.checked_sub(self.at)?;
        let end = end.checked_sub(self.at)?;
        cut(self.rest, start, end)
    }

    /// Writes the source up to the bytes from a place to another, and that text in place of the bytes. Returns whether the bytes are in the
    /// rest of the source; writes nothing if they are not. The line of the bytes goes if only white space is left in it.
    pub fn replace(&mut self, start: usize, end: usize, other: &str) -> Result<bool, AllocError>
        ensures { IfOk result (λ fits. MatchBool fits
            (FitsIn start end (writing_of self.old) × (writing_of self.new ≡ replaced (record { start = start; end = end; text = other.now }) (writing_of self.old)))
            ((FitsIn start end (writing_of self.old) → ⊥) × (self.new ≡ self.old))) }
    {
        let Some((before, behind)) = self.cut(start, end) else {
            return Ok(false);
        };
        push_connected(self.is_changed, false, &mut self.text, before)?;
        push_connected(true, false, &mut self.text, other)?;
        self.rest = behind;
        self.at = end;
        self.is_changed = true;
        Ok(true)
    }

    /// Writes the rest of the source, and returns the whole text.
    pub fn finish(mut self) -> Result<String, AllocError>
        ensures { IfOk result (λ text. string_bytes text ≡ finished (writing_of self.entry)) }
    {
        let rest = self.rest;
        push_connected(self.is_changed, true, &mut self.text, rest)?;
        Ok(self.text)
    }
}
