//! Runs of characters at the front of a text, passed byte by byte, or many bytes at a time.
ghost use Rattle.std.specs.Prelude.{◌≡◌, ◌≤◌, ◌<◌, length};
ghost use Rattle.std.specs.Str.{chars};
ghost use Rattle.memchr.specs.Find.{IsFirstByte};
ghost use Rattle.syntax_lex.specs.Class.{passes};
ghost use Rattle.syntax_lex.specs.Front.{behind, behind_name};
ghost use Rattle.syntax_lex.specs.Stop.{goes_on, stops};

use crate::class::{CharClass, is_id_start};
use crate::front::{first, skip, split_first};
use memchr::{memchr, memchr2};

// Returns the rest after the first characters that are of a class. Decodes each of them.
#[inline(never)]
fn past_each(text: &str, class: CharClass) -> &str
    ensures rest { chars result.now ≡ behind (passes class) (chars text.now) }
    ensures len { length result.now ≤ length text.now }
{
    let mut rest = text;
    while let Some((c, more)) = split_first(rest) {
        if !class.passes(c) {
            return rest;
        }
        rest = more;
    }
    rest
}

/// Returns the rest after the first characters that are of a class. A byte below 128 is a character, so nothing is decoded
/// before the first character beyond ASCII.
#[inline(always)]
pub fn past(text: &str, class: CharClass) -> &str
    ensures rest { chars result.now ≡ behind (passes class) (chars text.now) }
    ensures len { length result.now ≤ length text.now }
{
    let bytes = text.as_bytes();
    let mut at = 0;
    while at < bytes.len() {
        let byte = bytes[at];
        if byte >= 128 {
            return past_each(&text[at..], class);
        }
        if !class.passes(byte as char) {
            return &text[at..];
        }
        at += 1;
    }
    ""
}

/// Returns the rest after an identifier, if the text begins with one.
#[inline(always)]
pub fn past_name(text: &str) -> &str
    ensures rest { chars result.now ≡ behind_name (chars text.now) }
    ensures len { length result.now ≤ length text.now }
{
    if is_id_start(first(text)) {
        past(skip(text), CharClass::IdContinue)
    } else {
        text
    }
}

/// The characters that stop a run of others. Each of them is an ASCII character.
#[derive(Clone, Copy)]
pub enum Stop {
    /// The end of a line.
    LineEnd,
    /// A double quote.
    Quote,
    /// A double quote or a backslash.
    QuoteOrBackslash,
    /// A slash or an asterisk.
    CommentMark,
}

impl Stop {
    // Returns the place of the first byte that stops a run.
    #[inline(always)]
    fn find(self, bytes: &[u8]) -> Option<usize>
        ensures { IsFirstByte (stops self) bytes.now result }
    {
        match self {
            Stop::LineEnd => memchr(b'\n', bytes),
            Stop::Quote => memchr(b'"', bytes),
            Stop::QuoteOrBackslash => memchr2(b'"', b'\\', bytes),
            Stop::CommentMark => memchr2(b'/', b'*', bytes),
        }
    }
}

/// Returns the rest from the first character that stops a run.
#[inline(always)]
pub fn past_until(text: &str, stop: Stop) -> &str
    ensures rest { chars result.now ≡ behind (goes_on stop) (chars text.now) }
    ensures len { length result.now ≤ length text.now }
{
    match stop.find(text.as_bytes()) {
        Some(at) => &text[at..],
        None => "",
    }
}
