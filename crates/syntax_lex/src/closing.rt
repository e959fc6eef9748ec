//! The closing of a comment, a text in quotes and a raw text.
ghost use Rattle.std.specs.Prelude.{◌≡◌, ◌≤◌, ◌<◌, ◌^◌, false, length, drop, min};
ghost use Rattle.std.specs.Str.{chars};
ghost use Rattle.syntax_lex.specs.Closing.{behind_comment, behind_quote, behind_raw, closes_comment, counted, hashes_of, opens_comment, raw_body, raw_text};

use crate::front::{begins_with, first, skip, split_first};
use crate::runs::{Stop, past_until};

// Returns whether two characters open a comment.
fn opens_comment(c: char, next: char) -> bool
    ensures { result ≡ opens_comment c next }
{
    (c == '/') & (next == '*')
}

// Returns whether two characters close a comment.
fn closes_comment(c: char, next: char) -> bool
    ensures { result ≡ closes_comment c next }
{
    (c == '*') & (next == '/')
}

/// Takes the text after `/*`. Returns whether the comment is closed, and what follows it.
pub fn past_comment(text: &str) -> (bool, &str)
    ensures value { behind_comment 0 (chars text.now) ≡ (result.0, chars result.1.now) }
    ensures len { length result.1.now ≤ length text.now }
{
    let mut rest = text;
    let mut inner = 0usize;
    while let Some((c, more)) = split_first(past_until(rest, Stop::CommentMark)) {
        let next = first(more);
        if opens_comment(c, next) {
            inner += 1;
            rest = skip(more);
        } else if closes_comment(c, next) {
            if inner == 0 {
                return (true, skip(more));
            }
            inner -= 1;
            rest = skip(more);
        } else {
            rest = more;
        }
    }
    (false, "")
}

/// Takes the text after a quote. Returns whether it is closed, and what follows it.
pub fn past_quote(text: &str) -> (bool, &str)
    ensures value { behind_quote false (chars text.now) ≡ (result.0, chars result.1.now) }
    ensures len { length result.1.now ≤ length text.now }
{
    let mut rest = text;
    while let Some((c, more)) = split_first(past_until(rest, Stop::QuoteOrBackslash)) {
        if c == '"' {
            return (true, more);
        }
        rest = skip(more);
    }
    (false, "")
}

// Returns the number of hashes at the front, at most `most`, and what follows them.
fn past_hashes(text: &str, most: usize) -> (usize, &str)
    ensures count { result.0 ≡ min most (hashes_of (chars text.now)) }
    ensures rest { chars result.1.now ≡ drop result.0 (chars text.now) }
    ensures len { length result.1.now ≤ length text.now }
{
    let mut rest = text;
    let mut count = 0;
    while count < most {
        if first(rest) != '#' {
            return (count, rest);
        }
        rest = skip(rest);
        count += 1;
    }
    (count, rest)
}

// Takes a raw text with `hashes` hashes after its quote. Returns whether it is closed, and what follows it.
fn past_raw(text: &str, hashes: usize) -> (bool, &str)
    ensures value { behind_raw hashes (chars text.now) ≡ (result.0, chars result.1.now) }
    ensures len { length result.1.now ≤ length text.now }
{
    let mut rest = text;
    while let Some((c, more)) = split_first(past_until(rest, Stop::Quote)) {
        let (count, tail) = past_hashes(more, hashes);
        if count == hashes {
            return (true, tail);
        }
        rest = tail;
    }
    (false, "")
}

// Returns the hashes of a raw text, if it is closed and the number fits into a byte.
fn counted(closed: bool, hashes: usize) -> Option<u8>
    ensures { result ≡ counted closed hashes }
{
    if closed && hashes < 256 {
        Some(hashes as u8)
    } else {
        None
    }
}

// Takes a raw text after its hashes. Returns their number, if it is closed and they are fewer than 256, and what follows it.
fn past_raw_body(text: &str, hashes: usize) -> (Option<u8>, &str)
    ensures value { raw_body hashes (chars text.now) ≡ (result.0, chars result.1.now) }
    ensures len { length result.1.now ≤ length text.now }
{
    let body = skip(text);
    if !begins_with(text, b'"') {
        return (None, body);
    }
    let (terminated, tail) = past_raw(body, hashes);
    (counted(terminated, hashes), tail)
}

/// Takes a raw text after its letters. Returns how many hashes it has, if it is closed and they are fewer than 256, and what follows it.
pub fn past_raw_text(text: &str) -> (Option<u8>, &str)
    ensures value { raw_text (chars text.now) ≡ (result.0, chars result.1.now) }
    ensures len { length result.1.now ≤ length text.now }
{
    let (hashes, rest) = past_hashes(text, text.len());
    past_raw_body(rest, hashes)
}
