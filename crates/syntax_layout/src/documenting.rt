//! A text whose documenting attributes are written as comments.
ghost use Rattle.std.specs.Prelude.{◌≡◌, ◌≤◌, ◌<◌, ◌-◌, ◌^◌, ◌++◌, IfOk, IfSome, MatchOption, OnOk, length, string_bytes, take, true};
ghost use Rattle.syntax_layout.specs.Documented.{IsDocumented, comment, comment_opening, is_white};

use crate::attribute::{Comment, replacement};
use memchr::memmem;
use std::alloc::{AllocError, Global};
use syntax_lex::{DocStyle, TokenKind, first_token};

// Returns the signs that open a comment.
fn comment_opening(style: DocStyle) -> &'static str
    ensures { result.now ≡ comment_opening style }
{
    match style {
        DocStyle::Outer => "///",
        DocStyle::Inner => "//!",
    }
}

// Returns whether a token is white space.
fn is_white(kind: TokenKind) -> bool
    ensures { result ≡ is_white kind }
{
    matches!(kind, TokenKind::Whitespace)
}

// Adds the part of a text that precedes the rest of it, and a comment.
fn push_comment(
    written: &mut String,
    text: &str,
    rest: &str,
    found: Comment<'_>,
) -> Result<(), AllocError>
    requires within { length rest.now ≤ length text.now }
    requires seam { text.now ≡ take (length text.now - length rest.now) text.now ++ rest.now }
    ensures { OnOk result (string_bytes written.new ≡ string_bytes written.old ++ (take (length text.now - length rest.now) text.now ++ comment found.entry.style (found.entry.doc.now ++ found.entry.ending.now))) }
{
    let (before, _) = text.split_at(text.len() - rest.len());
    written.push_str(before)?;
    written.push_str(comment_opening(found.style))?;
    written.push_str(found.doc)?;
    written.push_str(found.ending)
}

/// Returns a text whose documenting attributes are written as comments, or `None` if that is the same text.
///
/// A comment replaces an attribute if it is read as the same tokens, white space or nothing precedes the attribute, and its line ends
/// behind it.
pub fn documented(alloc: Global, text: &str) -> Result<Option<String>, AllocError>
    requires fits { length text.now < 2 ^ 32 }
    ensures is { IfOk result (λ found. MatchOption found (IsDocumented true text.now text.now) (λ written. IsDocumented true text.now (string_bytes written))) }
    ensures short { IfOk result (λ found. IfSome found (λ written. length (string_bytes written) ≤ length text.now)) }
{
    // each attribute that a comment replaces has these bytes, and most texts do not
    if memmem::find(text.as_bytes(), b"[doc = r").is_none() {
        return Ok(None);
    }
    let mut written = String::new(alloc);
    // what is not written yet
    let mut kept = text;
    let mut rest = text;
    let mut begins = true;
    while !rest.is_empty() {
        match replacement(begins, rest) {
            Some(found) => {
                push_comment(&mut written, kept, rest, found)?;
                kept = found.rest;
                rest = found.rest;
                begins = false;
            }
            None => {
                let token = first_token(rest);
                let (_, behind) = rest.split_at(token.len as usize);
                begins = is_white(token.kind);
                rest = behind;
            }
        }
    }
    if written.is_empty() {
        return Ok(None);
    }
    written.push_str(kept)?;
    Ok(Some(written))
}

/// Returns a text whose documenting attributes are written as comments.
pub fn with_comments(alloc: Global, text: String) -> Result<String, AllocError>
    requires fits { length (string_bytes text) < 2 ^ 32 }
    ensures is { IfOk result (λ written. IsDocumented true (string_bytes text) (string_bytes written)) }
    ensures short { IfOk result (λ written. length (string_bytes written) ≤ length (string_bytes text)) }
{
    match documented(alloc, text.as_str())? {
        Some(written) => Ok(written),
        None => Ok(text),
    }
}
