//! Attributes that a comment of one line can replace.
ghost use Rattle.std.specs.List.{list_any};
ghost use Rattle.std.specs.Prelude.{◌≡◌, ◌<◌, ◌^◌, ◌-◌, ◌++◌, ◌∷◌, List, ℕ, MatchOption, None, Some, length, replicate, true};
ghost use Rattle.syntax_layout.specs.Documented.{IsClosed, IsReplaced, attribute_opening, documents, first_line_end, is_line_end, string_hashes};
ghost use Rattle.syntax_parse.specs.Inside.{begins_with_feed};
ghost use Rattle.tt_base.specs.LeafText.{closing_quote, opening_quote};
ghost use Rattle.tt_base.specs.declared.literal.LitKind.TheVariants.{StrRaw};

use syntax_lex::{DocStyle, LiteralKind, TokenKind, first_token};
use syntax_parse::hashes_wanted;

// Returns what follows the beginning of a text, if it begins so.
fn behind<'t>(text: &'t str, front: &str) -> Option<&'t str>
    ensures { MatchOption result ((rest : List ℕ) → text.now ≡ front.now ++ rest → ⊥) (λ rest. text.now ≡ front.now ++ rest.now) }
{
    text.strip_prefix(front)
}

// Returns what follows so many hashes.
fn behind_hashes(text: &str, hashes: usize) -> Option<&str>
    ensures { MatchOption result ((rest : List ℕ) → text.now ≡ replicate hashes 35 ++ rest → ⊥) (λ rest. text.now ≡ replicate hashes 35 ++ rest.now) }
{
    let mut rest = text;
    for _number in 0..hashes {
        rest = behind(rest, "#")?;
    }
    Some(rest)
}

// Returns what follows the signs that open a raw string.
fn behind_opening(text: &str, hashes: usize) -> Option<&str>
    ensures { MatchOption result ((rest : List ℕ) → text.now ≡ opening_quote (StrRaw hashes) ++ rest → ⊥) (λ rest. text.now ≡ opening_quote (StrRaw hashes) ++ rest.now) }
{
    behind(behind_hashes(behind(text, "r")?, hashes)?, "\"")
}

// Returns what follows the signs that close a raw string, and a `]`.
fn behind_closing(text: &str, hashes: usize) -> Option<&str>
    ensures { MatchOption result ((rest : List ℕ) → text.now ≡ closing_quote (StrRaw hashes) ++ 93 ∷ rest → ⊥) (λ rest. text.now ≡ closing_quote (StrRaw hashes) ++ 93 ∷ rest.now) }
{
    behind(behind_hashes(behind(text, "\"")?, hashes)?, "]")
}

// Returns how many hashes close a raw string.
fn string_hashes(kind: TokenKind) -> Option<u8>
    ensures { result ≡ string_hashes kind }
{
    match kind {
        TokenKind::Literal {
            kind: LiteralKind::RawStr { n_hashes },
            ..
        } => n_hashes,
        _ => None,
    }
}

// Returns the text of a raw string that a `]` follows, and what follows that, if the string has as many hashes as its text needs.
fn closed(text: &str) -> Option<(&str, &str)>
    requires { length text.now < 2 ^ 32 }
    ensures { MatchOption result ((doc behind : List ℕ) → IsClosed doc behind text.now → ⊥) (λ found. IsClosed found.0.now found.1.now text.now) }
{
    if text.is_empty() {
        return None;
    }
    let token = first_token(text);
    let hashes = string_hashes(token.kind)? as usize;
    let opened = behind_opening(text, hashes)?;
    let len = (token.len as usize).saturating_sub(hashes + hashes + 3);
    let (doc, shut) = opened.split_at_checked(len)?;
    let rest = behind_closing(shut, hashes)?;
    if hashes_wanted(doc) == hashes {
        Some((doc, rest))
    } else {
        None
    }
}

// Returns whether a byte ends a line.
fn is_line_end(byte: u8) -> bool
    ensures { result ≡ is_line_end byte }
{
    matches!(byte, b'\n' | b'\r')
}

// Returns whether a text holds the end of a line.
fn has_line_end(text: &str) -> bool
    ensures { result ≡ list_any is_line_end text.now }
{
    text.as_bytes().iter().any(|byte| is_line_end(*byte))
}

// Returns whether a comment with this text documents something.
fn documents(doc: &str) -> bool
    ensures { result ≡ documents doc.now }
{
    match doc.as_bytes().first() {
        Some(byte) => *byte != b'/',
        None => true,
    }
}

// Returns whether a text begins with a line feed.
fn begins_with_feed(text: &str) -> bool
    ensures { result ≡ begins_with_feed text.now }
{
    match text.as_bytes().first() {
        Some(byte) => *byte == b'\n',
        None => false,
    }
}

// Returns the carriage return before the first line feed, or nothing, and the text from that on, if only spaces precede these.
fn first_line_end(text: &str) -> Option<(&str, &str)>
    ensures { MatchOption result (first_line_end text.now ≡ None) (λ found. first_line_end text.now ≡ Some (found.0.now, found.1.now)) }
{
    let mut rest = text;
    while let Some(more) = behind(rest, " ") {
        rest = more;
    }
    if begins_with_feed(rest) {
        return Some(("", rest));
    }
    let feed = behind(rest, "\r")?;
    if begins_with_feed(feed) {
        Some(("\r", feed))
    } else {
        None
    }
}

// Returns what precedes the text of a documenting attribute.
fn attribute_opening(style: DocStyle) -> &'static str
    ensures { result.now ≡ attribute_opening style }
{
    match style {
        DocStyle::Outer => "#[doc = ",
        DocStyle::Inner => "# ![doc = ",
    }
}

/// A comment that replaces an attribute.
#[derive(Clone, Copy)]
pub struct Comment<'t> {
    /// Which item it documents.
    pub style: DocStyle,
    /// Its text.
    pub doc: &'t str,
    /// The carriage return before the end of its line, or nothing.
    pub ending: &'t str,
    /// What follows it: a line feed, and more.
    pub rest: &'t str,
}

// Returns the comment of a style that replaces the attribute at the beginning of a text.
fn comment_of(style: DocStyle, text: &str) -> Option<Comment<'_>>
    requires { length text.now < 2 ^ 32 }
    ensures { MatchOption result ((doc ending rest : List ℕ) → IsReplaced style doc ending rest text.now → ⊥) (λ found. IsReplaced found.style found.doc.now found.ending.now found.rest.now text.now) }
{
    let literal = behind(text, attribute_opening(style))?;
    let (doc, more) = closed(literal)?;
    if has_line_end(doc) {
        return None;
    }
    if !documents(doc) {
        return None;
    }
    let (ending, rest) = first_line_end(more)?;
    Some(Comment {
        style,
        doc,
        ending,
        rest,
    })
}

/// Returns the comment that replaces the attribute at the beginning of a text, if there is one that may be replaced.
pub fn replacement(begins: bool, text: &str) -> Option<Comment<'_>>
    requires { length text.now < 2 ^ 32 }
    ensures { MatchOption result ((style : DocStyle) (doc ending rest : List ℕ) → begins ≡ true → IsReplaced style doc ending rest text.now → ⊥) (λ found. (begins ≡ true) × IsReplaced found.style found.doc.now found.ending.now found.rest.now text.now) }
{
    if !begins {
        return None;
    }
    match comment_of(DocStyle::Outer, text) {
        Some(found) => Some(found),
        None => comment_of(DocStyle::Inner, text),
    }
}
