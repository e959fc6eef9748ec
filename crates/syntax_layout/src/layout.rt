//! A text with other gaps between its tokens.
ghost use Rattle.std.specs.Prelude.{◌≡◌, ◌<◌, ◌≤◌, ◌+◌, ◌^◌, ◌++◌, ◌==◌, ◌&&◌, [], List, IfOk, OnOk, MatchOption, false, not, true, length, map, slice_get, string_bytes};
ghost use Rattle.std.specs.Char.{is_ascii_graphic};
ghost use Rattle.std.specs.List.{slice_index_or};
ghost use Rattle.std.specs.Str.{chars};
ghost use Rattle.syntax_layout.specs.Gap.{AreGaps};
ghost use Rattle.syntax_layout.specs.Layout.{HasOthers, IsLaidOut, begins_parting, ending, ends_before, joins, parting, put_before, stays_before, touched, touches_surely};
ghost use Rattle.syntax_layout.specs.Passed.{is_next, is_there};
ghost use Rattle.syntax_lex.specs.Reading.{AreTokensOf, first_token_of};
ghost use Rattle.syntax_lex.specs.declared.token.Token.{Token};

use crate::kinds::{is_blank, is_parting, is_whole, joins};
use crate::passed::is_next;
use std::alloc::{AllocError, Global};
use syntax_lex::{Token, TokenKind, first_token};
use syntax_parse::punct_char;

// Returns whether a token stays the same before two texts. `room` is for all three.
#[inline(never)]
fn stays_before(room: &mut String, word: &str, behind: &str, more: &str) -> Result<bool, AllocError>
    requires some { 0 < length word.now }
    requires fits { length word.now + (length behind.now + length more.now) < 2 ^ 32 }
    ensures { IfOk result (λ stays. stays ≡ stays_before word.now (behind.now ++ more.now)) }
{
    room.clear();
    room.push_str(word)?;
    room.push_str(behind)?;
    room.push_str(more)?;
    let token = first_token(room.as_str());
    Ok(token.len as usize == word.len() && is_whole(token.kind))
}

// Returns whether a text begins with a byte that ends each token before it.
fn begins_parting(text: &str) -> bool
    ensures { result ≡ begins_parting text.now }
{
    match text.as_bytes().first() {
        Some(byte) => is_parting(*byte),
        None => false,
    }
}

// Returns whether a token ends before two texts. The lexer decides it where the first byte does not.
#[inline(always)]
fn ends_before(room: &mut String, word: &str, behind: &str, more: &str) -> Result<bool, AllocError>
    requires some { 0 < length word.now }
    requires begins { 0 < length behind.now }
    requires fits { length word.now + (length behind.now + length more.now) < 2 ^ 32 }
    ensures { IfOk result (λ ends. ends ≡ ends_before word.now (behind.now ++ more.now)) }
{
    if begins_parting(behind) {
        return Ok(true);
    }
    stays_before(room, word, behind, more)
}

// Returns whether a token certainly touches the next.
fn touches_surely(
    room: &mut String,
    touching: bool,
    joining: bool,
    before: &str,
    gap: &str,
    word: &str,
) -> Result<bool, AllocError>
    requires some { 0 < length before.now }
    requires next { 0 < length word.now }
    requires fits { length before.now + length word.now < 2 ^ 32 }
    ensures { IfOk result (λ touches. touches ≡ touches_surely touching joining before.now gap.now word.now) }
{
    if touching && joining {
        return Ok(true);
    }
    if joining || !gap.is_empty() {
        return Ok(false);
    }
    ends_before(room, before, word, "")
}

// Returns the first token of a text that is not blank, if the token before the text certainly touches it.
#[inline(never)]
fn touched<'t>(
    room: &mut String,
    kind: TokenKind,
    before: &str,
    gap: &str,
    text: &'t str,
) -> Result<&'t str, AllocError>
    requires some { 0 < length before.now }
    requires fits { length before.now + length text.now < 2 ^ 32 }
    ensures value { IfOk result (λ found. (tokens : List Token) → AreTokensOf tokens (chars text.now) → found.now ≡ touched true kind before.now gap.now text.now tokens) }
    ensures within { IfOk result (λ found. length found.now ≤ length text.now) }
{
    // before a gap only a punct touches
    if !gap.is_empty() && punct_char(kind).is_none() {
        return Ok("");
    }
    let mut touching = true;
    let mut rest = text;
    while !rest.is_empty() {
        let token = first_token(rest);
        let (word, behind) = rest.split_at(token.len as usize);
        if !is_blank(token.kind) {
            let joining = joins(kind, token.kind);
            if touches_surely(room, touching, joining, before, gap, word)? {
                return Ok(word);
            }
            return Ok("");
        }
        touching = false;
        rest = behind;
    }
    Ok("")
}

/// Returns the gap before the token of this number, or an empty one.
pub fn gap_at<'g>(gaps: &[&'g str], number: usize) -> &'g str
    ensures { result.now ≡ slice_index_or (map (λ g. g.now) gaps.now) number [] }
{
    match gaps.get(number) {
        Some(gap) => gap,
        None => "",
    }
}

// Adds a gap between two tokens, after a space if the first token does not end before it.
fn push_parting(
    laid: &mut String,
    room: &mut String,
    joining: bool,
    before: &str,
    gap: &str,
    word: &str,
    touched: &str,
) -> Result<(), AllocError>
    requires some { 0 < length before.now }
    requires next { 0 < length word.now }
    requires fits_gap { length before.now + length gap.now < 2 ^ 32 }
    requires fits_word { length before.now + (length word.now + length touched.now) < 2 ^ 32 }
    ensures { OnOk result (string_bytes laid.new ≡ string_bytes laid.old ++ parting joining before.now gap.now (word.now ++ touched.now)) }
{
    if gap.is_empty() {
        if joining || !ends_before(room, before, word, touched)? {
            laid.push(' ')?;
        }
        return Ok(());
    }
    if !ends_before(room, before, gap, "")? {
        laid.push(' ')?;
    }
    laid.push_str(gap)
}

// What was written last.
#[derive(Clone, Copy)]
struct Last<'t> {
    // Whether no token was written.
    is_none: bool,
    // Whether no blank follows it in the text that is laid out.
    touches: bool,
    kind: TokenKind,
    text: &'t str,
}

// Adds what precedes a token, and the token. `touched` is the token that it certainly touches, or empty.
#[inline(always)]
fn push_word(
    laid: &mut String,
    room: &mut String,
    last: Last<'_>,
    gap: &str,
    kind: TokenKind,
    word: &str,
    touched: &str,
) -> Result<(), AllocError>
    requires some { last.is_none ≡ false → 0 < length last.text.now }
    requires next { 0 < length word.now }
    requires fits_gap { length last.text.now + length gap.now < 2 ^ 32 }
    requires fits_word { length last.text.now + (length word.now + length touched.now) < 2 ^ 32 }
    ensures { OnOk result (string_bytes laid.new ≡ string_bytes laid.old ++ (put_before last.entry.is_none last.entry.touches (joins last.entry.kind kind) last.entry.text.now gap.now (word.now ++ touched.now) ++ word.now)) }
{
    if last.is_none {
        laid.push_str(gap)?;
    } else {
        let joining = joins(last.kind, kind);
        if !(last.touches && joining) {
            push_parting(laid, room, joining, last.text, gap, word, touched)?;
        }
    }
    laid.push_str(word)
}

// Adds the gap behind what was written last, after a space if that token does not end before it.
fn push_ending(
    laid: &mut String,
    room: &mut String,
    last: Last<'_>,
    gap: &str,
) -> Result<(), AllocError>
    requires some { last.is_none ≡ false → 0 < length last.text.now }
    requires fits { length last.text.now + length gap.now < 2 ^ 32 }
    ensures { OnOk result (string_bytes laid.new ≡ string_bytes laid.old ++ ending last.entry.is_none last.entry.text.now gap.now) }
{
    if gap.is_empty() {
        return Ok(());
    }
    if !last.is_none && !ends_before(room, last.text, gap, "")? {
        laid.push(' ')?;
    }
    laid.push_str(gap)
}

// Returns whether a byte is there and is a visible character of ASCII.
fn is_visible(byte: Option<u8>) -> bool
    ensures { result ≡ is_there is_ascii_graphic byte }
{
    match byte {
        Some(byte) => byte.is_ascii_graphic(),
        None => false,
    }
}

// Returns whether a text begins with a space and a visible character of ASCII.
fn begins_with_space(text: &str) -> bool
    ensures { result ≡ (is_next (slice_get text.now 0) 32 && is_there is_ascii_graphic (slice_get text.now 1)) }
{
    let bytes = text.as_bytes();
    is_next(bytes.first().copied(), b' ') && is_visible(bytes.get(1).copied())
}

// Returns the first token of a text. The lexer does not read a space between two tokens.
fn next_token(text: &str) -> Token
    requires some { 0 < length text.now }
    requires fits { length text.now < 2 ^ 32 }
    ensures { result ≡ first_token_of (chars text.now) }
{
    if begins_with_space(text) {
        return Token {
            kind: TokenKind::Whitespace,
            len: 1,
        };
    }
    first_token(text)
}

// Returns whether what a token certainly touches decides what precedes it.
fn asks_ahead(last: Last<'_>, gap: &str, kind: TokenKind, word: &str) -> bool
    ensures { result ≡ (not last.entry.is_none && ((length gap.now == 0) && (not (joins last.entry.kind kind) && not (begins_parting word.now)))) }
{
    !last.is_none && gap.is_empty() && !joins(last.kind, kind) && !begins_parting(word)
}

// Adds what precedes a token, and the token, which a gap and a text follow. Only what it certainly touches is read of that text, if need be.
fn push_next(
    laid: &mut String,
    room: &mut String,
    last: Last<'_>,
    before: &str,
    kind: TokenKind,
    word: &str,
    gap: &str,
    behind: &str,
) -> Result<(), AllocError>
    requires some { last.is_none ≡ false → 0 < length last.text.now }
    requires next { 0 < length word.now }
    requires fits_gap { length last.text.now + length before.now < 2 ^ 32 }
    requires fits_word { length last.text.now + (length word.now + length behind.now) < 2 ^ 32 }
    ensures { OnOk result ((tokens : List Token) → AreTokensOf tokens (chars behind.now) → string_bytes laid.new ≡ string_bytes laid.old ++ (put_before last.entry.is_none last.entry.touches (joins last.entry.kind kind) last.entry.text.now before.now (word.now ++ touched true kind word.now gap.now behind.now tokens) ++ word.now)) }
{
    if asks_ahead(last, before, kind, word) {
        let ahead = touched(room, kind, word, gap, behind)?;
        return push_word(laid, room, last, before, kind, word, ahead);
    }
    push_word(laid, room, last, before, kind, word, "")
}

/// Returns the tokens of a text with other gaps between them: the n-th gap before the n-th token, and one more behind the last. If there
/// are fewer gaps, the others are empty. A joint punct touches what follows it, and a space separates two tokens that would be read as others.
///
/// Returns `None` if a token is a comment that documents something, or is not closed.
pub fn laid_out(alloc: Global, text: &str, gaps: &[&str]) -> Result<Option<String>, AllocError>
    requires fits { length text.now < 2 ^ 31 }
    requires gaps { AreGaps (map (λ g. g.now) gaps.now) }
    ensures { IfOk result (λ found. MatchOption found (HasOthers text.now) (λ laid. IsLaidOut text.now (map (λ g. g.now) gaps.now) (string_bytes laid))) }
{
    let mut laid = String::with_capacity(alloc, 2 * text.len())?;
    let mut room = String::with_capacity(alloc, 64)?;
    let mut last = Last {
        is_none: true,
        touches: false,
        kind: TokenKind::Whitespace,
        text: "",
    };
    let mut used = 0;
    let mut rest = text;
    while !rest.is_empty() {
        let token = next_token(rest);
        let (word, behind) = rest.split_at(token.len as usize);
        if is_blank(token.kind) {
            last.touches = false;
        } else {
            if !is_whole(token.kind) {
                return Ok(None);
            }
            let before = gap_at(gaps, used);
            let gap = gap_at(gaps, used + 1);
            push_next(
                &mut laid, &mut room, last, before, token.kind, word, gap, behind,
            )?;
            last = Last {
                is_none: false,
                touches: true,
                kind: token.kind,
                text: word,
            };
            used += 1;
        }
        rest = behind;
    }
    let ending = gap_at(gaps, used);
    push_ending(&mut laid, &mut room, last, ending)?;
    Ok(Some(laid))
}
