//! What is beside a place in a source.
use crate::kinds::is_blank;
use syntax_lex::{MOST_TEXT_BYTES, Tokenize, tokenize};

// A line's indentation, or a name, is looked for in so many bytes.
const MOST_LINE: usize = 512;

/// A gap of a source has at most so many bytes.
pub const MOST_GAP: usize = 4096;

/// Returns the text from a place to another, or an empty one if the source has no such part.
pub fn part(source: &str, start: usize, end: usize) -> &str {
    source.get(start..end).unwrap_or("")
}

/// Returns the byte at a place.
pub fn byte_at(source: &str, at: usize) -> Option<u8> {
    source.as_bytes().get(at).copied()
}

/// Returns the byte before a place.
pub fn byte_before(source: &str, at: usize) -> Option<u8> {
    byte_at(source, at.checked_sub(1)?)
}

/// Returns the tokens of a text; none if it has too many bytes for the lexer.
pub fn tokens(text: &str) -> Tokenize<'_> {
    if text.len() >= MOST_TEXT_BYTES {
        return tokenize("");
    }
    tokenize(text)
}

// Returns the text behind a place, as far as a gap may go.
fn behind(source: &str, at: usize) -> &str {
    let most = at.saturating_add(MOST_GAP).min(source.len());
    // a character has at most four bytes
    for less in 0..4 {
        if let Some(text) = source.get(at..most.saturating_sub(less)) {
            return text;
        }
    }
    ""
}

// Returns whether a byte is white space of ASCII.
fn is_white_byte(byte: u8) -> bool {
    matches!(byte, b' ' | b'\n' | b'\t' | b'\r')
}

/// Returns whether a text is white space of ASCII.
pub fn is_white(text: &str) -> bool {
    for byte in text.as_bytes() {
        if !is_white_byte(*byte) {
            return false;
        }
    }
    true
}

/// Returns the end of the white space behind a place, as far as it is a gap.
pub fn space_end(source: &str, at: usize) -> usize {
    let mut end = at;
    for byte in behind(source, at).as_bytes() {
        if !is_white_byte(*byte) {
            return end;
        }
        end = end.saturating_add(1);
    }
    end
}

/// Returns whether the byte at a place may be one of white space, or the first or the last one of a comment.
pub fn may_be_blank(source: &str, at: usize) -> bool {
    match byte_at(source, at) {
        Some(byte) => byte == b'/' || !byte.is_ascii_graphic(),
        None => false,
    }
}

/// Returns the end of the white space and comments behind a place, as far as these are a gap.
pub fn blank_end(source: &str, at: usize) -> usize {
    let mut end = space_end(source, at);
    if !may_be_blank(source, end) {
        return end;
    }
    for token in tokens(behind(source, end)) {
        if !is_blank(token.kind) {
            return end;
        }
        end = end.saturating_add(token.len as usize);
    }
    end
}

/// Returns the start of the white space before a place, as far as it is a gap.
pub fn space_start(source: &str, at: usize) -> usize {
    let Some(before) = source.as_bytes().get(at.saturating_sub(MOST_GAP)..at) else {
        return at;
    };
    let mut start = at;
    for byte in before.iter().rev() {
        if !is_white_byte(*byte) {
            return start;
        }
        start = start.saturating_sub(1);
    }
    start
}

/// Returns whether a text has a line break.
pub fn breaks(text: &str) -> bool {
    text.as_bytes().contains(&b'\n')
}

/// Returns how many line breaks a text has.
pub fn line_breaks(text: &str) -> usize {
    let mut count: usize = 0;
    for byte in text.as_bytes() {
        if *byte == b'\n' {
            count = count.saturating_add(1);
        }
    }
    count
}

/// Returns how many bytes of white space the line begins with that a place is in; 0 if the line begins too far before it.
pub fn indentation(source: &str, at: usize) -> usize {
    let start = at.saturating_sub(MOST_LINE);
    let Some(before) = source.as_bytes().get(start..at) else {
        return 0;
    };
    let mut white: usize = 0;
    for byte in before.iter().rev() {
        match *byte {
            b'\n' => return white,
            b' ' | b'\t' => white = white.saturating_add(1),
            _ => white = 0,
        }
    }
    if start == 0 { white } else { 0 }
}

/// Returns whether only white space is before a place in its line.
pub fn begins_line(source: &str, at: usize) -> bool {
    let start = at.saturating_sub(indentation(source, at));
    part(source, start, at).trim_start().is_empty()
        && (start == 0 || byte_before(source, start) == Some(b'\n'))
}

/// Returns whether a byte is one of a name.
pub fn is_of_name(byte: u8) -> bool {
    byte.is_ascii_alphanumeric() || byte == b'_' || byte >= 128
}

/// Returns the end of the name at a place: the place itself if there is none.
pub fn name_end(source: &str, at: usize) -> usize {
    let mut end = at;
    for byte in behind(source, at).as_bytes() {
        if !is_of_name(*byte) {
            return end;
        }
        end = end.saturating_add(1);
    }
    end
}

/// Returns the start of the name before a place: the place itself if there is none.
pub fn name_start(source: &str, at: usize) -> usize {
    let Some(before) = source.as_bytes().get(at.saturating_sub(MOST_LINE)..at) else {
        return at;
    };
    let mut start = at;
    for byte in before.iter().rev() {
        if !is_of_name(*byte) {
            return start;
        }
        start = start.saturating_sub(1);
    }
    start
}

/// Returns whether a call begins at a place: only signs of a name or a path are before a `!`.
pub fn begins_macro(source: &str, at: usize) -> bool {
    let mut is_name = false;
    for byte in behind(source, at).as_bytes() {
        match *byte {
            b'!' => return is_name,
            b'$' | b':' => is_name = false,
            byte if is_of_name(byte) => is_name = true,
            _ => return false,
        }
    }
    false
}

/// Returns whether a byte opens a bracket.
pub fn opens(byte: u8) -> bool {
    matches!(byte, b'(' | b'[' | b'{')
}

/// Returns whether a byte closes a bracket.
pub fn closes(byte: u8) -> bool {
    matches!(byte, b')' | b']' | b'}')
}

/// Returns whether a byte ends a call.
pub fn ends_call(byte: u8) -> bool {
    closes(byte) || byte == b';'
}

// Returns whether a text ends its line at a place, apart from white space and comments.
fn ends_at(source: &str, at: usize, end: usize) -> bool {
    end >= source.len() || breaks(part(source, at, end))
}

/// Returns whether only white space, comments and a `;` or a `,` are behind a place in its line.
pub fn ends_line(source: &str, at: usize) -> bool {
    let end = blank_end(source, at);
    let behind = end.saturating_add(1);
    ends_at(source, at, end)
        || matches!(byte_at(source, end), Some(b';' | b','))
            && ends_at(source, behind, blank_end(source, behind))
}
