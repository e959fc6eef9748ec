//! Gaps with line breaks, moved to another indentation.
use crate::beside::{breaks, is_white, part};
use crate::pieces::{MOST_SPACES, Piece, line_of};
use std::alloc::{AllocError, Global};

// Lines are not moved further to the right.
const MOST_INDENTATION: usize = 256;

// White space of so many bytes.
const FILLED: usize = MOST_SPACES;

const SPACES: &str = "                                ";

const TABS: &str = "\t\t\t\t\t\t\t\t\t\t\t\t\t\t\t\t\t\t\t\t\t\t\t\t\t\t\t\t\t\t\t\t";

/// How lines move: from one indentation, in bytes of white space, to another.
#[derive(Clone, Copy)]
pub struct Shift {
    pub from: usize,
    pub to: usize,
}

/// The gaps that were chosen.
#[derive(Drop)]
pub struct Gaps {
    pub pieces: Vec<Piece>,
    /// The gaps whose lines moved, one behind the other.
    pub moved: String,
    // What indents a line, and whether that is spaces.
    fill: &'static str,
    has_spaces: bool,
    // How many bytes the gaps have.
    len: usize,
    /// The indentation of the line that is written.
    pub line: usize,
    // Where the comments begin among the gaps that moved with which the next gap begins.
    comments: Option<usize>,
}

// Returns the white space at the begin of a line, and what follows it.
fn indentation_of(line: &str) -> (&str, &str) {
    let mut end: usize = 0;
    for byte in line.as_bytes() {
        if !matches!(*byte, b' ' | b'\t') {
            break;
        }
        end = end.saturating_add(1);
    }
    (part(line, 0, end), part(line, end, line.len()))
}

// Returns a place in a source, or a number of bytes. No text has more bytes.
fn small(number: usize) -> u32 {
    u32::try_from(number).unwrap_or(u32::MAX)
}

/// Returns how many line breaks a text begins with, if only spaces follow them.
pub fn breaks_before_spaces(text: &str) -> Option<usize> {
    let mut breaks: usize = 0;
    let mut is_behind = false;
    for byte in text.as_bytes() {
        match *byte {
            b'\n' if !is_behind => breaks = breaks.saturating_add(1),
            b' ' => is_behind = true,
            _ => return None,
        }
    }
    Some(breaks)
}

impl Gaps {
    /// Returns no gaps, of a text whose first line has this white space in front. There will be about so many.
    pub fn new(
        alloc: Global,
        line: usize,
        has_tabs: bool,
        count: usize,
    ) -> Result<Gaps, AllocError> {
        Ok(Gaps {
            pieces: Vec::with_capacity(alloc, count)?,
            moved: String::new(alloc),
            fill: if has_tabs { TABS } else { SPACES },
            has_spaces: !has_tabs,
            len: 0,
            line,
            comments: None,
        })
    }

    /// Returns how many bytes the gaps have.
    pub fn len(&self) -> usize {
        self.len
    }

    // Adds white space in front of a line that had this one.
    fn indent(&mut self, white: &str, shift: Shift) -> Result<(), AllocError> {
        let beyond = white.get(shift.from..).unwrap_or("");
        let missing = shift.from.saturating_sub(white.len());
        let moved = shift.to.saturating_sub(missing).min(MOST_INDENTATION);
        if moved == 0 && beyond.starts_with('\t') {
            self.fill = TABS;
            self.has_spaces = false;
        }
        self.begin_line(moved)?;
        self.moved.push_str(beyond)?;
        self.line = moved.saturating_add(beyond.len());
        Ok(())
    }

    // Adds so many bytes of white space.
    fn push_fill(&mut self, fill: &str, count: usize) -> Result<(), AllocError> {
        for _ in 0..count / FILLED {
            self.moved.push_str(fill)?;
        }
        self.moved.push_str(part(fill, 0, count % FILLED))
    }

    // Adds so much white space in front of a line.
    fn begin_line(&mut self, count: usize) -> Result<(), AllocError> {
        self.push_fill(self.fill, count)
    }

    // Adds the lines before the last one. A line that is empty stays empty.
    fn push_front(&mut self, front: &str, shift: Shift) -> Result<(), AllocError> {
        for (number, line) in front.split('\n').enumerate() {
            let (white, body) = indentation_of(line);
            let is_empty = is_white(body);
            if number > 0 {
                self.moved.push('\n')?;
            }
            if number > 0 && !is_empty {
                self.indent(white, shift)?;
            } else if !is_empty {
                self.moved.push_str(white)?;
            }
            self.moved.push_str(body)?;
        }
        Ok(())
    }

    // Returns where a line begins that had so many spaces: by so many bytes of white space of the file, and so many spaces beyond.
    fn moved_spaces(spaces: usize, shift: Shift) -> (usize, usize) {
        let missing = shift.from.saturating_sub(spaces);
        let moved = shift.to.saturating_sub(missing).min(MOST_INDENTATION);
        (moved, spaces.saturating_sub(shift.from))
    }

    // Adds so many line breaks, and the indentation of a line that had so many spaces.
    fn push_white(&mut self, breaks: usize, spaces: usize, shift: Shift) -> Result<(), AllocError> {
        let (moved, beyond) = Gaps::moved_spaces(spaces, shift);
        self.line = moved.saturating_add(beyond);
        for _ in 0..breaks {
            self.moved.push('\n')?;
        }
        self.begin_line(moved)?;
        self.push_fill(SPACES, beyond)
    }

    // Adds lines.
    fn push_lines(&mut self, text: &str, shift: Shift) -> Result<(), AllocError> {
        if let Some(breaks) = breaks_before_spaces(text) {
            return self.push_white(breaks, text.len().saturating_sub(breaks), shift);
        }
        let Some((front, last)) = text.rsplit_once('\n') else {
            return self.moved.push_str(text);
        };
        self.push_front(front, shift)?;
        self.moved.push('\n')?;
        let (white, body) = indentation_of(last);
        self.indent(white, shift)?;
        self.moved.push_str(body)
    }

    // Adds a gap that has so many bytes.
    fn push(&mut self, piece: Piece, len: usize) -> Result<(), AllocError> {
        self.len = self.len.saturating_add(len);
        self.pieces.push(piece)?;
        Ok(())
    }

    // Adds the gap that begins at a byte of those that moved, or before it with comments.
    fn push_moved(&mut self, start: usize) -> Result<(), AllocError> {
        let start = self.comments.unwrap_or(start);
        self.comments = None;
        let end = self.moved.len();
        self.push(
            Piece::Moved(small(start), small(end)),
            end.saturating_sub(start),
        )
    }

    // Adds a text whose lines move, if it has several.
    fn push_any(&mut self, text: &str, shift: Shift) -> Result<(), AllocError> {
        self.moved
            .reserve(text.len().saturating_add(MOST_INDENTATION))?;
        if breaks(text) {
            self.push_lines(text, shift)
        } else {
            self.moved.push_str(text)
        }
    }

    /// Returns whether the next gap begins with comments.
    pub fn have_comments(&self) -> bool {
        self.comments.is_some()
    }

    /// Begins the next gap with comments, and with one more in `/* */` if there is a text for it.
    pub fn push_comments(
        &mut self,
        comments: &str,
        shift: Shift,
        last: Option<&str>,
    ) -> Result<(), AllocError> {
        self.comments = Some(self.moved.len());
        self.push_any(comments, shift)?;
        match last {
            Some(text) => {
                self.moved.push_str("/* ")?;
                self.moved.push_str(text)?;
                self.moved.push_str(" */")
            }
            None => Ok(()),
        }
    }

    /// Adds a space, or nothing.
    pub fn push_space(&mut self, is_space: bool) -> Result<(), AllocError> {
        if self.have_comments() {
            let start = self.moved.len();
            self.moved.push_str(if is_space { " " } else { "" })?;
            return self.push_moved(start);
        }
        if is_space {
            self.push(Piece::Space, 1)
        } else {
            self.push(Piece::Empty, 0)
        }
    }

    /// Adds a part of the source without line breaks.
    pub fn push_part(&mut self, start: usize, end: usize) -> Result<(), AllocError> {
        self.push(
            Piece::Source(small(start), small(end)),
            end.saturating_sub(start),
        )
    }

    // Returns whether so many line breaks and bytes of white space of the file are a piece of their own.
    fn is_line(&self, breaks: usize, indentation: usize) -> bool {
        breaks <= 2 && self.has_spaces && indentation <= MOST_SPACES && self.comments.is_none()
    }

    /// Adds so many line breaks, at least one, and so many spaces, which move.
    pub fn push_breaks(
        &mut self,
        breaks: usize,
        spaces: usize,
        shift: Shift,
    ) -> Result<(), AllocError> {
        let (moved, beyond) = Gaps::moved_spaces(spaces, shift);
        let line = moved.saturating_add(beyond);
        if self.is_line(breaks, line) {
            self.line = line;
            return self.push(
                Piece::Line(breaks == 2, small(line)),
                breaks.saturating_add(line),
            );
        }
        let start = self.moved.len();
        self.push_white(breaks, spaces, shift)?;
        self.push_moved(start)
    }

    /// Adds a gap, whose lines move if it has several.
    pub fn push_text(&mut self, text: &str, shift: Shift) -> Result<(), AllocError> {
        let start = self.moved.len();
        self.push_any(text, shift)?;
        self.push_moved(start)
    }

    /// Adds a line break and an indentation.
    pub fn push_line(&mut self, indentation: usize) -> Result<(), AllocError> {
        let line = indentation.min(MOST_INDENTATION);
        self.line = line;
        if self.is_line(1, line) {
            return self.push(Piece::Line(false, small(line)), line.saturating_add(1));
        }
        let start = self.moved.len();
        self.moved.push('\n')?;
        self.begin_line(line)?;
        self.push_moved(start)
    }

    /// Adds a text to the last gap, which is empty or has line breaks.
    pub fn extend(&mut self, text: &str, shift: Shift) -> Result<(), AllocError> {
        let start = match self.pieces.pop() {
            Some(Piece::Moved(start, _)) => start as usize,
            Some(Piece::Line(is_apart, spaces)) => {
                let start = self.moved.len();
                self.moved.push_str(line_of(is_apart, spaces as usize))?;
                start
            }
            _ => self.moved.len(),
        };
        self.push_lines(text, shift)?;
        self.push_moved(start)
    }
}
