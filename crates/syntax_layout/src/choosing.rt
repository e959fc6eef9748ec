//! The choice of the gaps between tokens that come from a source.
//!
//! A token comes from a template, or from the input of a call. Two neighbours that are side by side in the source have the gap that is there.
//! Elsewhere a variable, a round of a repetition, or what a call becomes begins or ends. The gap is then that of the template: behind the
//! first token, if a variable, a repetition or a call is there, or before the second. Otherwise it is the space that rustfmt would choose.
use crate::beside::{
    MOST_GAP, begins_line, breaks, byte_at, byte_before, indentation, is_of_name, is_white,
    may_be_blank, part, space_start,
};
use crate::gap::is_gap;
use crate::indenting::{Gaps, Shift, breaks_before_spaces};
use crate::moved::Moved;
use crate::places::{Place, Written};
use crate::spacer::Spacer;
use crate::templates::Templates;
use std::alloc::{AllocError, Global};

// Gaps of a source are chosen while they have at most so many bytes, and so many more for each byte of the text.
const MOST_GAPS: usize = 16_777_216;

const GAPS_FOR_BYTE: usize = 64;

// How the lines of a gap without line breaks move.
const UNMOVED: Shift = Shift { from: 0, to: 0 };

/// A source, and what is known of the templates in it.
#[derive(Drop)]
pub struct Sources<'s> {
    pub(crate) text: &'s str,
    pub(crate) templates: Templates,
}

impl<'s> Sources<'s> {
    /// Finds the templates of a source.
    pub fn read(alloc: Global, text: &'s str) -> Result<Sources<'s>, AllocError> {
        Ok(Sources {
            text,
            templates: Templates::read(alloc, text)?,
        })
    }
}

/// A part of the source as a gap, and how its lines move.
#[derive(Clone, Copy)]
pub struct Part {
    pub start: usize,
    pub end: usize,
    pub shift: Shift,
}

/// How lines of the input move: from the indentation of the line that a place is in, or from none, to another one.
#[derive(Clone, Copy)]
pub(crate) struct Input {
    pub at: Option<usize>,
    pub to: usize,
}

/// What is known of two neighbours.
#[derive(Clone, Copy)]
pub enum Choice {
    /// The gap is this part.
    Source(Part),
    /// The gap is a line break, and this indentation.
    Line(usize),
    /// The gap is the space of rustfmt.
    Spaced,
    /// Nothing is known.
    Open,
}

/// Chooses gaps, token by token.
#[derive(Drop)]
pub(crate) struct Chooser<'c, 's> {
    pub(crate) sources: &'c Sources<'s>,
    pub(crate) gaps: Gaps,
    spacer: Spacer<'c>,
    pub(crate) last: Option<Place>,
    /// How lines of the input move.
    pub(crate) input: Input,
    /// The byte after the token of a template that precedes the latest token of the input.
    pub(crate) before_input: usize,
    /// The indentation to which the lines of each template move.
    pub(crate) moved: Moved,
    /// The template that was entered last, and that indentation.
    pub(crate) here: (usize, usize),
    /// The indentation of the line in which a template began last.
    pub(crate) begun: usize,
    /// Gaps of the source are chosen while they have at most so many bytes.
    pub(crate) most: usize,
    // Whether the call begins its line.
    begins_line: bool,
}

impl<'c, 's> Chooser<'c, 's> {
    /// Returns a chooser for what replaces a call that begins at a byte, and is written as a plain text of so many tokens.
    pub(crate) fn new(
        alloc: Global,
        sources: &'c Sources<'s>,
        begin: usize,
        plain: &'c str,
        count: usize,
    ) -> Result<Chooser<'c, 's>, AllocError> {
        let line = indentation(sources.text, begin);
        let start = space_start(sources.text, begin);
        let has_tabs = part(sources.text, start, begin).as_bytes().contains(&b'\t');
        Ok(Chooser {
            sources,
            gaps: Gaps::new(alloc, line, has_tabs, count)?,
            spacer: Spacer::new(plain),
            last: None,
            input: Input { at: None, to: line },
            before_input: 0,
            moved: Moved::new(alloc),
            here: (usize::MAX, 0),
            begun: line,
            most: plain
                .len()
                .saturating_mul(GAPS_FOR_BYTE)
                .saturating_add(MOST_GAPS),
            begins_line: begins_line(sources.text, begin),
        })
    }

    /// Returns a part of the source as a gap, whose last line moves as that of a place in a template does.
    pub(crate) fn moved_part(&self, start: usize, end: usize, target: usize) -> Choice {
        Choice::Source(Part {
            start,
            end,
            shift: if breaks(part(self.sources.text, start, end)) {
                self.shift_at(target)
            } else {
                UNMOVED
            },
        })
    }

    /// Returns how lines of the input move.
    pub(crate) fn input_shift(&self) -> Shift {
        Shift {
            from: match self.input.at {
                Some(at) => indentation(self.sources.text, at),
                None => 0,
            },
            to: self.input.to,
        }
    }

    /// Returns a line break in front of a place in a template.
    pub(crate) fn line_at(&self, target: usize) -> Choice {
        let shift = self.shift_at(target);
        let line = indentation(self.sources.text, target);
        Choice::Line(shift.to.saturating_add(line).saturating_sub(shift.from))
    }

    /// Returns how the line of a place moves.
    pub(crate) fn shift_at(&self, target: usize) -> Shift {
        let templates = &self.sources.templates;
        let Some(number) = templates.template_at(target) else {
            return self.input_shift();
        };
        let (number, to) = if self.here.0 == number {
            self.here
        } else {
            self.around(number)
        };
        let indent = match templates.templates.get(number) {
            Some(template) => template.indent,
            None => 0,
        };
        Shift {
            from: indent.saturating_add(templates.deeper_at(target)),
            to,
        }
    }

    // Adds the part of the source between two places as a gap, whose lines move. Returns whether it has line breaks.
    fn push_part(&mut self, found: Part) -> Result<bool, AllocError> {
        let gap = part(self.sources.text, found.start, found.end);
        if matches!(gap.as_bytes(), [] | [b' ']) {
            self.gaps.push_space(!gap.is_empty())?;
            return Ok(false);
        }
        let lines = breaks_before_spaces(gap).unwrap_or(0);
        if lines > 0 {
            self.gaps
                .push_breaks(lines, gap.len().saturating_sub(lines), found.shift)?;
            return Ok(true);
        }
        let has_breaks = breaks(gap);
        if has_breaks || self.gaps.have_comments() {
            self.gaps.push_text(gap, found.shift)?;
            return Ok(has_breaks);
        }
        self.gaps.push_part(found.start, found.end)?;
        Ok(false)
    }

    // Chooses the gap before a token that is not beside the one before it.
    #[inline(never)]
    fn pass_apart(&mut self, last: Option<Place>, next: Option<Place>) -> Result<(), AllocError> {
        let before = self.gaps.line;
        let number = self.gaps.pieces.len();
        let ended = if self.moved.is_again() {
            self.end_template(last)?
        } else {
            None
        };
        let choice = if number == 0 || self.gaps.len() > self.most {
            Choice::Spaced
        } else {
            self.between(last, next)
        };
        self.close_before(last, next, choice, ended)?;
        let begins_line = match choice {
            Choice::Source(found) => self.push_part(found)?,
            Choice::Line(indentation) => {
                self.gaps.push_line(indentation)?;
                true
            }
            _ => if number == 0 {
                self.gaps.push_space(false)?;
                self.begins_line
            } else {
                let space = self.spacer.space_before(number);
                self.gaps.push_space(!space.is_empty())?;
                false
            },
        };
        match next {
            Some(next) => self.follow(last, next, before, begins_line),
            None => Ok(()),
        }
    }

    // Adds white space or comments between two tokens as the gap, which has at least two bytes. Returns whether it is one.
    #[inline(never)]
    fn push_beside(&mut self, gap: &str, end: usize, start: usize) -> Result<bool, AllocError> {
        let lines = breaks_before_spaces(gap).unwrap_or(0);
        if lines > 0 {
            let shift = self.shift_at(start);
            self.gaps
                .push_breaks(lines, gap.len().saturating_sub(lines), shift)?;
            return Ok(true);
        }
        if gap.len() > MOST_GAP || !(is_white(gap) || is_gap(gap)) {
            return Ok(false);
        }
        if breaks(gap) {
            let shift = self.shift_at(start);
            self.gaps.push_text(gap, shift)?;
        } else {
            self.gaps.push_part(end, start)?;
        }
        Ok(true)
    }

    // Adds the part of the source between two tokens as the gap, if it is one. Returns whether it is.
    fn pass_beside(&mut self, end: usize, start: usize) -> Result<bool, AllocError> {
        let len = start.saturating_sub(end);
        if len == 0 {
            self.gaps.push_space(false)?;
            return Ok(true);
        }
        let source = self.sources.text;
        if len == 1 && byte_at(source, end) == Some(b' ') {
            self.gaps.push_space(true)?;
            return Ok(true);
        }
        // (the first byte or the last one shows most texts that are no gap)
        if !may_be_blank(source, end) || !may_be_blank(source, start.saturating_sub(1)) {
            return Ok(false);
        }
        let gap = part(source, end, start);
        if gap.is_empty() {
            return Ok(false);
        }
        self.push_beside(gap, end, start)
    }

    // Returns whether a block begins with a token, whatever was written before.
    fn begins_block(&self, last: Place, next: Place) -> bool {
        let source = self.sources.text;
        if byte_at(source, next.start as usize) != Some(b'{') {
            return false;
        }
        match byte_before(source, last.end as usize) {
            Some(b')') => true,
            Some(byte) => is_of_name(byte)
                && part(source, last.start as usize, last.end as usize) != "use",
            None => false,
        }
    }

    // Adds the gap before the next token.
    fn push(&mut self, last: Option<Place>, next: Option<Place>) -> Result<(), AllocError> {
        if let (Some(last), Some(next)) = (last, next) {
            let (end, start) = (last.end as usize, next.start as usize);
            if end <= start && self.gaps.len() <= self.most && self.pass_beside(end, start)? {
                return Ok(());
            }
        }
        self.pass_apart(last, next)
    }

    /// Chooses the gap before the next token.
    pub(crate) fn pass(&mut self, token: Written) -> Result<(), AllocError> {
        let number = self.gaps.pieces.len();
        let (last, next) = (self.last, token.place);
        self.last = next;
        self.push(last, next)?;
        let begins_block = match (last, next) {
            (Some(last), Some(next)) => self.begins_block(last, next),
            _ => false,
        };
        self.spacer
            .go_over(token.len as usize, number, begins_block);
        Ok(())
    }
}
