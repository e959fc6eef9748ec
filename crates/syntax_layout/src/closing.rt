//! The comments at the end of a template, behind its last token.
//!
//! They come along if what the template becomes ends its line. The last one becomes a comment in `/* */` if no line break follows it.
use crate::beside::{
    MOST_GAP, blank_end, breaks, byte_at, byte_before, ends_call, ends_line, name_end, part,
    space_start, tokens,
};
use crate::choosing::{Choice, Chooser};
use crate::indenting::Shift;
use crate::kinds::{is_blank, is_line};
use crate::places::Place;
use crate::templates::Template;
use memchr::memmem;
use std::alloc::AllocError;
use syntax_lex::TokenKind;

// So many variables, repetitions and `;` are passed at the end of a template, in as many bytes as a gap may have.
const MOST_PIECES: usize = 64;

// Returns where a call ends that begins at a place: behind the bracket that closes the first one behind a `!`.
fn call_end(source: &str, begin: usize) -> usize {
    let mut at = begin;
    let mut depth: usize = 0;
    let mut is_behind_bang = false;
    let mut is_call = false;
    for token in tokens(part(source, begin, source.len())) {
        at = at.saturating_add(token.len as usize);
        match token.kind {
            TokenKind::OpenParen | TokenKind::OpenBrace | TokenKind::OpenBracket => {
                if depth == 0 {
                    is_call = is_behind_bang;
                }
                depth = depth.saturating_add(1);
            }
            TokenKind::CloseParen | TokenKind::CloseBrace | TokenKind::CloseBracket => {
                depth = depth.saturating_sub(1);
                if depth == 0 && is_call {
                    return at;
                }
            }
            _ => {}
        }
        if !is_blank(token.kind) {
            is_behind_bang = token.kind == TokenKind::Bang;
        }
    }
    at
}

// Returns what precedes the last comment, and the text of that one, if it is a comment to the end of a line; or else all comments.
fn split_last(comments: &str) -> (&str, Option<&str>) {
    let mut start: usize = 0;
    let mut end: usize = 0;
    let mut ends_in_line = false;
    for token in tokens(comments) {
        start = end;
        end = end.saturating_add(token.len as usize);
        ends_in_line = is_line(token.kind);
    }
    if !ends_in_line {
        return (comments, None);
    }
    let text = part(comments, start.saturating_add(2), comments.len());
    (part(comments, 0, start), Some(text.trim()))
}

// Returns whether a text has signs that begin or end a comment.
fn has_signs(text: &str) -> bool {
    let bytes = text.as_bytes();
    memmem::find(bytes, b"*/").is_some() || memmem::find(bytes, b"/*").is_some()
}

impl<'c, 's> Chooser<'c, 's> {
    // Returns where a variable or a repetition ends that begins at a place, or a repetition whose closing bracket is there. A `;` counts too,
    // since an expression has none at its end.
    fn piece_end(&self, at: usize) -> Option<usize> {
        let source = self.sources.text;
        let templates = &self.sources.templates;
        let inside = at.saturating_add(1);
        match (byte_at(source, at), byte_at(source, inside)) {
            (Some(b')'), _) => match templates.closed_before(inside) {
                Some(repetition) if repetition.close == at => Some(repetition.end),
                _ => None,
            },
            (Some(b'$'), Some(b'(')) => match templates.begun_before(inside) {
                Some(repetition) if repetition.start == at => Some(repetition.end),
                _ => None,
            },
            (Some(b'$'), _) => Some(name_end(source, inside)),
            (Some(b';'), _) => Some(inside),
            _ => None,
        }
    }

    // Returns whether a template has only variables, repetitions and `;` behind a place.
    fn has_only_pieces(&self, start: usize, template: Template) -> bool {
        let mut at = start;
        for _ in 0..MOST_PIECES {
            if at >= template.last {
                return at == template.last;
            }
            match self.piece_end(blank_end(self.sources.text, at)) {
                Some(end) => at = end,
                None => return false,
            }
        }
        false
    }

    // Returns whether a token is behind a call in another template than that of a number.
    fn is_behind_other(&self, number: usize, next: Place) -> bool {
        let source = self.sources.text;
        let at = next.start as usize;
        match self.sources.templates.template_at(at) {
            Some(other) => other != number
                && byte_before(source, space_start(source, at)).is_some_and(ends_call),
            None => false,
        }
    }

    // Returns the template with comments at its end that ends with a token. `next` is the token behind it, if there is one.
    #[inline(always)]
    fn ended(&self, last: Place, next: Option<Place>) -> Option<Template> {
        if !self.sources.templates.have_closing || self.gaps.len() > self.most {
            return None;
        }
        self.commented(last, next)
    }

    // Returns the same, in a source in which a template has comments at its end.
    #[inline(never)]
    fn commented(&self, last: Place, next: Option<Place>) -> Option<Template> {
        let templates = &self.sources.templates;
        let inside = templates.template_at(last.start as usize);
        let (number, from) = match inside {
            Some(number) => (number, last.end as usize),
            None => (self.here.0, self.before_input),
        };
        let template = templates.templates.get(number).copied()?;
        let is_near = from >= template.start && template.last.saturating_sub(from) <= MOST_GAP;
        if template.closing <= template.last || !is_near {
            return None;
        }
        let is_last = inside.is_some() && from == template.last;
        let may_end = match next {
            Some(next) => self.is_behind_other(number, next),
            None => true,
        };
        if is_last || may_end && self.has_only_pieces(from, template) {
            Some(template)
        } else {
            None
        }
    }

    // Begins a gap with the comments at the end of a template, whose lines move as `ended` says, if that is known.
    fn push_closing(
        &mut self,
        template: Template,
        ends_line: bool,
        ended: Option<Shift>,
    ) -> Result<(), AllocError> {
        let comments = part(self.sources.text, template.last, template.closing);
        let shift = ended.unwrap_or(self.shift_at(template.last));
        if ends_line {
            return self.gaps.push_comments(comments, shift, None);
        }
        let (lines, last) = split_last(comments);
        if last.is_some_and(has_signs) {
            return Ok(());
        }
        self.gaps.push_comments(lines, shift, last)
    }

    /// Begins the gap before a token with the comments at the end of a template, if it ends with the token before and with its line. `ended` is
    /// how the lines of that template moved, if it is left.
    pub(crate) fn close_before(
        &mut self,
        last: Option<Place>,
        next: Option<Place>,
        choice: Choice,
        ended: Option<Shift>,
    ) -> Result<(), AllocError> {
        let (Some(last), Some(next)) = (last, next) else {
            return Ok(());
        };
        let Some(template) = self.ended(last, Some(next)) else {
            return Ok(());
        };
        let source = self.sources.text;
        let ends = match choice {
            Choice::Source(found) => breaks(part(source, found.start, found.end)),
            Choice::Line(_) => true,
            _ => false,
        };
        if ends || ends_line(source, next.start as usize) {
            return self.push_closing(template, ends, ended);
        }
        Ok(())
    }

    /// Adds the gap behind the last token of what replaces a call that begins at a place: the comments at the end of its template, if the
    /// call ends its line.
    pub(crate) fn close(&mut self, begin: usize) -> Result<(), AllocError> {
        let Some(last) = self.last else {
            return Ok(());
        };
        match self.ended(last, None) {
            Some(template) if ends_line(self.sources.text, call_end(self.sources.text, begin)) => {
                self.push_closing(template, false, None)?;
                self.gaps.push_space(false)
            }
            _ => Ok(()),
        }
    }
}
