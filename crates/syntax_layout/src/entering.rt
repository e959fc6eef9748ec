//! The templates that are entered and left, token by token, and how far their lines move.
use crate::beside::{begins_macro, byte_at, part};
use crate::choosing::{Chooser, Input};
use crate::indenting::Shift;
use crate::lookups::MOST_NESTED;
use crate::places::Place;
use crate::templates::Template;
use std::alloc::AllocError;

impl<'c, 's> Chooser<'c, 's> {
    /// Returns the innermost template that was entered of this one and those around it, and the indentation to which its lines move.
    pub(crate) fn around(&self, number: usize) -> (usize, usize) {
        let mut next = number;
        for _ in 0..MOST_NESTED {
            if let Some(to) = self.moved.get(next) {
                return (next, to);
            }
            match self.outer(next) {
                Some(outer) => next = outer,
                None => return (next, self.gaps.line),
            }
        }
        (next, self.gaps.line)
    }

    // Returns the template around another one.
    fn outer(&self, number: usize) -> Option<usize> {
        self.sources.templates.templates.get(number)?.outer
    }

    // Adds the comments at the beginning of a template to the gap before its first token.
    fn open(&mut self, template: Template) -> Result<(), AllocError> {
        let gap = part(self.sources.text, template.comment, template.first);
        let shift = Shift {
            from: template.indent,
            to: self.gaps.line,
        };
        self.gaps.extend(gap, shift)
    }

    // Returns whether the second token is the first of a template, which may begin with a repetition.
    fn begins(&self, last: Option<Place>, next: Place, number: usize, template: Template) -> bool {
        let at = next.start as usize;
        if template.first == at {
            return true;
        }
        if byte_at(self.sources.text, template.first) != Some(b'$') {
            return false;
        }
        match self.sources.templates.begun_before(at) {
            Some(repetition) => repetition.start == template.first
                && repetition.first == at
                && (self.moved.get(number).is_none() || self.begins_other(last, next)),
            None => false,
        }
    }

    // Remembers where a token is in a template, if the input follows it and a template has comments at its end.
    fn leave_template(&mut self, last: Option<Place>) {
        let templates = &self.sources.templates;
        match last {
            Some(last)
                if templates.have_closing && templates.template_at(last.start as usize).is_some() =>
                {
                    self.before_input = last.end as usize;
                }
            _ => {}
        }
    }

    // Remembers to which indentation the lines of a template move that is entered.
    fn enter(&mut self, number: usize, to: usize) -> Result<(), AllocError> {
        self.here = (number, to);
        self.moved.enter(number, to)
    }

    // Enters a template behind its begin. If that is a call, its lines move as those of what the call becomes; `before` is the indentation of
    // the line that was written.
    fn enter_within(
        &mut self,
        number: usize,
        template: Template,
        before: usize,
    ) -> Result<(), AllocError> {
        match self.moved.get(number) {
            Some(to) => {
                self.here = (number, to);
                Ok(())
            }
            // it is part of a definition that the template around it writes
            None if template.outer.is_some() => Ok(()),
            None if begins_macro(self.sources.text, template.first) => self.enter(
                number, self.begun,
            ),
            None => self.enter(number, before),
        }
    }

    /// Remembers to which indentation the lines move that follow a token, which is not beside the one before it in the source. `before` is
    /// the indentation of the line before the gap. Adds to the gap the comments at the beginning of a template, if the token is its first.
    pub(crate) fn follow(
        &mut self,
        last: Option<Place>,
        next: Place,
        before: usize,
        begins_line: bool,
    ) -> Result<(), AllocError> {
        let at = next.start as usize;
        let Some(number) = self.sources.templates.template_at(at) else {
            self.input = Input {
                at: Some(at),
                to: self.gaps.line,
            };
            self.leave_template(last);
            return Ok(());
        };
        match self.sources.templates.templates.get(number).copied() {
            Some(template) if self.begins(last, next, number, template) => {
                if begins_line && template.comment < template.first {
                    self.open(template)?;
                }
                self.begun = self.gaps.line;
                self.enter(number, self.gaps.line)?;
            }
            _ if self.here.0 == number => {}
            Some(template) => self.enter_within(number, template, before)?,
            None => {}
        }
        Ok(())
    }

    /// Lets the lines of a template move as before it was entered, if it was entered again and ends with a token. Returns how they moved.
    pub(crate) fn end_template(
        &mut self,
        last: Option<Place>,
    ) -> Result<Option<Shift>, AllocError> {
        let templates = &self.sources.templates;
        let Some(last) = last else {
            return Ok(None);
        };
        let Some(number) = templates.template_at(last.start as usize) else {
            return Ok(None);
        };
        match templates.templates.get(number) {
            Some(template) if template.last == last.end as usize => {}
            _ => return Ok(None),
        }
        let shift = self.shift_at(last.start as usize);
        if let Some(to) = self.moved.end(number)? {
            if self.here.0 == number {
                self.here.1 = to;
            }
        }
        Ok(Some(shift))
    }
}
