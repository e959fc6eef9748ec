//! The line breaks of an input beside the braces of a template.
use crate::beside::{
    blank_end, breaks, byte_at, byte_before, closes, indentation, name_end, name_start, opens,
    part, space_start,
};
use crate::choosing::{Choice, Chooser, Part};
use crate::indenting::Shift;
use crate::places::Place;

impl<'c, 's> Chooser<'c, 's> {
    // Returns whether a token is this brace of a template, and another one comes from the input of a call.
    fn are_brace_and_input(&self, brace: Place, sign: u8, input: Place) -> bool {
        let source = self.sources.text;
        let templates = &self.sources.templates;
        let start = brace.start as usize;
        byte_at(source, start) == Some(sign)
            && templates.template_at(start).is_some()
            && templates.template_at(input.start as usize).is_none()
    }

    // Returns where a variable or a repetition of one ends that begins at a place.
    fn variable_end(&self, at: usize) -> Option<usize> {
        let source = self.sources.text;
        if byte_at(source, at) != Some(b'$') {
            return None;
        }
        let inside = at.saturating_add(1);
        if byte_at(source, inside) != Some(b'(') {
            return Some(name_end(source, inside));
        }
        let repetition = self.sources.templates.begun_before(inside)?;
        let name = repetition.first.saturating_add(1);
        let is_variable = byte_at(source, repetition.first) == Some(b'$')
            && byte_at(source, name) != Some(b'(')
            && blank_end(source, name_end(source, name)) == repetition.close
            && repetition.end == repetition.close.saturating_add(2);
        if is_variable {
            Some(repetition.end)
        } else {
            None
        }
    }

    // Returns where a variable or a repetition of one begins that ends at a place.
    fn variable_start(&self, at: usize) -> Option<usize> {
        let source = self.sources.text;
        let start = match self.sources.templates.closed_before(at) {
            Some(repetition) if repetition.end == at => repetition.start,
            _ => name_start(source, at).checked_sub(1)?,
        };
        if self.variable_end(start) == Some(at) {
            Some(start)
        } else {
            None
        }
    }

    // Chooses the line break of the input behind a `{` of a template, if the input has one behind a bracket.
    fn behind_brace(&self, last: Place, next: Place) -> Option<Part> {
        let source = self.sources.text;
        if !self.are_brace_and_input(last, b'{', next) {
            return None;
        }
        let variable = self.variable_end(blank_end(source, last.end as usize))?;
        let end = next.start as usize;
        let start = space_start(source, end);
        if byte_at(source, blank_end(source, variable)) != Some(b'}')
            || !breaks(part(source, start, end))
            || !byte_before(source, start).is_some_and(opens)
        {
            return None;
        }
        Some(Part {
            start,
            end,
            shift: Shift {
                from: indentation(source, start),
                to: self.gaps.line,
            },
        })
    }

    // Chooses the line break of the input before a `}` of a template, if the input has one before a bracket.
    fn before_brace(&self, last: Place, next: Place) -> Option<Part> {
        let source = self.sources.text;
        if !self.are_brace_and_input(next, b'}', last) {
            return None;
        }
        let variable = self.variable_start(space_start(source, next.start as usize))?;
        let start = last.end as usize;
        let end = blank_end(source, start);
        if byte_before(source, space_start(source, variable)) != Some(b'{')
            || !breaks(part(source, start, end))
            || !byte_at(source, end).is_some_and(closes)
        {
            return None;
        }
        Some(Part {
            start,
            end,
            shift: self.input_shift(),
        })
    }

    /// Chooses by line breaks of the input beside a brace of a template, between which the template has only a variable.
    pub(crate) fn beside_brace(&self, last: Option<Place>, next: Option<Place>) -> Choice {
        let (Some(last), Some(next)) = (last, next) else {
            return Choice::Open;
        };
        if last == next {
            return Choice::Spaced;
        }
        match self.behind_brace(last, next) {
            Some(found) => Choice::Source(found),
            None => match self.before_brace(last, next) {
                Some(found) => Choice::Source(found),
                None => Choice::Open,
            },
        }
    }
}
