//! What the source says of the gap between two tokens that are not side by side in it.
use crate::beside::{
    blank_end, breaks, byte_at, byte_before, closes, ends_call, line_breaks, name_start, opens,
    part, space_start,
};
use crate::choosing::{Choice, Chooser, Part};
use crate::indenting::Shift;
use crate::places::Place;
use crate::templates::Repetition;

// Returns whether a byte begins what a call replaces: a name, a path or an attribute.
fn begins_call(byte: u8) -> bool {
    byte.is_ascii_alphabetic() || byte >= 128 || matches!(byte, b'_' | b':' | b'#')
}

// Returns a gap whose lines are so many bytes further indented.
fn further(choice: Choice, beyond: usize) -> Choice {
    match choice {
        Choice::Source(found) => Choice::Source(Part {
            start: found.start,
            end: found.end,
            shift: Shift {
                from: found.shift.from,
                to: found.shift.to.saturating_add(beyond),
            },
        }),
        choice => choice,
    }
}

impl<'c, 's> Chooser<'c, 's> {
    // Returns the gap before a round of a repetition. `before` is where the gap before the repetition begins.
    fn round(&self, repetition: Repetition, before: usize, is_first: bool) -> Choice {
        let outside = part(self.sources.text, before, repetition.start);
        let inside = part(self.sources.text, repetition.inner, repetition.first);
        if repetition.breaks && !(breaks(outside) && inside.trim().is_empty()) {
            return self.moved_part(repetition.inner, repetition.first, repetition.first);
        }
        if breaks(outside) {
            further(
                self.moved_part(before, repetition.start, repetition.start),
                repetition.beyond,
            )
        } else if is_first {
            self.first_round(repetition, before)
        } else if repetition.has_lines {
            self.line_at(repetition.start)
        } else {
            Choice::Spaced
        }
    }

    // Returns the gap before the first round, in the line of what is before the repetition.
    fn first_round(&self, repetition: Repetition, before: usize) -> Choice {
        match byte_at(self.sources.text, repetition.first) {
            Some(b',' | b';') => Choice::Spaced,
            _ => self.moved_part(before, repetition.start, repetition.start),
        }
    }

    // Returns the gap before a round of a repetition that is not the first.
    fn again(&self, repetition: Repetition) -> Choice {
        let before = space_start(self.sources.text, repetition.start);
        self.round(repetition, before, false)
    }

    // Returns whether a place is behind a repetition, in its template.
    fn is_behind(&self, repetition: Repetition, next: Place) -> bool {
        let templates = &self.sources.templates;
        let at = next.start as usize;
        repetition.end <= at && templates.template_at(at) == templates.template_at(repetition.start)
    }

    // Returns whether a token is behind a call in another template than that of a repetition.
    fn is_behind_call(&self, repetition: Repetition, next: Place) -> bool {
        let source = self.sources.text;
        let templates = &self.sources.templates;
        let at = next.start as usize;
        let number = templates.template_at(at);
        number.is_some()
            && number != templates.template_at(repetition.start)
            && byte_before(source, space_start(source, at)).is_some_and(ends_call)
    }

    // Chooses by the end of a round, whose last token is followed by the closing bracket of a repetition.
    fn behind_round(&self, repetition: Repetition, next: Option<Place>) -> Choice {
        if next.is_some_and(|it| self.is_behind(repetition, it)) {
            let end = blank_end(self.sources.text, repetition.end);
            if breaks(part(self.sources.text, repetition.end, end)) {
                return self.moved_part(repetition.end, end, end);
            }
            return Choice::Open;
        }
        match next {
            Some(place)
                if repetition.close < place.start as usize
                    && (place.start as usize) < repetition.end => { Choice::Spaced }
            Some(place) if self.is_behind_call(repetition, place) => Choice::Open,
            _ => self.again(repetition),
        }
    }

    // Chooses the gap in place of a repetition without rounds, which has a gap from a place to another before it: that gap or the one behind
    // the repetition, as far as it precedes the second token.
    fn over(&self, start: usize, end: usize, next: Place) -> Choice {
        let source = self.sources.text;
        let stop = next.start as usize;
        let from = space_start(source, stop);
        let ahead = part(source, start, end);
        let behind = part(source, from, stop);
        let is_closed = byte_at(source, stop).is_some_and(closes);
        if is_closed && byte_before(source, start).is_some_and(opens) {
            return Choice::Spaced;
        }
        let takes_behind = if breaks(behind) {
            is_closed || line_breaks(ahead) <= line_breaks(behind)
        } else {
            !breaks(ahead) && behind.len() < ahead.len()
        };
        if takes_behind {
            self.moved_part(from, stop, stop)
        } else {
            self.moved_part(start, end, end)
        }
    }

    // Chooses by the repetition that follows the first token, from one place to another behind it.
    fn before_repetition(&self, start: usize, end: usize, next: Option<Place>) -> Choice {
        let Some(repetition) = self.sources.templates.begun_before(end.saturating_add(1)) else {
            return Choice::Open;
        };
        match next {
            Some(next) if self.is_behind(repetition, next) => self.over(start, end, next),
            _ => self.round(repetition, start, true),
        }
    }

    // Chooses by what is behind the first token in its template.
    fn behind(&self, last: Place, next: Option<Place>) -> Choice {
        let source = self.sources.text;
        let templates = &self.sources.templates;
        if templates.template_at(last.start as usize).is_none() {
            return Choice::Open;
        }
        let start = last.end as usize;
        let end = blank_end(source, start);
        let follows = byte_at(source, end.saturating_add(1));
        match byte_at(source, end) {
            Some(b'$') if follows == Some(b'(') => self.before_repetition(start, end, next),
            Some(b'$') => self.moved_part(start, end, end),
            Some(b')') => match templates.closed_before(end.saturating_add(1)) {
                Some(repetition) if repetition.close == end => self.behind_round(repetition, next),
                _ => Choice::Open,
            },
            _ => match templates.closed_before(start) {
                Some(repetition) if start <= repetition.end => self.again(repetition),
                _ => Choice::Open,
            },
        }
    }

    /// Returns whether what a call becomes begins with the second token, and the first is before that call in another template.
    pub(crate) fn begins_other(&self, last: Option<Place>, next: Place) -> bool {
        let Some(last) = last else {
            return false;
        };
        let source = self.sources.text;
        let templates = &self.sources.templates;
        let number = templates.template_at(last.start as usize);
        number.is_some()
            && number != templates.template_at(next.start as usize)
            && byte_at(source, blank_end(source, last.end as usize)).is_some_and(begins_call)
    }

    // Chooses by what is before the second token in its template.
    fn before(&self, last: Option<Place>, next: Place) -> Choice {
        let source = self.sources.text;
        let templates = &self.sources.templates;
        let end = next.start as usize;
        if templates.template_at(end).is_none() {
            return Choice::Open;
        }
        let start = space_start(source, end);
        match byte_before(source, start) {
            Some(b'(') if byte_before(source, start.saturating_sub(1)) == Some(b'$') =>
                match templates.begun_before(start) {
                    Some(repetition) if !self.begins_other(last, next) => self.again(repetition),
                    _ => Choice::Open,
                },
            Some(b'*' | b'+' | b'?')
                if templates
                    .closed_before(start)
                    .is_some_and(|it| it.end == start) => { self.moved_part(start, end, end) }
            _ => {
                let name = name_start(source, start);
                if name < start && byte_before(source, name) == Some(b'$') {
                    return self.moved_part(start, end, end);
                }
                Choice::Open
            }
        }
    }

    // Chooses by a call that was replaced behind the first token, or before the second.
    fn beside_call(&self, last: Option<Place>, next: Option<Place>) -> Choice {
        let source = self.sources.text;
        let templates = &self.sources.templates;
        if let Some(place) = last {
            let start = place.end as usize;
            let end = blank_end(source, start);
            if templates.template_at(place.start as usize).is_some()
                && byte_at(source, end).is_some_and(begins_call)
            {
                return self.moved_part(start, end, end);
            }
        }
        if let Some(place) = next {
            let end = place.start as usize;
            let start = space_start(source, end);
            if templates.template_at(end).is_some()
                && byte_before(source, start).is_some_and(ends_call)
            {
                return self.moved_part(start, end, end);
            }
        }
        if self.is_behind_item(last, next) {
            return Choice::Line(self.gaps.line);
        }
        Choice::Spaced
    }

    // Returns whether an item of a template ends with the first of two tokens, and the second begins an attribute of the input or a template.
    fn is_behind_item(&self, last: Option<Place>, next: Option<Place>) -> bool {
        let (Some(last), Some(next)) = (last, next) else {
            return false;
        };
        let source = self.sources.text;
        let templates = &self.sources.templates;
        let (end, start) = (last.start as usize, next.start as usize);
        if !matches!(byte_at(source, end), Some(b'}' | b';'))
            || templates.template_at(end).is_none()
        {
            return false;
        }
        match templates.template_at(start) {
            None => byte_at(source, start) == Some(b'#'),
            Some(number) => {
                byte_at(source, start).is_some_and(begins_call)
                    && templates
                        .templates
                        .get(number)
                        .is_some_and(|it| it.first == start)
            }
        }
    }

    // Returns whether an attribute before a call ends with the first of two tokens, and the second begins what the call becomes.
    fn is_item_behind_attribute(&self, last: Option<Place>, next: Option<Place>) -> bool {
        let (Some(last), Some(next)) = (last, next) else {
            return false;
        };
        let source = self.sources.text;
        let templates = &self.sources.templates;
        let (end, start) = (last.start as usize, next.start as usize);
        byte_at(source, end) == Some(b']')
            && byte_at(source, start).is_some_and(begins_call)
            && byte_at(source, blank_end(source, last.end as usize)).is_some_and(begins_call)
            && templates.template_at(end).is_none()
            && templates.template_at(start).is_some()
    }

    /// Chooses the gap between two tokens that are not side by side in the source.
    pub(crate) fn between(&self, last: Option<Place>, next: Option<Place>) -> Choice {
        match self.beside_brace(last, next) {
            Choice::Open => {}
            choice => return choice,
        }
        if self.is_item_behind_attribute(last, next) {
            return Choice::Line(self.gaps.line);
        }
        if let Some(last) = last {
            match self.behind(last, next) {
                Choice::Open => {}
                choice => return choice,
            }
        }
        if let Some(next) = next {
            match self.before(last, next) {
                Choice::Open => {}
                choice => return choice,
            }
        }
        self.beside_call(last, next)
    }
}
