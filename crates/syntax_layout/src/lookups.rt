//! What is at a place among the templates and repetitions of a source.
use crate::templates::{Repetition, Templates};

/// A place is looked for in so many repetitions, or templates, around it.
pub(crate) const MOST_NESTED: usize = 64;

impl Templates {
    /// Returns the number of the innermost template that a place is in.
    pub fn template_at(&self, at: usize) -> Option<usize> {
        if !self.borders.is_empty() {
            return self.inner_template_at(at);
        }
        let number = self
            .templates
            .as_slice()
            .partition_point(|template| template.end <= at);
        match self.templates.get(number) {
            Some(template) if template.start <= at => Some(number),
            _ => None,
        }
    }

    // Returns the same, by the borders of the templates.
    fn inner_template_at(&self, at: usize) -> Option<usize> {
        let count = self
            .borders
            .as_slice()
            .partition_point(|border| border.start <= at);
        self.borders.get(count.checked_sub(1)?)?.number
    }

    /// Returns the repetition whose closing bracket is the last before a place.
    pub fn closed_before(&self, at: usize) -> Option<Repetition> {
        let all = self.repetitions.as_slice();
        let count = self.closed.as_slice().partition_point(|number| {
            match all.get(*number) {
                Some(repetition) => repetition.close < at,
                None => false,
            }
        });
        let number = *self.closed.get(count.checked_sub(1)?)?;
        all.get(number).copied()
    }

    /// Returns the repetition that begins last before a place.
    pub fn begun_before(&self, at: usize) -> Option<Repetition> {
        let all = self.repetitions.as_slice();
        let count = all.partition_point(|repetition| repetition.start < at);
        all.get(count.checked_sub(1)?).copied()
    }

    /// Returns how many bytes the line of a place is further indented than the outermost repetition around it.
    pub fn deeper_at(&self, at: usize) -> usize {
        let mut next = self.begun_before(at);
        for _ in 0..MOST_NESTED {
            let Some(repetition) = next else {
                return 0;
            };
            if at <= repetition.close {
                return repetition.deeper;
            }
            next = match repetition.outer {
                Some(number) => self.repetitions.get(number).copied(),
                None => None,
            };
        }
        0
    }
}
