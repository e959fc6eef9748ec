//! The indentation to which the lines of each template move.
use std::alloc::{AllocError, Global};
use std::collections::HashMap;

// The template that ends is looked for among so many.
const MOST_PASSED: usize = 64;

// A template that was entered again, and the indentation to which its lines moved before.
#[derive(Clone, Copy)]
struct Level {
    number: usize,
    before: usize,
}

/// The indentations, by the numbers of the templates.
#[derive(Drop)]
pub(crate) struct Moved {
    // The template that was entered first.
    first: Option<(usize, usize)>,
    // The other ones.
    others: HashMap<usize, usize>,
    // The templates that were entered again and did not end, as those of macros that call themselves.
    again: Vec<Level>,
}

impl Moved {
    /// Returns no indentations.
    pub(crate) fn new(alloc: Global) -> Moved {
        Moved {
            first: None,
            others: HashMap::new(alloc),
            again: Vec::new(alloc),
        }
    }

    /// Returns the indentation to which the lines of a template move, if it was entered.
    pub(crate) fn get(&self, number: usize) -> Option<usize> {
        match self.first {
            Some((first, to)) if first == number => Some(to),
            _ => self.others.get(&number).copied(),
        }
    }

    // Remembers the indentation to which the lines of a template move.
    fn set(&mut self, number: usize, to: usize) -> Result<(), AllocError> {
        match self.first {
            Some((first, _)) if first != number => {
                self.others.insert(number, to)?;
            }
            _ => self.first = Some((number, to)),
        }
        Ok(())
    }

    /// Enters a template, whose lines move to an indentation.
    pub(crate) fn enter(&mut self, number: usize, to: usize) -> Result<(), AllocError> {
        if let Some(before) = self.get(number) {
            self.again.push(Level { number, before })?;
        }
        self.set(number, to)
    }

    /// Returns whether a template was entered again and did not end.
    pub(crate) fn is_again(&self) -> bool {
        !self.again.is_empty()
    }

    // Returns where a template is among those that were entered again: the last time, if that is near the end.
    fn position(&self, number: usize) -> Option<usize> {
        let count = self.again.len();
        for passed in 0..MOST_PASSED {
            let at = count.checked_sub(passed)?.checked_sub(1)?;
            match self.again.get(at) {
                Some(level) if level.number == number => return Some(at),
                _ => {}
            }
        }
        None
    }

    /// Ends a template. If it was entered again, its lines then move as before that. Returns the indentation to which they move.
    pub(crate) fn end(&mut self, number: usize) -> Result<Option<usize>, AllocError> {
        let Some(at) = self.position(number) else {
            return Ok(self.get(number));
        };
        for _ in at..self.again.len() {
            if let Some(level) = self.again.pop() {
                self.set(level.number, level.before)?;
            }
        }
        Ok(self.get(number))
    }
}
