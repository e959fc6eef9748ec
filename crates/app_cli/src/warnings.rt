//! The warnings about the definitions of a text.
use crate::counts::Counts;
use std::alloc::{AllocError, Global};
use syntax_diagnostic::{Diagnostic, Style, diagnostic_text};

// How many of these warnings are shown for a text at most.
const MOST_SHOWN: usize = 100;

/// The warnings of a text so far: the first 100 as a text, and how many there are.
#[derive(Drop)]
pub struct Warnings {
    /// The text, with an empty line behind each warning.
    pub texts: String,
    count: usize,
}

impl Warnings {
    /// Returns no warnings.
    pub fn none(alloc: Global) -> Warnings {
        Warnings {
            texts: String::new(alloc),
            count: 0,
        }
    }

    /// Returns the number of warnings.
    pub fn counts(&self) -> Counts {
        Counts {
            errors: 0,
            warnings: self.count,
        }
    }

    /// Adds a warning.
    pub fn add(
        &mut self,
        alloc: Global,
        style: Style,
        diagnostic: &Diagnostic<'_>,
    ) -> Result<(), AllocError> {
        self.count = self.count.saturating_add(1);
        if self.count > MOST_SHOWN {
            return Ok(());
        }
        let text = diagnostic_text(alloc, style, diagnostic)?;
        self.texts.push_str(text.as_str())?;
        Ok(self.texts.push_str("\n")?)
    }
}
