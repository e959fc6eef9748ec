//! The number of errors and warnings.
ghost use Rattle.std.specs.Prelude.{◌≡◌, ◌+◌, ◌^◌, ◌<◌, ◌++◌, IfOk, codes, nat_lt, string_bytes};
ghost use Rattle.std.specs.Process.{exit_status};
ghost use Rattle.app_cli.specs.Counts.{all_counted, counted, counts_of, level_of, message_of, status_of, word};

use expand_text::Finding;
use std::alloc::{AllocError, Global};
use std::process::ExitCode;
use syntax_diagnostic::Level;

/// The number of errors and warnings.
#[derive(Clone, Copy)]
pub struct Counts {
    /// The number of errors.
    pub errors: usize,
    /// The number of warnings.
    pub warnings: usize,
}

// Returns the word for that number.
fn word<'x>(count: usize, one: &'x str, many: &'x str) -> &'x str
    ensures { result.now ≡ word count one.entry.now many.entry.now }
{
    if count == 1 { one } else { many }
}

/// Returns the number and its word.
pub fn counted(alloc: Global, count: usize, one: &str, many: &str) -> Result<String, AllocError>
    ensures { IfOk result (λ text. string_bytes text ≡ counted count one.now many.now) }
{
    let mut text = count.to_string(alloc)?;
    text.push_str(" ")?;
    text.push_str(word(count, one, many))?;
    Ok(text)
}

// Returns both texts, joined by `and`.
fn both(alloc: Global, errors: &str, warnings: &str) -> Result<String, AllocError>
    ensures { IfOk result (λ text. string_bytes text ≡ errors.now ++ codes " and " ++ warnings.now) }
{
    format!(in alloc; "{errors} and {warnings}")
}

impl Counts {
    /// No errors and no warnings.
    pub const NONE: Counts = Counts {
        errors: 0,
        warnings: 0,
    };

    /// One error.
    pub const ONE_ERROR: Counts = Counts {
        errors: 1,
        warnings: 0,
    };

    /// Returns the counts of the findings.
    pub fn of(findings: &[Finding]) -> Counts
        ensures { result ≡ counts_of findings.now }
    {
        Counts {
            errors: findings.iter().filter(|it| !it.fault.is_warning()).count(),
            warnings: findings.iter().filter(|it| it.fault.is_warning()).count(),
        }
    }

    /// Returns the sums of both, up to the largest 64-bit number.
    pub fn plus(self, other: Counts) -> Counts
        ensures errors { self.errors + other.errors < 2 ^ 64 → result.errors ≡ self.errors + other.errors }
        ensures warnings { self.warnings + other.warnings < 2 ^ 64 → result.warnings ≡ self.warnings + other.warnings }
    {
        Counts {
            errors: self.errors.saturating_add(other.errors),
            warnings: self.warnings.saturating_add(other.warnings),
        }
    }

    /// Returns whether there is an error.
    pub fn has_errors(self) -> bool
        ensures { result ≡ nat_lt 0 self.errors }
    {
        self.errors > 0
    }

    /// Returns the exit status: 1 if there is an error, else 0.
    pub fn status(self) -> ExitCode
        ensures { exit_status result ≡ status_of self }
    {
        ExitCode::from(u8::from(self.has_errors()))
    }

    /// Returns the gravest level, if there is one.
    pub fn level(self) -> Option<Level>
        ensures { result ≡ level_of self }
    {
        if self.has_errors() {
            Some(Level::Error)
        } else if self.warnings > 0 {
            Some(Level::Warning)
        } else {
            None
        }
    }

    // Returns the numbers of errors and warnings, if there are any.
    fn all_counted(self, alloc: Global) -> Result<String, AllocError>
        ensures { IfOk result (λ text. string_bytes text ≡ all_counted self) }
    {
        let errors = counted(alloc, self.errors, "error", "errors")?;
        if self.warnings == 0 {
            return Ok(errors);
        }
        let warnings = counted(alloc, self.warnings, "warning", "warnings")?;
        if self.errors == 0 {
            return Ok(warnings);
        }
        both(alloc, errors.as_str(), warnings.as_str())
    }

    /// Returns the last message of a report.
    pub fn message(self, alloc: Global) -> Result<String, AllocError>
        ensures { IfOk result (λ text. string_bytes text ≡ message_of self) }
    {
        let all = self.all_counted(alloc)?;
        format!(in alloc; "found {all}")
    }
}
