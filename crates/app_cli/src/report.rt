//! What the program writes of a text whose macros are expanded.
ghost use Rattle.std.specs.Prelude.{◌≡◌, IfOk, string_bytes, take};
ghost use Rattle.app_cli.specs.Reports.{most_shown, IsMoreText, IsReport, IsSummary};

use crate::counts::{Counts, counted};
use crate::diagnostics::diagnostics_text;
use app_files::plain_text;
use expand_text::{ExpandOptions, Expanded, Finding};
use std::alloc::{AllocError, Global};
use syntax_diagnostic::{Level, Style};

/// How many diagnostics of a text are shown at most.
const MOST_SHOWN: usize = 100;

/// What the program writes of a text, and its number of errors and warnings.
#[derive(Drop)]
pub struct Report {
    /// For standard output: the expanded text, unless there is an error.
    pub output: Option<String>,
    /// For standard error: a diagnostic for each of the first 100 findings, and how many more there are.
    pub diagnostics: String,
    /// The number of errors and warnings.
    pub counts: Counts,
}

// Returns the first findings, as many as are shown.
fn first_shown(findings: &[Finding]) -> &[Finding]
    ensures { result.now ≡ take most_shown findings.now }
{
    if findings.len() <= MOST_SHOWN {
        return findings;
    }
    &findings[..MOST_SHOWN]
}

// Returns how many diagnostics are not shown, as a text; an empty one if all are.
fn more_text(alloc: Global, style: Style, more: usize) -> Result<String, AllocError>
    ensures { IfOk result (λ text. IsMoreText style more (string_bytes text)) }
{
    if more == 0 {
        return Ok(String::new(alloc));
    }
    let one = "more diagnostic is not shown";
    let message = counted(alloc, more, one, "more diagnostics are not shown")?;
    let mut text = plain_text(alloc, style, Level::Warning, message.as_str())?;
    text.push_str("\n")?;
    Ok(text)
}

/// Returns the report on what the library found in a text of that name with these options.
pub fn report_on(
    alloc: Global,
    style: Style,
    name: &str,
    text: &str,
    options: ExpandOptions<'_>,
    found: Expanded,
) -> Result<Report, AllocError>
    ensures { IfOk result (IsReport style name.now text.now options.entry found) }
{
    let callers = &found.callers;
    let shown = first_shown(&found.findings);
    let mut diagnostics = diagnostics_text(alloc, style, name, text, options, callers, shown)?;
    let more = found.findings.len().saturating_sub(MOST_SHOWN);
    let more = more_text(alloc, style, more)?;
    diagnostics.push_str(more.as_str())?;
    let counts = Counts::of(&found.findings);
    let output = if counts.has_errors() {
        None
    } else {
        Some(found.text)
    };
    Ok(Report {
        output,
        diagnostics,
        counts,
    })
}

/// Returns the last line of a report: the number of errors and warnings, or an empty text if there are none.
pub fn summary(alloc: Global, style: Style, counts: Counts) -> Result<String, AllocError>
    ensures { IfOk result (λ text. IsSummary style counts (string_bytes text)) }
{
    let Some(level) = counts.level() else {
        return Ok(String::new(alloc));
    };
    let message = counts.message(alloc)?;
    plain_text(alloc, style, level, message.as_str())
}
