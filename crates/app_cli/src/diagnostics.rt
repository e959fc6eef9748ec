//! The diagnostics of findings in the macros of a text.
ghost use Rattle.std.specs.Prelude.{◌≡◌, ◌++◌, map, IfOk, OnOk, string_bytes};
ghost use Rattle.app_cli.specs.Reports.{AreDiagnosticTexts, IsDiagnosticText, expected_note, hidden_note, level_of_fault, limit_note, notes_on};

use crate::counts::counted;
use crate::messages::message;
use crate::note::{notes_at, placed};
use expand_text::{Caller, ExpandOptions, Finding, MacroFault};
use std::alloc::{AllocError, Global};
use syntax_diagnostic::{Diagnostic, Level, SourceFile, Style, diagnostic_text};

// Returns the level of a fault.
fn level_of(fault: &MacroFault) -> Level
    ensures { result ≡ level_of_fault fault.now }
{
    if fault.is_warning() {
        Level::Warning
    } else {
        Level::Error
    }
}

// Adds the note on what the rules of the macro expect, if none of them matches.
fn add_expected(alloc: Global, finding: &Finding, notes: &mut Vec<String>) -> Result<(), AllocError>
    ensures { OnOk result (map string_bytes notes.new.items ≡ map string_bytes notes.old.items ++ expected_note finding.now.expected) }
{
    if let Some(expected) = &finding.expected {
        let text = expected.as_str();
        notes.push(format!(in alloc; "expected {text}")?)?;
    }
    Ok(())
}

// Returns the note on the limit of the options that a fault passes, if it passes one.
fn limit_notes(
    alloc: Global,
    options: ExpandOptions<'_>,
    fault: MacroFault,
) -> Result<Vec<String>, AllocError>
    ensures { IfOk result (λ notes. map string_bytes notes.items ≡ limit_note options.entry fault) }
{
    let mut notes = Vec::new(alloc);
    let limit = options.limit;
    let most = options.max_tokens;
    match fault {
        MacroFault::TooDeep => {
            let note = format!(in alloc;
                "the limit is {limit}; --limit N sets another one, up to 1000"
            )?;
            notes.push(note)?;
        }
        MacroFault::OverMaxTokens => {
            let note = format!(in alloc;
                "the limit is {most} tokens for a call and the calls in its result; --max-tokens N sets another one"
            )?;
            notes.push(note)?;
        }
        _ => {}
    }
    Ok(notes)
}

// Returns the notes on a finding.
fn notes_of(
    alloc: Global,
    options: ExpandOptions<'_>,
    finding: &Finding,
) -> Result<Vec<String>, AllocError>
    ensures { IfOk result (λ notes. map string_bytes notes.items ≡ notes_on options.entry finding.now) }
{
    let mut notes = limit_notes(alloc, options, finding.fault)?;
    add_expected(alloc, finding, &mut notes)?;
    Ok(notes)
}

// Adds the note on how many calls around a place are not shown, if some are not.
fn add_hidden(alloc: Global, hidden: usize, notes: &mut Vec<String>) -> Result<(), AllocError>
    ensures { OnOk result (map string_bytes notes.new.items ≡ map string_bytes notes.old.items ++ hidden_note hidden) }
{
    if hidden == 0 {
        return Ok(());
    }
    let one = "call between the last two is not shown";
    let note = counted(
        alloc,
        hidden,
        one,
        "calls between the last two are not shown",
    )?;
    notes.push(note)?;
    Ok(())
}

// Returns the diagnostic of a finding in what these callers wrote, as a text.
fn one_diagnostic(
    alloc: Global,
    style: Style,
    source: &SourceFile<'_>,
    options: ExpandOptions<'_>,
    callers: &[Caller],
    finding: &Finding,
) -> Result<String, AllocError>
    ensures { IfOk result (λ written. IsDiagnosticText style source.now.name.now source.now.text.now options.entry callers.now finding.now (string_bytes written)) }
{
    let message = message(alloc, finding.name.as_str(), finding.fault)?;
    let (places, hidden) = notes_at(alloc, callers, finding)?;
    let mut notes = notes_of(alloc, options, finding)?;
    add_hidden(alloc, hidden, &mut notes)?;
    let diagnostic = Diagnostic {
        level: level_of(&finding.fault),
        message: message.as_str(),
        spot: Some(source.spot(finding.at as usize)),
        notes,
        placed_notes: placed(alloc, source, &places)?,
    };
    diagnostic_text(alloc, style, &diagnostic)
}

/// Returns the diagnostics of these findings in a text of that name, in order, with an empty line behind each. These callers wrote what has
/// findings.
pub fn diagnostics_text(
    alloc: Global,
    style: Style,
    name: &str,
    text: &str,
    options: ExpandOptions<'_>,
    callers: &[Caller],
    findings: &[Finding],
) -> Result<String, AllocError>
    ensures { IfOk result (λ written. AreDiagnosticTexts style name.now text.now options.entry callers.now findings.now (string_bytes written)) }
{
    let mut all = String::new(alloc);
    if findings.is_empty() {
        return Ok(all);
    }
    let source = SourceFile::new(alloc, name, text)?;
    for finding in findings {
        let written = one_diagnostic(alloc, style, &source, options, callers, finding)?;
        all.push_str(written.as_str())?;
        all.push_str("\n")?;
    }
    Ok(all)
}
