//! Warnings about the templates of rules: the faults that they show whatever the input of a call.
use crate::messages::message;
use crate::warnings::Warnings;
use expand_items::Definition;
use expand_text::{ExpandOptions, Finding, MacroFault, ShownFault, shown_faults};
use std::alloc::{AllocError, Global};
use syntax_diagnostic::{Diagnostic, Level, SourceFile, Style};
use tt::Symbol;

// Returns whether one of these findings is that a call comes to the fault. The name of its macro begins at that byte of the definition.
fn is_met(findings: &[Finding], defined_at: u32, shown: &ShownFault) -> bool {
    for finding in findings {
        if finding.defined_at == Some(defined_at)
            && finding.fault == MacroFault::Expansion(shown.error)
        {
            return true;
        }
    }
    false
}

// Adds the warning of a fault of a rule of the macro of that name.
fn warn(
    alloc: Global,
    style: Style,
    source: &SourceFile<'_>,
    name: &str,
    shown: &ShownFault,
    warnings: &mut Warnings,
) -> Result<(), AllocError> {
    let message = message(alloc, name, MacroFault::Expansion(shown.error))?;
    let mut notes = Vec::new(alloc);
    notes.push(String::from_str(alloc, "a call that comes to this is an error")?)?;
    let diagnostic = Diagnostic {
        level: Level::Warning,
        message: message.as_str(),
        spot: Some(source.spot(shown.at as usize)),
        notes,
        placed_notes: Vec::new(alloc),
    };
    warnings.add(alloc, style, &diagnostic)
}

/// Adds the warnings of the templates of a definition: a fault that none of these findings is about.
pub fn warn_of_templates(
    alloc: Global,
    style: Style,
    source: &SourceFile<'_>,
    options: ExpandOptions<'_>,
    findings: &[Finding],
    definition: &Definition<'_>,
    warnings: &mut Warnings,
) -> Result<(), AllocError> {
    let name = definition.name.sym.as_str();
    let defined_at = definition.name.span.range.start().raw();
    let Ok(root) = Symbol::new(alloc, options.root) else {
        return Err(AllocError);
    };
    for shown in &shown_faults(alloc, &root, definition)? {
        if !is_met(findings, defined_at, shown) {
            warn(alloc, style, source, name, shown, warnings)?;
        }
    }
    Ok(())
}
