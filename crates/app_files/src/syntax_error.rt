//! The diagnostics of a text that has no tree.
use crate::failure::Failure;
use crate::style::style_of;
use std::alloc::{AllocError, Global};
use syntax_diagnostic::{Diagnostic, Level, SourceFile, Style, diagnostic_text};
use syntax_parse::{SyntaxFault, TextFault};

/// Returns the failure of a text of that name that is refused.
pub fn syntax_failure(rt: &HostRuntime, name: &str, text: &str, fault: TextFault) -> Failure {
    let alloc = rt.alloc();
    match fault {
        TextFault::Syntax(fault) => {
            Failure::from_text(syntax_text(alloc, style_of(rt), name, text, fault))
        }
        _ => match format!(in alloc; "{name}: {fault}") {
            Ok(message) => Failure::from_message(rt, message.as_str()),
            Err(_refused) => Failure::Memory,
        },
    }
}

// Returns the notes: the opening of the bracket that another one does not close.
fn notes_of(
    alloc: Global,
    source: &SourceFile<'_>,
    fault: SyntaxFault,
) -> Result<Vec<String>, AllocError> {
    let mut notes = Vec::new(alloc);
    if let SyntaxFault::Mismatched { open, .. } = fault {
        let spot = source.spot(open.at as usize);
        let file = spot.file;
        let place = spot.place;
        let bracket = open.bracket.opening();
        notes.push(format!(in alloc; "'{bracket}' is opened at {file}:{place}")?)?;
    }
    Ok(notes)
}

/// Returns the diagnostic of an error at that byte of the text of that name, with the notes of the fault if there is one.
pub fn error_text_at<'x>(
    alloc: Global,
    style: Style,
    name: &'x str,
    text: &'x str,
    message: &'x str,
    at: usize,
    fault: Option<SyntaxFault>,
) -> Result<String, AllocError> {
    let source = SourceFile::new(alloc, name, text)?;
    let notes = match fault {
        Some(fault) => notes_of(alloc, &source, fault)?,
        None => Vec::new(alloc),
    };
    let diagnostic = Diagnostic {
        level: Level::Error,
        message,
        spot: Some(source.spot(at)),
        notes,
        placed_notes: Vec::new(alloc),
    };
    diagnostic_text(alloc, style, &diagnostic)
}

// Returns the diagnostic of a fault in the text of that name.
fn syntax_text(
    alloc: Global,
    style: Style,
    name: &str,
    text: &str,
    fault: SyntaxFault,
) -> Result<String, AllocError> {
    let message = message(alloc, fault)?;
    let at = byte_of(fault) as usize;
    error_text_at(alloc, style, name, text, message.as_str(), at, Some(fault))
}

// Returns the message of a fault.
fn message(alloc: Global, fault: SyntaxFault) -> Result<String, AllocError> {
    match fault {
        SyntaxFault::BadToken { why, .. } => why.to_string(alloc),
        SyntaxFault::Unopened { bracket, .. } => {
            let bracket = bracket.closing();
            format!(in alloc; "unopened '{bracket}'")
        }
        SyntaxFault::Mismatched { bracket, open, .. } => {
            let closing = bracket.closing();
            let opening = open.bracket.opening();
            format!(in alloc; "'{closing}' does not close '{opening}'")
        }
        SyntaxFault::Unclosed { bracket, .. } => {
            let bracket = bracket.opening();
            format!(in alloc; "unclosed '{bracket}'")
        }
    }
}

// Returns the byte of a fault.
fn byte_of(fault: SyntaxFault) -> u32 {
    match fault {
        SyntaxFault::BadToken { at, .. }
        | SyntaxFault::Unopened { at, .. }
        | SyntaxFault::Mismatched { at, .. }
        | SyntaxFault::Unclosed { at, .. } => at,
    }
}
