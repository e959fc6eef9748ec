//! Messages without a place.
ghost use Rattle.std.specs.Prelude.{IfOk, string_bytes};
ghost use Rattle.app_files.specs.Plain.{IsPlainText};

use std::alloc::{AllocError, Global};
use syntax_diagnostic::{Diagnostic, Level, Style, diagnostic_text};

/// Returns the text of a message without a place.
pub fn plain_text(
    alloc: Global,
    style: Style,
    level: Level,
    message: &str,
) -> Result<String, AllocError>
    ensures { IfOk result (λ text. IsPlainText style level message.now (string_bytes text)) }
{
    let diagnostic = Diagnostic {
        level,
        message,
        spot: None,
        notes: Vec::new(alloc),
        placed_notes: Vec::new(alloc),
    };
    diagnostic_text(alloc, style, &diagnostic)
}
