//! The colours of diagnostics.
use std::env;
use std::io::IsTerminal;
use syntax_diagnostic::Style;

// Returns whether the user wants no colours: the variable `NO_COLOR` is set and not empty.
fn refuses_colours(rt: &HostRuntime) -> bool {
    match env::var(rt, "NO_COLOR") {
        Ok(value) => !value.is_empty(),
        Err(_) => false,
    }
}

/// Returns a style with colours if standard error is a terminal, and the user has not turned them off.
pub fn style_of(rt: &HostRuntime) -> Style {
    if rt.stderr().is_terminal() && !refuses_colours(rt) {
        Style::Coloured
    } else {
        Style::Plain
    }
}
