//! The first line of a script, which names the program that runs it.
use std::alloc::{AllocError, Global};

// Returns whether the text begins with such a line: with `#!`, and not with an inner attribute.
fn has_shebang(text: &str) -> bool {
    match text.strip_prefix("#!") {
        Some(behind) => !behind.trim_start().starts_with("["),
        None => false,
    }
}

/// Returns such a line, without its end; an empty text if the text has none.
pub fn shebang_of(text: &str) -> &str {
    if !has_shebang(text) {
        return "";
    }
    match text.split_once("\n") {
        Some((line, _)) => line,
        None => text,
    }
}

/// Returns the text with spaces in place of such a line, so that each byte behind it keeps its place; none if the text has no such line.
pub fn without_shebang(alloc: Global, text: &str) -> Result<Option<String>, AllocError> {
    let line = shebang_of(text);
    if line.is_empty() {
        return Ok(None);
    }
    let mut blank = String::new(alloc);
    for _ in 0..line.len() {
        blank.push_str(" ")?;
    }
    if let Some((_, behind)) = text.split_at_checked(line.len()) {
        blank.push_str(behind)?;
    }
    Ok(Some(blank))
}
