//! The text before a mark under a line.
ghost use Rattle.std.specs.Prelude.{◌≡◌, ◌≤◌, ◌++◌, OnOk, string_bytes, replicate};
ghost use Rattle.syntax_diagnostic.specs.Mark.{indent, indent_of, is_control, shown_char};

use std::alloc::AllocError;
use syntax_lex::split_first;
use unicode_width::UnicodeWidthChar;

// Returns `count` spaces.
fn spaces(count: usize) -> &'static str
    requires { count ≤ 3 }
    ensures { result.now ≡ replicate count 32 }
{
    match count {
        0 => "",
        1 => " ",
        2 => "  ",
        _ => "   ",
    }
}

// Returns whether a character controls a terminal, or the direction of what follows it; a tab does neither.
fn is_control(c: char) -> bool
    ensures { result ≡ is_control c }
{
    let code = c as u32;
    (code < 32 && code != 9)
        || (code > 126 && code < 160)
        || (code > 8233 && code < 8239)
        || (code > 8293 && code < 8298)
}

/// Returns a character as it is shown: U+FFFD for one that controls a terminal or the direction of what follows it.
pub(crate) fn shown_char(c: char) -> char
    ensures { result ≡ shown_char c }
{
    if is_control(c) { '\u{fffd}' } else { c }
}

// Returns a text that takes as many columns in a terminal as a character.
fn indent_of(c: char) -> &'static str
    ensures { result.now ≡ indent_of c }
{
    if c == '\t' {
        return "\t";
    }
    match shown_char(c).width() {
        Some(columns) => spaces(columns),
        None => "",
    }
}

#[tactic(auto, using(crate::proofs::MarkFacts::indent_step, crate::proofs::MarkFacts::indent_end))]
/// Adds the text before the mark under a column of a line: a tab for a tab, and for another character as many
/// spaces as it takes columns in a terminal, as it is shown.
pub fn add_indent(text: &mut String, line: &str, column: usize) -> Result<(), AllocError>
    ensures { OnOk result (string_bytes text.new ≡ string_bytes text.old ++ indent line.now column) }
{
    let mut rest = line;
    for _ in 1..column {
        let Some((c, more)) = split_first(rest) else {
            return Ok(());
        };
        text.push_str(indent_of(c))?;
        rest = more;
    }
    Ok(())
}
