//! The part of a line that is shown.
ghost use Rattle.std.specs.Prelude.{◌≡◌, ◌++◌, OnOk, nat_lt, length, map, take, drop, encode_utf8_all, string_bytes};
ghost use Rattle.std.specs.Str.{chars};
ghost use Rattle.syntax_diagnostic.specs.Mark.{shown_char};
ghost use Rattle.syntax_diagnostic.specs.Window.{dots, indent_of_dots, cut_before, shown, shown_indent};

use crate::mark::{add_indent, shown_char};
use std::alloc::AllocError;
use syntax_lex::split_first;

// A line of more characters is cut.
const MOST_CHARS: usize = 160;

// How many characters before the mark are shown of a line that is cut.
const CHARS_BEFORE: usize = 60;

#[tactic(auto, using(crate::proofs::WindowFacts::skip_step, crate::proofs::WindowFacts::skip_end))]
// Returns the text after that many characters.
fn skip_chars<'a>(text: &'a str, count: usize) -> &'a str
    ensures { chars result.now ≡ drop count (chars text.entry.now) }
{
    let mut rest = text;
    for _ in 0..count {
        let Some((_, more)) = split_first(rest) else {
            return rest;
        };
        rest = more;
    }
    rest
}

#[tactic(auto, using(crate::proofs::WindowFacts::no_more))]
// Returns whether a text has more characters than that.
fn has_more(text: &str, count: usize) -> bool
    ensures { result ≡ nat_lt count (length (chars text.now)) }
{
    match split_first(skip_chars(text, count)) {
        Some(_) => true,
        None => false,
    }
}

#[tactic(auto, using(crate::proofs::WindowFacts::add_step, crate::proofs::WindowFacts::add_end))]
// Adds the first characters of a line, as many as that, as they are shown.
fn add_chars(text: &mut String, line: &str, count: usize) -> Result<(), AllocError>
    ensures { OnOk result (string_bytes text.new ≡ string_bytes text.old ++ encode_utf8_all (map shown_char (take count (chars line.now)))) }
{
    let mut rest = line;
    for _ in 0..count {
        let Some((c, more)) = split_first(rest) else {
            return Ok(());
        };
        text.push(shown_char(c))?;
        rest = more;
    }
    Ok(())
}

// Adds two points if characters are left out.
fn add_dots(text: &mut String, is_cut: bool) -> Result<(), AllocError>
    ensures { OnOk result (string_bytes text.new ≡ string_bytes text.old ++ dots is_cut) }
{
    if is_cut { text.push_str("..") } else { Ok(()) }
}

// Adds the columns of these points.
fn add_indent_of_dots(text: &mut String, is_cut: bool) -> Result<(), AllocError>
    ensures { OnOk result (string_bytes text.new ≡ string_bytes text.old ++ indent_of_dots is_cut) }
{
    if is_cut { text.push_str("  ") } else { Ok(()) }
}

// Returns how many characters are left out at the front of a line, for a mark under a column.
fn cut_before(line: &str, column: usize) -> usize
    ensures { result ≡ cut_before line.now column }
{
    if has_more(line, MOST_CHARS) {
        column.saturating_sub(1).saturating_sub(CHARS_BEFORE)
    } else {
        0
    }
}

#[tactic(auto, unfolding(crate::specs::Window::shown))]
/// Adds the part of a line that is shown, for a mark under a column: all of it, unless it has more than 160 characters. Characters that
/// control a terminal are shown as U+FFFD.
pub(crate) fn add_shown(text: &mut String, line: &str, column: usize) -> Result<(), AllocError>
    ensures { OnOk result (string_bytes text.new ≡ string_bytes text.old ++ shown line.now column) }
{
    let cut = cut_before(line, column);
    let rest = skip_chars(line, cut);
    add_dots(text, cut > 0)?;
    add_chars(text, rest, MOST_CHARS)?;
    add_dots(text, has_more(rest, MOST_CHARS))
}

#[tactic(auto, unfolding(crate::specs::Window::shown_indent))]
/// Adds the text before the mark under a column of the part that is shown.
pub(crate) fn add_shown_indent(
    text: &mut String,
    line: &str,
    column: usize,
) -> Result<(), AllocError>
    ensures { OnOk result (string_bytes text.new ≡ string_bytes text.old ++ shown_indent line.now column) }
{
    let cut = cut_before(line, column);
    add_indent_of_dots(text, cut > 0)?;
    add_indent(text, skip_chars(line, cut), column.saturating_sub(cut))
}
