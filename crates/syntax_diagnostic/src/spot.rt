//! The text of a place.
ghost use Rattle.std.specs.Prelude.{◌≡◌, ◌++◌, IfOk, OnOk, codes, replicate, string_bytes};
ghost use Rattle.syntax_diagnostic.specs.Spot.{arrow_line, bar, head_lines, line, margin, marked_line, number_text, number_width, source_line, spot_text};

use crate::paint::{Colour, Style, add_painted};
use crate::place::Place;
use crate::window::{add_shown, add_shown_indent};
use std::alloc::{AllocError, Global};

/// A place in a text.
#[derive(Clone, Copy)]
pub struct Spot<'a> {
    /// The name of the text.
    pub file: &'a str,
    /// The place in it.
    pub place: Place,
    /// The text of that line, without the end of the line.
    pub line: &'a str,
}

/// Returns how many columns the number of a line takes.
pub(crate) fn number_width(alloc: Global, number: usize) -> Result<usize, AllocError>
    ensures { IfOk result (λ width. width ≡ number_width number) }
{
    let digits = number.to_string(alloc)?;
    Ok(digits.len())
}

/// Adds `count` spaces.
pub(crate) fn add_spaces(text: &mut String, count: usize) -> Result<(), AllocError>
    ensures { OnOk result (string_bytes text.new ≡ string_bytes text.old ++ replicate count 32) }
{
    for _ in 0..count {
        text.push_str(" ")?;
    }
    Ok(())
}

/// Adds a line.
pub(crate) fn add_line(text: &mut String, words: &str) -> Result<(), AllocError>
    ensures { OnOk result (string_bytes text.new ≡ string_bytes text.old ++ line words.now) }
{
    text.push_str(words)?;
    text.push_str("\n")
}

// Adds the line with the place. The numbers of lines take `width` columns.
fn add_arrow(
    text: &mut String,
    style: Style,
    width: usize,
    spot: &Spot<'_>,
) -> Result<(), AllocError>
    ensures { OnOk result (string_bytes text.new ≡ string_bytes text.old ++ arrow_line style width spot.now) }
{
    add_spaces(text, width)?;
    add_painted(text, style, Colour::Blue, "-->")?;
    text.push_str(" ")?;
    text.push_str(spot.file)?;
    text.push_str(":")?;
    let place = spot.place;
    write!(text, "{place}")?;
    text.push_str("\n")
}

// Adds the bar after a number.
fn add_bar(text: &mut String, style: Style) -> Result<(), AllocError>
    ensures { OnOk result (string_bytes text.new ≡ string_bytes text.old ++ bar style) }
{
    text.push_str(" ")?;
    add_painted(text, style, Colour::Blue, "|")
}

// Adds a bar with no number before it.
fn add_margin(text: &mut String, style: Style, width: usize) -> Result<(), AllocError>
    ensures { OnOk result (string_bytes text.new ≡ string_bytes text.old ++ margin style width) }
{
    add_spaces(text, width)?;
    add_bar(text, style)
}

// Adds the number of a line.
fn add_number(
    text: &mut String,
    alloc: Global,
    style: Style,
    width: usize,
    number: usize,
) -> Result<(), AllocError>
    ensures { OnOk result (string_bytes text.new ≡ string_bytes text.old ++ number_text style width number) }
{
    let digits = number.to_string(alloc)?;
    add_painted(text, style, Colour::Blue, digits.as_str())?;
    add_spaces(text, width.saturating_sub(digits.len()))
}

// Adds the line of the text.
fn add_source(
    text: &mut String,
    alloc: Global,
    style: Style,
    width: usize,
    spot: &Spot<'_>,
) -> Result<(), AllocError>
    ensures { OnOk result (string_bytes text.new ≡ string_bytes text.old ++ source_line style width spot.now) }
{
    add_number(text, alloc, style, width, spot.place.line)?;
    add_bar(text, style)?;
    text.push_str(" ")?;
    add_shown(text, spot.line, spot.place.column)?;
    text.push_str("\n")
}

// Adds the mark under the line.
fn add_mark(
    text: &mut String,
    style: Style,
    colour: Colour,
    width: usize,
    spot: &Spot<'_>,
) -> Result<(), AllocError>
    ensures { OnOk result (string_bytes text.new ≡ string_bytes text.old ++ marked_line style colour width spot.now) }
{
    add_margin(text, style, width)?;
    text.push_str(" ")?;
    add_shown_indent(text, spot.line, spot.place.column)?;
    add_painted(text, style, colour, "^")?;
    text.push_str("\n")
}

// Adds the lines above that of the text.
fn add_head(
    text: &mut String,
    style: Style,
    width: usize,
    spot: &Spot<'_>,
) -> Result<(), AllocError>
    ensures { OnOk result (string_bytes text.new ≡ string_bytes text.old ++ head_lines style width spot.now) }
{
    add_arrow(text, style, width, spot)?;
    add_margin(text, style, width)?;
    text.push_str("\n")
}

/// Adds the text of a place. The numbers of lines take `width` columns.
pub(crate) fn add_spot(
    text: &mut String,
    alloc: Global,
    style: Style,
    colour: Colour,
    width: usize,
    spot: &Spot<'_>,
) -> Result<(), AllocError>
    ensures { OnOk result (string_bytes text.new ≡ string_bytes text.old ++ spot_text style colour width spot.now) }
{
    add_head(text, style, width, spot)?;
    add_source(text, alloc, style, width, spot)?;
    add_mark(text, style, colour, width, spot)
}
