//! The text of a fault, in the form that rustc has.
ghost use Rattle.std.specs.Prelude.{◌≡◌, ◌++◌, IfOk, OnOk, codes, string_bytes};
ghost use Rattle.syntax_diagnostic.specs.Diagnostic.{diagnostic_text, message_line, note_line, note_word, notes_text, place_lines, placed_lines, placed_text, spot_width, widest, width_of};

use crate::level::Level;
use crate::paint::{Colour, Style, add_painted};
use crate::spot::{Spot, add_line, add_spaces, add_spot, number_width};
use std::alloc::{AllocError, Global};

/// A note on a fault, and its place.
#[derive(Clone, Copy)]
pub struct PlacedNote<'a> {
    /// The text of the note.
    pub message: &'a str,
    /// The place of the note.
    pub spot: Spot<'a>,
}

/// A fault for a user.
#[derive(Drop)]
pub struct Diagnostic<'a> {
    /// How grave the fault is.
    pub level: Level,
    /// The message.
    pub message: &'a str,
    /// The place of the fault, if it has one in a text.
    pub spot: Option<Spot<'a>>,
    /// The notes, each in one line.
    pub notes: Vec<String>,
    /// The notes with places of their own.
    pub placed_notes: Vec<PlacedNote<'a>>,
}

// Returns how many columns the number of a place's line takes.
fn spot_width(alloc: Global, spot: Option<Spot<'_>>) -> Result<usize, AllocError>
    ensures { IfOk result (λ width. width ≡ spot_width spot.entry) }
{
    match spot {
        None => Ok(1),
        Some(spot) => Ok(number_width(alloc, spot.place.line)?),
    }
}

// Returns how many columns the longest number of a line takes: those of the notes, or that many.
fn widest(alloc: Global, width: usize, notes: &[PlacedNote<'_>]) -> Result<usize, AllocError>
    ensures { IfOk result (λ longest. longest ≡ widest width notes.now) }
{
    let mut longest = width;
    for note in notes {
        longest = longest.max(number_width(alloc, note.spot.place.line)?);
    }
    Ok(longest)
}

// Returns how many columns the numbers of lines take.
fn width_of(alloc: Global, diagnostic: &Diagnostic<'_>) -> Result<usize, AllocError>
    ensures { IfOk result (λ width. width ≡ width_of diagnostic.now) }
{
    let spot = spot_width(alloc, diagnostic.spot)?;
    widest(alloc, spot, &diagnostic.placed_notes)
}

// Adds the message.
fn add_message(
    text: &mut String,
    style: Style,
    diagnostic: &Diagnostic<'_>,
) -> Result<(), AllocError>
    ensures { OnOk result (string_bytes text.new ≡ string_bytes text.old ++ message_line style diagnostic.now) }
{
    let level = diagnostic.level;
    add_painted(text, style, level.colour(), level.word())?;
    text.push_str(": ")?;
    add_line(text, diagnostic.message)
}

// Adds the place of the fault.
fn add_place(
    text: &mut String,
    alloc: Global,
    style: Style,
    width: usize,
    diagnostic: &Diagnostic<'_>,
) -> Result<(), AllocError>
    ensures { OnOk result (string_bytes text.new ≡ string_bytes text.old ++ place_lines style diagnostic.now.level width diagnostic.now.spot) }
{
    match diagnostic.spot {
        None => Ok(()),
        Some(spot) => add_spot(text, alloc, style, diagnostic.level.colour(), width, &spot),
    }
}

// Adds the word before a note.
fn add_note_word(text: &mut String, style: Style) -> Result<(), AllocError>
    ensures { OnOk result (string_bytes text.new ≡ string_bytes text.old ++ note_word style) }
{
    add_painted(text, style, Colour::Green, "note")?;
    text.push_str(": ")
}

// Adds a note.
fn add_note(text: &mut String, style: Style, width: usize, note: &str) -> Result<(), AllocError>
    ensures { OnOk result (string_bytes text.new ≡ string_bytes text.old ++ note_line style width note.now) }
{
    add_spaces(text, width)?;
    text.push_str(" ")?;
    add_painted(text, style, Colour::Blue, "=")?;
    text.push_str(" ")?;
    add_note_word(text, style)?;
    add_line(text, note)
}

// Adds all notes.
fn add_notes(
    text: &mut String,
    style: Style,
    width: usize,
    notes: &[String],
) -> Result<(), AllocError>
    ensures { OnOk result (string_bytes text.new ≡ string_bytes text.old ++ notes_text style width notes.now) }
{
    for note in notes {
        add_note(text, style, width, note.as_str())?;
    }
    Ok(())
}

// Adds a note with a place.
fn add_placed_note(
    text: &mut String,
    alloc: Global,
    style: Style,
    width: usize,
    note: &PlacedNote<'_>,
) -> Result<(), AllocError>
    ensures { OnOk result (string_bytes text.new ≡ string_bytes text.old ++ placed_lines style width note.now) }
{
    add_note_word(text, style)?;
    add_line(text, note.message)?;
    add_spot(text, alloc, style, Colour::Green, width, &note.spot)
}

// Adds all notes with places.
fn add_placed_notes(
    text: &mut String,
    alloc: Global,
    style: Style,
    width: usize,
    notes: &[PlacedNote<'_>],
) -> Result<(), AllocError>
    ensures { OnOk result (string_bytes text.new ≡ string_bytes text.old ++ placed_text style width notes.now) }
{
    for note in notes {
        add_placed_note(text, alloc, style, width, note)?;
    }
    Ok(())
}

/// Returns the text of a fault: a line with the level and the message; its place, if any, the line of the text and a mark under it; a line
/// for each note; and the same for each note with a place.
pub fn diagnostic_text(
    alloc: Global,
    style: Style,
    diagnostic: &Diagnostic<'_>,
) -> Result<String, AllocError>
    ensures { IfOk result (λ text. string_bytes text ≡ diagnostic_text style diagnostic.now) }
{
    let width = width_of(alloc, diagnostic)?;
    let mut text = String::new(alloc);
    add_message(&mut text, style, diagnostic)?;
    add_place(&mut text, alloc, style, width, diagnostic)?;
    add_notes(&mut text, style, width, &diagnostic.notes)?;
    add_placed_notes(&mut text, alloc, style, width, &diagnostic.placed_notes)?;
    Ok(text)
}
