//! The notes on a finding that have places of their own.
ghost use Rattle.std.specs.Prelude.{◌≡◌, ◌++◌, ◌∷◌, [], map, IfOk, OnOk, string_bytes};
ghost use Rattle.app_cli.specs.Notes.{caller_note, hidden_callers, note_of, notes_at, other_byte, other_message, other_notes, shown_callers, ArePlaced};

use crate::messages::about;
use crate::trail::trail_of;
use expand_text::{Caller, Finding, MacroFault};
use std::alloc::{AllocError, Global};
use syntax_diagnostic::{PlacedNote, SourceFile};

/// How many calls around a place a diagnostic shows at most.
pub const MOST_CALLERS: usize = 8;

/// A note, and its byte in the text.
#[derive(Drop)]
pub struct NoteAt {
    pub message: String,
    pub at: u32,
}

// Returns the byte that a diagnostic shows beside its own.
fn other_byte(finding: &Finding) -> Option<u32>
    ensures { result ≡ other_byte finding.now }
{
    match finding.fault {
        MacroFault::Captured(binding) => Some(binding),
        _ => finding.defined_at,
    }
}

// Returns what is at that place.
fn other_message(alloc: Global, name: &str, fault: MacroFault) -> Result<String, AllocError>
    ensures { IfOk result (λ text. string_bytes text ≡ other_message name.now fault) }
{
    match fault {
        MacroFault::Captured(_) => about(alloc, "", name, " binds it here"),
        _ => about(alloc, "", name, " is defined here"),
    }
}

// Returns the note there, if there is such a place.
fn other_notes(alloc: Global, finding: &Finding) -> Result<Vec<NoteAt>, AllocError>
    ensures { IfOk result (λ notes. map note_of notes.items ≡ other_notes finding.now) }
{
    let mut notes = Vec::new(alloc);
    if let Some(at) = other_byte(finding) {
        let message = other_message(alloc, finding.name.as_str(), finding.fault)?;
        notes.push(NoteAt { message, at })?;
    }
    Ok(notes)
}

// Adds the note on a call around the place.
fn add_caller(alloc: Global, it: &Caller, notes: &mut Vec<NoteAt>) -> Result<(), AllocError>
    ensures { OnOk result (map note_of notes.new.items ≡ map note_of notes.old.items ++ caller_note it.now ∷ []) }
{
    let message = about(alloc, "in this call of ", it.name.as_str(), "")?;
    notes.push(NoteAt { message, at: it.at })?;
    Ok(())
}

// Adds the notes on these calls.
fn add_callers(alloc: Global, its: &[&Caller], notes: &mut Vec<NoteAt>) -> Result<(), AllocError>
    ensures { OnOk result (map note_of notes.new.items ≡ map note_of notes.old.items ++ map caller_note (map (λ it. it.now) its.now)) }
{
    for it in its {
        add_caller(alloc, it, notes)?;
    }
    Ok(())
}

// Adds the notes on the calls around a place, the innermost first. Of many it adds the innermost and the outermost.
fn add_shown(alloc: Global, its: &[&Caller], notes: &mut Vec<NoteAt>) -> Result<(), AllocError>
    ensures { OnOk result (map note_of notes.new.items ≡ map note_of notes.old.items ++ map caller_note (shown_callers (map (λ it. it.now) its.now))) }
{
    if its.len() <= MOST_CALLERS {
        return add_callers(alloc, its, notes);
    }
    add_callers(alloc, &its[..MOST_CALLERS - 1], notes)?;
    add_callers(alloc, &its[its.len() - 1..], notes)?;
    Ok(())
}

/// Returns the notes with places on a finding, and how many of the calls around it they leave out.
pub fn notes_at(
    alloc: Global,
    callers: &[Caller],
    finding: &Finding,
) -> Result<(Vec<NoteAt>, usize), AllocError>
    ensures { IfOk result (λ it. (map note_of it.0.items ≡ notes_at callers.now finding.now) × (it.1 ≡ hidden_callers callers.now finding.now)) }
{
    let mut notes = other_notes(alloc, finding)?;
    let its = trail_of(alloc, callers, finding.caller)?;
    add_shown(alloc, &its, &mut notes)?;
    Ok((notes, its.len().saturating_sub(MOST_CALLERS)))
}

/// Returns these notes with their places in a text.
pub fn placed<'x>(
    alloc: Global,
    source: &SourceFile<'x>,
    notes: &'x [NoteAt],
) -> Result<Vec<PlacedNote<'x>>, AllocError>
    ensures { IfOk result (λ its. ArePlaced source.now.name.now source.now.text.now (map note_of notes.now) its.items) }
{
    let mut its = Vec::new(alloc);
    for note in notes {
        let spot = source.spot(note.at as usize);
        let message = note.message.as_str();
        its.push(PlacedNote { message, spot })?;
    }
    Ok(its)
}
