//! The gaps that were chosen, as texts.
ghost use Rattle.std.specs.Prelude.{◌<◌, ◌^◌, IfOk, length, map};
ghost use Rattle.syntax_layout.specs.Gap.{AreGaps, IsGap};

use crate::beside::part;
use crate::trees::or_empty;
use std::alloc::{AllocError, Global};

/// A piece of a line break and spaces has at most so many spaces.
pub const MOST_SPACES: usize = 32;

// Two line breaks, and so many spaces.
const LINES: &str = "\n\n                                ";

/// A gap that was chosen.
#[derive(Clone, Copy)]
pub enum Piece {
    /// Nothing.
    Empty,
    /// A space.
    Space,
    /// A line break and so many spaces, behind an empty line or not.
    Line(bool, u32),
    /// A part of the source, from a byte to another.
    Source(u32, u32),
    /// A part of the gaps whose lines moved.
    Moved(u32, u32),
}

/// Returns a line break and so many spaces, behind an empty line or not; an empty text if these are too many.
pub fn line_of(is_apart: bool, spaces: usize) -> &'static str
    ensures gap { IsGap result.now }
    ensures short { length result.now < 2 ^ 31 }
{
    let start = if is_apart { 0 } else { 1 };
    match LINES.get(start..spaces.saturating_add(2)) {
        Some(line) => line,
        None => "",
    }
}

// Returns the text of a gap; an empty one if that text is none.
fn gap_of<'g>(source: &'g str, moved: &'g str, piece: Piece) -> &'g str
    ensures gap { IsGap result.now }
    ensures short { length result.now < 2 ^ 31 }
{
    match piece {
        Piece::Empty => "",
        Piece::Space => " ",
        Piece::Line(is_apart, spaces) => line_of(is_apart, spaces as usize),
        Piece::Source(start, end) => or_empty(part(source, start as usize, end as usize)),
        Piece::Moved(start, end) => or_empty(part(moved, start as usize, end as usize)),
    }
}

/// Returns the texts of gaps; an empty one for each whose text is none.
pub fn gaps_of<'g>(
    alloc: Global,
    source: &'g str,
    moved: &'g str,
    pieces: &[Piece],
) -> Result<Vec<&'g str>, AllocError>
    ensures { IfOk result (λ all. AreGaps (map (λ g. g.now) all.items)) }
{
    let mut all = Vec::with_capacity(alloc, pieces.len())?;
    for piece in pieces {
        all.push(gap_of(source, moved, *piece))?;
    }
    Ok(all)
}
