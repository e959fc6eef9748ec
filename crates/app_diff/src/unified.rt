//! The lines in which two texts differ, as the program `patch` reads them.
ghost use Rattle.std.specs.Prelude.{◌<◌, ◌≤◌, length};

use crate::hunk::{Hunk, hunks};
use std::alloc::{AllocError, Global};

// How many lines a diff shows before and behind the lines that differ.
const CONTEXT: usize = 3;

// A range of lines that is shown.
#[derive(Clone, Copy)]
struct Shown {
    start: usize,
    end: usize,
}

impl Hunk {
    // Returns the place behind its old lines.
    fn old_end(self) -> usize {
        self.old_start.saturating_add(self.old_len)
    }

    // Returns the place behind its new lines.
    fn new_end(self) -> usize {
        self.new_start.saturating_add(self.new_len)
    }
}

impl Shown {
    // Returns the lines between two places, with the lines around them.
    fn around(start: usize, end: usize, lines: usize) -> Shown {
        Shown {
            start: start.saturating_sub(CONTEXT),
            end: end.saturating_add(CONTEXT).min(lines),
        }
    }

    // Adds the number of the first line, from 1, and how many lines there are, if not one. Without lines, adds the number of the line before.
    fn add_to(self, text: &mut String) -> Result<(), AllocError> {
        let len = self.end.saturating_sub(self.start);
        let first = self.start.saturating_add(1);
        match len {
            0 => write!(text, "{},0", self.start),
            1 => write!(text, "{first}"),
            _ => write!(text, "{first},{len}"),
        }
    }
}

// Adds a line behind a mark. Says so if no line break is at its end.
fn add_line(text: &mut String, mark: &str, line: &str) -> Result<(), AllocError> {
    text.push_str(mark)?;
    text.push_str(line)?;
    if !line.ends_with('\n') {
        text.push_str("\n\\ No newline at end of file\n")?;
    }
    Ok(())
}

// Adds the lines between two places behind a mark.
fn add_lines(
    text: &mut String,
    mark: &str,
    lines: &[&str],
    start: usize,
    end: usize,
) -> Result<(), AllocError> {
    for place in start..end {
        if let Some(line) = lines.get(place) {
            add_line(text, mark, line)?;
        }
    }
    Ok(())
}

// Returns how many hunks are shown together with the first one: at most twice the context is between two of them.
fn group_len(hunks: &[Hunk]) -> usize
    requires { 0 < length hunks.now }
    ensures some { 0 < result }
    ensures within { result ≤ length hunks.now }
{
    for place in 1..hunks.len() {
        let between = hunks[place]
            .old_start
            .saturating_sub(hunks[place - 1].old_end());
        if between > 2 * CONTEXT {
            return place;
        }
    }
    hunks.len()
}

// Adds some hunks with the lines around them.
fn add_group(
    text: &mut String,
    old: &[&str],
    new: &[&str],
    group: &[Hunk],
) -> Result<(), AllocError> {
    let (Some(first), Some(last)) = (group.first(), group.last()) else {
        return Ok(());
    };
    let old_shown = Shown::around(first.old_start, last.old_end(), old.len());
    let new_shown = Shown::around(first.new_start, last.new_end(), new.len());
    text.push_str("@@ -")?;
    old_shown.add_to(text)?;
    text.push_str(" +")?;
    new_shown.add_to(text)?;
    text.push_str(" @@\n")?;
    let mut at = old_shown.start;
    for hunk in group {
        add_lines(text, " ", old, at, hunk.old_start)?;
        add_lines(text, "-", old, hunk.old_start, hunk.old_end())?;
        add_lines(text, "+", new, hunk.new_start, hunk.new_end())?;
        at = hunk.old_end();
    }
    add_lines(text, " ", old, at, old_shown.end)
}

// Returns the lines of a text, each with its line break.
fn lines_of<'t>(alloc: Global, text: &'t str) -> Result<Vec<&'t str>, AllocError> {
    let mut lines = Vec::new(alloc);
    for line in text.split_inclusive('\n') {
        lines.push(line)?;
    }
    Ok(lines)
}

/// Returns the lines in which the new text of a file differs from the old one, with three lines around them, under two lines with the name of the
/// file: what `diff -u` writes and `patch -p0` reads. Returns an empty text if they are the same. Fails only if memory runs out.
pub fn unified_diff(alloc: Global, name: &str, old: &str, new: &str) -> Result<String, AllocError> {
    let old = lines_of(alloc, old)?;
    let new = lines_of(alloc, new)?;
    let all = hunks(alloc, &old, &new)?;
    let mut text = String::new(alloc);
    if all.is_empty() {
        return Ok(text);
    }
    write!(text, "--- {name}\n+++ {name}\n")?;
    let mut at = 0;
    'groups: while at < all.len() {
        let len = group_len(&all[at..]);
        add_group(&mut text, &old, &new, &all[at..at + len])?;
        at += len;
    }
    Ok(text)
}
