//! Where the lines of a text come again.
ghost use Rattle.std.specs.Prelude.{◌≡◌, ◌≤◌, ◌<◌, ◌+◌, length};
ghost use Rattle.app_diff.specs.Hunks.{IsBehind};

use indexmap::IndexMap;
use std::alloc::{AllocError, Global};

// How many lines must be the same in both texts behind a hunk, unless the texts end.
const SAME_LINES: usize = 3;

/// Where each line of the new text comes next, and then again.
#[derive(Drop)]
pub(crate) struct Occurrences<'t> {
    // the first place of each line from a place on that only grows
    next: IndexMap<&'t str, usize>,
    // for each place the next one with the same line, or the number of lines
    again: Vec<usize>,
}

/// A place in the old lines, and one in the new lines.
#[derive(Debug, Clone, Copy, PartialEq, Eq)]
pub(crate) struct Places {
    pub(crate) old: usize,
    pub(crate) new: usize,
}

// Returns whether the next lines are the same, up to three or both ends.
fn are_same(old: &[&str], new: &[&str]) -> bool {
    for line in 0..SAME_LINES {
        if old.get(line) != new.get(line) {
            return false;
        }
    }
    true
}

impl<'t> Occurrences<'t> {
    /// Returns where the lines of a text come. Fails only if memory runs out.
    pub(crate) fn of(alloc: Global, lines: &[&'t str]) -> Result<Occurrences<'t>, AllocError> {
        let mut next = IndexMap::new(alloc);
        let mut again = Vec::with_capacity(alloc, lines.len())?;
        again.resize(lines.len(), lines.len())?;
        for behind in 0..lines.len() {
            let place = lines.len() - 1 - behind;
            if let Some(later) = next.insert(lines[place], place)? {
                again[place] = later;
            }
        }
        Ok(Occurrences { next, again })
    }

    // Returns the first place of a line from that place on.
    fn place_from(&mut self, line: &str, from: usize) -> Option<usize> {
        let place = self.next.get_mut(line)?;
        for _ in 0..self.again.len() {
            if *place >= from {
                break;
            }
            match self.again.get(*place) {
                Some(again) => *place = *again,
                None => return None,
            }
        }
        Some(*place)
    }

    /// Returns the places behind the lines that differ from these places on. At least one line is before them.
    pub(crate) fn next_same(
        &mut self,
        old: &[&str],
        new: &[&str],
        old_at: usize,
        new_at: usize,
    ) -> Places
        requires old { old_at ≤ length old.now }
        requires new { new_at ≤ length new.now }
        requires some { old_at + new_at < length old.now + length new.now }
        ensures { IsBehind old_at new_at (length old.now) (length new.now) result }
    {
        for place in old_at..old.len() {
            let from = if place == old_at { new_at + 1 } else { new_at };
            if let Some(same) = self.place_from(old[place], from) {
                if from <= same && same < new.len() && are_same(&old[place..], &new[same..]) {
                    return Places {
                        old: place,
                        new: same,
                    };
                }
            }
        }
        Places {
            old: old.len(),
            new: new.len(),
        }
    }
}
