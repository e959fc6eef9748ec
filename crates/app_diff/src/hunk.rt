//! The lines in which two texts differ.
ghost use Rattle.std.specs.Prelude.{◌≡◌, ◌≤◌, ◌<◌, ◌+◌, ◌-◌, IfOk, length, map, take, drop};
ghost use Rattle.app_diff.specs.Hunks.{AreHunks, start};

use crate::occurrences::Occurrences;
use std::alloc::{AllocError, Global};

/// Lines of an old text, and the lines that a new text has in their place. Lines count from 0.
#[derive(Debug, Clone, Copy, PartialEq, Eq)]
pub struct Hunk {
    pub old_start: usize,
    pub old_len: usize,
    pub new_start: usize,
    pub new_len: usize,
}

// Returns how many lines at the front of both lists are the same.
fn same_len(old: &[&str], new: &[&str]) -> usize
    ensures old_len { result ≤ length old.now }
    ensures new_len { result ≤ length new.now }
    ensures same { map (λ it. it.now) (take result old.now) ≡ map (λ it. it.now) (take result new.now) }
{
    let mut len = 0;
    while len < old.len() && len < new.len() && old[len] == new[len] {
        len += 1;
    }
    len
}

/// Returns the hunks that make the new lines of the old ones, in order. Lines outside of them are the same in both texts. Fails only if memory
/// runs out.
pub fn hunks(alloc: Global, old: &[&str], new: &[&str]) -> Result<Vec<Hunk>, AllocError>
    ensures { IfOk result (λ found. AreHunks start (map (λ it. it.now) old.now) (map (λ it. it.now) new.now) found.items) }
{
    let mut occurrences = Occurrences::of(alloc, new)?;
    let mut found = Vec::new(alloc);
    let mut old_at = 0;
    let mut new_at = 0;
    loop {
        let kept = same_len(&old[old_at..], &new[new_at..]);
        old_at += kept;
        new_at += kept;
        if old_at == old.len() && new_at == new.len() {
            return Ok(found);
        }
        let next = occurrences.next_same(old, new, old_at, new_at);
        found.push(Hunk {
            old_start: old_at,
            old_len: next.old - old_at,
            new_start: new_at,
            new_len: next.new - new_at,
        })?;
        old_at = next.old;
        new_at = next.new;
    }
}
