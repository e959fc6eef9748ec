//! How two texts differ, line by line.
//!
//! `hunks` goes through the lines of both texts from the front. Where two lines differ, it looks for the next line of the old text that the
//! new text has too, with two more equal lines behind it (`Occurrences`); the lines between are a `Hunk`. So its time is linear in both texts.
//! `unified_diff` writes the hunks as the program `patch` reads them.
#![tactic(auto)]

mod hunk;
mod occurrences;
#[cfg(test)]
mod tests;
mod unified;

pub use hunk::{Hunk, hunks};
pub use unified::unified_diff;
