//! Worked rows on trees, by the calls of `tt`: known values beside what the calls give.
#![tactic(auto)]

#[cfg(test)]
mod counts;
#[cfg(test)]
mod cursor;
#[cfg(test)]
mod edits;
#[cfg(test)]
mod elements;
#[cfg(test)]
mod points;
#[cfg(test)]
mod texts;
#[cfg(test)]
mod tokens;
#[cfg(test)]
mod tree_walk;
#[cfg(test)]
mod views;
