//! Worked rows on what is stored: tokens and their bytes, packed trees, and trees as one piece of bytes.
#![tactic(auto)]

#[cfg(test)]
mod headers;
#[cfg(test)]
mod holds;
#[cfg(test)]
mod laws;
#[cfg(test)]
mod leaves;
#[cfg(test)]
mod lists;
#[cfg(test)]
mod pieces;
#[cfg(test)]
mod reading;
#[cfg(test)]
mod spans;
#[cfg(test)]
mod stored_headers;
#[cfg(test)]
mod symbols;
#[cfg(test)]
mod tables;
#[cfg(test)]
mod texts;
#[cfg(test)]
mod top_subtree;
#[cfg(test)]
mod under_tables;
#[cfg(test)]
mod written;
