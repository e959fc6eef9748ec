//! Finds the variables of a macro's pattern that the compiler refuses because of what may come behind them.
//!
//! `lay_out` cuts a pattern into a flat list of pieces, each with its number (`layout`). `follow_faults` goes through the pieces from the last
//! to the first. For each open subtree and repetition it keeps what may come first in the rest of it (`judge`). A variable is compared with all
//! that may come right behind it, by the tables of `next`.
//!
//! The definitions that the contracts use are in `specs/` of this crate. They state the rules of rustc 1.95 in edition 2024.
#![tactic(auto)]

mod allowed;
mod judge;
mod layout;
mod next;
mod token;

pub use allowed::allowed_behind;
pub use judge::{FollowFault, follow_faults};
pub use layout::part_spans;
