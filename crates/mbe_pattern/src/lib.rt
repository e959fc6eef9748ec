//! How trees spell the pattern of a macro, and what is wrong with a pattern.
//!
//! `next_part` reads the first part of a pattern: a variable, a repetition, a subtree or a token. `validate` goes once through all parts with
//! a list of the open subtrees and repetitions. It keeps the names it met and the first fault so far, and returns that fault with the flat
//! place of its `$`. A repetition that may take no tree is a fault of its beginning, which `validate` knows at its end.
//!
//! Other crates use the calls on the front of trees here: `pass`, `take`, `unit_size`, `is_at_word`, `is_at_punct`.
#![tactic(auto)]

mod dollar;
mod error;
mod first;
mod front;
mod leaves;
mod parts;
mod pattern;
mod units;
mod validation;

pub use dollar::{Tail, is_crate_in, is_dollar, repetition_in};
pub use error::PatternError;
pub use front::{pass, take};
pub use leaves::{is_same_leaf, passes_leaf};
pub use parts::{Part, next_part};
pub use pattern::{Fragment, GrammarFragment, RepeatKind, Variable};
pub use units::{is_at_punct, is_at_word, unit_size};
pub use validation::validate;
