//! Hygiene: what an expansion that is written as text would capture.
//!
//! A local or a label that a macro's template binds is another name than the same word in the input of the call. In a text the two are one.
//! `first_capture` finds the first such name. `Given` has the idents of the input that may name a local or a label, each a `Mention`.
//! `binder` goes through the derivation of the expansion, by `derive` of `mbe_grammar`, beside its tokens, and finds what the patterns and
//! labels in it bind.
#![tactic(auto)]

mod binder;
mod captures;
mod given;
mod mention;

pub use captures::{Capture, ExpandTo, first_capture};
pub use mention::BindingKind;
