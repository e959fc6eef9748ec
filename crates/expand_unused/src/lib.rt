//! A text without the macros that it defines but does not need.
//!
//! `without_rules` notes which names each definition mentions, keeps the definitions that a call outside of all definitions needs, directly
//! or through others, and cuts the rest out of the text with the attributes before them.
#![tactic(auto)]

mod choice;
mod cutting;
mod fault;
mod first;
mod needing;
mod part;
mod places;
mod text;
mod walk;
mod words;

pub use fault::DropRulesError;
pub use text::without_rules;
