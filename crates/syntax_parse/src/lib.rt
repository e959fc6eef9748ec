//! Rust source text as token trees.
//!
//! `parse_to_token_tree` reads one token ahead, since a punct is joint if another follows it. `role_in` decides what a token is here: a
//! fault, nothing (white space and plain comments), an opening or closing bracket, or leaves. `take` adds the leaves to a
//! `FlatBuilder` of `tt`, keeps the open brackets with their places in a list, and returns the first fault. There is no list of
//! tokens and no recursion. The builder packs its flat list at the end.
//!
//! `literal_fault` and the modules `escapes`, `raw` and `doc` check the insides of literals and documenting comments.
#![tactic(auto)]

mod add;
mod bracket;
mod doc;
mod escapes;
mod fault;
mod inside;
pub mod laws;
mod leaves;
mod parse;
mod raw;
mod role;
mod step;

pub use bracket::Bracket;
pub use doc::hashes_wanted;
pub use fault::{BadToken, Open, SyntaxFault, TextFault};
pub use leaves::{punct_char, scan_of};
pub use parse::parse_to_token_tree;
pub use role::{Role, role_in};
