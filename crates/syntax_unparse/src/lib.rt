//! Token trees as Rust source text that reads back.
//!
//! `rust_text` goes through the siblings with a list of the subtrees that it entered. It takes a leaf's text (the symbol itself for a plain
//! ident), lexes it and compares the token with the leaf. Then it adds the text, after a space if `Behind`, the mark of what was written
//! last, needs one. The brackets of a subtree depend on its kind. An opaque subtree gets parentheses if it shows two trees or more; its
//! first two trees decide this. `rust_text` looks at each leaf once.
#![tactic(auto)]

mod behind;
mod brackets;
mod fault;
pub mod laws;
mod reads;
mod write;

pub use fault::WriteFault;
pub use write::{is_writable, rust_text};
