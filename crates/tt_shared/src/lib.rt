//! A value on the heap with several owners. Only this crate and `tt_back_buf` have raw pointers.
#![tactic(auto)]

mod block;
mod counted;
mod shared;

pub use shared::Shared;

#[cfg(test)]
mod tests;
